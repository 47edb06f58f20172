// Place 1: the odometer of a table's ranges, with every digit 0.
ghost use Rattle.std.specs.Prelude.{◌≡◌, ℕ, ◌≤◌, ◌<◌, length, get_or, take};
ghost use Rattle.definitions.specs.Ranges.{sizes};
ghost use Rattle.walk.specs.Digits.{sizes_in};
ghost use Rattle.walk.specs.Walked.{Starts};

use ranges::Shape;
use walk::odometer::Odometer;

// The sizes are the tops of the variables, then 2 for each truth variable.
pub fn odometer(tops: [u8; 24], shape: Shape) -> Odometer
    requires { (length tops ≡ 24) × (shape.variables ≤ 24) × (shape.truths ≤ 16) × ((v : ℕ) → v < shape.variables → (1 ≤ get_or tops v 0) × (get_or tops v 0 ≤ 24)) }
    ensures { Starts shape result × (sizes_in result ≡ sizes (take shape.variables tops) shape.truths) }
{
    let variables = shape.variables;
    let count = variables + shape.truths;
    let mut sizes = [0; 40];
    sizes[..variables].copy_from_slice(&tops[..variables]);
    sizes[variables..count].fill(2);
    Odometer {
        digits: [0; 40],
        sizes,
        count,
    }
}
