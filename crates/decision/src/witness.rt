// The witness of a false place: a head, and a row for each distinct application (01, 'Witness').
ghost use Rattle.std.specs.Prelude.{◌≡◌, ◌+◌, ◌*◌, ◌<◌, ◌≤◌, length, get_or, cond};
ghost use Rattle.definitions.specs.Operations.Buffers.{over};
ghost use Rattle.theorems.proofs.Accepted.{Accepted};
ghost use Rattle.decision.specs.Rows.{Noted, RowOf, WitnessWritten};

use elimination::laid::Laid;
use problem::bytes::put;
use problem::head::Problem;

// The value of an argument is that of its image, and 0 where the field is unused.
fn argument(values: &[u8], used: bool, image: u16) -> u8
    requires { image < length values.now }
    ensures { result ≡ cond used (get_or values.now image 0) 0 }
{
    if used { values[usize::from(image)] } else { 0 }
}

// Row i: the symbol, the values of the arguments' images, the value of the application's image.
fn row(problem: &Problem<'_>, laid: &Laid, i: usize, values: &[u8]) -> [u8; 5]
    requires { Accepted problem.now × Noted problem.now laid.now × (i < laid.now.count) × (laid.now.nodes ≤ length values.now) }
    ensures { RowOf problem.now i values.now result }
{
    let application = usize::from(laid.applications[i].node);
    let node = problem.node(application);
    let arity = problem.arity(usize::from(node.symbol));
    let images = laid.images_of(problem, application);
    [
        node.symbol,
        argument(values, 0 < arity, images[0]),
        argument(values, 1 < arity, images[1]),
        argument(values, 2 < arity, images[2]),
        values[usize::from(laid.images[application])],
    ]
}

// The whole witness; its length.
#[tactic(auto, using(crate::proofs::WitnessLaws::rows_few))]
pub fn write_witness(problem: &Problem<'_>, laid: &Laid, values: &[u8], witness: &mut [u8]) -> usize
    requires { Accepted problem.now × Noted problem.now laid.now × (laid.now.nodes ≤ length values.now) × (206 ≤ length witness.old) }
    ensures { WitnessWritten problem.now values.now witness.old result witness.new }
{
    put(witness, &[b'E', b'Q', b'W', 1, 0, laid.count as u8]);
    for i in 0..laid.count {
        put(&mut witness[6 + 5 * i..], &row(problem, laid, i, values));
    }
    6 + 5 * laid.count
}
