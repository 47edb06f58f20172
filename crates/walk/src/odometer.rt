// The assignments in order: a digit for each variable and then for each truth variable, the first moving fastest.
ghost use Rattle.std.specs.Prelude.{◌≤◌};
ghost use Rattle.walk.specs.Turning.{Turning};

// The sizes stand apart from the digits: the order of the nodes reads them alone.
#[derive(Clone, Copy)]
pub struct Odometer {
    pub digits: [u8; 40],
    pub sizes: [u8; 40],
    pub count: usize,
    pub ghost turning: { Turning digits sizes count },
}

// The next digits and the digit that turned; at the end none does, and the digits are the first again. All digits below the turned
// one went back to 0, and those above it stayed.
#[derive(Clone, Copy)]
pub struct Step {
    pub odometer: Odometer,
    pub turned: Option<usize>,
}

impl Odometer {
    ghost use Rattle.walk.specs.Digits.{NextIs, SlowIs};

    // The assignment hands on its successor.
    pub fn next(self) -> Step
        ensures { NextIs self result.odometer result.turned }
    {
        let sizes = self.sizes;
        let count = self.count;
        let mut digits = self.digits;
        for i in 0..count {
            if digits[i] + 1 < sizes[i] {
                digits[i] += 1;
                return Step {
                    odometer: Odometer {
                        digits,
                        sizes,
                        count,
                    },
                    turned: Some(i),
                };
            }
            digits[i] = 0;
        }
        Step {
            odometer: Odometer {
                digits,
                sizes,
                count,
            },
            turned: None,
        }
    }

    // The odometer of the digits after the first ones, at its first place.
    pub fn slow(&self, fast: usize) -> Odometer
        requires { fast ≤ self.now.count }
        ensures { SlowIs self.now fast result }
    {
        let count = self.count - fast;
        let mut sizes = [0; 40];
        sizes[..count].copy_from_slice(&self.sizes[fast..self.count]);
        Odometer {
            digits: [0; 40],
            sizes,
            count,
        }
    }
}
