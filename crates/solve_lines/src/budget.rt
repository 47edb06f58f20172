// The budget that an argument says.
ghost use Rattle.std.specs.Prelude.{◌≡◌};
ghost use Rattle.definitions.specs.Solve.{budget_in};
ghost use Rattle.solve_lines.specs.Read.{budget_read};

// At most 19 digits; 10^9 where there is no argument; and nothing where it is no such number.
pub fn budget_in(argument: &[u8]) -> Option<u64>
    ensures { budget_read result ≡ budget_in argument.now }
{
    if argument.is_empty() {
        return Some(1_000_000_000);
    }
    if argument.len() >= 20 {
        return None;
    }
    let mut n = 0;
    for digit in argument {
        if !digit.is_ascii_digit() {
            return None;
        }
        n = 10 * n + u64::from(*digit - b'0');
    }
    Some(n)
}
