// The symbol bytes: condition 6.
ghost use Rattle.std.specs.Prelude.{◌≡◌, not, position};
ghost use Rattle.definitions.specs.Problem.Check.{symbol_byte_right};

// A function of arity 0 to 3, or a predicate of arity 0 to 3.
fn byte_right(byte: u8) -> bool
    ensures { result ≡ symbol_byte_right byte }
{
    matches!(byte, 0..4 | 16..20)
}

// The number of the first symbol byte that is none.
pub fn first_bad(symbols: &[u8]) -> Option<usize>
    ensures { result ≡ position (λ byte. not (symbol_byte_right byte)) symbols.now }
{
    symbols.iter().position(|byte| !byte_right(*byte))
}
