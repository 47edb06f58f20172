// The words that a name must not be: the reserved words of SMT-LIB 2.6, and the names that its Core theory has already.
ghost use Rattle.std.specs.Prelude.{◌≡◌, not, position, bytes_eq};
ghost use Rattle.definitions.specs.Lists.{any, first_failing};
ghost use Rattle.definitions.specs.Text.Ascii.{same_bytes};
ghost use Rattle.definitions.specs.Text.Tokens as tokens;
ghost use Rattle.definitions.specs.Text.Grammar as grammar;
ghost use Rattle.problem.specs.Stages.{found_of};

// In the order of the standard's list, the commands last.
const RESERVED: [&[u8]; 43] = [
    b"!",
    b"_",
    b"as",
    b"BINARY",
    b"DECIMAL",
    b"exists",
    b"HEXADECIMAL",
    b"forall",
    b"let",
    b"match",
    b"NUMERAL",
    b"par",
    b"STRING",
    b"assert",
    b"check-sat",
    b"check-sat-assuming",
    b"declare-const",
    b"declare-datatype",
    b"declare-datatypes",
    b"declare-fun",
    b"declare-sort",
    b"define-fun",
    b"define-fun-rec",
    b"define-funs-rec",
    b"define-sort",
    b"echo",
    b"exit",
    b"get-assertions",
    b"get-assignment",
    b"get-info",
    b"get-model",
    b"get-option",
    b"get-proof",
    b"get-unsat-assumptions",
    b"get-unsat-core",
    b"get-value",
    b"pop",
    b"push",
    b"reset",
    b"reset-assertions",
    b"set-info",
    b"set-logic",
    b"set-option",
];

const CORE: [&[u8]; 10] = [
    b"true",
    b"false",
    b"not",
    b"=>",
    b"and",
    b"or",
    b"xor",
    b"=",
    b"distinct",
    b"ite",
];

// The place of a name in a table.
fn place_in(rows: &[&[u8]], name: &[u8]) -> Option<usize>
    ensures { result ≡ position (λ row. bytes_eq row.now name.now) rows.now }
{
    rows.iter().position(|row| *row == name)
}

pub fn reserved(name: &[u8]) -> bool
    ensures { result ≡ any (same_bytes name.now) tokens.RESERVED }
{
    place_in(&RESERVED, name).is_some()
}

// Which of Core's names a name is.
pub fn core(name: &[u8]) -> Option<usize>
    ensures { found_of result ≡ first_failing (λ row. not (same_bytes name.now row)) 0 grammar.CORE }
{
    place_in(&CORE, name)
}
