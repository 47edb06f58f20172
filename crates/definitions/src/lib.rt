// The answers of the public operations, each a Result with the one type of refusals: check gives Counts, eliminate a Table, ranges
// Ranges, decide a Decision, and read the length of the problem that it wrote. What each answer is, for every input, is said in specs/:
// there the answers are the paper's numbers and values, and specs/Operations/Readings lists them for each case below.
#![tactic(auto)]

ghost use Rattle.std.specs.Prelude.{◌≡◌};
ghost use Rattle.definitions.specs.Operations.Readings.{refusal_read};

// The refusals, one list for every operation, by number: some numbers are not given. The order in which an operation tries its own
// is that of its conditions (specs/Problem/Asked, specs/Operations/Answers): decide's 16 comes after 7. Four of them have a place.
#[derive(Clone, Copy, PartialEq, Eq)]
pub enum Refusal {
    TooShort,
    NotEqp,
    BadVersion,
    BadCounts,
    BadLength,
    BadSymbol(usize),
    BadNode(usize),
    ManyFunctions,
    ManyPredicates,
    ShortWork,
    ShortWitness,
    BigProduct,
    WrongToken(usize),
    TooDeep(usize),
    WrongRoot,
    ShortProblem,
}

impl Refusal {
    // The refusal's number.
    pub fn number(self) -> u8
        ensures { result ≡ (refusal_read self).number }
    {
        match self {
            Refusal::TooShort => 1,
            Refusal::NotEqp => 2,
            Refusal::BadVersion => 3,
            Refusal::BadCounts => 4,
            Refusal::BadLength => 5,
            Refusal::BadSymbol(_) => 6,
            Refusal::BadNode(_) => 7,
            Refusal::ManyFunctions => 9,
            Refusal::ManyPredicates => 10,
            Refusal::ShortWork => 11,
            Refusal::ShortWitness => 12,
            Refusal::BigProduct => 13,
            Refusal::WrongToken(_) => 14,
            Refusal::TooDeep(_) => 15,
            Refusal::WrongRoot => 16,
            Refusal::ShortProblem => 23,
        }
    }

    // Four refusals have a place; it is 0 for the others.
    pub fn place(self) -> usize
        ensures { result ≡ (refusal_read self).place }
    {
        match self {
            Refusal::BadSymbol(k)
            | Refusal::BadNode(k)
            | Refusal::WrongToken(k)
            | Refusal::TooDeep(k) => k,
            _ => 0,
        }
    }
}

// What check answers: the counts of distinct function and predicate applications that the root reaches.
#[derive(Clone, Copy, PartialEq, Eq)]
pub struct Counts {
    pub functions: usize,
    pub predicates: usize,
}

// What eliminate answers: the count of function-free nodes, and the image of the root.
#[derive(Clone, Copy, PartialEq, Eq)]
pub struct Table {
    pub nodes: usize,
    pub root: usize,
}

// What ranges answers: each variable's top by number, 0 past the last variable; the count of truth variables; and the product.
#[derive(Clone, Copy, PartialEq, Eq)]
pub struct Ranges {
    pub tops: [u8; 24],
    pub truths: usize,
    pub product: u64,
}

// The verdict; written is the length of the witness.
#[derive(Clone, Copy, PartialEq, Eq)]
pub enum Verdict {
    Valid,
    Falsified { written: usize },
    Stopped,
}

// What decide answers: the verdict, the count of assignments tried, and the product.
#[derive(Clone, Copy, PartialEq, Eq)]
pub struct Decision {
    pub verdict: Verdict,
    pub tried: u64,
    pub product: u64,
}
