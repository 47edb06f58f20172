// The ops by name, in the order of their numbers (01, 'Problem bytes').
ghost use Rattle.std.specs.Prelude.{◌≡◌};
ghost use Rattle.definitions.specs.Problem.Ops.{op_of, sort_of, is_app};
ghost use Rattle.problem.specs.Ops.{op_read, byte_of};
ghost use Rattle.problem.specs.Wanted.{sort_read};

// What a node is; Unknown stands for every number that is no op's.
#[derive(Clone, Copy, PartialEq, Eq)]
pub enum Op {
    Apply,
    Choose,
    Equal,
    Negate,
    Both,
    Either,
    Test,
    Verum,
    Falsum,
    Select,
    Unknown,
}

// What a node is read as.
#[derive(Clone, Copy, PartialEq, Eq)]
pub enum Sort {
    Term,
    Formula,
}

impl From<u8> for Op {
    ghost from_gives = { λ byte op. op_read op ≡ op_of byte };

    fn from(byte: u8) -> Self {
        match byte {
            0 => Op::Apply,
            1 => Op::Choose,
            2 => Op::Equal,
            3 => Op::Negate,
            4 => Op::Both,
            5 => Op::Either,
            6 => Op::Test,
            7 => Op::Verum,
            8 => Op::Falsum,
            9 => Op::Select,
            _ => Op::Unknown,
        }
    }
}

impl Op {
    // The op's number.
    pub fn byte(self) -> u8
        ensures { result ≡ byte_of self }
    {
        self as u8
    }

    // Some ops are of terms, and the others of formulas.
    pub fn sort(self) -> Sort
        ensures { sort_read result ≡ sort_of (op_read self) }
    {
        match self {
            Op::Apply | Op::Choose => Sort::Term,
            _ => Sort::Formula,
        }
    }

    pub fn is_application(self) -> bool
        ensures { result ≡ is_app (op_read self) }
    {
        matches!(self, Op::Apply | Op::Test)
    }
}
