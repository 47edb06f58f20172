// A problem under construction. Its header counts the symbols and the nodes as they come, so that a draft is well formed unless
// a case spoils it on purpose.
use problem::ops::Op;
use std::ops::Range;

// Room for 33 symbols and 257 nodes, one more than the limits. The root is the last node, unless a case asks another.
#[derive(Clone, Copy)]
pub struct Draft {
    room: [u8; 2112],
    length: usize,
    root: usize,
}

impl Draft {
    // The letters EQP, version 1, and no symbols or nodes yet.
    pub fn new() -> Draft {
        let none = Draft {
            room: [0; 2112],
            length: 0,
            root: 0,
        };
        none.then(b"EQP\x01\0\0\0\0")
    }

    // The problem's bytes.
    pub fn bytes(&self) -> &[u8] {
        print::first(&self.room, self.length)
    }

    pub fn root(&self) -> usize {
        self.root
    }

    // More bytes, after the others.
    pub fn then(mut self, more: &[u8]) -> Draft {
        for byte in more {
            let end = self.length;
            if end < self.room.len() {
                self.room[end] = *byte;
                self.length = end + 1;
            }
        }
        self
    }

    // Another value in a byte's place.
    pub fn with(mut self, at: usize, value: u8) -> Draft {
        if let Some(place) = self.room.get_mut(at) {
            *place = value;
        }
        self
    }

    // The first bytes alone.
    pub fn cut(mut self, length: usize) -> Draft {
        self.length = length;
        self
    }

    // Another root.
    pub fn asking(mut self, root: usize) -> Draft {
        self.root = root;
        self
    }

    // A symbol byte. All symbols come before the first node.
    pub fn symbol(self, value: u8) -> Draft {
        self.with(5, self.room[5].wrapping_add(1)).then(&[value])
    }

    pub fn node(self, op: Op, symbol: u8, operands: [u8; 3]) -> Draft {
        let number = self.nodes();
        let [low, high] = number.wrapping_add(1).to_le_bytes();
        let [a, b, c] = operands;
        self.asking(usize::from(number))
            .with(6, low)
            .with(7, high)
            .then(&[op.byte(), symbol, a, 0, b, 0, c, 0])
    }

    // How many nodes there are.
    fn nodes(&self) -> u16 {
        u16::from_le_bytes([self.room[6], self.room[7]])
    }

    pub fn variable(self, symbol: u8) -> Draft {
        self.applied(symbol, [0; 3])
    }

    pub fn applied(self, symbol: u8, arguments: [u8; 3]) -> Draft {
        self.node(Op::Apply, symbol, arguments)
    }

    pub fn truth_variable(self, symbol: u8) -> Draft {
        self.tested(symbol, [0; 3])
    }

    pub fn tested(self, symbol: u8, arguments: [u8; 3]) -> Draft {
        self.node(Op::Test, symbol, arguments)
    }

    pub fn choice(self, p: u8, x: u8, y: u8) -> Draft {
        self.node(Op::Choose, 0, [p, x, y])
    }

    pub fn equation(self, x: u8, y: u8) -> Draft {
        self.node(Op::Equal, 0, [x, y, 0])
    }

    pub fn negation(self, x: u8) -> Draft {
        self.node(Op::Negate, 0, [x, 0, 0])
    }

    pub fn conjunction(self, x: u8, y: u8) -> Draft {
        self.node(Op::Both, 0, [x, y, 0])
    }

    pub fn disjunction(self, x: u8, y: u8) -> Draft {
        self.node(Op::Either, 0, [x, y, 0])
    }

    pub fn yes(self) -> Draft {
        self.node(Op::Verum, 0, [0; 3])
    }

    pub fn no(self) -> Draft {
        self.node(Op::Falsum, 0, [0; 3])
    }

    // What is added for each number of a range, in turn.
    pub fn run<F: Fn(Draft, u8) -> Draft>(self, numbers: Range<u8>, add: F) -> Draft
        requires { F.IsAlwaysCallable add }
    {
        let mut all = self;
        for number in numbers {
            all = add(all, number);
        }
        all
    }

    // The equation of a node with itself, or with the next.
    pub fn same(self, x: u8) -> Draft {
        self.equation(x, x)
    }

    pub fn link(self, x: u8) -> Draft {
        self.equation(x, x.wrapping_add(1))
    }

    // The or of the last node and another, so that the last of a run of these reaches all that the run has passed.
    pub fn or(self, x: u8) -> Draft {
        let [last, _] = self.nodes().wrapping_sub(1).to_le_bytes();
        self.disjunction(last, x)
    }
}
