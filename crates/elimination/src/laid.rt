// How far elimination has come: the images of the problem nodes taken, and the distinct applications among them.
ghost use Rattle.std.specs.Prelude.{◌≡◌, ◌≤◌, ◌<◌, cond, true, get_or};
ghost use Rattle.definitions.specs.Problem.Node.{node};
ghost use Rattle.definitions.specs.Problem.Check.{nodes_of, node_count};
ghost use Rattle.theorems.proofs.Accepted.{Accepted};
ghost use Rattle.elimination.specs.State.{nothing_laid, cleared, next_of, counted, ImagesRead};

use problem::head::Problem;
use problem::ops::Op;

// A distinct application: its problem node, and its own variable node.
#[derive(Clone, Copy)]
pub struct Application {
    pub node: u8,
    pub own: u16,
}

// What is at hand, which is made once and then lent: to move it out of the function that fills it makes small jobs slower by a
// twelfth.
#[derive(Drop)]
pub struct Laid {
    // the image of each problem node taken
    pub images: [u16; 256],
    // the distinct applications in node order, how many there are, and how many of functions and how many of predicates
    pub applications: [Application; 40],
    pub count: usize,
    pub functions: usize,
    pub predicates: usize,
    // how many nodes are laid
    pub nodes: usize,
}

impl Laid {
    // No node is taken.
    pub fn nothing() -> Self
        ensures { result ≡ nothing_laid }
    {
        Laid {
            images: [0; 256],
            applications: [Application { node: 0, own: 0 }; 40],
            count: 0,
            functions: 0,
            predicates: 0,
            nodes: 0,
        }
    }

    // No node is taken any more; what stands in the arrays does not matter.
    pub fn clear(&mut self)
        ensures { self.new ≡ cleared self.old }
    {
        self.count = 0;
        self.functions = 0;
        self.predicates = 0;
        self.nodes = 0;
    }

    // The number of the next variable of an op: those of functions and those of predicates are counted apart.
    pub fn next(&self, op: u8) -> usize
        ensures { result ≡ next_of self.now op }
    {
        if op == Op::Apply.byte() {
            self.functions
        } else {
            self.predicates
        }
    }

    // One application more of an op.
    pub fn count_one(&mut self, op: u8)
        requires { (self.old.count ≤ 40) × (self.old.functions ≤ 40) × (self.old.predicates ≤ 40) }
        ensures { self.new ≡ counted self.old op }
    {
        self.count += 1;
        if op == Op::Apply.byte() {
            self.functions += 1;
        } else {
            self.predicates += 1;
        }
    }

    // The image of an operand, 0 where the field is unused. Not one generic function with the like ones of bytes in asked and decision:
    // it would need a bound that gives the 0 of its type, and is no plainer.
    fn image(&self, used: bool, operand: u16) -> u16
        requires { used ≡ true → operand < 256 }
        ensures { result ≡ cond used (get_or self.now.images operand 0) 0 }
    {
        if used {
            self.images[usize::from(operand)]
        } else {
            0
        }
    }

    // The images of the operands of node q that are in use, with 0 after them.
    pub fn images_of(&self, problem: &Problem<'_>, q: usize) -> [u16; 3]
        requires { Accepted problem.now × (q < node_count problem.now) }
        ensures { ImagesRead problem.now self.now q result }
    {
        let node = problem.node(q);
        let used = problem.in_use(node);
        [
            self.image(0 < used, node.a),
            self.image(1 < used, node.b),
            self.image(2 < used, node.c),
        ]
    }
}
