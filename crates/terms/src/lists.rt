// A list of arguments, laid as it is read.
ghost use Rattle.std.specs.Prelude.{◌≡◌, ℕ, suc, min, ◌<◌, ◌≤◌, length};
ghost use Rattle.definitions.specs.Text.Nodes.{laid};
ghost use Rattle.definitions.specs.Text.Nodes as trees;
ghost use Rattle.problem.specs.Ops.{byte_of};
ghost use Rattle.terms.specs.Laying.{Performs};
ghost use Rattle.terms.specs.Listings.{firsts_back, pending_back, firsts_are, pending_are, waiting_is};
ghost use Rattle.terms.specs.Lists.{Row, no_row, negated, prepared, joined_by, equated, joins, added, disjoined, fields};
ghost use Rattle.terms.specs.Padded.{Filled};
ghost use Rattle.terms.specs.Rowing.{waiting_in, row_of, Rows, Finishes, picked};
ghost use Rattle.terms.specs.Heads.{head_read};

use crate::heads::Head;
use crate::nodes::Table;
use problem::ops::{Op, Sort};
use problem::put::Node;
use std::marker::Model;

// What is kept of a list between two arguments: their count, up to three; the numbers of the first three and of the last; what and,
// or and = have joined so far; and the negations of => that wait, with zeros past them.
#[derive(Clone, Copy)]
pub struct Listing {
    seen: usize,
    first: [u8; 3],
    last: u8,
    joined: u8,
    pending: [u8; 256],
    waiting: usize,
}

// Of the two ops for terms and for formulas, that of a sort.
fn pick(sort: Sort, term: Op, formula: Op) -> Op
    ensures { result ≡ picked sort term formula }
{
    match sort {
        Sort::Term => term,
        Sort::Formula => formula,
    }
}

impl Model for Listing {
    ghost Value = { Row };

    ghost view = { λ l. row_of l.seen l.first l.last l.joined (waiting_in l.pending l.waiting) };

    ghost invariant = { λ l. (l.seen ≤ 3) × (l.waiting ≤ 256) × (length l.first ≡ 3) × Filled 0 256 l.pending l.waiting };

    ghost inverse = { λ r. record {
      seen = r.seen;
      first = firsts_back r;
      last = r.last;
      joined = r.joined;
      pending = pending_back r.pending;
      waiting = length r.pending;
    } };

    ghost inverse_ok = { λ l h i. record {
      seen = l.seen;
      first = firsts_are l.first h.2 i;
      last = l.last;
      joined = l.joined;
      pending = pending_are l.pending l.waiting h.1 h.3 i;
      waiting = waiting_is l.pending l.waiting i;
    } };
}

impl Listing {
    pub fn new() -> Self
        ensures { result ≡ no_row }
    {
        Listing {
            seen: 0,
            first: [0; 3],
            last: 0,
            joined: 0,
            pending: [0; 256],
            waiting: 0,
        }
    }

    // How many arguments there are; three stand for any more.
    pub fn seen(&self) -> usize
        ensures { result ≡ self.now.seen }
    {
        self.seen
    }

    // The negation of the argument before waits.
    fn negate(&mut self, table: &mut Table)
        ensures lays { Rows (λ k t. negated k.seen k t) self.old table.old self.new table.new }
        ensures counts { self.new.seen ≡ self.old.seen }
    {
        if self.seen == 0 {
            return;
        }
        let negation = table.pair(Op::Negate, self.last, 0);
        if self.waiting == 256 {
            table.give_up();
            return;
        }
        self.pending[self.waiting] = negation;
        self.waiting += 1;
    }

    // A further argument comes: only => does something before it.
    pub fn prepare(&mut self, head: Head, table: &mut Table)
        ensures lays { Rows (prepared (head_read head)) self.old table.old self.new table.new }
        ensures counts { self.new.seen ≡ self.old.seen }
    {
        if let Head::Implies = head {
            self.negate(table);
        }
    }

    // and, or: the first argument, and then what is joined with the next.
    fn join_by(&self, op: Op, number: u8, table: &mut Table) -> u8
        ensures { Performs (joined_by (byte_of op) self.now.seen self.now number) table.old result table.new }
    {
        if self.seen == 0 {
            return number;
        }
        table.pair(op, self.joined, number)
    }

    // =: the first equation, and then what is joined with the next.
    fn equate(&self, number: u8, table: &mut Table) -> u8
        ensures { Performs (equated self.now.seen self.now number) table.old result table.new }
    {
        if self.seen == 0 {
            return number;
        }
        let equation = table.pair(Op::Equal, self.last, number);
        if self.seen == 1 {
            return equation;
        }
        table.pair(Op::Both, self.joined, equation)
    }

    // What is joined with one more argument.
    fn join(&self, head: Head, number: u8, table: &mut Table) -> u8
        ensures { Performs (joins (head_read head) self.now number) table.old result table.new }
    {
        match head {
            Head::Equals => self.equate(number, table),
            Head::And => self.join_by(Op::Both, number, table),
            Head::Or => self.join_by(Op::Either, number, table),
            _ => number,
        }
    }

    // One more argument, whose node has this number: it takes its place among the first three.
    pub fn add(&mut self, head: Head, number: u8, table: &mut Table)
        ensures lays { Rows (λ k t. added (head_read head) k number t) self.old table.old self.new table.new }
        ensures counts { self.new.seen ≡ min (suc self.old.seen) 3 }
    {
        self.joined = self.join(head, number, table);
        self.last = number;
        if self.seen < 3 {
            self.first[self.seen] = number;
            self.seen += 1;
        }
    }

    // The negations that wait are joined from the last one on.
    fn disjoin(&self, table: &mut Table) -> u8
        ensures { Performs (λ t. disjoined self.now.pending (laid self.now.last t)) table.old result table.new }
    {
        let mut number = self.last;
        for negation in self.pending[..self.waiting].iter().rev() {
            number = table.pair(Op::Either, *negation, number);
        }
        number
    }

    // A node of an op or a symbol over the first three arguments.
    fn over(&self, op: Op, symbol: u8, table: &mut Table) -> u8
        ensures { Performs (trees.ask (fields (byte_of op) symbol self.now)) table.old result table.new }
    {
        let [a, b, c] = self.first;
        table.ask(Node {
            op: op.byte(),
            symbol,
            a: u16::from(a),
            b: u16::from(b),
            c: u16::from(c),
        })
    }

    // The list ends. The number of a declared symbol is a byte of its node: where there are more symbols, the table has no room.
    pub fn finish(&self, head: Head, table: &mut Table) -> u8
        ensures { Finishes head self.now table.old result table.new }
    {
        match head {
            Head::Applied { number, sort, .. } => {
                self.over(pick(sort, Op::Apply, Op::Test), (number % 256) as u8, table)
            }
            Head::Choice { sort } => self.over(pick(sort, Op::Choose, Op::Select), 0, table),
            Head::Not => table.pair(Op::Negate, self.first[0], 0),
            Head::Implies => self.disjoin(table),
            Head::True => table.pair(Op::Verum, 0, 0),
            Head::False => table.pair(Op::Falsum, 0, 0),
            Head::Equals | Head::And | Head::Or => self.joined,
        }
    }
}
