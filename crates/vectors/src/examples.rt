// Formulas beside document 01's rows: document 004's two, and forms that no row has.
use crate::draft::Draft;
use problem::ops::Op;

// Document 004, Ackermann's reduction: not x1 = x2, or F(x1) = F(x2), or not F(x1) = F(x3)
pub fn ackermann() -> Draft {
    Draft::new()
        .symbol(0)
        .symbol(0)
        .symbol(0)
        .symbol(1)
        .variable(0)
        .variable(1)
        .equation(0, 1)
        .negation(2)
        .applied(3, [0, 0, 0])
        .applied(3, [1, 0, 0])
        .equation(4, 5)
        .disjunction(3, 6)
        .variable(2)
        .applied(3, [8, 0, 0])
        .equation(4, 9)
        .negation(10)
        .disjunction(7, 11)
}

// Document 004, two programs that give the same power: not (out1 = in and out2 = F(out1, in) and out3 = F(out2, in) and
// out = F(F(in, in), in)), or out3 = out
pub fn power() -> Draft {
    Draft::new()
        .symbol(0)
        .symbol(0)
        .symbol(0)
        .symbol(2)
        .symbol(0)
        .symbol(0)
        .variable(0)
        .variable(1)
        .equation(0, 1)
        .variable(2)
        .applied(3, [0, 1, 0])
        .equation(3, 4)
        .conjunction(2, 5)
        .variable(4)
        .applied(3, [3, 1, 0])
        .equation(7, 8)
        .conjunction(6, 9)
        .variable(5)
        .applied(3, [1, 1, 0])
        .applied(3, [12, 1, 0])
        .equation(11, 13)
        .conjunction(10, 14)
        .negation(15)
        .equation(7, 11)
        .disjunction(16, 17)
}

// f(x) = f(x), where f(x) stands twice
pub fn repeat() -> Draft {
    Draft::new()
        .symbol(0)
        .symbol(1)
        .variable(0)
        .applied(1, [0, 0, 0])
        .applied(1, [0, 0, 0])
        .equation(1, 2)
}

// h(x, y, x) = h(y, x, y)
pub fn three_arguments() -> Draft {
    Draft::new()
        .symbol(0)
        .symbol(0)
        .symbol(3)
        .variable(0)
        .variable(1)
        .applied(2, [0, 1, 0])
        .applied(2, [1, 0, 1])
        .equation(2, 3)
}

// choice(q(x), r(x, y, y), r(y, x, x)), or not q(y)
pub fn predicates() -> Draft {
    Draft::new()
        .symbol(0)
        .symbol(17)
        .symbol(0)
        .symbol(19)
        .variable(0)
        .tested(1, [0, 0, 0])
        .variable(2)
        .tested(3, [0, 2, 2])
        .tested(3, [2, 0, 0])
        .node(Op::Select, 0, [1, 3, 4])
        .tested(1, [2, 0, 0])
        .negation(6)
        .disjunction(5, 7)
}

// Not any of 24 equations, each of a term with itself, and of 16 truth variables. The terms are 15 variables and f of nine of
// them: as many applications as there may be.
pub fn longest_witness() -> Draft {
    Draft::new()
        .run(0..15, |draft, _| draft.symbol(0))
        .run(0..16, |draft, _| draft.symbol(16))
        .symbol(1)
        .run(0..15, Draft::variable)
        .run(0..9, |draft, x| draft.applied(31, [x, 0, 0]))
        .run(0..24, Draft::same)
        .run(15..31, Draft::truth_variable)
        .run(24..63, Draft::or)
        .negation(102)
}
