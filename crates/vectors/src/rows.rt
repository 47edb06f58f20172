// The formulas that document 01 works by hand, rows 1 to 12. Nodes are in order of first mention, arguments first, variables x
// and y before f.
use crate::draft::Draft;

// The symbols x, y and f of one argument are 0, 1 and 2, and the first two nodes are x and y.
fn x_and_y() -> Draft {
    Draft::new().symbol(0).symbol(0).variable(0).variable(1)
}

fn x_and_y_with_f() -> Draft {
    Draft::new()
        .symbol(0)
        .symbol(0)
        .symbol(1)
        .variable(0)
        .variable(1)
}

// x = x
pub fn row_1() -> Draft {
    Draft::new().symbol(0).variable(0).equation(0, 0)
}

// x = y
pub fn row_2() -> Draft {
    x_and_y().equation(0, 1)
}

// not x = y
pub fn row_3() -> Draft {
    x_and_y().equation(0, 1).negation(2)
}

// not x = y, or f(x) = f(y)
pub fn row_4() -> Draft {
    x_and_y_with_f()
        .equation(0, 1)
        .negation(2)
        .applied(2, [0, 0, 0])
        .applied(2, [1, 0, 0])
        .equation(4, 5)
        .disjunction(3, 6)
}

// not f(x) = f(y), or x = y
pub fn row_5() -> Draft {
    x_and_y_with_f()
        .applied(2, [0, 0, 0])
        .applied(2, [1, 0, 0])
        .equation(2, 3)
        .negation(4)
        .equation(0, 1)
        .disjunction(5, 6)
}

// f(x) = f(y)
pub fn row_6() -> Draft {
    x_and_y_with_f()
        .applied(2, [0, 0, 0])
        .applied(2, [1, 0, 0])
        .equation(2, 3)
}

// p or not p
pub fn row_7() -> Draft {
    row_8().negation(0).disjunction(0, 1)
}

// p
pub fn row_8() -> Draft {
    Draft::new().symbol(16).truth_variable(0)
}

// choice(p, x, y) = x
pub fn row_9() -> Draft {
    Draft::new()
        .symbol(16)
        .symbol(0)
        .symbol(0)
        .truth_variable(0)
        .variable(1)
        .variable(2)
        .choice(0, 1, 2)
        .equation(3, 1)
}

// true
pub fn row_10() -> Draft {
    Draft::new().yes()
}

// false
pub fn row_11() -> Draft {
    Draft::new().no()
}

// not (x = y and f(x) = f(y))
pub fn row_12() -> Draft {
    x_and_y_with_f()
        .equation(0, 1)
        .applied(2, [0, 0, 0])
        .applied(2, [1, 0, 0])
        .equation(3, 4)
        .conjunction(2, 5)
        .negation(6)
}
