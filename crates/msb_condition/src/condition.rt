use msb_expression::Expr;

/// A condition, as its grammar reads it. (MSBuild conditions.)
pub enum Cond {
    /// The condition of a text without tokens, which is true.
    Empty,
    /// A condition, and one or more others behind an `Or` each.
    Or(Box<Cond>, Vec<Cond>),
    /// A condition, and one or more others behind an `And` each.
    And(Box<Cond>, Vec<Cond>),
    Not(Box<Cond>),
    Compare(Comparison, Operand, Operand),
    /// An operand that is a truth value.
    Truth(Operand),
}

// A drop that is written out is proved here alone.
impl Drop for Cond {
    fn drop(self) {
        match self {
            Cond::Empty => {}
            Cond::Or(_, _) => {}
            Cond::And(_, _) => {}
            Cond::Not(_) => {}
            Cond::Truth(_) => {}
            Cond::Compare(_, _, _) => {}
        }
    }
}

/// A side of a comparison, or a truth value.
pub enum Operand {
    /// A text between quotes, a reference or a word.
    Text(Expr),
    Call(Function, Box<Operand>),
}

// A drop that is written out is proved here alone.
impl Drop for Operand {
    fn drop(self) {
        match self {
            Operand::Text(_) => {}
            Operand::Call(_, _) => {}
        }
    }
}

#[derive(Clone, Copy, Debug, PartialEq, Eq)]
pub enum Comparison {
    Equal,
    NotEqual,
    Less,
    Greater,
    LessOrEqual,
    GreaterOrEqual,
}

#[derive(Clone, Copy, Debug, PartialEq, Eq)]
pub enum Function {
    /// Whether a file stands at a path or below it.
    Exists,
    /// Whether a text ends with `/` or `\`.
    HasTrailingSlash,
}
