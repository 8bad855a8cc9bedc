//! The signs of a question.

/// How two values are compared.
#[derive(Clone, Copy, PartialEq, Eq)]
pub enum Comparison {
    Equal,
    NotEqual,
    Less,
    LessEqual,
    Greater,
    GreaterEqual,
}

/// What a reduction makes of two numbers.
#[derive(Clone, Copy, PartialEq, Eq)]
pub enum Oper {
    Sum,
    Product,
    Least,
    Greatest,
}
