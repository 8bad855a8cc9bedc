//! Questions in memory.

use crate::oper::{Comparison, Oper};
use ac_syntax::{Ident, StringBytes, Token};

/// A question, or a part of one.
#[derive(Drop)]
pub enum Part {
    /// A number, with a minus before it or none.
    Literal(bool, u64),
    Text(StringBytes),
    Name(Ident),
    Group(Box<Part>),
    Product(Box<Part>, Box<Part>),
    /// A sum, or with `true` a difference.
    Sum(Box<Part>, bool, Box<Part>),
    /// All elements of an object.
    All(Ident),
    /// An aggregate: its generator, its object, its condition and what it gives.
    Each(Ident, Ident, Box<Part>, Box<Part>),
    /// A reduction, and the number that it begins with.
    Reduced(Box<Part>, Oper, bool, u64),
    /// The condition of an aggregate that has none.
    Always,
    Compares(Box<Part>, Comparison, Box<Part>),
    Both(Box<Part>, Box<Part>),
    Negated(Box<Part>),
}

/// A part at the front of tokens and the tokens behind it, where there is one. It is in a box, so that what reads one calls for little stack.
pub type Found<'a> = Option<(Box<Part>, &'a [Token])>;
