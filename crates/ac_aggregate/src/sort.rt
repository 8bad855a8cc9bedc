//! Of which sort a part of a question is.

use ac_syntax::ElemKind;

/// One value, many values, or a truth value.
#[derive(Clone, Copy, PartialEq, Eq)]
pub enum Sort {
    One(ElemKind),
    Many(ElemKind),
    Truth,
}
