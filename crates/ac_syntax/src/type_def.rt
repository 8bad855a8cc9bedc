use crate::kind::{ElemKind, Kind};

/// What a type declaration says of its type.
#[derive(Clone, Copy, PartialEq, Eq)]
pub struct TypeDef {
    pub bounded: bool,
    pub kind: Kind,
    pub first: ElemKind,
    pub second: Option<ElemKind>,
    pub keyed: bool,
}
