ghost use Rattle.std.specs.Prelude.{◌≡◌};
ghost use Rattle.ac_syntax.specs.Parts as parts;

use ac_syntax::{ElemKind, Kind};

/// The reserved word for a sort of object.
pub fn kind_word(kind: Kind) -> &'static str
    ensures { result.now ≡ parts.kind_word kind }
{
    match kind {
        Kind::Vector => "vector",
        Kind::List => "list",
        Kind::HashedMap => "hashed_map",
        Kind::OrderedMap => "ordered_map",
        Kind::HashedSet => "hashed_set",
        Kind::OrderedSet => "ordered_set",
        Kind::Tree => "tree",
        Kind::Holder => "holder",
        Kind::Queue => "queue",
        Kind::PriorityQueue => "priority_queue",
    }
}

/// The reserved word for a sort of element.
pub fn elem_word(elem: ElemKind) -> &'static str
    ensures { result.now ≡ parts.elem_word elem }
{
    match elem {
        ElemKind::Integer => "integer",
        ElemKind::Str => "string",
    }
}
