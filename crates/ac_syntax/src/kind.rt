/// What sort of object a type is of.
#[derive(Clone, Copy, PartialEq, Eq)]
pub enum Kind {
    Vector,
    List,
    HashedMap,
    OrderedMap,
    HashedSet,
    OrderedSet,
    Tree,
    Holder,
    Queue,
    PriorityQueue,
}

/// What sort of value an element or a key is.
#[derive(Clone, Copy, PartialEq, Eq)]
pub enum ElemKind {
    Integer,
    Str,
}
