/// How a block views an element.
#[derive(Clone, Copy, PartialEq, Eq)]
pub enum ViewKind {
    Query,
    Update,
    Reference,
    UpdateKey,
}
