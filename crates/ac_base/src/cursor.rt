use crate::name::Name;

/// Where a call is to look: at no element, or at what an object has under a name (A.18.2, and the like for
/// each other kind).
#[derive(Clone, Copy, PartialEq, Eq)]
pub enum Cursor {
    NoElement,
    At { object: u64, name: Name },
}
