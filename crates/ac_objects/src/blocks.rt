//! The heads and the keys of blocks.
use ac_base::KeyRoom;
use ac_cursor::{Cursor, GuardKey};
use ac_syntax::ViewKind;

/// Why declarations failed.
#[derive(Clone, Copy)]
pub enum DeclareFault {
    /// No number is left for the object that is declared on this line.
    Spent { line: u64 },
    NoMemory,
}

/// An open loop: its object, where it stands next, and the guards that it holds.
pub struct LoopKey {
    pub(crate) object: usize,
    pub(crate) names: usize,
    pub(crate) backward: bool,
    pub(crate) coming: Cursor,
    pub(crate) cursors: GuardKey,
    pub(crate) elements: Option<GuardKey>,
}

/// The head of a block that views an object, its names as places.
#[derive(Clone, Copy)]
pub enum ViewHead {
    /// A view of the element at which a cursor stands, or an update of its key.
    Element {
        kind: ViewKind,
        object: usize,
        at: Option<usize>,
    },
    Stable {
        object: usize,
    },
}

/// An open block that views an object.
pub enum ViewKey {
    /// A view or a `stable`.
    View(OpenView),
    Update(OpenUpdate),
}

/// An open view or `stable`: its object, and the guard that it holds.
pub struct OpenView {
    pub(crate) object: usize,
    pub(crate) names: usize,
    pub(crate) guard: GuardKey,
}

/// An open update of a key: its object, where the element stands, the guard that it holds, and memory for the key that the copy has at the
/// block's end. The block's name holds the copy.
pub struct OpenUpdate {
    pub(crate) object: usize,
    pub(crate) names: usize,
    pub(crate) at: Cursor,
    pub(crate) guard: GuardKey,
    pub(crate) room: KeyRoom,
}
