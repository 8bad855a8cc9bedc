/// The name of one element of one object: the slot that keeps it, and its serial, which no other
/// element of the object ever has.
#[derive(Clone, Copy, PartialEq, Eq)]
pub struct Name {
    pub slot: u32,
    pub serial: u64,
}
