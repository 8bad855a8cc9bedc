//! A queue of a script.
use ac_cursor::Tag;
use ac_queue::AnyQueue;

/// A queue with its number, by which it is told from other objects.
#[derive(Drop)]
pub struct NumberedQueue {
    pub tag: Tag,
    pub queue: AnyQueue,
}
