/// What came of an Enqueue.
#[derive(Clone, Copy, PartialEq, Eq)]
pub enum Enqueued {
    Took,
    /// The queue is bounded and full.
    WouldWait,
    /// The queue is unbounded and holds `GREATEST_LENGTH` items.
    TooLong,
}

/// What came of a Dequeue.
#[derive(Clone, Copy, PartialEq, Eq)]
pub enum Dequeued {
    Got(i64),
    /// The queue is empty.
    WouldWait,
}
