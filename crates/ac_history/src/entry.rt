use ac_base::Reason;

/// What a step answers.
#[derive(Clone, Copy, PartialEq, Eq)]
pub enum Reply {
    Done,
    Number(i64),
    /// There was no item of that priority.
    No,
    Raised(Reason),
}

/// A step that was done: its task, its place in the task, from 0, and its reply.
#[derive(Clone, Copy, PartialEq, Eq)]
pub struct Entry {
    pub task: u32,
    pub place: u32,
    pub reply: Reply,
}

/// What came of a turn.
#[derive(Clone, Copy, PartialEq, Eq)]
pub enum Turn {
    Ran,
    /// The task's next step would wait.
    Waits,
    /// The task has no next step.
    Ended,
}
