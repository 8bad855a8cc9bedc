/// How far a script has come.
#[derive(Clone, Copy)]
pub enum Stage {
    /// At the front of a script: the pragma, declarations or statements.
    Fronting,
    /// In a script's declarations: more of them, or statements.
    Listing,
    /// At the front of a block with declarations: these or `begin`.
    Heading,
    Running,
    /// At the front of a block of tasks: the first of them.
    Tasking,
    /// Behind a task: another one, or the end of the block.
    Tasked,
    /// At the front of a task: its locals or `begin`.
    Preparing,
    /// In a task: its commands, or its end.
    Stepping,
    /// Behind `exception`: the first handler.
    Catching,
}
