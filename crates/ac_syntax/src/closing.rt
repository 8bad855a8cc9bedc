/// The words that end a block, or what is tried in one with handlers.
#[derive(Clone, Copy, PartialEq, Eq)]
pub enum Closing {
    /// `end loop;`
    EndLoop,
    /// `end;`
    End,
    /// `end tasks;`
    EndTasks,
    /// `end;` of a task.
    EndTask,
    /// `exception`, which ends what is tried.
    EndTried,
    /// `end;` behind a handler that names its exception, where another handler may stand too.
    EndHandlers,
    /// `end;` behind the handler of all others.
    EndOthers,
}
