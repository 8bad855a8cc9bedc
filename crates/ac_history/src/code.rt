ghost use Rattle.std.specs.Prelude.{◌≡◌, IfOk};

use ac_base::NoMemory;
use std::alloc::Global;
use std::marker::Model;

/// A number, or the local of this number.
#[derive(Clone, Copy, PartialEq, Eq)]
pub enum TaskArg {
    Number(i64),
    Local(u32),
}

/// A command of a task, with its line. Queues and locals have numbers from 0; `into` is the local that takes the reply.
#[derive(Clone, Copy, PartialEq, Eq)]
pub enum TaskStep {
    Enqueue {
        line: u64,
        queue: u32,
        item: TaskArg,
    },
    Dequeue {
        line: u64,
        queue: u32,
        into: Option<u32>,
    },
    /// Dequeue_Only_High_Priority.
    High {
        line: u64,
        queue: u32,
        at_least: TaskArg,
        into: Option<u32>,
    },
    CurrentUse {
        line: u64,
        queue: u32,
        into: Option<u32>,
    },
    PeakUse {
        line: u64,
        queue: u32,
        into: Option<u32>,
    },
    /// The sum of `from` and `add` goes into a local.
    Set {
        line: u64,
        into: u32,
        from: TaskArg,
        add: i64,
    },
}

/// The steps of a task in order.
#[derive(Drop)]
pub struct Steplist {
    items: Vec<TaskStep>,
}

impl Model for Steplist {
    ghost use Rattle.std.specs.Prelude.{List};
    ghost use Rattle.ac_history.specs.declared.code.TaskStep.{TaskStep};

    ghost Value = { List TaskStep };

    ghost view = { λ steps. steps.items.items };
}

impl Steplist {
    pub fn from_vec(items: Vec<TaskStep>) -> Steplist
        ensures { result ≡ items.items }
    {
        Steplist { items }
    }

    pub fn items(&self) -> &[TaskStep]
        ensures { result.now ≡ self.now }
    {
        &self.items
    }

    /// The same steps again.
    pub fn copy(&self, alloc: Global) -> Result<Steplist, NoMemory>
        ensures { IfOk result (λ made. made ≡ self.now) }
    {
        Ok(Steplist {
            items: Vec::from_slice(alloc, &self.items)?,
        })
    }
}

/// A task: how many locals it has, and its steps.
#[derive(Drop)]
pub struct TaskCode {
    pub locals: u32,
    pub steps: Steplist,
}
