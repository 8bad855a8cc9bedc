//! A task of a block.
ghost use Rattle.std.specs.Prelude.{◌≡◌, IfOk};
ghost use Rattle.ac_meaning.specs.TaskBlocks.{task};

use ac_base::NoMemory;
use ac_book::{Steplist, TaskCode, TaskStep};
use ac_syntax::Ident;
use std::alloc::Global;
use std::marker::Model;

/// A task's name, how many locals it has, and its steps.
#[derive(Drop)]
pub(crate) struct NamedTask {
    name: Ident,
    code: TaskCode,
}

impl Model for NamedTask {
    ghost use Rattle.ac_meaning.specs.TaskBlocks.{Task, task};
    ghost use Rattle.ac_host.specs.Gathered.{coded_task};

    ghost Value = { Task };

    ghost coded = { coded_task };

    ghost view = { λ t. task t.name t.code.locals t.code.steps };
}

impl NamedTask {
    pub(crate) fn new(name: Ident, locals: u32, steps: Steplist) -> NamedTask
        ensures { result ≡ task name locals steps }
    {
        NamedTask {
            name,
            code: TaskCode { locals, steps },
        }
    }

    pub(crate) fn name(&self) -> &[u8]
        ensures { result.now ≡ self.now.name }
    {
        self.name.bytes()
    }

    pub(crate) fn locals(&self) -> u32
        ensures { result ≡ self.now.code.locals }
    {
        self.code.locals
    }

    pub(crate) fn steps(&self) -> &[TaskStep]
        ensures { result.now ≡ self.now.code.steps }
    {
        self.code.steps.items()
    }

    /// The task's code again.
    pub(crate) fn code(&self, alloc: Global) -> Result<TaskCode, NoMemory>
        ensures { IfOk result (λ made. made ≡ self.now.code) }
    {
        Ok(TaskCode {
            locals: self.code.locals,
            steps: self.code.steps.copy(alloc)?,
        })
    }
}
