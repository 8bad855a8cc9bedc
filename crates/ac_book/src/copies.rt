//! The parts of a block again.
ghost use Rattle.std.specs.Prelude.{◌≡◌, ◌≤◌, IfOk, length};
ghost use Rattle.std.specs.Vec.{vec_capacity};

use crate::task::Task;
use ac_base::NoMemory;
use ac_history::Entry;
use ac_queue::AnyQueue;
use std::alloc::Global;

pub(crate) fn copy_queues(alloc: Global, queues: &[AnyQueue]) -> Result<Vec<AnyQueue>, NoMemory>
    ensures { IfOk result (λ made. made.items ≡ queues.now) }
{
    let mut made = Vec::with_capacity(alloc, queues.len())?;
    for queue in queues {
        made.push_reserved(queue.copy()?);
    }
    Ok(made)
}

pub(crate) fn copy_tasks(alloc: Global, tasks: &[Task]) -> Result<Vec<Task>, NoMemory>
    ensures { IfOk result (λ made. made.items ≡ tasks.now) }
{
    let mut made = Vec::with_capacity(alloc, tasks.len())?;
    for task in tasks {
        made.push_reserved(task.copy(alloc)?);
    }
    Ok(made)
}

/// The entries in a vector with room for so many.
pub(crate) fn copy_entries(
    alloc: Global,
    entries: &[Entry],
    room: usize,
) -> Result<Vec<Entry>, NoMemory>
    requires { length entries.now ≤ room }
    ensures entries { IfOk result (λ made. made.items ≡ entries.now) }
    ensures room { IfOk result (λ made. vec_capacity made ≡ room) }
{
    let mut made = Vec::with_capacity(alloc, room)?;
    for entry in entries {
        made.push_reserved(*entry);
    }
    Ok(made)
}
