//! A block of tasks, run over queues that are lent to it.
ghost use Rattle.std.specs.Prelude.{◌≡◌, ◌<◌, ◌^◌, true, IfOk, length, map};
ghost use Rattle.std.specs.List.{All};
ghost use Rattle.ac_history.specs.Blocks.{new_block};
ghost use Rattle.ac_queue.specs.Shared.{shared};
ghost use Rattle.ac_meaning.specs.TaskBlocks.{block_fits};
ghost use Rattle.ac_host.specs.Gathered.{code_of};
ghost use Rattle.ac_host.specs.Runners.{IsRunBy};

use crate::named_task::NamedTask;
use crate::runner::BlockRunner;
use ac_base::NoMemory;
use ac_book::{Book, TaskCode};
use ac_queue::AnyQueue;
use std::alloc::Global;

fn code_of(alloc: Global, tasks: &[NamedTask]) -> Result<Vec<TaskCode>, NoMemory>
    ensures { IfOk result (λ made. made.items ≡ code_of tasks.now) }
{
    let mut made = Vec::new(alloc);
    for task in tasks {
        made.push(task.code(alloc)?)?;
    }
    Ok(made)
}

/// Whether these are fewer than 2^32 tasks, with fewer than 2^32 steps each: no block has more that was checked.
fn are_few(code: &[TaskCode]) -> bool
    ensures tasks { result ≡ true → length code.now < 2 ^ 32 }
    ensures steps { result ≡ true → All (λ task. length task.steps < 2 ^ 32) code.now }
{
    if code.len() > u32::MAX as usize {
        return false;
    }
    for task in code {
        if task.steps.items().len() > u32::MAX as usize {
            return false;
        }
    }
    true
}

/// The block before its first turn. One of too many tasks or steps counts as want of memory.
fn prepared(alloc: Global, queues: Vec<AnyQueue>, tasks: &[NamedTask]) -> Result<Book, NoMemory>
    requires { block_fits (new_block (map shared queues.items) (code_of tasks.now)) ≡ true }
    ensures { IfOk result (λ made. made ≡ new_block (map shared queues.items) (code_of tasks.now)) }
{
    let code = code_of(alloc, tasks)?;
    if !are_few(&code) {
        return Err(NoMemory);
    }
    Book::prepare(alloc, queues, code)
}

/// Runs the tasks to their end.
pub(crate) fn run_over<B: BlockRunner>(
    alloc: Global,
    queues: Vec<AnyQueue>,
    tasks: &[NamedTask],
    runner: &B,
) -> Result<Book, NoMemory>
    requires sound { B.is_sound runner.now }
    requires fits { block_fits (new_block (map shared queues.items) (code_of tasks.now)) ≡ true }
    ensures { IfOk result (IsRunBy B.allows (new_block (map shared queues.items) (code_of tasks.now))) }
{
    let book = prepared(alloc, queues, tasks)?;
    runner.run_block(alloc, book)
}
