//! What a block takes before its first turn.
ghost use Rattle.std.specs.Prelude.{◌≡◌, ◌≢◌, ◌+◌, ◌<◌, ◌≤◌, ◌^◌, ℕ, get_or, IfOk, OnOk, map, length};
ghost use Rattle.std.specs.List.{All, sum_by};
ghost use Rattle.ac_queue.specs.declared.any_queue.AnyQueue.{AnyQueue};
ghost use Rattle.ac_queue.specs.Kinds.{state_of};
ghost use Rattle.ac_history.specs.Blocks.{commands_in};
ghost use Rattle.ac_history.specs.States.{begun};
ghost use Rattle.ac_book.specs.Running.{HaveSpare, added_by};
ghost use Rattle.ac_queue.specs.Shared.{shared};

use crate::task::Task;
use ac_base::NoMemory;
use ac_history::{TaskCode, TaskStep};
use ac_queue::AnyQueue;
use std::alloc::Global;

/// Gives each queue room for so many items more.
pub(crate) fn reserve_all(queues: &mut [AnyQueue], n: u64) -> Result<(), NoMemory>
    ensures shared { map shared queues.new ≡ map shared queues.old }
    ensures spare { OnOk result (HaveSpare n queues.new) }
{
    for i in 0..queues.len() {
        reserve_at(queues, i, n)?;
    }
    Ok(())
}

fn reserve_at(queues: &mut [AnyQueue], i: usize, n: u64) -> Result<(), NoMemory>
    requires { i < length queues.old }
    ensures shared { map shared queues.new ≡ map shared queues.old }
    ensures there { (d : AnyQueue) → OnOk result (n ≤ (state_of (get_or queues.new i d)).spare) }
    ensures others { (k : ℕ) (d : AnyQueue) → k ≢ i → get_or queues.new k d ≡ get_or queues.old k d }
{
    queues[i].reserve(n)
}

/// How many steps the tasks have together.
pub(crate) fn steps_in(code: &[TaskCode]) -> Result<u64, NoMemory>
    ensures { IfOk result (λ n. n ≡ commands_in code.now) }
{
    let mut total: u64 = 0;
    for task in code {
        total = sum(total, task.steps.items().len() as u64)?;
    }
    Ok(total)
}

/// How many items the tasks may put into a queue.
pub(crate) fn items_added(code: &[TaskCode]) -> Result<u64, NoMemory>
    ensures { IfOk result (λ n. n ≡ sum_by (λ t. sum_by added_by t.steps) code.now) }
{
    let mut total: u64 = 0;
    for task in code {
        total = sum(total, enqueues(task.steps.items()))?;
    }
    Ok(total)
}

/// A number of steps past 64 bits counts as want of memory.
fn sum(total: u64, more: u64) -> Result<u64, NoMemory>
    ensures { IfOk result (λ n. n ≡ total + more) }
{
    match total.checked_add(more) {
        Some(sum) => Ok(sum),
        None => Err(NoMemory),
    }
}

fn enqueues(steps: &[TaskStep]) -> u64
    ensures { result ≡ sum_by added_by steps.now }
{
    let mut count: u64 = 0;
    for step in steps {
        count += added(*step);
    }
    count
}

fn added(step: TaskStep) -> u64
    ensures added { result ≡ added_by step }
    ensures bound { result ≤ 1 }
{
    match step {
        TaskStep::Enqueue { .. } => 1,
        _ => 0,
    }
}

/// The tasks at their first places, with all locals 0.
pub(crate) fn begin(alloc: Global, code: Vec<TaskCode>) -> Result<Vec<Task>, NoMemory>
    requires { All (λ task. length task.steps < 2 ^ 32) code.items }
    ensures { IfOk result (λ made. made.items ≡ map begun code.items) }
{
    let mut made = Vec::new(alloc);
    for task in code {
        made.push(Task::new(alloc, task)?)?;
    }
    Ok(made)
}
