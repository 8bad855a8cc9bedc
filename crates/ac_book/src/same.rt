//! Whether two blocks began alike.
ghost use Rattle.std.specs.Prelude.{◌≡◌, map};
ghost use Rattle.std.specs.Bool.{Decides};
ghost use Rattle.ac_queue.specs.Shared.{shared};
ghost use Rattle.ac_book.specs.Tasks.{code_of};

use crate::task::Task;
use ac_history::TaskStep;
use ac_queue::AnyQueue;

pub(crate) fn same_queues(queues: &[AnyQueue], others: &[AnyQueue]) -> bool
    ensures { Decides result (map shared queues.now ≡ map shared others.now) }
{
    if queues.len() != others.len() {
        return false;
    }
    for i in 0..queues.len() {
        if !same_queue(&queues[i], &others[i]) {
            return false;
        }
    }
    true
}

fn same_queue(queue: &AnyQueue, other: &AnyQueue) -> bool
    ensures { Decides result (shared queue.now ≡ shared other.now) }
{
    queue.same(other)
}

pub(crate) fn same_code(tasks: &[Task], others: &[Task]) -> bool
    ensures { Decides result (map code_of tasks.now ≡ map code_of others.now) }
{
    if tasks.len() != others.len() {
        return false;
    }
    for i in 0..tasks.len() {
        if !tasks[i].has_same_code(&others[i]) {
            return false;
        }
    }
    true
}

pub(crate) fn same_steps(steps: &[TaskStep], others: &[TaskStep]) -> bool
    ensures { Decides result (steps.now ≡ others.now) }
{
    if steps.len() != others.len() {
        return false;
    }
    for i in 0..steps.len() {
        if !same_step(steps[i], others[i]) {
            return false;
        }
    }
    true
}

fn same_step(step: TaskStep, other: TaskStep) -> bool
    ensures { Decides result (step ≡ other) }
{
    step == other
}
