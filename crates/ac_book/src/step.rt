//! A step of a task, on all queues.
ghost use Rattle.std.specs.Prelude.{◌≡◌, ◌+◌, ◌<◌, ℕ, IfNone, map, length, get_or};
ghost use Rattle.ac_model.specs.Queues.{by_priority, is_full, is_without_items, current_use_call, peak_use_call};
ghost use Rattle.ac_queue.specs.Kinds.{discipline_of, state_of};
ghost use Rattle.ac_history.specs.declared.entry.Reply.TheVariants as reply;
ghost use Rattle.ac_history.specs.Steps.{dequeue_on, enqueue_on, high_on, queue_at, step_call, value_of};
ghost use Rattle.ac_queue.specs.Shared.{shared};
ghost use Rattle.ac_book.specs.Running.{HaveSpare, Fits, IsArg, added_by, answered, queues_after};

use crate::one_queue::{dequeue, enqueue, high_only};
use crate::sum::sum;
use ac_history::{Reply, TaskArg, TaskStep};
use ac_queue::AnyQueue;

fn value(locals: &[i64], arg: TaskArg) -> i64
    requires { IsArg (length locals.now) arg }
    ensures { result ≡ value_of locals.now arg }
{
    match arg {
        TaskArg::Number(number) => number,
        TaskArg::Local(local) => locals[local as usize],
    }
}

fn enqueue_at(queues: &mut [AnyQueue], queue: u32, item: i64) -> Option<Reply>
    requires queue { queue < length queues.old }
    requires spare { HaveSpare 1 queues.old }
    ensures answer { let c = enqueue_on (map shared queues.old) queue item in result ≡ answered c.waits c.answer }
    ensures left { map shared queues.new ≡ queues_after (map shared queues.old) (enqueue_on (map shared queues.old) queue item) }
    ensures spare { (n : ℕ) → HaveSpare (n + 1) queues.old → HaveSpare n queues.new }
    ensures held_up { IfNone result ((n : ℕ) → HaveSpare n queues.old → HaveSpare n queues.new) }
{
    enqueue(&mut queues[queue as usize], item)
}

fn dequeue_at(queues: &mut [AnyQueue], queue: u32) -> Option<Reply>
    requires { queue < length queues.old }
    ensures answer { let c = dequeue_on (map shared queues.old) queue in result ≡ answered c.waits c.answer }
    ensures left { map shared queues.new ≡ queues_after (map shared queues.old) (dequeue_on (map shared queues.old) queue) }
    ensures spare { (n : ℕ) → HaveSpare n queues.old → HaveSpare n queues.new }
{
    dequeue(&mut queues[queue as usize])
}

#[tactic(auto, using(crate::proofs::Shared::shared_at))]
fn high_at(queues: &mut [AnyQueue], queue: u32, at_least: i64) -> Option<Reply>
    requires queue { queue < length queues.old }
    requires ranked { (queue_at (map shared queues.old) queue).discipline ≡ by_priority }
    ensures answer { let c = high_on (map shared queues.old) queue at_least in result ≡ answered c.waits c.answer }
    ensures left { map shared queues.new ≡ queues_after (map shared queues.old) (high_on (map shared queues.old) queue at_least) }
    ensures spare { (n : ℕ) → HaveSpare n queues.old → HaveSpare n queues.new }
{
    high_only(&mut queues[queue as usize], at_least)
}

#[tactic(auto, using(crate::proofs::Shared::shared_at))]
fn current_use_at(queues: &[AnyQueue], queue: u32) -> Reply
    requires { queue < length queues.now }
    ensures { result ≡ reply.Number (current_use_call (queue_at (map shared queues.now) queue).queue) }
{
    let used = queues[queue as usize].current_use();
    Reply::Number(used as i64)
}

#[tactic(auto, using(crate::proofs::Shared::shared_at))]
fn peak_use_at(queues: &[AnyQueue], queue: u32) -> Reply
    requires { queue < length queues.now }
    ensures { result ≡ reply.Number (peak_use_call (queue_at (map shared queues.now) queue).queue) }
{
    let used = queues[queue as usize].peak_use();
    Reply::Number(used as i64)
}

/// Does the step on the queues. None where it would wait, and then nothing is done.
pub(crate) fn run(step: TaskStep, queues: &mut [AnyQueue], locals: &[i64]) -> Option<Reply>
    requires fits { Fits (map shared queues.old) (length locals.now) step }
    requires spare { HaveSpare (added_by step) queues.old }
    ensures answer { let c = step_call step (map shared queues.old) locals.now in result ≡ answered c.waits c.answer }
    ensures left { map shared queues.new ≡ queues_after (map shared queues.old) (step_call step (map shared queues.old) locals.now) }
    ensures spare { (n : ℕ) → HaveSpare (n + added_by step) queues.old → HaveSpare n queues.new }
    ensures held_up { IfNone result ((n : ℕ) → HaveSpare n queues.old → HaveSpare n queues.new) }
{
    match step {
        TaskStep::Enqueue { queue, item, .. } => enqueue_at(queues, queue, value(locals, item)),
        TaskStep::Dequeue { queue, .. } => dequeue_at(queues, queue),
        TaskStep::High {
            queue,
            at_least,
            ..
        } => high_at(queues, queue, value(locals, at_least)),
        TaskStep::CurrentUse { queue, .. } => Some(current_use_at(queues, queue)),
        TaskStep::PeakUse { queue, .. } => Some(peak_use_at(queues, queue)),
        TaskStep::Set { from, add, .. } => Some(sum(value(locals, from), add)),
    }
}

/// Whether the step would wait.
pub(crate) fn would_wait(step: TaskStep, queues: &[AnyQueue], locals: &[i64]) -> bool
    requires { Fits (map shared queues.now) (length locals.now) step }
    ensures { result ≡ (step_call step (map shared queues.now) locals.now).waits }
{
    match step {
        TaskStep::Enqueue { queue, .. } => is_full_at(queues, queue),
        TaskStep::Dequeue { queue, .. } => is_empty_at(queues, queue),
        _ => false,
    }
}

#[tactic(auto, using(crate::proofs::Shared::shared_at))]
fn is_full_at(queues: &[AnyQueue], queue: u32) -> bool
    requires { queue < length queues.now }
    ensures { result ≡ is_full (queue_at (map shared queues.now) queue).queue }
{
    queues[queue as usize].is_full()
}

#[tactic(auto, using(crate::proofs::Shared::shared_at))]
fn is_empty_at(queues: &[AnyQueue], queue: u32) -> bool
    requires { queue < length queues.now }
    ensures { result ≡ is_without_items (queue_at (map shared queues.now) queue).queue }
{
    queues[queue as usize].current_use() == 0
}
