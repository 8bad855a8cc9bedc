//! The steps that change a queue, on that queue: each answers none, where it would wait.
ghost use Rattle.std.specs.Prelude.{◌≡◌, ◌+◌, ◌<◌, ◌≤◌, IfNone};
ghost use Rattle.ac_model.specs.Queues.{by_priority, dequeue_call, high_only_call};
ghost use Rattle.ac_queue.specs.Kinds.{discipline_of, state_of};
ghost use Rattle.ac_history.specs.Steps.{enqueue_step, taking_step};
ghost use Rattle.ac_queue.specs.Shared.{shared};
ghost use Rattle.ac_book.specs.Running.{answered, queue_after};

use ac_base::Reason;
use ac_history::Reply;
use ac_queue::{AnyQueue, Dequeued, Enqueued};

pub(crate) fn enqueue(queue: &mut AnyQueue, item: i64) -> Option<Reply>
    requires { 0 < (state_of queue.old).spare }
    ensures answer { let c = enqueue_step (shared queue.old) item in result ≡ answered c.waits c.answer }
    ensures left { shared queue.new ≡ queue_after (shared queue.old) (enqueue_step (shared queue.old) item) }
    ensures spare { (state_of queue.old).spare ≤ (state_of queue.new).spare + 1 }
    ensures held_up { IfNone result ((state_of queue.old).spare ≤ (state_of queue.new).spare) }
{
    match queue.try_enqueue(item) {
        Enqueued::Took => Some(Reply::Done),
        Enqueued::TooLong => Some(Reply::Raised(Reason::LengthRange)),
        Enqueued::WouldWait => None,
    }
}

pub(crate) fn dequeue(queue: &mut AnyQueue) -> Option<Reply>
    ensures answer { let c = taking_step (dequeue_call (shared queue.old).queue) in result ≡ answered c.waits c.answer }
    ensures left { shared queue.new ≡ queue_after (shared queue.old) (taking_step (dequeue_call (shared queue.old).queue)) }
    ensures spare { (state_of queue.old).spare ≤ (state_of queue.new).spare }
{
    match queue.try_dequeue() {
        Dequeued::Got(item) => Some(Reply::Number(item)),
        Dequeued::WouldWait => None,
    }
}

pub(crate) fn high_only(queue: &mut AnyQueue, at_least: i64) -> Option<Reply>
    requires { discipline_of queue.old ≡ by_priority }
    ensures answer { let c = taking_step (high_only_call (shared queue.old).queue at_least) in result ≡ answered c.waits c.answer }
    ensures left { shared queue.new ≡ queue_after (shared queue.old) (taking_step (high_only_call (shared queue.old).queue at_least)) }
    ensures spare { (state_of queue.old).spare ≤ (state_of queue.new).spare }
{
    match queue.high_only(at_least) {
        Some(item) => Some(Reply::Number(item)),
        None => Some(Reply::No),
    }
}
