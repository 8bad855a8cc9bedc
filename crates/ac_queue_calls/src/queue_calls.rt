//! The calls of queues. No call waits: it says that it would.
ghost use Rattle.std.specs.Prelude.{◌≡◌};
ghost use Rattle.ac_model.specs.Queues as queues;
ghost use Rattle.ac_queue.specs.Kinds.{state_of};
ghost use Rattle.ac_queue.specs.Shared.{shared};
ghost use Rattle.ac_calls.specs.Answers.{answers_ok};
ghost use Rattle.ac_calls.specs.QueueReplies.{high_reply, item_answer, queue_alone_reply, queue_changes, queue_reply};
ghost use Rattle.ac_calls.specs.Arguments.{arguments_of};
ghost use Rattle.ac_queue_calls.specs.QueueCalls.{QueueReplied};
ghost use Rattle.ac_calls.specs.Replied.{told};

use ac_base::{Fault, GREATEST_LENGTH, Limit, Reason, Value};
use ac_calls::values::integer_in;
use ac_calls::{Arguments, Reply, Said};
use ac_queue::{AnyQueue, Dequeued};
use ac_syntax::{Operation, QueueCall};

/// Makes a call on a queue.
pub fn operate_queue(
    queue: &mut AnyQueue,
    operation: Operation,
    args: &mut Arguments,
    reply: &mut Reply,
) -> Result<(), Fault>
    ensures { QueueReplied (queue_reply (shared queue.old) (arguments_of args.old) operation) queue.old queue.new (told reply.new result) }
{
    match operation {
        Operation::Queue(call) => queue_call(queue, call, args, reply),
        _ => {
            *reply = Reply::says(Said::Done);
            Ok(())
        }
    }
}

fn queue_call(
    queue: &mut AnyQueue,
    call: QueueCall,
    args: &mut Arguments,
    reply: &mut Reply,
) -> Result<(), Fault>
    ensures { QueueReplied (queue_alone_reply (shared queue.old) (arguments_of args.old) call) queue.old queue.new (told reply.new result) }
{
    match call {
        QueueCall::Enqueue => enqueue(queue, integer_in(&args.first.take_value()), reply),
        QueueCall::Dequeue => dequeue(queue, reply),
        QueueCall::CurrentUse => {
            *reply = Reply::says(Said::Value(Value::Int(queue.current_use() as i64)));
            Ok(())
        }
        QueueCall::PeakUse => {
            *reply = Reply::says(Said::Value(Value::Int(queue.peak_use() as i64)));
            Ok(())
        }
        QueueCall::Print => {
            *reply = Reply::says(Said::Listing);
            Ok(())
        }
        QueueCall::DequeueOnlyHighPriority => high_only(queue, args.first.count(), reply),
    }
}

/// Enqueue, with room made for the item first.
fn enqueue(queue: &mut AnyQueue, item: i64, reply: &mut Reply) -> Result<(), Fault>
    ensures { QueueReplied (queue_changes (shared queue.old) (λ _. answers_ok)
        (queues.enqueue_call (shared queue.old).discipline (shared queue.old).queue item)) queue.old queue.new (told reply.new result) }
{
    if queue.is_full() {
        *reply = Reply::says(Said::Stalled);
        return Ok(());
    }
    if is_too_long(queue) {
        return Err(Fault::Raised(Reason::LengthRange));
    }
    queue.reserve(1)?;
    queue.try_enqueue(item);
    *reply = Reply::says(Said::Done);
    Ok(())
}

/// Whether it is unbounded and holds as many items as a queue may.
fn is_too_long(queue: &AnyQueue) -> bool
    ensures { result ≡ queues.is_too_long (state_of queue.now).queue }
{
    match queue.limit() {
        Limit::Unbounded => queue.current_use() == GREATEST_LENGTH,
        Limit::Bounded(_) => false,
    }
}

fn dequeue(queue: &mut AnyQueue, reply: &mut Reply) -> Result<(), Fault>
    ensures { QueueReplied (queue_changes (shared queue.old) item_answer (queues.dequeue_call (shared queue.old).queue))
        queue.old queue.new (told reply.new result) }
{
    match queue.try_dequeue() {
        Dequeued::Got(item) => *reply = Reply::says(Said::Value(Value::Int(item))),
        Dequeued::WouldWait => *reply = Reply::says(Said::Stalled),
    }
    Ok(())
}

/// Dequeue_Only_High_Priority. A plain queue hasn't it.
fn high_only(queue: &mut AnyQueue, at_least: i64, reply: &mut Reply) -> Result<(), Fault>
    ensures { QueueReplied (high_reply (shared queue.old).discipline (shared queue.old) at_least)
        queue.old queue.new (told reply.new result) }
{
    if !queue.is_ranked() {
        *reply = Reply::says(Said::Done);
        return Ok(());
    }
    match queue.high_only(at_least) {
        Some(item) => *reply = Reply::says(Said::Value(Value::Int(item))),
        None => *reply = Reply::says(Said::Truth(false)),
    }
    Ok(())
}
