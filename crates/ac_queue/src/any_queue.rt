//! A queue of either kind.
ghost use Rattle.std.specs.Prelude.{◌≡◌, ◌≤◌, false, pos, length, max, IsOk, IfOk, OnErr, OnOk};
ghost use Rattle.std.specs.Bool.{Decides};
ghost use Rattle.ac_base.specs.declared.limit.TheConstants.{GREATEST_LENGTH};
ghost use Rattle.ac_base.specs.Limits.{is_past};
ghost use Rattle.std.specs.List.{slice_get};
ghost use Rattle.ac_model.specs.Queues as queues;
ghost use Rattle.ac_model.specs.Queues.{by_priority};
ghost use Rattle.ac_queue.specs.Kinds.{discipline_of, state_of};
ghost use Rattle.ac_queue.specs.QueueStates.{IsQueueState, with_spare, with_peak};
ghost use Rattle.ac_queue.specs.QueueCalls.{HasSpareFor, enqueue_answer, dequeue_answer, after_enqueue, after_leaving};

use crate::answers::{Dequeued, Enqueued};
use crate::priority_queue::PriorityQueue;
use crate::queue::Queue;
use ac_base::{Limit, NoMemory};

/// A queue of either kind.
#[derive(Drop)]
pub enum AnyQueue {
    Plain(Queue),
    Ranked(PriorityQueue),
}

impl AnyQueue {
    /// What holds of every queue, for proofs alone.
    pub fn law(&self)
        ensures { IsQueueState (discipline_of self.now) (state_of self.now) }
    {
        match self {
            AnyQueue::Plain(queue) => queue.law(),
            AnyQueue::Ranked(queue) => queue.law(),
        }
    }

    /// Whether it is a priority queue.
    pub fn is_ranked(&self) -> bool
        ensures { Decides result (discipline_of self.now ≡ by_priority) }
    {
        match self {
            AnyQueue::Plain(_) => false,
            AnyQueue::Ranked(_) => true,
        }
    }

    /// The most items that it may hold.
    pub fn limit(&self) -> Limit
        ensures { result ≡ (state_of self.now).queue.limit }
    {
        match self {
            AnyQueue::Plain(queue) => queue.limit(),
            AnyQueue::Ranked(queue) => queue.limit(),
        }
    }

    /// Whether it is bounded and holds as many items as it may: then an Enqueue would wait.
    pub fn is_full(&self) -> bool
        ensures { result ≡ queues.is_full (state_of self.now).queue }
    {
        match self {
            AnyQueue::Plain(queue) => queue.is_full(),
            AnyQueue::Ranked(queue) => queue.is_full(),
        }
    }

    /// Current_Use (A.18.27).
    pub fn current_use(&self) -> u64
        ensures use_now { pos result ≡ queues.current_use_call (state_of self.now).queue }
        ensures bound { result ≤ GREATEST_LENGTH }
    {
        match self {
            AnyQueue::Plain(queue) => queue.current_use(),
            AnyQueue::Ranked(queue) => queue.current_use(),
        }
    }

    /// Peak_Use (A.18.27).
    pub fn peak_use(&self) -> u64
        ensures use_most { pos result ≡ queues.peak_use_call (state_of self.now).queue }
        ensures bound { result ≤ GREATEST_LENGTH }
    {
        match self {
            AnyQueue::Plain(queue) => queue.peak_use(),
            AnyQueue::Ranked(queue) => queue.peak_use(),
        }
    }

    /// How many more items take no memory.
    pub fn spare(&self) -> u64
        ensures { result ≡ (state_of self.now).spare }
    {
        match self {
            AnyQueue::Plain(queue) => queue.spare(),
            AnyQueue::Ranked(queue) => queue.spare(),
        }
    }

    /// The item at this place, from 0 at the front.
    pub fn item(&self, place: u64) -> Option<i64>
        ensures { result ≡ slice_get (state_of self.now).queue.items place }
    {
        match self {
            AnyQueue::Plain(queue) => queue.item(place),
            AnyQueue::Ranked(queue) => queue.item(place),
        }
    }

    /// Whether kinds, limits, items and peaks are the same.
    pub fn same(&self, other: &AnyQueue) -> bool
        ensures { Decides result ((discipline_of self.now ≡ discipline_of other.now)
            × ((state_of self.now).queue ≡ (state_of other.now).queue)) }
    {
        match (self, other) {
            (AnyQueue::Plain(queue), AnyQueue::Plain(other)) => queue.same(other),
            (AnyQueue::Ranked(queue), AnyQueue::Ranked(other)) => queue.same(other),
            _ => false,
        }
    }

    /// A queue of the same kind with the same items and the same spare.
    pub fn copy(&self) -> Result<AnyQueue, NoMemory>
        ensures { IfOk result (λ made. made ≡ self.now) }
    {
        match self {
            AnyQueue::Plain(queue) => Ok(AnyQueue::Plain(queue.copy()?)),
            AnyQueue::Ranked(queue) => Ok(AnyQueue::Ranked(queue.copy()?)),
        }
    }

    /// Makes the spare at least n.
    pub fn reserve(&mut self, n: u64) -> Result<(), NoMemory>
        ensures kind { discipline_of self.new ≡ discipline_of self.old }
        ensures ok { OnOk result (state_of self.new ≡ with_spare (state_of self.old) n) }
        ensures err { OnErr result (state_of self.new ≡ state_of self.old) }
        ensures in_place { n ≤ (state_of self.old).spare → IsOk result }
    {
        match self {
            AnyQueue::Plain(queue) => queue.reserve(n),
            AnyQueue::Ranked(queue) => queue.reserve(n),
        }
    }

    /// Sets the greatest number of items held so far (Peak_Use, A.18.27).
    pub fn restore_peak(&mut self, peak: u64)
        requires held { length (state_of self.old).queue.items ≤ peak }
        requires limit { is_past (state_of self.old).queue.limit peak ≡ false }
        requires greatest { peak ≤ GREATEST_LENGTH }
        ensures kind { discipline_of self.new ≡ discipline_of self.old }
        ensures peak { state_of self.new ≡ with_peak (state_of self.old) peak }
    {
        match self {
            AnyQueue::Plain(queue) => queue.restore_peak(peak),
            AnyQueue::Ranked(queue) => queue.restore_peak(peak),
        }
    }

    /// Enqueue (A.18.27).
    pub fn try_enqueue(&mut self, item: i64) -> Enqueued
        requires { HasSpareFor (state_of self.old) (queues.enqueue_call (discipline_of self.old) (state_of self.old).queue item) }
        ensures kind { discipline_of self.new ≡ discipline_of self.old }
        ensures answer { result ≡ enqueue_answer (queues.enqueue_call (discipline_of self.old) (state_of self.old).queue item) }
        ensures left { state_of self.new ≡ after_enqueue (discipline_of self.old) (state_of self.old) item }
    {
        match self {
            AnyQueue::Plain(queue) => queue.try_enqueue(item),
            AnyQueue::Ranked(queue) => queue.try_enqueue(item),
        }
    }

    /// Dequeue (A.18.27).
    pub fn try_dequeue(&mut self) -> Dequeued
        ensures kind { discipline_of self.new ≡ discipline_of self.old }
        ensures answer { result ≡ dequeue_answer (queues.dequeue_call (state_of self.old).queue) }
        ensures left { state_of self.new ≡ after_leaving (state_of self.old) (queues.dequeue_call (state_of self.old).queue) }
    {
        match self {
            AnyQueue::Plain(queue) => queue.try_dequeue(),
            AnyQueue::Ranked(queue) => queue.try_dequeue(),
        }
    }

    /// Dequeue_Only_High_Priority (A.18.30).
    pub fn high_only(&mut self, at_least: i64) -> Option<i64>
        requires { discipline_of self.old ≡ by_priority }
        ensures kind { discipline_of self.new ≡ discipline_of self.old }
        ensures answer { result ≡ (queues.high_only_call (state_of self.old).queue at_least).answer }
        ensures left { state_of self.new ≡ after_leaving (state_of self.old) (queues.high_only_call (state_of self.old).queue at_least) }
    {
        match self {
            AnyQueue::Ranked(queue) => queue.high_only(at_least),
            AnyQueue::Plain(_) => unreachable!(),
        }
    }
}
