//! The plain queue.
ghost use Rattle.std.specs.Prelude.{◌≡◌, ◌≤◌, false, pos, length, max, IsOk, IfOk, OnErr, OnOk};
ghost use Rattle.std.specs.Bool.{Decides};
ghost use Rattle.ac_base.specs.declared.limit.TheConstants.{GREATEST_LENGTH};
ghost use Rattle.ac_base.specs.Limits.{is_past};
ghost use Rattle.std.specs.List.{slice_get};
ghost use Rattle.ac_model.specs.Queues as queues;
ghost use Rattle.ac_model.specs.Queues.{LimitInRange, by_arrival};
ghost use Rattle.ac_queue.specs.QueueStates.{IsQueueState, new_state, with_spare, with_peak};
ghost use Rattle.ac_queue.specs.QueueCalls.{HasSpareFor, enqueue_answer, dequeue_answer, after_enqueue, after_leaving};

use crate::answers::{Dequeued, Enqueued};
use crate::line::Line;
use ac_base::{Limit, NoMemory};
use std::alloc::Global;
use std::marker::Model;

/// A queue of integers in order of arrival (A.18.28, and A.18.29 for the bounded one).
#[derive(Drop)]
pub struct Queue {
    line: Line,
}

impl Model for Queue {
    ghost use Rattle.ac_queue.specs.QueueStates.{QueueState, state_code};

    ghost Value = { QueueState };

    ghost coded = { state_code };

    ghost view = { λ q. q.line };
}

impl Queue {
    /// An empty queue. A bounded one takes all its memory here.
    pub fn new(alloc: Global, limit: Limit) -> Result<Queue, NoMemory>
        requires { LimitInRange limit }
        ensures { IfOk result (λ made. made ≡ new_state limit) }
    {
        Ok(Queue {
            line: Line::new(alloc, limit)?,
        })
    }

    /// What holds of every queue, for proofs alone.
    pub fn law(&self)
        ensures { IsQueueState by_arrival self.now }
    {
        self.line.law();
    }

    pub fn limit(&self) -> Limit
        ensures { result ≡ self.now.queue.limit }
    {
        self.line.limit()
    }

    /// Whether it is bounded and holds as many items as it may: then an Enqueue would wait.
    pub fn is_full(&self) -> bool
        ensures { result ≡ queues.is_full self.now.queue }
    {
        self.line.is_full()
    }

    /// Current_Use (A.18.27).
    pub fn current_use(&self) -> u64
        ensures use_now { pos result ≡ queues.current_use_call self.now.queue }
        ensures bound { result ≤ GREATEST_LENGTH }
    {
        self.line.len()
    }

    /// Peak_Use (A.18.27).
    pub fn peak_use(&self) -> u64
        ensures use_most { pos result ≡ queues.peak_use_call self.now.queue }
        ensures bound { result ≤ GREATEST_LENGTH }
    {
        self.line.peak()
    }

    /// How many more items take no memory.
    pub fn spare(&self) -> u64
        ensures { result ≡ self.now.spare }
    {
        self.line.spare()
    }

    /// The item at this place, from 0 at the front.
    pub fn item(&self, place: u64) -> Option<i64>
        ensures { result ≡ slice_get self.now.queue.items place }
    {
        self.line.item(place)
    }

    /// Whether limits, items and peaks are the same.
    pub fn same(&self, other: &Queue) -> bool
        ensures { Decides result (self.now.queue ≡ other.now.queue) }
    {
        self.line.same(&other.line)
    }

    /// A queue with the same items and the same spare.
    pub fn copy(&self) -> Result<Queue, NoMemory>
        ensures { IfOk result (λ made. made ≡ self.now) }
    {
        Ok(Queue {
            line: self.line.copy()?,
        })
    }

    /// Makes the spare at least n.
    pub fn reserve(&mut self, n: u64) -> Result<(), NoMemory>
        ensures ok { OnOk result (self.new ≡ with_spare self.old n) }
        ensures err { OnErr result (self.new ≡ self.old) }
        ensures in_place { n ≤ self.old.spare → IsOk result }
    {
        self.line.reserve(n)
    }

    /// Sets the greatest number of items held so far (Peak_Use, A.18.27).
    pub fn restore_peak(&mut self, peak: u64)
        requires held { length self.old.queue.items ≤ peak }
        requires limit { is_past self.old.queue.limit peak ≡ false }
        requires greatest { peak ≤ GREATEST_LENGTH }
        ensures { self.new ≡ with_peak self.old peak }
    {
        self.line.restore_peak(peak);
    }

    /// Enqueue (A.18.27).
    pub fn try_enqueue(&mut self, item: i64) -> Enqueued
        requires { HasSpareFor self.old (queues.enqueue_call by_arrival self.old.queue item) }
        ensures answer { result ≡ enqueue_answer (queues.enqueue_call by_arrival self.old.queue item) }
        ensures left { self.new ≡ after_enqueue by_arrival self.old item }
    {
        if self.line.is_full() {
            return Enqueued::WouldWait;
        }
        if self.line.is_too_long() {
            return Enqueued::TooLong;
        }
        self.line.put_last(item);
        Enqueued::Took
    }

    /// Dequeue (A.18.27).
    pub fn try_dequeue(&mut self) -> Dequeued
        ensures answer { result ≡ dequeue_answer (queues.dequeue_call self.old.queue) }
        ensures left { self.new ≡ after_leaving self.old (queues.dequeue_call self.old.queue) }
    {
        match self.line.take_first() {
            None => Dequeued::WouldWait,
            Some(item) => Dequeued::Got(item),
        }
    }
}
