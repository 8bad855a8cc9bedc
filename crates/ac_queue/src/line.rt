//! What queues of both kinds have in common: items in a line, with a limit and a peak.
ghost use Rattle.std.specs.Prelude.{◌≡◌, ◌+◌, ◌-◌, ◌<◌, ◌≤◌, ◌∷◌, ◌++◌, length, take, drop, [], true, false, not, max, IsOk, IfOk, OnErr, OnOk};
ghost use Rattle.std.specs.Bool.{Decides};
ghost use Rattle.ac_base.specs.declared.limit.TheConstants.{GREATEST_LENGTH};
ghost use Rattle.ac_base.specs.Limits.{is_past};
ghost use Rattle.std.specs.List.{slice_get, prefix_len};
ghost use Rattle.ac_model.specs.Queues.{LimitInRange, by_arrival, are_in_line, comes_before, is_full, is_too_long, front};
ghost use Rattle.ac_queue.specs.QueueStates.{IsQueueState, queue_of, state, first_spare, new_state, with_spare, with_peak};

use crate::priority::priority;
use ac_base::{GREATEST_LENGTH, Limit, NoMemory};
use std::alloc::Global;
use std::cmp::max;
use std::collections::VecDeque;
use std::marker::Model;

#[derive(Drop)]
pub(crate) struct Line {
    limit: Limit,
    items: VecDeque<i64>,
    peak: u64,
    spare: u64,
}

impl Model for Line {
    ghost use Rattle.std.specs.Prelude.{◌+◌, ◌≤◌};
    ghost use Rattle.std.specs.VecDeque.{deque_len, deque_capacity};
    ghost use Rattle.ac_model.specs.Queues.{by_arrival};
    ghost use Rattle.ac_queue.specs.QueueStates.{QueueState, IsQueueState, queue_of, state, state_code};

    ghost Value = { QueueState };

    ghost coded = { state_code };

    ghost view = { λ l. state (queue_of l.limit l.items.items l.peak) l.spare };

    ghost invariant = { λ l. IsQueueState by_arrival (state (queue_of l.limit l.items.items l.peak) l.spare)
        × (deque_len l.items + l.spare ≤ deque_capacity l.items) };
}

impl Line {
    pub(crate) fn new(alloc: Global, limit: Limit) -> Result<Line, NoMemory>
        requires { LimitInRange limit }
        ensures { IfOk result (λ made. made ≡ new_state limit) }
    {
        let spare = spare_at_first(limit);
        Ok(Line {
            limit,
            items: VecDeque::with_capacity(alloc, spare as usize)?,
            peak: 0,
            spare,
        })
    }

    /// What holds of every line, for proofs alone.
    pub(crate) fn law(&self)
        ensures { IsQueueState by_arrival self.now }
    {
        let _items = &self.items;
    }

    /// A line with the same items and the same spare.
    pub(crate) fn copy(&self) -> Result<Line, NoMemory>
        ensures { IfOk result (λ made. made ≡ self.now) }
    {
        let mut items = self.items.clone()?;
        items.reserve(self.spare as usize)?;
        Ok(Line {
            limit: self.limit,
            items,
            peak: self.peak,
            spare: self.spare,
        })
    }

    pub(crate) fn same(&self, other: &Line) -> bool
        ensures { Decides result (self.now.queue ≡ other.now.queue) }
    {
        if self.limit != other.limit {
            return false;
        }
        if self.peak != other.peak {
            return false;
        }
        self.items == other.items
    }

    pub(crate) fn limit(&self) -> Limit
        ensures { result ≡ self.now.queue.limit }
    {
        self.limit
    }

    pub(crate) fn len(&self) -> u64
        ensures len { result ≡ length self.now.queue.items }
        ensures bound { result ≤ GREATEST_LENGTH }
    {
        self.items.len() as u64
    }

    pub(crate) fn peak(&self) -> u64
        ensures peak { result ≡ self.now.queue.peak }
        ensures bound { result ≤ GREATEST_LENGTH }
    {
        self.peak
    }

    pub(crate) fn spare(&self) -> u64
        ensures { result ≡ self.now.spare }
    {
        self.spare
    }

    pub(crate) fn is_full(&self) -> bool
        ensures { result ≡ is_full self.now.queue }
    {
        match self.limit {
            Limit::Unbounded => false,
            Limit::Bounded(most) => most == self.len(),
        }
    }

    pub(crate) fn is_too_long(&self) -> bool
        ensures { result ≡ is_too_long self.now.queue }
    {
        match self.limit {
            Limit::Unbounded => self.len() == GREATEST_LENGTH,
            Limit::Bounded(_) => false,
        }
    }

    pub(crate) fn item(&self, place: u64) -> Option<i64>
        ensures { result ≡ slice_get self.now.queue.items place }
    {
        self.items.get(place as usize).copied()
    }

    /// How many items from the front on aren't of lower priority, in a line by priority.
    pub(crate) fn place_behind(&self, item: i64) -> usize
        requires { are_in_line self.now.queue.items ≡ true }
        ensures bound { result ≤ length self.now.queue.items }
        ensures place { result ≡ prefix_len (λ x. not (comes_before item x)) self.now.queue.items }
    {
        let least = priority(item);
        self.items.partition_point(|x| priority(*x) >= least)
    }

    pub(crate) fn reserve(&mut self, n: u64) -> Result<(), NoMemory>
        ensures ok { OnOk result (self.new ≡ with_spare self.old n) }
        ensures err { OnErr result (self.new ≡ self.old) }
        ensures in_place { n ≤ self.old.spare → IsOk result }
    {
        if n <= self.spare {
            return Ok(());
        }
        self.items.reserve(n as usize)?;
        self.spare = n;
        Ok(())
    }

    /// Puts the item behind all others.
    pub(crate) fn put_last(&mut self, item: i64)
        requires not_full { is_full self.old.queue ≡ false }
        requires not_too_long { is_too_long self.old.queue ≡ false }
        requires spare { 0 < self.old.spare }
        ensures { let q = self.old.queue in
            self.new ≡ state (queue_of q.limit (q.items ++ item ∷ []) (max q.peak (length q.items + 1))) (self.old.spare - 1) }
    {
        self.items.push_back_reserved(item);
        self.peak = max(self.peak, self.items.len() as u64);
        self.spare -= 1;
    }

    /// Puts the item before the one at `place`.
    pub(crate) fn put_at(&mut self, place: usize, item: i64)
        requires place { place ≤ length self.old.queue.items }
        requires not_full { is_full self.old.queue ≡ false }
        requires not_too_long { is_too_long self.old.queue ≡ false }
        requires spare { 0 < self.old.spare }
        ensures { let q = self.old.queue in
            self.new ≡ state (queue_of q.limit (take place q.items ++ item ∷ drop place q.items) (max q.peak (length q.items + 1))) (self.old.spare - 1) }
    {
        let _ = self.items.insert(place, item);
        self.peak = max(self.peak, self.items.len() as u64);
        self.spare -= 1;
    }

    /// The front item leaves, if there is one.
    pub(crate) fn take_first(&mut self) -> Option<i64>
        ensures answer { result ≡ front self.old.queue.items }
        ensures empty { length self.old.queue.items ≡ 0 → self.new ≡ self.old }
        ensures left { let q = self.old.queue in 0 < length q.items →
            self.new ≡ state (queue_of q.limit (drop 1 q.items) q.peak) (self.old.spare + 1) }
    {
        let first = self.items.pop_front()?;
        self.spare += 1;
        Some(first)
    }

    /// Sets the greatest number of items held so far.
    pub(crate) fn restore_peak(&mut self, peak: u64)
        requires held { length self.old.queue.items ≤ peak }
        requires limit { is_past self.old.queue.limit peak ≡ false }
        requires greatest { peak ≤ GREATEST_LENGTH }
        ensures { self.new ≡ with_peak self.old peak }
    {
        self.peak = peak;
    }
}

/// How many items a new queue takes without memory.
fn spare_at_first(limit: Limit) -> u64
    ensures { result ≡ first_spare limit }
{
    match limit {
        Limit::Unbounded => 0,
        Limit::Bounded(most) => most,
    }
}
