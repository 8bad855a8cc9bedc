//! The queues of a block of tasks, which are lent to it while it runs.
ghost use Rattle.std.specs.Prelude.{◌≡◌, ◌+◌, map, replicate, IfOk, OnErr, Some};
ghost use Rattle.ac_queue.specs.Shared.{shared};
ghost use Rattle.ac_meaning.specs.TaskBlocks.{queues_at, queues_left, no_queue};
ghost use Rattle.ac_objects.specs.Lent.{StandOnce, QueuesLent, bound_with, put_queue, put_queues, queue_held, queue_or, queue_out, queues_out};
ghost use Rattle.ac_objects.specs.Standing.{counts_of};
ghost use Rattle.ac_objects.specs.World.{state_of, Persists};

use crate::bound::Bound;
use crate::object::Object;
use crate::objects::Objects;
use ac_base::{Limit, NoMemory};
use ac_queue::{AnyQueue, Queue};
use std::alloc::Global;
use std::cmp::min;
use std::mem::swap;

impl Objects {
    /// Takes the queues at these places out, in their order, as a block of tasks begins that shares them. Others stand there, until
    /// they are returned.
    pub fn lend_queues(&mut self, places: &[usize]) -> Result<Vec<AnyQueue>, NoMemory>
        requires { StandOnce places.now }
        ensures queues { IfOk result (λ queues. map shared queues.items ≡ queues_at (state_of self.old) places.now) }
        ensures lent { IfOk result (λ _. QueuesLent places.now (state_of self.old) (state_of self.new)) }
        ensures persists { Persists self.old self.new }
        ensures counts { counts_of (state_of self.new) ≡ counts_of (state_of self.old) }
        ensures fault { OnErr result (self.new ≡ self.old) }
    {
        let blocks = one_more(self.blocks)?;
        let mut queues = stand_ins(self.alloc, places.len())?;
        exchange_all(&mut self.bounds, places, &mut queues);
        self.blocks = blocks;
        Ok(queues)
    }

    /// Puts queues back at these places, where others stood.
    pub fn return_queues(&mut self, places: &[usize], queues: Vec<AnyQueue>)
        ensures returned { state_of self.new ≡ queues_left places.now (map shared queues.items) (state_of self.old) }
        ensures persists { Persists self.old self.new }
        ensures counts { counts_of (state_of self.new) ≡ counts_of (state_of self.old) }
    {
        let mut queues = queues;
        exchange_all(&mut self.bounds, places, &mut queues);
    }
}

/// The next count, where 64 bits hold it.
fn one_more(count: u64) -> Result<u64, NoMemory>
    ensures { IfOk result (λ more. more ≡ count + 1) }
{
    count.checked_add(1).ok_or(NoMemory)
}

/// As many plain queues, unbounded and without items.
fn stand_ins(alloc: Global, count: usize) -> Result<Vec<AnyQueue>, NoMemory>
    ensures { IfOk result (λ made. map shared made.items ≡ replicate count no_queue) }
{
    let mut made = Vec::with_capacity(alloc, count)?;
    for _i in 0..count {
        made.push_reserved(AnyQueue::Plain(Queue::new(alloc, Limit::Unbounded)?));
    }
    Ok(made)
}

/// Exchanges the queues at these places and those that are given, one after another.
fn exchange_all(bounds: &mut Vec<Bound>, places: &[usize], queues: &mut Vec<AnyQueue>)
    ensures put { bounds.new.items ≡ put_queues places.now queues.old.items bounds.old.items }
    ensures out { queues.new.items ≡ queues_out places.now queues.old.items bounds.old.items }
{
    for i in 0..min(places.len(), queues.len()) {
        exchange(bounds, places[i], &mut queues[i]);
    }
}

/// Exchanges the queue at the place, if one stands there.
fn exchange(bounds: &mut Vec<Bound>, place: usize, queue: &mut AnyQueue)
    ensures put { bounds.new.items ≡ put_queue place queue.old bounds.old.items }
    ensures out { queue.new ≡ queue_out place queue.old bounds.old.items }
{
    match bounds.get_mut(place) {
        None => {}
        Some(bound) => exchange_in(bound, queue),
    }
}

fn exchange_in(bound: &mut Bound, queue: &mut AnyQueue)
    ensures put { bound.new ≡ bound_with queue.old bound.old }
    ensures out { queue.new ≡ queue_or queue.old (queue_held (Some bound.old)) }
{
    if let Bound::Object(Object::Queue(held)) = bound {
        swap(&mut held.queue, queue);
    }
}
