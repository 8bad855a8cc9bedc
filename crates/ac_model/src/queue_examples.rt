//! Examples of queue calls.
ghost use Rattle.std.specs.Prelude.{◌≡◌, ◌∷◌, [], ℕ, ℤ, pos, negsuc, true, false, None, Some};
ghost use Rattle.ac_base.specs.declared.limit.Limit.TheVariants.{Unbounded, Bounded};
ghost use Rattle.ac_model.specs.Queues as queue;
ghost use Rattle.ac_model.specs.Queues.{by_arrival, by_priority, empty_queue};
ghost use Rattle.ac_model.specs.Examples.{queue_of};

/// A queue call waits where the queue is empty or full, and the peak is the greatest number held so far.
pub fn waits()
    ensures empty { (queue.dequeue_call (empty_queue Unbounded)).waits ≡ true }
    ensures peak_of_none { queue.peak_use_call (empty_queue Unbounded) ≡ pos 0 }
    ensures full { let one = (queue.enqueue_call by_arrival (empty_queue (Bounded 1)) (pos 1)).after in
        ((queue.enqueue_call by_arrival one (pos 2)).waits ≡ true)
        × ((queue.dequeue_call one).waits ≡ false)
        × ((queue.dequeue_call one).answer ≡ Some (pos 1))
        × (queue.peak_use_call (queue.dequeue_call one).after ≡ pos 1) }
    ensures in_order { let one = (queue.enqueue_call by_arrival (empty_queue Unbounded) (pos 1)).after in
        let two = (queue.enqueue_call by_arrival one (pos 2)).after in
        ((queue.dequeue_call two).answer ≡ Some (pos 1)) × (queue.peak_use_call two ≡ pos 2) }
{}

/// In a priority queue an item goes after all that aren't of lower priority.
pub fn ranked()
    ensures lined_up { let one = (queue.enqueue_call by_priority (empty_queue Unbounded) (pos 150)).after in
        let two = (queue.enqueue_call by_priority one (pos 210)).after in
        (queue.enqueue_call by_priority two (pos 199)).after.items ≡ pos 210 ∷ pos 150 ∷ pos 199 ∷ [] }
    ensures too_low { let q = queue_of (pos 210 ∷ pos 150 ∷ pos 199 ∷ []) in
        ((queue.high_only_call q (pos 3)).answer ≡ None) × ((queue.high_only_call q (pos 3)).after ≡ q) }
    ensures high { (queue.high_only_call (queue_of (pos 150 ∷ pos 199 ∷ [])) (pos 1)).answer ≡ Some (pos 150) }
    ensures toward_zero { (queue.high_only_call (queue_of (negsuc 98 ∷ [])) (pos 0)).answer ≡ Some (negsuc 98) }
{}

/// What a queue holds now, and the most that it held.
pub fn used()
    ensures now { queue.current_use_call (queue_of (pos 4 ∷ pos 5 ∷ [])) ≡ pos 2 }
    ensures none_now { let left = (queue.dequeue_call (queue_of (pos 4 ∷ []))).after in
        (queue.current_use_call left ≡ pos 0) × (queue.peak_use_call left ≡ pos 1) }
    ensures again { let left = (queue.dequeue_call (queue_of (pos 4 ∷ pos 5 ∷ []))).after in
        let again = (queue.enqueue_call by_arrival left (pos 6)).after in
        (again.items ≡ pos 5 ∷ pos 6 ∷ []) × (queue.peak_use_call again ≡ pos 2) }
{}

/// Enqueue adds at the back, and in a priority queue behind those of the same priority.
pub fn added()
    ensures at_the_back { (queue.enqueue_call by_arrival (queue_of (pos 150 ∷ [])) (pos 900)).after.items ≡ pos 150 ∷ pos 900 ∷ [] }
    ensures in_front { (queue.enqueue_call by_priority (queue_of (pos 150 ∷ [])) (pos 900)).after.items ≡ pos 900 ∷ pos 150 ∷ [] }
    ensures behind_equals { (queue.enqueue_call by_priority (queue_of (pos 199 ∷ pos 50 ∷ [])) (pos 100)).after.items
        ≡ pos 199 ∷ pos 100 ∷ pos 50 ∷ [] }
    ensures not_full { let c = queue.enqueue_call by_arrival (queue_of []) (pos 1) in (c.waits ≡ false) × (c.reason ≡ None) }
    ensures not_yet_full { (queue.enqueue_call by_arrival (empty_queue (Bounded 1)) (pos 1)).waits ≡ false }
    ensures full_from_the_start { (queue.enqueue_call by_arrival (empty_queue (Bounded 0)) (pos 1)).waits ≡ true }
{}

/// The head alone is looked at, and it leaves where its priority isn't below the one asked for. Nothing waits.
pub fn taken_by_priority()
    ensures taken { let c = queue.high_only_call (queue_of (pos 150 ∷ pos 20 ∷ [])) (pos 1) in
        (c.answer ≡ Some (pos 150)) × (c.after.items ≡ pos 20 ∷ []) × (queue.peak_use_call c.after ≡ pos 2) × (c.waits ≡ false) }
    ensures none { let c = queue.high_only_call (queue_of []) (negsuc 8) in (c.answer ≡ None) × (c.waits ≡ false) }
    ensures below { let c = queue.high_only_call (queue_of (pos 199 ∷ [])) (pos 2) in
        (c.answer ≡ None) × (c.after.items ≡ pos 199 ∷ []) × (c.waits ≡ false) }
    ensures minus_one { (queue.high_only_call (queue_of (negsuc 99 ∷ [])) (pos 0)).answer ≡ None }
{}
