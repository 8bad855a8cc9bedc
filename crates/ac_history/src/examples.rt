//! Worked histories of task blocks.
ghost use Rattle.std.specs.Prelude.{◌≡◌, ◌∷◌, [], pos, true, false, map};
ghost use Rattle.ac_base.specs.declared.limit.Limit.TheVariants.{Unbounded, Bounded};
ghost use Rattle.ac_base.specs.declared.reason.Reason.TheVariants.{Overflow};
ghost use Rattle.ac_history.specs.declared.entry.Reply.TheVariants as reply;
ghost use Rattle.ac_history.specs.Histories.{IsLegal, entry, is_able, replay};
ghost use Rattle.ac_model.specs.Queues.{TaskQueue};
ghost use Rattle.ac_history.specs.Examples.{pass_on, too_great};

/// Through a queue of one item, the two tasks go by turns: this history is the only one.
pub fn by_turns()
    ensures legal { IsLegal (pass_on (Bounded 1))
        (entry 0 0 reply.Done ∷ entry 1 0 (reply.Number (pos 1)) ∷ entry 0 1 reply.Done ∷ entry 1 1 (reply.Number (pos 2)) ∷ []) }
    ensures first { (is_able (pass_on (Bounded 1)) 0 ≡ true) × (is_able (pass_on (Bounded 1)) 1 ≡ false) }
    ensures then { let s = replay (pass_on (Bounded 1)) (entry 0 0 reply.Done ∷ []) in
        (is_able s 0 ≡ false) × (is_able s 1 ≡ true) }
{}

/// With room for two items the first task may go first, or the two by turns.
pub fn in_two_ways()
    ensures first { IsLegal (pass_on (Bounded 2))
        (entry 0 0 reply.Done ∷ entry 0 1 reply.Done ∷ entry 1 0 (reply.Number (pos 1)) ∷ entry 1 1 (reply.Number (pos 2)) ∷ []) }
    ensures by_turns { IsLegal (pass_on (Bounded 2))
        (entry 0 0 reply.Done ∷ entry 1 0 (reply.Number (pos 1)) ∷ entry 0 1 reply.Done ∷ entry 1 1 (reply.Number (pos 2)) ∷ []) }
    ensures not_the_last { IsLegal (pass_on (Bounded 2))
        (entry 0 0 reply.Done ∷ entry 0 1 reply.Done ∷ entry 1 0 (reply.Number (pos 2)) ∷ []) → ⊥ }
    ensures not_while_empty { IsLegal (pass_on (Bounded 2)) (entry 1 0 reply.No ∷ []) → ⊥ }
    ensures not_out_of_order { IsLegal (pass_on (Bounded 2)) (entry 0 1 reply.Done ∷ []) → ⊥ }
{}

/// A sum outside the integers is refused, and its local stays as it was.
pub fn overflows()
    ensures legal { IsLegal too_great
        (entry 0 0 (reply.Number (pos 9223372036854775807)) ∷ entry 0 1 (reply.Raised Overflow) ∷ entry 0 2 reply.Done ∷ []) }
    ensures left { let s = replay too_great
        (entry 0 0 (reply.Number (pos 9223372036854775807)) ∷ entry 0 1 (reply.Raised Overflow) ∷ entry 0 2 reply.Done ∷ []) in
        (map (λ (q : TaskQueue). q.queue.items) s.queues ≡ (pos 9223372036854775807 ∷ []) ∷ []) × (is_able s 0 ≡ false) }
{}
