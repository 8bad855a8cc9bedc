//! Laws of the calls' records, which a script's meaning cites.
ghost use Rattle.std.specs.Prelude.{◌≡◌, Bool, List, ◌∷◌, Option};
ghost use Rattle.ac_base.specs.declared.reason.Reason.{Reason};
ghost use Rattle.ac_base.specs.FirstReason.{first_reason};
ghost use Rattle.ac_model.specs.Calls.{call, after_check};

/// A check before a call is the first of the call's reasons, and changes nothing else.
pub fn checked_first<S, A>()
    ensures { (check : Option Reason) (others : List (Option Reason)) (memory : Bool) (after : S) (answer : A) →
        after_check check (call memory (first_reason others) after answer) ≡ call memory (first_reason (check ∷ others)) after answer }
{}
