//! Containers used from Rattle: what README shows of it, and what a caller knows of each call.
#![tactic(auto)]

ghost use Rattle.std.specs.Prelude.{◌≡◌, ◌<◌, ◌∷◌, [], pos, Err, IfOk};
ghost use Rattle.ac_model.specs.Objects.{contents, plain};

use ac_base::{Fault, Limit, Reason};
use ac_cursor::{GuardKind, Guarded, Tag};
use ac_list::List;
use std::alloc::Global;

/// Under a guard as a loop holds it, an Append is refused, and the list is as it was.
#[tactic(auto, using(crate::proofs::Calls::refused_under_guard))]
pub fn append_in_loop(list: &mut List<i64>, e: i64) -> Result<(), Fault>
    requires { list.old.object.cursor_guards < u64.MAX }
    ensures refused { result ≡ Err (Fault.Raised Reason.CursorTampering) }
    ensures same { list.new ≡ list.old }
{
    let guard = list.hold(GuardKind::Cursors);
    let refused = list.append(e, 1);
    list.release(guard);
    refused
}

/// A list of 5 and 7: a third number doesn't come while a guard is held.
#[tactic(auto, using(crate::proofs::Calls::two_values, crate::proofs::Calls::no_guards))]
pub fn two_numbers(alloc: Global, tag: Tag) -> Result<List<i64>, Fault>
    ensures { IfOk result (λ list. contents (plain list.object) ≡ pos 5 ∷ pos 7 ∷ []) }
{
    let mut list = List::new(alloc, tag, Limit::Unbounded)?;
    list.append(5, 1)?;
    list.append(7, 1)?;
    let guard = list.hold(GuardKind::Cursors); // as a loop does
    let _refused = list.append(9, 1); // cursor tampering: nothing changes
    list.release(guard);
    Ok(list)
}
