//! What callers know of stabilised views.
ghost use Rattle.std.specs.Prelude.{◌≡◌, ◌<◌, Err};
ghost use Rattle.ac_base.specs.Guards.{count_of, one_more, raised_kind};
ghost use Rattle.ac_model.specs.Holders as holders;
ghost use Rattle.ac_forms.specs.HolderForms.{Does};

use crate::holder::Holder;
use crate::stable::Stable;
use ac_base::{Elem, Fault, Reason};
use ac_cursor::{GuardKind, Guarded};

/// How many guards of the kind an object has under a view, whose end leaves the object as it was.
pub fn count_in_view<C: Guarded>(object: &mut C, kind: GuardKind) -> u64
    requires { count_of (raised_kind (C.is_set object.old) GuardKind.Elements) (C.guards object.old) < u64.MAX }
    ensures count { let held = raised_kind (C.is_set object.old) GuardKind.Elements in
        result ≡ count_of kind (one_more held (C.guards object.old)) }
    ensures same { object.new ≡ object.old }
{
    let counted = Stable::new(object);
    let count = counted.view().held(kind);
    counted.close();
    count
}

/// Under a view no other element takes the place of a holder's, and its end leaves the holder as it was.
pub fn cleared_in_view<T: Elem>(holder: &mut Holder<T>) -> Result<(), Fault>
    requires { holder.old.element_guards < u64.MAX }
    ensures refused { result ≡ Err (Fault.Raised Reason.ElementTampering) }
    ensures same { holder.new ≡ holder.old }
{
    let mut stable = Stable::new(holder);
    let refused = stable.base().clear();
    stable.close();
    refused
}

/// A write under a view is what it is without.
pub fn written_in_view<T: Elem>(holder: &mut Holder<T>, e: T) -> Result<(), Fault>
    requires { holder.old.element_guards < u64.MAX }
    ensures { Does (λ h. holders.write_call T.size_of h e) holder.old holder.new result }
{
    let mut stable = Stable::new(holder);
    let written = stable.base().write(e);
    stable.close();
    written
}
