//! The stabilised view of a container.
ghost use Rattle.std.specs.Prelude.{◌≡◌, ◌<◌};
ghost use Rattle.std.specs.Borrow.{sem};
ghost use Rattle.ac_base.specs.Guards.{count_of, one_less, one_more, raised_kind};
ghost use Rattle.ac_forms.specs.StableLends.{LendsBase};

use ac_cursor::{GuardKey, GuardKind, Guarded};

/// A container (A.18.2 and its kin) under a guard from `new` to `close`: an element guard, on a set a cursor guard. Calls
/// through `base` that would add, take or replace elements are refused. A view can't be dropped, so its guard is released.
pub struct Stable<'a, C: Guarded> {
    base: &'a mut C,
    key: GuardKey,
}

impl<'a, C: Guarded> Stable<'a, C> {
    pub fn new(of: &'a mut C) -> Stable<'a, C>
        requires { count_of (raised_kind (C.is_set of.old) GuardKind.Elements) (C.guards of.old) < u64.MAX }
        ensures same_reference { result.base.ghost_name ≡ of.entry.ghost_name }
        ensures object { result.key.object ≡ (C.guards of.old).number }
        ensures kind { result.key.kind ≡ raised_kind (C.is_set of.old) GuardKind.Elements }
        ensures held { result.base.now ≡ C.with_guards of.old (one_more result.key.kind (C.guards of.old)) }
    {
        let key = of.hold(GuardKind::Elements);
        Stable { base: of, key }
    }

    /// The container, to be looked at.
    pub fn view(&self) -> &C
        ensures { result.now ≡ self.now.base.now }
    {
        self.base
    }

    /// The container, to be changed as the guard allows.
    pub fn base(&mut self) -> &mut C
        ensures* writes_back { sem 𝓛 (LendsBase C.row self.entry result) }
        ensures value { result.now ≡ self.old.base.now }
    {
        self.base
    }

    /// Releases the guard. The container has the number that it had at `new`, and a guard of the kind that is held.
    pub fn close(self)
        requires own { self.key.object ≡ (C.guards self.base.now).number }
        requires held { 0 < count_of self.key.kind (C.guards self.base.now) }
        ensures { self.exit.0.now ≡ C.with_guards self.entry.base.now (one_less self.entry.key.kind (C.guards self.entry.base.now)) }
    {
        let Stable { base, key } = self;
        base.release(key);
    }
}
