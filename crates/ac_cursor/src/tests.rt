ghost use Rattle.std.specs.Prelude.{true, refl};

use super::*;
use crate::examples::{count_under_guard, held_once, released_once};
use ac_base::Reason;
use std::marker::Model;
use std::test::Fail;

#[test]
fn the_last_number_is_never_given(rt: HostRuntime) -> Result<(), Fail> {
    let mut mint = TagMint::starting_at(u64::MAX - 1);
    let tag = mint.next().ok_or("no tag")?;
    assert!(rt; tag.number() == u64::MAX - 1);
    assert!(rt; mint.next().is_none());
    assert!(rt; mint.next().is_none());
    Ok(())
}

#[test]
fn numbers_run_from_one(rt: HostRuntime) -> Result<(), Fail> {
    let mut mint = TagMint::new();
    for number in [1, 2, 3] {
        assert!(rt; mint.next().ok_or("no tag")?.number() == number);
    }
    Ok(())
}

#[test]
fn guards_forbid_by_class(rt: HostRuntime) -> Result<(), Fail> {
    let mut guards = Guards::new(TagMint::starting_at(7).next().ok_or("no tag")?);
    assert!(rt; guards.number() == 7);
    let elements = guards.hold(GuardKind::Elements);
    assert!(rt; guards.forbids(Class::Cursors) == Some(Reason::ElementTampering));
    assert!(rt; guards.forbids(Class::Elements) == Some(Reason::ElementTampering));
    let cursors = guards.hold(GuardKind::Cursors);
    assert!(rt; guards.forbids(Class::Cursors) == Some(Reason::CursorTampering));
    assert!(rt; guards.forbids(Class::Elements) == Some(Reason::ElementTampering));
    guards.release(elements);
    assert!(rt; guards.count(GuardKind::Elements) == 0);
    assert!(rt; guards.forbids(Class::Elements) == None);
    guards.release(cursors);
    assert!(rt; guards.forbids(Class::Cursors) == None);
    Ok(())
}

/// A set that never has an element, and a limit that its guards leave alone.
#[derive(Drop)]
struct EmptySet {
    guards: Guards,
    limit: u64,
}

impl Model for EmptySet {
    ghost use Rattle.std.specs.Prelude.{ℕ};
    ghost use Rattle.ac_base.specs.Guards.{GuardCounts};

    ghost Value = { GuardCounts × ℕ };

    ghost view = { λ set. (set.guards, set.limit) };
}

impl Guarded for EmptySet {
    ghost is_set = { λ _. true };

    ghost guards = { λ set. set.0 };

    ghost with_guards = { λ set counts. (counts, set.1) };

    ghost guards_given = { λ _ _. refl };

    ghost guards_own = { λ _. refl };

    ghost rest_kept = { λ _ _ _. refl };

    ghost set_kept = { λ _ _. refl };

    fn hold(&mut self, _kind: GuardKind) -> GuardKey {
        self.guards.hold(GuardKind::Cursors)
    }

    fn release(&mut self, key: GuardKey) {
        self.guards.release(key)
    }

    fn held(&self, kind: GuardKind) -> u64 {
        self.guards.held(kind)
    }
}

#[test]
fn guards_through_the_bound(rt: HostRuntime) -> Result<(), Fail> {
    let mut guards = Guards::new(TagMint::new().next().ok_or("no tag")?);
    let key = held_once(&mut guards, GuardKind::Elements);
    assert!(rt; guards.held(GuardKind::Elements) == 1);
    released_once(&mut guards, key);
    assert!(rt; guards.held(GuardKind::Elements) == 0);
    assert!(rt; count_under_guard(&mut guards, GuardKind::Elements) == 1);
    Ok(())
}

#[test]
fn a_set_has_cursor_guards_alone(rt: HostRuntime) -> Result<(), Fail> {
    let guards = Guards::new(TagMint::new().next().ok_or("no tag")?);
    let mut set = EmptySet { guards, limit: 5 };
    let key = set.hold(GuardKind::Elements);
    assert!(rt; set.held(GuardKind::Cursors) == 1);
    assert!(rt; set.held(GuardKind::Elements) == 0);
    set.release(key);
    assert!(rt; count_under_guard(&mut set, GuardKind::Elements) == 0);
    assert!(rt; count_under_guard(&mut set, GuardKind::Cursors) == 1);
    assert!(rt; set.limit == 5);
    Ok(())
}
