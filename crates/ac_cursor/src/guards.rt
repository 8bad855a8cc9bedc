ghost use Rattle.std.specs.Prelude.{◌≡◌, ◌<◌, Bool, false, refl};
ghost use Rattle.ac_base.specs.Tampering.{forbids};
ghost use Rattle.ac_base.specs.Guards.{GuardCounts, count_of, one_more, one_less, raised_kind};

use crate::mint::Tag;
use ac_base::{Class, GuardKind, Reason};
use std::marker::Model;

/// A guard that is held. Its object releases it: a key can't be dropped, so no guard is forgotten.
pub struct GuardKey {
    object: u64,
    kind: GuardKind,
}

impl Model for GuardKey {
    ghost use Rattle.ac_base.specs.Guards.{HeldGuard};

    ghost Value = { HeldGuard };

    ghost view = { λ key. record { object = key.object; kind = key.kind } };
}

/// An object that guards can be held on.
pub trait Guarded {
    /// Whether the object is a set.
    ghost is_set: { Self → Bool };

    /// The object's number, and the counts of its guards.
    ghost guards: { Self → GuardCounts };

    /// The object with this number and these counts. All else that it has, its rest, is the same.
    ghost with_guards: { Self → GuardCounts → Self };

    /// Holds one guard more. On a set it is a cursor guard, whatever the kind.
    fn hold(&mut self, kind: GuardKind) -> GuardKey
        requires { count_of (raised_kind (is_set self.old) kind) (guards self.old) < u64.MAX }
        ensures object { result.object ≡ (guards self.old).number }
        ensures kind { result.kind ≡ raised_kind (is_set self.old) kind }
        ensures held { self.new ≡ with_guards self.old (one_more result.kind (guards self.old)) };

    /// Releases the guard of the key.
    fn release(&mut self, key: GuardKey)
        requires own { key.object ≡ (guards self.old).number }
        requires held { 0 < count_of key.kind (guards self.old) }
        ensures { self.new ≡ with_guards self.old (one_less key.kind (guards self.old)) };

    /// How many guards of the kind are held.
    fn held(&self, kind: GuardKind) -> u64
        ensures { result ≡ count_of kind (guards self.now) };

    /// The number and the counts that an object is given are its own.
    ghost guards_given: { (object : Self) (counts : GuardCounts) → guards (with_guards object counts) ≡ counts };

    /// An object that is given its own number and counts is itself.
    ghost guards_own: { (object : Self) → with_guards object (guards object) ≡ object };

    /// The rest keeps nothing of an earlier number or earlier counts.
    ghost rest_kept: { (object : Self) (counts others : GuardCounts) → with_guards (with_guards object counts) others ≡ with_guards object others };

    /// Whether it is a set is of the rest.
    ghost set_kept: { (object : Self) (counts : GuardCounts) → is_set (with_guards object counts) ≡ is_set object };
}

/// The guards of one object: how many of each kind are held.
#[derive(Drop)]
pub struct Guards {
    tag: Tag,
    cursor_guards: u64,
    element_guards: u64,
}

impl Model for Guards {
    ghost use Rattle.ac_base.specs.Guards.{GuardCounts};

    ghost Value = { GuardCounts };

    ghost view = { λ guards. record { number = guards.tag; cursor_guards = guards.cursor_guards; element_guards = guards.element_guards } };
}

impl Guards {
    /// No guards, on the object of this number.
    pub fn new(tag: Tag) -> Guards
        ensures { result ≡ record { number = tag; cursor_guards = 0; element_guards = 0 } }
    {
        Guards {
            tag,
            cursor_guards: 0,
            element_guards: 0,
        }
    }

    /// The object's number.
    pub fn number(&self) -> u64
        ensures { result ≡ self.now.number }
    {
        self.tag.number()
    }

    /// How many guards of the kind are held.
    pub fn count(&self, kind: GuardKind) -> u64
        ensures { result ≡ count_of kind self.now }
    {
        match kind {
            GuardKind::Cursors => self.cursor_guards,
            GuardKind::Elements => self.element_guards,
        }
    }

    /// Why a call of the class is refused, if the guards that are held forbid it.
    pub fn forbids(&self, class: Class) -> Option<Reason>
        ensures { result ≡ forbids class self.now.cursor_guards self.now.element_guards }
    {
        match class {
            Class::Cursors if self.cursor_guards > 0 => Some(Reason::CursorTampering),
            _ if self.element_guards > 0 => Some(Reason::ElementTampering),
            _ => None,
        }
    }
}

impl Guarded for Guards {
    ghost is_set = { λ _. false };

    ghost guards = { λ counts. counts };

    ghost with_guards = { λ _ counts. counts };

    ghost guards_given = { λ _ _. refl };

    ghost guards_own = { λ _. refl };

    ghost rest_kept = { λ _ _ _. refl };

    ghost set_kept = { λ _ _. refl };

    fn hold(&mut self, kind: GuardKind) -> GuardKey {
        match kind {
            GuardKind::Cursors => self.cursor_guards += 1,
            GuardKind::Elements => self.element_guards += 1,
        }
        GuardKey {
            object: self.tag.number(),
            kind,
        }
    }

    fn release(&mut self, key: GuardKey) {
        let GuardKey { object: _, kind } = key;
        match kind {
            GuardKind::Cursors => self.cursor_guards -= 1,
            GuardKind::Elements => self.element_guards -= 1,
        }
    }

    fn held(&self, kind: GuardKind) -> u64 {
        self.count(kind)
    }
}
