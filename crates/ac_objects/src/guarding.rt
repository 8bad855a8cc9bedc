//! The guards that blocks hold on the objects of a script.
ghost use Rattle.std.specs.Prelude.{◌≡◌, ◌<◌, true, false, None, Some};
ghost use Rattle.ac_base.specs.Guards.{raised_kind, count_of, one_more, one_less};
ghost use Rattle.ac_model.specs.Common.{hold_call};
ghost use Rattle.ac_calls.specs.Holdings.{Held, with_rows_by, is_a_set, guard_on, takes_guards};
ghost use Rattle.ac_meaning.specs.Environment.{object_at, guarded_at, objects_by};
ghost use Rattle.ac_meaning.specs.UnderGuards.{held_with, held_without};
ghost use Rattle.ac_objects.specs.Blocks.{HasRoom, HasRoomForTwo, IsHeldAt};
ghost use Rattle.ac_objects.specs.Counts.{with_counts};
ghost use Rattle.ac_objects.specs.Standing.{TakesGuards, counts_in_held};
ghost use Rattle.ac_objects.specs.World.{held_of, state_of, Persists};

use crate::bound::Bound;
use crate::object::Object;
use crate::objects::Objects;
use ac_cursor::{GuardKey, GuardKind, Guarded};

impl Object {
    /// Holds one guard more. On a set it is a cursor guard, whatever the kind.
    #[tactic(auto, unfolding(crate::specs::World::memory_of))]
    fn hold(&mut self, kind: GuardKind) -> GuardKey
        requires takes { takes_guards (held_of self.old) ≡ true }
        requires room { count_of (raised_kind (is_a_set (held_of self.old)) kind) (counts_in_held (held_of self.old)) < u64.MAX }
        ensures object { result.object ≡ (counts_in_held (held_of self.old)).number }
        ensures kind { result.kind ≡ raised_kind (is_a_set (held_of self.old)) kind }
        ensures held { self.new ≡ with_counts self.old (one_more result.kind (counts_in_held (held_of self.old))) }
    {
        match self {
            Object::Integers(sequence) => sequence.hold(kind),
            Object::Texts(sequence) => sequence.hold(kind),
            Object::IntegerSet(set) => set.hold(kind),
            Object::TextSet(set) => set.hold(kind),
            Object::KeyedSet(set) => set.hold(kind),
            Object::IntegersByInteger(map) => map.hold(kind),
            Object::IntegersByText(map) => map.hold(kind),
            Object::TextsByInteger(map) => map.hold(kind),
            Object::TextsByText(map) => map.hold(kind),
            Object::IntegerTree(tree) => tree.hold(kind),
            Object::TextTree(tree) => tree.hold(kind),
            Object::IntegerHolder(holder) => holder.hold(kind),
            Object::TextHolder(holder) => holder.hold(kind),
            Object::Queue(_) => unreachable!(),
        }
    }

    /// Releases the guard of the key.
    #[tactic(auto, unfolding(crate::specs::World::memory_of))]
    pub(crate) fn release(&mut self, key: GuardKey)
        requires own { key.object ≡ (counts_in_held (held_of self.old)).number }
        requires held { 0 < count_of key.kind (counts_in_held (held_of self.old)) }
        ensures { self.new ≡ with_counts self.old (one_less key.kind (counts_in_held (held_of self.old))) }
    {
        match self {
            Object::Integers(sequence) => sequence.release(key),
            Object::Texts(sequence) => sequence.release(key),
            Object::IntegerSet(set) => set.release(key),
            Object::TextSet(set) => set.release(key),
            Object::KeyedSet(set) => set.release(key),
            Object::IntegersByInteger(map) => map.release(key),
            Object::IntegersByText(map) => map.release(key),
            Object::TextsByInteger(map) => map.release(key),
            Object::TextsByText(map) => map.release(key),
            Object::IntegerTree(tree) => tree.release(key),
            Object::TextTree(tree) => tree.release(key),
            Object::IntegerHolder(holder) => holder.release(key),
            Object::TextHolder(holder) => holder.release(key),
            Object::Queue(_) => unreachable!(),
        }
    }

    /// How many guards of the kind are held.
    #[tactic(auto, unfolding(crate::specs::World::memory_of))]
    fn held(&self, kind: GuardKind) -> u64
        ensures { result ≡ count_of kind (counts_in_held (held_of self.now)) }
    {
        match self {
            Object::Integers(sequence) => sequence.held(kind),
            Object::Texts(sequence) => sequence.held(kind),
            Object::IntegerSet(set) => set.held(kind),
            Object::TextSet(set) => set.held(kind),
            Object::KeyedSet(set) => set.held(kind),
            Object::IntegersByInteger(map) => map.held(kind),
            Object::IntegersByText(map) => map.held(kind),
            Object::TextsByInteger(map) => map.held(kind),
            Object::TextsByText(map) => map.held(kind),
            Object::IntegerTree(tree) => tree.held(kind),
            Object::TextTree(tree) => tree.held(kind),
            Object::IntegerHolder(holder) => holder.held(kind),
            Object::TextHolder(holder) => holder.held(kind),
            Object::Queue(_) => 0,
        }
    }

    /// The kind of guard that is held where this one is asked for: of a set, cursor guards alone.
    #[tactic(auto, unfolding(crate::specs::World::memory_of))]
    fn raised(&self, kind: GuardKind) -> GuardKind
        ensures { result ≡ raised_kind (is_a_set (held_of self.now)) kind }
    {
        match self {
            Object::IntegerSet(_) | Object::TextSet(_) | Object::KeyedSet(_) => GuardKind::Cursors,
            _ => kind,
        }
    }

    /// Whether guards are held on it, as on every object but a queue.
    #[tactic(auto, unfolding(crate::specs::World::memory_of))]
    fn takes_guards(&self) -> bool
        ensures { result ≡ takes_guards (held_of self.now) }
    {
        match self {
            Object::Queue(_) => false,
            _ => true,
        }
    }
}

impl Objects {
    /// Whether an object stands at the place that takes guards.
    pub fn takes_guards(&self, place: usize) -> bool
        ensures yes { result ≡ true → TakesGuards (state_of self.now) place }
        ensures no { result ≡ false → guarded_at (state_of self.now) place ≡ None }
    {
        match self.object_at(place) {
            Some(object) => object.takes_guards(),
            None => false,
        }
    }

    /// Whether 64 bits count one guard more of the kind.
    pub(crate) fn has_room(&self, place: usize, kind: GuardKind) -> bool
        requires { TakesGuards (state_of self.now) place }
        ensures { result ≡ true → HasRoom (state_of self.now) place kind }
    {
        match self.object_at(place) {
            Some(object) => object.held(object.raised(kind)) < u64::MAX,
            None => false,
        }
    }

    /// Whether 64 bits count two cursor guards more, which a loop over the elements of a set holds.
    pub(crate) fn has_room_for_two(&self, place: usize) -> bool
        ensures { result ≡ true → HasRoomForTwo (state_of self.now) place }
    {
        match self.object_at(place) {
            Some(object) => object.held(GuardKind::Cursors) < u64::MAX - 1,
            None => false,
        }
    }

    /// Holds one guard more on the object at the place.
    pub(crate) fn hold(&mut self, place: usize, kind: GuardKind) -> GuardKey
        requires { HasRoom (state_of self.old) place kind }
        ensures held { (h : Held) → object_at (state_of self.old) place ≡ Some h →
            (result ≡ guard_on h kind)
            × (state_of self.new ≡ objects_by (held_with (guard_on h kind)) (state_of self.old))
            × (object_at (state_of self.new) place ≡ Some (with_rows_by (λ V o. hold_call (is_a_set h) kind o) h)) }
        ensures persists { Persists self.old self.new }
    {
        match &mut self.bounds[place] {
            Bound::Object(object) => object.hold(kind),
            _ => unreachable!(),
        }
    }

    /// Releases the guard, which is held on the object at the place.
    pub(crate) fn release(&mut self, place: usize, key: GuardKey)
        requires { IsHeldAt (state_of self.old) place key }
        ensures released { state_of self.new ≡ objects_by (held_without key) (state_of self.old) }
        ensures persists { Persists self.old self.new }
    {
        match &mut self.bounds[place] {
            Bound::Object(object) => object.release(key),
            _ => unreachable!(),
        }
    }
}
