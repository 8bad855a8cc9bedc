//! What begins, goes on with and ends a loop over an object.
ghost use Rattle.std.specs.Prelude.{◌≡◌, ◌<◌, ◌∷◌, ◌+◌, true, false, length, take, None, Some, IfOk, OnErr};
ghost use Rattle.std.specs.Option.{ForSome};
ghost use Rattle.ac_model.specs.Letters.{no_mark};
ghost use Rattle.ac_model.specs.Cursors.{plain_mark};
ghost use Rattle.ac_calls.specs.Holdings.{Held, names_of, number_of, guard_on};
ghost use Rattle.ac_meaning.specs.Environment.{binds_cursor, object_at, objects_by, with_name, leaving};
ghost use Rattle.ac_meaning.specs.Execution.{in_order, turn_bound, guards_of_loop};
ghost use Rattle.ac_meaning.specs.UnderGuards.{held_without};
ghost use Rattle.ac_meaning.specs.Walks.{first_mark};
ghost use Rattle.ac_objects.specs.Blocks.{holding, releasing, guard_if, guards_of_loop_key, HasRoom, HasRoomForTwo, IsHeldAt};
ghost use Rattle.ac_objects.specs.Given.{StepsOn};
ghost use Rattle.ac_objects.specs.RootFree.{NoRootAmong};
ghost use Rattle.ac_objects.specs.Standing.{IsObject, TakesGuards, ComingStands, counts_of};
ghost use Rattle.ac_objects.specs.World.{bound_of, cursor_in, state_of, IsKnown, Persists};
ghost use Rattle.ac_objects.specs.declared.bound.Bound.TheVariants as bound;

use crate::blocks::LoopKey;
use crate::bound::Bound;
use crate::objects::Objects;
use ac_base::NoMemory;
use ac_cursor::{Cursor, GuardKey, GuardKind};
use ac_sequence_calls::by_fields;

impl Objects {
    /// Begins a loop over an object, with its guards held. The name of its turns is in scope from here on, so that no turn takes memory.
    /// NoMemory also where 64 bits don't count one guard more.
    pub fn enter_loop(
        &mut self,
        elements: bool,
        backward: bool,
        object: usize,
    ) -> Result<LoopKey, NoMemory>
        requires object { TakesGuards (state_of self.old) object }
        ensures key { IfOk result (λ key. (key.object ≡ object) × (key.names ≡ length self.old.bounds) × (key.backward ≡ backward)
            × IsKnown self.new key.coming) }
        ensures opened { (h : Held) → object_at (state_of self.old) object ≡ Some h → IfOk result (λ key.
            (plain_mark key.coming ≡ first_mark (number_of h) (in_order backward (names_of h)))
            × (guards_of_loop_key key ≡ guards_of_loop elements h)
            × (state_of self.new ≡ with_name (holding (guards_of_loop elements h) (state_of self.old)) (binds_cursor no_mark))) }
        ensures named { (h : Held) → object_at (state_of self.old) object ≡ Some h → IfOk result (λ _. NoRootAmong (names_of h)) }
        ensures persists { Persists self.old self.new }
        ensures fault { OnErr result (self.new ≡ self.old) }
    {
        if !self.has_room_for_loop(object, elements) {
            return Err(NoMemory);
        }
        let names = self.names();
        let coming = self.first_at(object, backward);
        self.add(Bound::Cursor(Cursor::NoElement))?;
        let elements = self.hold_elements(object, elements);
        let cursors = self.hold(object, GuardKind::Cursors);
        Ok(LoopKey {
            object,
            names,
            backward,
            coming,
            cursors,
            elements,
        })
    }

    /// Begins the next turn, or says that there is none. The name of the turn before becomes that of this one, or it goes.
    #[inline(always)]
    pub fn step_loop(&mut self, elements: bool, key: &mut LoopKey) -> bool
        requires object { IsObject (state_of self.old) key.old.object }
        requires inner { key.old.object < key.old.names }
        requires last { length self.old.bounds ≡ key.old.names + 1 }
        requires known { IsKnown self.old key.old.coming }
        requires coming { ComingStands (state_of self.old) key.old.object (plain_mark key.old.coming) }
        ensures turn { result ≡ true → state_of self.new
            ≡ with_name (leaving key.old.names (state_of self.old)) (turn_bound elements key.old.object (plain_mark key.old.coming)) }
        ensures goes { result ≡ true → (h : Held) → object_at (state_of self.old) key.old.object ≡ Some h →
            StepsOn key.old.backward (number_of h) (names_of h) key.old.coming key.new.coming }
        ensures more { result ≡ true → plain_mark key.old.coming ≡ no_mark → ⊥ }
        ensures end { result ≡ false →
            (plain_mark key.old.coming ≡ no_mark) × (state_of self.new ≡ leaving key.old.names (state_of self.old)) }
        ensures known { IsKnown self.new key.new.coming }
        ensures key { (key.new.object ≡ key.old.object) × (key.new.names ≡ key.old.names) × (key.new.backward ≡ key.old.backward)
            × (guards_of_loop_key key.new ≡ guards_of_loop_key key.old) }
        ensures persists { Persists self.old self.new }
        ensures last { result ≡ true → length self.new.bounds ≡ key.old.names + 1 }
        ensures counts { take key.old.names (counts_of (state_of self.new)) ≡ take key.old.names (counts_of (state_of self.old)) }
    {
        let coming = by_fields(key.coming);
        if coming == Cursor::NoElement {
            self.leave_scope(key.names);
            return false;
        }
        let following = self.next_at(key.object, key.backward, coming);
        self.replace_last(key.names, elements, key.object, coming);
        key.coming = following;
        true
    }

    /// Ends a loop: its name goes, and its guards are released.
    pub fn leave_loop(&mut self, key: LoopKey)
        requires inner { key.object < key.names }
        requires cursors { IsHeldAt (state_of self.old) key.object key.cursors }
        requires elements { ForSome key.elements (λ g. IsHeldAt (objects_by (held_without key.cursors) (state_of self.old)) key.object g) }
        ensures left { state_of self.new ≡ releasing (guards_of_loop_key key) (leaving key.names (state_of self.old)) }
        ensures persists { Persists self.old self.new }
    {
        let LoopKey {
            object,
            names,
            backward: _,
            coming: _,
            cursors,
            elements,
        } = key;
        self.leave_scope(names);
        self.release(object, cursors);
        self.release_any(object, elements);
    }
}

/// What the name of a turn holds.
#[inline(always)]
fn turn_bound(elements: bool, object: usize, at: Cursor) -> Bound
    ensures bound { bound_of result ≡ turn_bound elements object (plain_mark at) }
    ensures cursor { cursor_in result ≡ at }
{
    if elements {
        Bound::Element { object, at }
    } else {
        Bound::Cursor(at)
    }
}

/// Puts what the name of a turn holds over what a name holds. That of a turn before is written over in place, and the rest of its place,
/// which is as large as an object, is left alone.
#[inline(always)]
fn put_turn(held: &mut Bound, elements: bool, object: usize, at: Cursor)
    ensures bound { bound_of held.new ≡ turn_bound elements object (plain_mark at) }
    ensures cursor { cursor_in held.new ≡ at }
{
    if elements {
        put_element(held, object, at);
    } else {
        put_cursor(held, at);
    }
}

#[inline(always)]
fn put_cursor(held: &mut Bound, at: Cursor)
    ensures { held.new ≡ bound.Cursor at }
{
    match held {
        Bound::Cursor(place) => *place = by_fields(at),
        _ => put_cursor_anew(held, by_fields(at)),
    }
}

#[inline(always)]
fn put_element(held: &mut Bound, object: usize, at: Cursor)
    ensures { held.new ≡ bound.Element object at }
{
    match held {
        Bound::Element {
            object: its_object,
            at: its_place,
        } => {
            *its_object = object;
            *its_place = by_fields(at);
        }
        _ => put_element_anew(held, object, by_fields(at)),
    }
}

#[cold]
#[inline(never)]
fn put_cursor_anew(held: &mut Bound, at: Cursor)
    ensures { held.new ≡ bound.Cursor at }
{
    *held = Bound::Cursor(at);
}

#[cold]
#[inline(never)]
fn put_element_anew(held: &mut Bound, object: usize, at: Cursor)
    ensures { held.new ≡ bound.Element object at }
{
    *held = Bound::Element { object, at };
}

impl Objects {
    /// Puts a turn's name in the place of the last one.
    #[inline(always)]
    fn replace_last(&mut self, last: usize, elements: bool, object: usize, at: Cursor)
        requires last { length self.old.bounds ≡ last + 1 }
        requires known { IsKnown self.old at }
        ensures named { state_of self.new ≡ with_name (leaving last (state_of self.old)) (turn_bound elements object (plain_mark at)) }
        ensures counts { take last (counts_of (state_of self.new)) ≡ take last (counts_of (state_of self.old)) }
        ensures last { length self.new.bounds ≡ last + 1 }
        ensures persists { Persists self.old self.new }
    {
        put_turn(&mut self.bounds[last], elements, object, at);
    }

    /// The cursor at which a loop over the object at the place begins.
    fn first_at(&self, place: usize, backward: bool) -> Cursor
        ensures first { (h : Held) → object_at (state_of self.now) place ≡ Some h →
            plain_mark result ≡ first_mark (number_of h) (in_order backward (names_of h)) }
        ensures named { (h : Held) → object_at (state_of self.now) place ≡ Some h → NoRootAmong (names_of h) }
        ensures known { IsKnown self.now result }
    {
        let _bounds = &self.bounds;
        match self.object_at(place) {
            Some(object) => object.first_of(backward),
            None => Cursor::NoElement,
        }
    }

    /// The cursor at which a loop over the object at the place goes on behind this one.
    #[inline(always)]
    fn next_at(&self, place: usize, backward: bool, at: Cursor) -> Cursor
        requires { IsKnown self.now at }
        ensures next { (h : Held) → object_at (state_of self.now) place ≡ Some h → StepsOn backward (number_of h) (names_of h) at result }
        ensures known { IsKnown self.now result }
    {
        let _bounds = &self.bounds;
        match self.object_at(place) {
            Some(object) => object.next_of(backward, at),
            None => Cursor::NoElement,
        }
    }

    /// Whether 64 bits count the guards of one loop more.
    fn has_room_for_loop(&self, place: usize, elements: bool) -> bool
        requires { TakesGuards (state_of self.now) place }
        ensures cursors { result ≡ true → HasRoom (state_of self.now) place GuardKind.Cursors }
        ensures elements { result ≡ true → elements ≡ true → HasRoom (state_of self.now) place GuardKind.Elements }
        ensures both { result ≡ true → elements ≡ true → HasRoomForTwo (state_of self.now) place }
    {
        let cursors = self.has_room(place, GuardKind::Cursors);
        if elements {
            return cursors
                && self.has_room(place, GuardKind::Elements)
                && self.has_room_for_two(place);
        }
        cursors
    }

    /// Holds the element guard of a loop, if it has one.
    fn hold_elements(&mut self, place: usize, elements: bool) -> Option<GuardKey>
        requires room { elements ≡ true → HasRoom (state_of self.old) place GuardKind.Elements }
        requires both { elements ≡ true → HasRoomForTwo (state_of self.old) place }
        ensures held { (h : Held) → object_at (state_of self.old) place ≡ Some h →
            (guard_on h GuardKind.Cursors ∷ guard_if result ≡ guards_of_loop elements h)
            × (state_of self.new ≡ holding (guard_if result) (state_of self.old)) }
        ensures cursors { (h : Held) → object_at (state_of self.old) place ≡ Some h → (k : Held)
            × (object_at (state_of self.new) place ≡ Some k) × (guard_on k GuardKind.Cursors ≡ guard_on h GuardKind.Cursors) }
        ensures room { HasRoom (state_of self.old) place GuardKind.Cursors → HasRoom (state_of self.new) place GuardKind.Cursors }
        ensures persists { Persists self.old self.new }
    {
        if elements {
            Some(self.hold(place, GuardKind::Elements))
        } else {
            None
        }
    }

    /// Releases the element guard of a loop, if it has one.
    fn release_any(&mut self, place: usize, guard: Option<GuardKey>)
        requires { ForSome guard (λ g. IsHeldAt (state_of self.old) place g) }
        ensures released { state_of self.new ≡ releasing (guard_if guard) (state_of self.old) }
        ensures persists { Persists self.old self.new }
    {
        if let Some(guard) = guard {
            self.release(place, guard);
        }
    }
}
