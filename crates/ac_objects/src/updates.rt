//! What begins and ends an update of an element that keeps its key.
ghost use Rattle.std.specs.Prelude.{◌≡◌, ◌<◌, ◌+◌, length, Some, None, IfSome, IfOk, OnErr, Err};
ghost use Rattle.ac_base.specs.declared.reason.Reason.{Reason as ReasonData};
ghost use Rattle.ac_base.specs.declared.reason.Reason.TheVariants.{KeyChanged};
ghost use Rattle.ac_base.specs.declared.value.Value.{Value as ValueData};
ghost use Rattle.ac_model.specs.Cursors.{plain_mark};
ghost use Rattle.ac_setwork.specs.KeyCalls.{cursor_guard_of};
ghost use Rattle.ac_syntax.specs.declared.view_kind.ViewKind.TheVariants as views;
ghost use Rattle.ac_calls.specs.Elements.{text_in};
ghost use Rattle.ac_calls.specs.Holdings.{Held, element_value, key_update_reason, number_of};
ghost use Rattle.ac_meaning.specs.Environment.{object_at, mark_at, value_at, value_or_zero, objects_by, with_bound, with_name, leaving, binds_object, binds_value};
ghost use Rattle.ac_meaning.specs.Execution.{head_reason, guards_of_view};
ghost use Rattle.ac_meaning.specs.UnderGuards.{held_without};
ghost use Rattle.ac_objects.specs.Blocks.{holding, releasing, guards_of_open_update, IsHeldAt};
ghost use Rattle.ac_objects.specs.Standing.{TakesGuards, HasValue, StandsAt, counts_in_held, counts_of};
ghost use Rattle.ac_objects.specs.KeyUpdates.{UpdateEnds, key_ended};
ghost use Rattle.ac_objects.specs.declared.bound.Bound.TheVariants as bounds;
ghost use Rattle.ac_objects.specs.World.{held_of, state_of, IsKnown, ObjectAgrees, Persists};

use crate::blocks::OpenUpdate;
use crate::bound::Bound;
use crate::object::Object;
use crate::objects::Objects;
use crate::reading::copy_element;
use ac_base::{Elem, Fault, KeyRoom, KeyedText, NoMemory, Reason, Value};
use ac_cursor::{Cursor, GuardKey, GuardKind};
use ac_model::allowed;
use std::alloc::Global;

impl Objects {
    /// Begins an update of the element at which a cursor stands: its name holds a copy, and a guard is held.
    pub(crate) fn open_update(
        &mut self,
        object: usize,
        at: Option<usize>,
    ) -> Result<OpenUpdate, Fault>
        requires object { TakesGuards (state_of self.old) object }
        ensures key { IfOk result (λ key. (key.object ≡ object) × (key.names ≡ length self.old.bounds)
            × (plain_mark key.at ≡ mark_at (state_of self.old) at) × IsKnown self.new key.at) }
        ensures guard { IfOk result (λ key. key.guard.kind ≡ GuardKind.Cursors) }
        ensures opened { (h : Held) → object_at (state_of self.old) object ≡ Some h → IfOk result (λ key.
            (head_reason views.UpdateKey h (mark_at (state_of self.old) at) ≡ None)
            × (guards_of_open_update key ≡ guards_of_view views.UpdateKey h)
            × (state_of self.new ≡ with_name (holding (guards_of_view views.UpdateKey h) (state_of self.old))
            (binds_value (value_or_zero (element_value h (mark_at (state_of self.old) at)).answer)))) }
        ensures refused { (h : Held) (reason : ReasonData) → object_at (state_of self.old) object ≡ Some h →
            result ≡ Err (Fault.Raised reason) → head_reason views.UpdateKey h (mark_at (state_of self.old) at) ≡ Some reason }
        ensures persists { Persists self.old self.new }
        ensures fault { OnErr result (self.new ≡ self.old) }
    {
        let at = self.cursor_at(at);
        allowed(self.refuses_update(object, at))?;
        if !self.has_room(object, GuardKind::Cursors) {
            return Err(Fault::NoMemory);
        }
        let names = self.names();
        let room = KeyRoom::new(self.alloc)?;
        let copy = self.copy_at(object, at)?;
        self.add(Bound::Value(copy))?;
        let guard = self.hold(object, GuardKind::Cursors);
        Ok(OpenUpdate {
            object,
            names,
            at,
            guard,
            room,
        })
    }

    /// Ends an update: its name goes, its guard is released, and the element becomes what the copy is now. Where that has another
    /// key, the element goes, and this is why. Takes no memory.
    pub(crate) fn close_update(&mut self, key: OpenUpdate) -> Option<Reason>
        requires inner { key.object < key.names }
        requires last { length self.old.bounds ≡ key.names + 1 }
        requires copy { HasValue (state_of self.old) key.names }
        requires guard { IsHeldAt (state_of self.old) key.object key.guard }
        requires cursors { key.guard.kind ≡ GuardKind.Cursors }
        requires known { IsKnown self.old key.at }
        requires element { StandsAt (state_of self.old) key.object (plain_mark key.at) }
        ensures ended { UpdateEnds key (state_of self.old) (state_of self.new) result }
        ensures only { IfSome result (λ reason. reason ≡ KeyChanged) }
        ensures persists { Persists self.old self.new }
        ensures counts { counts_of (state_of self.new)
            ≡ counts_of (releasing (guards_of_open_update key) (leaving key.names (state_of self.old))) }
    {
        let OpenUpdate {
            object,
            names,
            at,
            guard,
            room,
        } = key;
        let value = self.take_value(names);
        let copy = keyed_text(self.alloc, value, room);
        self.end_update(object, at, guard, copy)
    }

    /// Ends an update whose body was left: its copy is dropped, its name goes, and its guard is released.
    pub(crate) fn drop_update(&mut self, key: OpenUpdate)
        requires inner { key.object < key.names }
        requires guard { IsHeldAt (state_of self.old) key.object key.guard }
        ensures left { state_of self.new ≡ releasing (guards_of_open_update key) (leaving key.names (state_of self.old)) }
        ensures persists { Persists self.old self.new }
    {
        let OpenUpdate {
            object,
            names,
            at: _,
            guard,
            room: _,
        } = key;
        self.leave_scope(names);
        self.release(object, guard);
    }
}

impl Objects {
    /// Why the head of an update is refused.
    fn refuses_update(&self, place: usize, at: Cursor) -> Option<Reason>
        requires { IsKnown self.now at }
        ensures { (h : Held) → object_at (state_of self.now) place ≡ Some h → result ≡ key_update_reason h (plain_mark at) }
    {
        match self.object_at(place) {
            Some(object) => object.refused_update(at),
            None => None,
        }
    }

    /// A copy of the element at the cursor in the object at the place.
    fn copy_at(&self, place: usize, at: Cursor) -> Result<Value, NoMemory>
        requires known { IsKnown self.now at }
        requires element { StandsAt (state_of self.now) place (plain_mark at) }
        ensures { (h : Held) → object_at (state_of self.now) place ≡ Some h →
            IfOk result (λ value. value ≡ value_or_zero (element_value h (plain_mark at)).answer) }
    {
        copy_element(&self.bounds, self.alloc, place, at)
    }

    /// Takes the last name out of scope, which a variable has, with what that holds.
    fn take_value(&mut self, place: usize) -> Value
        requires last { length self.old.bounds ≡ place + 1 }
        requires value { HasValue (state_of self.old) place }
        ensures value { result ≡ value_at (state_of self.old) place }
        ensures left { state_of self.new ≡ leaving place (state_of self.old) }
        ensures persists { Persists self.old self.new }
    {
        value_held(self.bounds.pop())
    }

    /// Ends an update of the element at the cursor in the object at the place.
    fn end_update(
        &mut self,
        place: usize,
        at: Cursor,
        guard: GuardKey,
        copy: KeyedText,
    ) -> Option<Reason>
        requires guard { IsHeldAt (state_of self.old) place guard }
        requires cursors { guard.kind ≡ GuardKind.Cursors }
        requires known { IsKnown self.old at }
        requires element { StandsAt (state_of self.old) place (plain_mark at) }
        ensures ended { (h : Held) → object_at (state_of self.old) place ≡ Some h → let w = key_ended h (plain_mark at) copy in
            (result ≡ w.reason)
            × (state_of self.new ≡ with_bound (objects_by (held_without guard) (state_of self.old)) place (binds_object w.after)) }
        ensures persists { Persists self.old self.new }
        ensures counts { counts_of (state_of self.new) ≡ counts_of (objects_by (held_without guard) (state_of self.old)) }
    {
        match &mut self.bounds[place] {
            Bound::Object(object) => object.end_update(at, guard, copy),
            _ => unreachable!(),
        }
    }
}

impl Object {
    /// Why the update of the element at the cursor is refused: only a keyed set has one.
    #[tactic(auto, unfolding(crate::specs::World::memory_of))]
    pub(crate) fn refused_update(&self, at: Cursor) -> Option<Reason>
        requires { ObjectAgrees self.now at }
        ensures { result ≡ key_update_reason (held_of self.now) (plain_mark at) }
    {
        match self {
            Object::KeyedSet(set) => set.refuses_update(at),
            _ => Some(Reason::NoElement),
        }
    }

    /// Ends an update of the element at the cursor.
    #[tactic(auto, unfolding(crate::specs::World::memory_of))]
    pub(crate) fn end_update(
        &mut self,
        at: Cursor,
        guard: GuardKey,
        copy: KeyedText,
    ) -> Option<Reason>
        requires agrees { ObjectAgrees self.old at }
        requires element { (element_value (held_of self.old) (plain_mark at)).reason ≡ None }
        requires own { guard ≡ cursor_guard_of (counts_in_held (held_of self.old)).number }
        requires held { 0 < (counts_in_held (held_of self.old)).cursor_guards }
        ensures ended { let w = key_ended (held_of self.old) (plain_mark at) copy in (result ≡ w.reason) × (held_of self.new ≡ w.after) }
        ensures number { number_of (held_of self.new) ≡ number_of (held_of self.old) }
        ensures cursors { (c : _) → ObjectAgrees self.old c → ObjectAgrees self.new c }
    {
        match self {
            Object::KeyedSet(set) => set.end_update(at, guard, copy),
            _ => {
                self.release(guard);
                None
            }
        }
    }
}

/// What a variable holds.
fn value_held(bound: Option<Bound>) -> Value
    requires { (v : ValueData) × (bound ≡ Some (bounds.Value v)) }
    ensures { bound ≡ Some (bounds.Value result) }
{
    match bound {
        Some(Bound::Value(value)) => value,
        _ => unreachable!(),
    }
}

/// A value as an element of a keyed set, its key in memory that was taken before. An integer counts as the blank element.
fn keyed_text(alloc: Global, value: Value, room: KeyRoom) -> KeyedText
    ensures { result ≡ text_in value }
{
    match value {
        Value::Int(_) => KeyedText::blank(alloc).unwrap(),
        Value::Text(text) => KeyedText::within(text, room),
    }
}
