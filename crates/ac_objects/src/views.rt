//! What begins and ends a view of an element, and a `stable` block.
ghost use Rattle.std.specs.Prelude.{◌≡◌, ◌<◌, [], ◌∷◌, length, Some, None, IfOk, OnErr, Err};
ghost use Rattle.ac_base.specs.declared.reason.Reason.{Reason as ReasonData};
ghost use Rattle.ac_model.specs.Cursors.{plain_mark};
ghost use Rattle.ac_calls.specs.Holdings.{Held, guard_on};
ghost use Rattle.ac_meaning.specs.Environment.{object_at, mark_at, with_name, leaving, binds_element};
ghost use Rattle.ac_meaning.specs.Execution.{head_reason, guards_of_view, guards_of_stable};
ghost use Rattle.ac_objects.specs.Blocks.{holding, releasing, guards_of_open_view, IsHeldAt};
ghost use Rattle.ac_objects.specs.Standing.{TakesGuards};
ghost use Rattle.ac_objects.specs.World.{state_of, IsKnown, Persists};

use crate::blocks::OpenView;
use crate::bound::Bound;
use crate::objects::Objects;
use ac_base::{Fault, NoMemory, Reason};
use ac_cursor::{Cursor, GuardKind};
use ac_model::allowed;
use ac_syntax::ViewKind;

impl Objects {
    /// Begins a view of the element at which a cursor stands, with its guard held.
    pub(crate) fn open_view(
        &mut self,
        kind: ViewKind,
        object: usize,
        at: Option<usize>,
    ) -> Result<OpenView, Fault>
        requires view { kind ≡ ViewKind.UpdateKey → ⊥ }
        requires object { TakesGuards (state_of self.old) object }
        ensures key { IfOk result (λ key. (key.object ≡ object) × (key.names ≡ length self.old.bounds)) }
        ensures opened { (h : Held) → object_at (state_of self.old) object ≡ Some h → IfOk result (λ key.
            (head_reason kind h (mark_at (state_of self.old) at) ≡ None)
            × (guards_of_open_view key ≡ guards_of_view kind h)
            × (state_of self.new
            ≡ with_name (holding (guards_of_view kind h) (state_of self.old)) (binds_element object (mark_at (state_of self.old) at)))) }
        ensures refused { (h : Held) (reason : ReasonData) → object_at (state_of self.old) object ≡ Some h →
            result ≡ Err (Fault.Raised reason) → head_reason kind h (mark_at (state_of self.old) at) ≡ Some reason }
        ensures persists { Persists self.old self.new }
        ensures fault { OnErr result (self.new ≡ self.old) }
    {
        let at = self.cursor_at(at);
        allowed(self.refuses_view(kind, object, at))?;
        let guarded = guarded_kind(kind);
        if !self.has_room(object, guarded) {
            return Err(Fault::NoMemory);
        }
        let names = self.names();
        self.add(Bound::Element { object, at })?;
        let guard = self.hold(object, guarded);
        Ok(OpenView {
            object,
            names,
            guard,
        })
    }

    /// Begins a `stable` block, with its guard held.
    pub(crate) fn open_stable(&mut self, object: usize) -> Result<OpenView, NoMemory>
        requires object { TakesGuards (state_of self.old) object }
        ensures key { IfOk result (λ key. (key.object ≡ object) × (key.names ≡ length self.old.bounds)) }
        ensures opened { (h : Held) → object_at (state_of self.old) object ≡ Some h → IfOk result (λ key.
            (guards_of_open_view key ≡ guards_of_stable h)
            × (state_of self.new ≡ holding (guards_of_stable h) (state_of self.old))) }
        ensures persists { Persists self.old self.new }
        ensures fault { OnErr result (self.new ≡ self.old) }
    {
        if !self.has_room(object, GuardKind::Elements) {
            return Err(NoMemory);
        }
        let names = self.names();
        let guard = self.hold(object, GuardKind::Elements);
        Ok(OpenView {
            object,
            names,
            guard,
        })
    }

    /// Ends a view or `stable`: its name goes, and its guard is released.
    pub(crate) fn close_view(&mut self, key: OpenView)
        requires inner { key.object < key.names }
        requires guard { IsHeldAt (state_of self.old) key.object key.guard }
        ensures left { state_of self.new ≡ releasing (guards_of_open_view key) (leaving key.names (state_of self.old)) }
        ensures persists { Persists self.old self.new }
    {
        let OpenView {
            object,
            names,
            guard,
        } = key;
        self.leave_scope(names);
        self.release(object, guard);
    }
}

/// The kind of guard that a view holds.
fn guarded_kind(kind: ViewKind) -> GuardKind
    ensures { (h : Held) → guard_on h result ∷ [] ≡ guards_of_view kind h }
{
    match kind {
        ViewKind::Query | ViewKind::Update | ViewKind::Reference => GuardKind::Elements,
        ViewKind::UpdateKey => GuardKind::Cursors,
    }
}

impl Objects {
    /// The cursor that a name holds, and No_Element where there is none.
    pub(crate) fn cursor_at(&self, place: Option<usize>) -> Cursor
        ensures mark { plain_mark result ≡ mark_at (state_of self.now) place }
        ensures known { IsKnown self.now result }
    {
        match place {
            Some(place) => self.cursor_in(place),
            None => Cursor::NoElement,
        }
    }

    fn cursor_in(&self, place: usize) -> Cursor
        ensures mark { plain_mark result ≡ mark_at (state_of self.now) (Some place) }
        ensures known { IsKnown self.now result }
    {
        match self.bounds.get(place) {
            Some(bound) => bound.cursor(),
            None => Cursor::NoElement,
        }
    }

    /// Why the head of a view is refused.
    fn refuses_view(&self, _kind: ViewKind, place: usize, at: Cursor) -> Option<Reason>
        requires view { _kind ≡ ViewKind.UpdateKey → ⊥ }
        requires known { IsKnown self.now at }
        ensures { (h : Held) → object_at (state_of self.now) place ≡ Some h → result ≡ head_reason _kind h (plain_mark at) }
    {
        match self.object_at(place) {
            Some(object) => object.refused_view(at),
            None => None,
        }
    }
}
