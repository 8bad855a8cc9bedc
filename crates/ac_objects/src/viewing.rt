//! What begins and ends a block that views an object: a view of an element, an update of a key or a `stable`.
ghost use Rattle.std.specs.Prelude.{◌≡◌, ◌<◌, length, None, Some, IfOk, IfErr, OnErr, Err};
ghost use Rattle.ac_base.specs.declared.reason.Reason.{Reason as ReasonData};
ghost use Rattle.ac_base.specs.declared.reason.Reason.TheVariants.{KeyChanged};
ghost use Rattle.ac_calls.specs.Holdings.{Held};
ghost use Rattle.ac_meaning.specs.Environment.{object_at, leaving};
ghost use Rattle.ac_objects.specs.declared.blocks.ViewHead.TheVariants as heads;
ghost use Rattle.ac_objects.specs.Blocks.{holding, releasing, object_of_key, names_of_key, guard_of_key, guards_of_view_key, IsHeldAt};
ghost use Rattle.ac_objects.specs.Standing.{TakesGuards, counts_of};
ghost use Rattle.ac_objects.specs.ViewHeads.{viewed_object, head_refusal, guards_of_head, with_viewed, IsKeyOf, BlockCanEnd, BlockEnds};
ghost use Rattle.ac_objects.specs.World.{state_of, Persists};

use crate::blocks::{ViewHead, ViewKey};
use crate::objects::Objects;
use ac_base::Fault;
use ac_model::allowed;
use ac_syntax::ViewKind;

impl ViewHead {
    /// The place of the object that the block views.
    pub fn object(self) -> usize
        ensures { result ≡ viewed_object self }
    {
        match self {
            ViewHead::Element { object, .. } => object,
            ViewHead::Stable { object } => object,
        }
    }
}

impl Objects {
    /// Begins a block, with its guard held. The name of a view stands for the element at which the cursor stands, and that of an update
    /// of a key holds a copy of it.
    pub fn enter_view(&mut self, head: ViewHead) -> Result<ViewKey, Fault>
        requires object { TakesGuards (state_of self.old) (viewed_object head) }
        ensures key { IfOk result (λ key. (object_of_key key ≡ viewed_object head) × (names_of_key key ≡ length self.old.bounds)) }
        ensures sort { IfOk result (IsKeyOf head (state_of self.old) self.new) }
        ensures opened { (h : Held) → object_at (state_of self.old) (viewed_object head) ≡ Some h → IfOk result (λ key.
            (head_refusal head (state_of self.old) h ≡ None)
            × (guards_of_view_key key ≡ guards_of_head head h)
            × (state_of self.new ≡ with_viewed head (state_of self.old) h (holding (guards_of_head head h) (state_of self.old)))) }
        ensures refused { (h : Held) (reason : ReasonData) → object_at (state_of self.old) (viewed_object head) ≡ Some h →
            result ≡ Err (Fault.Raised reason) → head_refusal head (state_of self.old) h ≡ Some reason }
        ensures persists { Persists self.old self.new }
        ensures fault { OnErr result (self.new ≡ self.old) }
    {
        match head {
            ViewHead::Element { kind, object, at } => self.enter_element(kind, object, at),
            ViewHead::Stable { object } => self.enter_stable(object),
        }
    }

    /// Ends a block: its name goes, and its guard is released. The element of an update becomes what the copy is now. Where that has
    /// another key, the element goes, and this is the fault. Takes no memory.
    pub fn leave_view(&mut self, key: ViewKey) -> Result<(), Fault>
        requires inner { object_of_key key < names_of_key key }
        requires guard { IsHeldAt (state_of self.old) (object_of_key key) (guard_of_key key) }
        requires update { BlockCanEnd self.old key }
        ensures ended { BlockEnds key (state_of self.old) (state_of self.new) result }
        ensures only { IfErr result (λ fault. fault ≡ Fault.Raised KeyChanged) }
        ensures persists { Persists self.old self.new }
        ensures counts { counts_of (state_of self.new)
            ≡ counts_of (releasing (guards_of_view_key key) (leaving (names_of_key key) (state_of self.old))) }
    {
        match key {
            ViewKey::View(view) => {
                self.close_view(view);
                Ok(())
            }
            ViewKey::Update(update) => allowed(self.close_update(update)),
        }
    }

    /// Ends a block whose body was left: its name goes, with the copy of an update, and its guard is released.
    pub fn drop_view(&mut self, key: ViewKey)
        requires inner { object_of_key key < names_of_key key }
        requires guard { IsHeldAt (state_of self.old) (object_of_key key) (guard_of_key key) }
        ensures left { state_of self.new ≡ releasing (guards_of_view_key key) (leaving (names_of_key key) (state_of self.old)) }
        ensures persists { Persists self.old self.new }
    {
        match key {
            ViewKey::View(view) => self.close_view(view),
            ViewKey::Update(update) => self.drop_update(update),
        }
    }
}

impl Objects {
    /// Begins a view of an element, or an update of its key.
    fn enter_element(
        &mut self,
        kind: ViewKind,
        object: usize,
        at: Option<usize>,
    ) -> Result<ViewKey, Fault>
        requires object { TakesGuards (state_of self.old) object }
        ensures key { IfOk result (λ key. (object_of_key key ≡ object) × (names_of_key key ≡ length self.old.bounds)) }
        ensures sort { IfOk result (IsKeyOf (heads.Element kind object at) (state_of self.old) self.new) }
        ensures opened { (h : Held) → object_at (state_of self.old) object ≡ Some h → let head = heads.Element kind object at in
            IfOk result (λ key.
            (head_refusal head (state_of self.old) h ≡ None)
            × (guards_of_view_key key ≡ guards_of_head head h)
            × (state_of self.new ≡ with_viewed head (state_of self.old) h (holding (guards_of_head head h) (state_of self.old)))) }
        ensures refused { (h : Held) (reason : ReasonData) → object_at (state_of self.old) object ≡ Some h →
            result ≡ Err (Fault.Raised reason) → head_refusal (heads.Element kind object at) (state_of self.old) h ≡ Some reason }
        ensures persists { Persists self.old self.new }
        ensures fault { OnErr result (self.new ≡ self.old) }
    {
        match kind {
            ViewKind::UpdateKey => Ok(ViewKey::Update(self.open_update(object, at)?)),
            _ => Ok(ViewKey::View(self.open_view(kind, object, at)?)),
        }
    }

    /// Begins a `stable`.
    fn enter_stable(&mut self, object: usize) -> Result<ViewKey, Fault>
        requires object { TakesGuards (state_of self.old) object }
        ensures key { IfOk result (λ key. (object_of_key key ≡ object) × (names_of_key key ≡ length self.old.bounds)) }
        ensures sort { IfOk result (IsKeyOf (heads.Stable object) (state_of self.old) self.new) }
        ensures opened { (h : Held) → object_at (state_of self.old) object ≡ Some h → let head = heads.Stable object in
            IfOk result (λ key.
            (head_refusal head (state_of self.old) h ≡ None)
            × (guards_of_view_key key ≡ guards_of_head head h)
            × (state_of self.new ≡ with_viewed head (state_of self.old) h (holding (guards_of_head head h) (state_of self.old)))) }
        ensures memory { IfErr result (λ fault. fault ≡ Fault.NoMemory) }
        ensures persists { Persists self.old self.new }
        ensures fault { OnErr result (self.new ≡ self.old) }
    {
        Ok(ViewKey::View(self.open_stable(object)?))
    }
}
