//! A map or a set, over any index.
ghost use Rattle.std.specs.Prelude.{◌≡◌, ◌≤◌, false, refl, IfOk, IfErr, IfSome, IsOk};
ghost use Rattle.ac_base.specs.Limits.{IsLimit};
ghost use Rattle.ac_base.specs.declared.cursor.Cursor.TheVariants.{At};
ghost use Rattle.ac_model.specs.Objects.{plain, length_of, empty_object};
ghost use Rattle.ac_model.specs.Cursors.{needs_cursor, cursor_at};
ghost use Rattle.ac_model.specs.Containers.{HasSlots, container, first_spare, guards_of, slots_of, with_guards};
ghost use Rattle.ac_model.specs.Common as common;
ghost use Rattle.ac_model.specs.Keyed.{IsValidKeyed};
ghost use Rattle.ac_setwork.specs.TableFields.{named_like};

mod algebra;
mod as_set;
mod by_key;
mod capacities;
mod copies;
mod counted;
mod elements;
mod ends;
mod equality;
mod insertions;
mod looks;
mod removals;
mod replacements;
mod transfers;

use crate::index::Index;
use ac_base::{Fault, Limit, Name, Reason};
use ac_cursor::{Cursor, GuardKey, GuardKind, Guarded, Guards, Tag};
use ac_model::{cursor_at, judge};
use std::alloc::Global;
use std::marker::Model;

/// A map (A.18.4) or a set (A.18.7), by what its index keeps.
#[derive(Drop)]
pub struct Table<I: Index> {
    alloc: Global,
    index: I,
    guards: Guards,
    limit: Limit,
}

impl<I: Index> Model for Table<I> {
    ghost use Rattle.ac_model.specs.Containers.{Container, container, container_code};
    ghost use Rattle.ac_setwork.specs.TableFields.{object_of, IsTable};

    ghost Value = { Container I.Row };

    ghost coded = { container_code I.Row.code };

    ghost view = { λ t. container (object_of t.guards t.limit (I.seen t.index)) (I.seen t.index).spare };

    ghost invariant = { λ t. IsTable I.order t.guards t.limit (I.seen t.index) };
}

impl<I: Index> Table<I> {
    /// An object without elements, of this number. A bounded one takes all its memory here, and an unbounded one takes none.
    pub fn new(alloc: Global, tag: Tag, limit: Limit) -> Result<Table<I>, Fault>
        requires { IsLimit limit }
        ensures empty { IfOk result (λ made. made ≡ container (empty_object I.has_capacity tag limit) (first_spare limit)) }
        ensures memory { IfErr result (λ e. e ≡ Fault.NoMemory) }
        ensures unbounded { limit ≡ Limit.Unbounded → IsOk result }
    {
        match I::new(alloc, limit) {
            Err(_) => Err(Fault::NoMemory),
            Ok(index) => Ok(Table {
                alloc,
                index,
                guards: Guards::new(tag),
                limit,
            }),
        }
    }

    /// What holds of every map and set, for proofs alone.
    pub fn law(&self)
        ensures valid { IsValidKeyed I.order (plain self.now.object) }
        ensures limit { IsLimit self.now.object.limit }
        ensures slots { HasSlots self.now.object.limit (length_of self.now.object) self.now.spare }
        ensures capacity { IfSome self.now.object.capacity (λ capacity. capacity ≤ slots_of self.now) }
    {
        let _index = &self.index;
    }

    pub fn number(&self) -> u64
        ensures { result ≡ self.now.object.number }
    {
        self.guards.number()
    }

    pub fn limit(&self) -> Limit
        ensures { result ≡ self.now.object.limit }
    {
        self.limit
    }

    /// Length (A.18.4, A.18.7).
    pub fn length(&self) -> i64
        ensures { result ≡ common.length_call (plain self.now.object) }
    {
        self.index.len() as i64
    }

    /// Is_Empty (A.18.4, A.18.7).
    pub fn is_empty(&self) -> bool
        ensures { result ≡ common.is_empty_call (plain self.now.object) }
    {
        self.index.len() == 0
    }

    /// How many elements have a slot.
    pub fn live_nodes(&self) -> u64
        ensures { result ≡ length_of self.now.object }
    {
        self.index.len()
    }

    /// How many slots there are, with and without an element.
    pub fn slots(&self) -> u64
        ensures { result ≡ slots_of self.now }
    {
        self.index.len() + self.index.spare()
    }

    fn cursor_at(&self, name: Option<Name>) -> Cursor
        ensures { result ≡ cursor_at self.now.object.number name }
    {
        cursor_at(self.guards.number(), name)
    }

    /// Why a cursor that must designate an element is refused.
    fn needs(&self, c: Cursor) -> Option<Reason>
        ensures { result ≡ needs_cursor self.now.object c }
    {
        match c {
            Cursor::NoElement => Some(Reason::NoElement),
            Cursor::At { object, name } => self.judges(object, name),
        }
    }

    fn judges(&self, object: u64, name: Name) -> Option<Reason>
        ensures { result ≡ needs_cursor self.now.object (At object name) }
    {
        judge(self.guards.number(), object, self.index.is_there(name))
    }

    /// The name of the row with an equivalent key.
    fn name_like(&self, row: &I::Row) -> Option<Name>
        ensures { result ≡ named_like I.order self.now.object row.now }
    {
        self.index.look_like(row)
    }
}

impl<I: Index> Guarded for Table<I> {
    ghost is_set = { λ _. false };

    ghost guards = { guards_of };

    ghost with_guards = { with_guards };

    ghost guards_given = { λ _ _. refl };

    ghost guards_own = { λ _. refl };

    ghost rest_kept = { λ _ _ _. refl };

    ghost set_kept = { λ _ _. refl };

    fn hold(&mut self, kind: GuardKind) -> GuardKey {
        self.guards.hold(kind)
    }

    fn release(&mut self, key: GuardKey) {
        self.guards.release(key);
    }

    fn held(&self, kind: GuardKind) -> u64 {
        self.guards.held(kind)
    }
}
