//! A set of a script, over any index of its rows.
ghost use Rattle.std.specs.Prelude.{◌≡◌, ◌<◌, true, refl, IfOk, None};
ghost use Rattle.ac_base.specs.Limits.{IsLimit};
ghost use Rattle.ac_model.specs.Calls.{Lends, Same};
ghost use Rattle.ac_model.specs.Common as common;
ghost use Rattle.ac_model.specs.Containers.{container, first_spare, guards_of, with_guards};
ghost use Rattle.ac_model.specs.Cursors.{needs_cursor};
ghost use Rattle.ac_model.specs.Forms.{Looks, seen_by};
ghost use Rattle.ac_model.specs.Keyed.{IsValidKeyed};
ghost use Rattle.ac_model.specs.KeyedSets as by_key;
ghost use Rattle.ac_model.specs.Objects.{empty_object, plain};
ghost use Rattle.ac_model.specs.Sequences as sequences;
ghost use Rattle.ac_setwork.specs.KeyCalls.{DoesAlways, cursor_guard_of};

mod common_rows;
mod keyed_rows;
mod row_object;

use ac_base::{Fault, Limit, NoMemory};
use ac_calls::ScriptElement;
use ac_cursor::{Cursor, GuardKey, GuardKind, Guarded, Tag};
use ac_setwork::{Keyed, Table};
use std::alloc::Global;
use std::marker::Model;

/// A set (A.18.7) whose index tells which kind it is, and which elements are equivalent. Two are equal where they are equal as elements.
#[derive(Drop)]
pub struct SetRows<I: Keyed>
where
    I::Row: ScriptElement,
{
    pub(crate) table: Table<I>,
}

impl<I: Keyed> Model for SetRows<I>
where
    I::Row: ScriptElement,
{
    ghost use Rattle.std.specs.Prelude.{◌≡◌};
    ghost use Rattle.ac_model.specs.Containers.{Container, container_code};

    ghost Value = { Container I.Row };

    ghost coded = { container_code I.Row.code };

    ghost view = { λ s. s.table };

    ghost invariant = { λ s. I.is_equal ≡ I.Row.is_same };
}

impl<I: Keyed> SetRows<I>
where
    I::Row: ScriptElement,
{
    /// An empty set. A bounded one takes all its memory here, and an unbounded one takes none.
    pub fn new(alloc: Global, tag: Tag, limit: Limit) -> Result<SetRows<I>, NoMemory>
        requires equal { I.is_equal ≡ I.Row.is_same }
        requires limit { IsLimit limit }
        ensures { IfOk result (λ made. made ≡ container (empty_object I.has_capacity tag limit) (first_spare limit)) }
    {
        match Table::new(alloc, tag, limit) {
            Ok(table) => Ok(SetRows { table }),
            Err(_) => Err(NoMemory),
        }
    }

    /// What holds of the keys of every set, for proofs alone.
    pub fn keyed_law(&self)
        ensures { IsValidKeyed I.order (plain self.now.object) }
    {
        self.table.law();
    }

    pub fn limit(&self) -> Limit
        ensures { result ≡ self.now.object.limit }
    {
        self.table.limit()
    }

    /// Capacity (A.18.8), and 0 where there is none.
    pub fn capacity(&self) -> i64
        ensures { result ≡ common.capacity_call (plain self.now.object) }
    {
        self.table.capacity()
    }

    /// Element (A.18.7).
    pub fn element(&self, c: Cursor) -> Result<&I::Row, Fault>
        ensures { Looks Lends (λ o. sequences.element_call o (seen_by self.now c)) self.now result }
    {
        self.table.row(c)
    }

    /// Ends Update_Element_Preserving_Key (A.18.8, A.18.9) with the copy. The guard is released also where the call is refused.
    pub fn end_update_key(&mut self, c: Cursor, key: GuardKey, copy: I::Row) -> Result<(), Fault>
        requires there { needs_cursor self.old.object c ≡ None }
        requires own { key ≡ cursor_guard_of self.old.object.number }
        requires held { 0 < self.old.object.cursor_guards }
        ensures changed { DoesAlways Same (λ o. by_key.end_update_key_call I.key_of I.keys o (seen_by self.old c) copy)
            self.old self.new result }
    {
        self.table.end_update_key(c, key, copy)
    }
}

/// A set has cursor guards alone.
impl<I: Keyed> Guarded for SetRows<I>
where
    I::Row: ScriptElement,
{
    ghost is_set = { λ _. true };

    ghost guards = { guards_of };

    ghost with_guards = { with_guards };

    ghost guards_given = { λ _ _. refl };

    ghost guards_own = { λ _. refl };

    ghost rest_kept = { λ _ _ _. refl };

    ghost set_kept = { λ _ _. refl };

    fn hold(&mut self, _kind: GuardKind) -> GuardKey {
        self.table.hold(GuardKind::Cursors)
    }

    fn release(&mut self, key: GuardKey) {
        self.table.release(key);
    }

    fn held(&self, kind: GuardKind) -> u64 {
        self.table.held(kind)
    }
}
