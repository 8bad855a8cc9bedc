//! A table as a set of its rows.
ghost use Rattle.std.specs.Prelude.{◌≡◌, ◌+◌};
ghost use Rattle.ac_base.specs.FirstReason.{first_reason};
ghost use Rattle.ac_model.specs.Letters.{room_in};

use super::Table;
use crate::filling::widen;
use crate::index::Index;
use crate::set_like::SetLike;
use ac_base::{Fault, Limit, Name, NoMemory, Reason};
use ac_model::{allowed, as_fault, room};
use std::alloc::Global;

/// Why so many more than those that stay are refused.
fn room_behind(limit: Limit, next: u64, kept: u64, more: u64) -> Option<Reason>
    ensures { result ≡ first_reason (room_in limit next (kept + more) more) }
{
    room(limit, next, kept.saturating_add(more), more)
}

impl<I: Index> SetLike for Table<I> {
    type Item = I::Row;

    ghost order = { I.order };

    ghost seen = { λ t. t };

    ghost closed = { I.closed };

    fn law(&self) {
        let _index = &self.index;
    }

    fn alloc(&self) -> Global {
        self.alloc
    }

    fn copied(item: &I::Row, alloc: Global) -> Result<I::Row, NoMemory> {
        I::copied(item, alloc)
    }

    fn len(&self) -> u64 {
        self.index.len()
    }

    fn first_name(&self) -> Option<Name> {
        self.index.first()
    }

    fn next_name(&self, name: Name) -> Option<Name> {
        self.index.next(name)
    }

    fn item(&self, name: Name) -> &I::Row {
        self.index.at(name)
    }

    fn look(&self, item: &I::Row) -> Option<Name> {
        self.index.look_like(item)
    }

    fn drop_name(&mut self, name: Name) {
        let _row = self.index.remove(name);
    }

    fn refuses_room(&self, gone: u64, more: u64) -> Option<Reason> {
        room_behind(
            self.limit,
            self.index.next_serial(),
            self.index.len() - gone,
            more,
        )
    }

    fn room(&mut self, gone: u64, more: u64) -> Result<(), Fault> {
        allowed(self.refuses_room(gone, more))?;
        let need = self.index.len() - gone + more;
        as_fault(widen(&mut self.index, self.limit, need))
    }

    fn add_new(&mut self, item: I::Row) -> Name {
        self.index.add_new(item)
    }
}
