//! An ordered set as one of those that set algebra takes.
ghost use Rattle.ac_model.specs.Keyed.{ascending};
ghost use Rattle.ac_model.proofs.KeyedLaws.{closed_ascending};

use super::OrderedSet;
use ac_base::{Fault, KeyOf, Name, NoMemory, Reason};
use ac_setwork::SetLike;
use std::alloc::Global;

impl<T: KeyOf> SetLike for OrderedSet<T> {
    type Item = T;

    ghost order = { ascending T.is_less };

    ghost seen = { λ s. s };

    ghost closed = { closed_ascending T.is_less T.ordered };

    fn law(&self) {
        self.table.law();
    }

    fn alloc(&self) -> Global {
        self.table.alloc()
    }

    fn copied(item: &T, alloc: Global) -> Result<T, NoMemory> {
        item.copy(alloc)
    }

    fn len(&self) -> u64 {
        self.table.len()
    }

    fn first_name(&self) -> Option<Name> {
        self.table.first_name()
    }

    fn next_name(&self, name: Name) -> Option<Name> {
        self.table.next_name(name)
    }

    fn item(&self, name: Name) -> &T {
        self.table.item(name)
    }

    fn look(&self, item: &T) -> Option<Name> {
        self.table.look(item)
    }

    fn drop_name(&mut self, name: Name) {
        self.table.drop_name(name);
    }

    fn refuses_room(&self, gone: u64, more: u64) -> Option<Reason> {
        self.table.refuses_room(gone, more)
    }

    fn room(&mut self, gone: u64, more: u64) -> Result<(), Fault> {
        self.table.room(gone, more)
    }

    fn add_new(&mut self, item: T) -> Name {
        self.table.add_new(item)
    }
}
