//! The pool. A contract sees a finite map from names to values, with the next serial and the number of spare slots.
ghost use Rattle.std.specs.Prelude.{◌≡◌, ◌≢◌, ℕ, ◌+◌, ◌-◌, ◌^◌, ◌<◌, ◌≤◌, ◌↔◌, IsTrue, IsOk, IfOk, IfErr, OnOk, OnErr, option_copied};
ghost use Rattle.std.specs.Option.{option_copied_mut};
ghost use Rattle.std.specs.Borrow.{sem};
ghost use Rattle.ac_pool.specs.Contents.{contents, value_of, IsLive, live_count, slot_count, no_values, added, taken, swapped, reserved, cleared, IsFresh, IsSound, Vacates};
ghost use Rattle.ac_pool.specs.Link.{name_in, value_in};
ghost use Rattle.ac_pool.specs.Runs.{LiesFrom};
ghost use Rattle.ac_base.specs.declared.name.Name.{Name};

use crate::growth::{least_slots, next_slot};
use crate::run::Run;
use crate::slots::Slots;
use ac_base::{Name, NoMemory};
use std::alloc::Global;
use std::marker::Model;

/// Why a value was not put into a pool, which hands it back.
#[derive(Drop)]
pub enum PutFault<T> {
    /// The pool has no serial left.
    Spent(T),
    NoMemory(T),
}

/// A finite map from names to values. Its slots lie in chunks that never move, and are used again under fresh serials.
#[derive(Drop)]
pub struct Pool<T> {
    slots: Slots<T>,
    // The slots that were given back, with room for every slot. No value has reached the others that keep nothing: they are the last ones.
    free: Vec<u32>,
    // How many slots keep nothing.
    spare: usize,
    next_serial: u64,
}

impl<T> Model for Pool<T> {
    ghost use Rattle.ac_pool.specs.Contents.{Contents, contents, contents_code};

    ghost Value = { Contents T };

    ghost coded = { contents_code T.code };

    ghost use Rattle.std.specs.Prelude.{vec_capacity};
    ghost use Rattle.ac_pool.specs.PoolFields.{entries_in, IsPool};

    ghost view = { λ p. contents (entries_in p.slots) p.next_serial p.spare };

    ghost invariant = { λ p. IsPool p.slots p.free.items (vec_capacity p.free) p.spare p.next_serial };
}

impl<T> Pool<T> {
    ghost use Rattle.ac_pool.specs.Put.{RefusesPut};
    ghost use Rattle.ac_pool.specs.PoolLends.{lends_value};

    /// A pool without slots, which takes no memory. Its first serial is 1.
    pub fn new(alloc: Global) -> Pool<T>
        ensures empty { result ≡ no_values 1 0 }
        ensures sound { IsSound result }
    {
        Pool::starting_at(alloc, 1)
    }

    /// As `new`, with another first serial.
    pub fn starting_at(alloc: Global, serial: u64) -> Pool<T>
        requires { 0 < serial }
        ensures empty { result ≡ no_values serial 0 }
        ensures sound { IsSound result }
    {
        Pool {
            slots: Slots::new(alloc),
            free: Vec::new(alloc),
            spare: 0,
            next_serial: serial,
        }
    }

    /// Adds spare slots.
    fn grow(&mut self, by: usize) -> Result<(), NoMemory>
        requires { slot_count self.old + by ≤ 2 ^ 30 }
        ensures ok { OnOk result (self.new ≡ contents self.old.entries self.old.next_serial (self.old.spare + by)) }
        ensures err { OnErr result (self.new ≡ self.old) }
        ensures sound { IsSound self.new }
    {
        let len = self.slots.len();
        self.free.reserve_exact(len + by - self.free.len())?;
        self.slots.grow(by)?;
        self.spare += by;
        Ok(())
    }

    /// Makes at least `n` slots spare. Where it must grow, the slots become the least `8 * 2^k` that has room for `n` more values.
    pub fn reserve(&mut self, n: u64) -> Result<(), NoMemory>
        requires { live_count self.old + n ≤ 2 ^ 30 }
        ensures ok { OnOk result (self.new ≡ reserved self.old n) }
        ensures err { OnErr result (self.new ≡ self.old) }
        ensures had_room { n ≤ self.old.spare → IsOk result }
        ensures sound { IsSound self.new }
    {
        let wanted = n as usize;
        if wanted <= self.spare {
            return Ok(());
        }
        let len = self.slots.len();
        let slots = least_slots(len - self.spare + wanted);
        self.grow(slots - len)
    }

    /// Puts a value under a fresh name. Where no slot is spare it grows as `reserve(1)` does.
    #[inline(always)]
    pub fn put(&mut self, value: T) -> Result<Name, PutFault<T>>
        requires { live_count self.old < 2 ^ 30 }
        ensures fresh { IfOk result (IsFresh self.old) }
        ensures ok { IfOk result (λ name. self.new ≡ added (reserved self.old 1) name value) }
        ensures unspent { OnOk result (self.old.next_serial < 2 ^ 64 - 1) }

        // The value comes back: Spent where the next serial is the last number, and else NoMemory, where no slot was spare.
        ensures refused { IfErr result (RefusesPut self.old value) }
        ensures err { OnErr result (self.new ≡ self.old) }
        ensures sound { IsSound self.new }
    {
        if self.next_serial() == u64::MAX {
            return Err(PutFault::Spent(value));
        }
        match self.reserve(1) {
            Ok(()) => Ok(self.put_reserved(value)),
            Err(NoMemory) => Err(PutFault::NoMemory(value)),
        }
    }

    /// As `put`, where a slot is spare and a serial is left.
    #[inline(always)]
    pub fn put_reserved(&mut self, value: T) -> Name
        requires spare { 0 < self.old.spare }
        requires unspent { self.old.next_serial < 2 ^ 64 - 1 }
        ensures fresh { IsFresh self.old result }
        ensures added { self.new ≡ added self.old result value }
        ensures sound { IsSound self.new }
    {
        let unreached = (self.slots.len() - self.spare) as u32;
        let slot = next_slot(&mut self.free, unreached);
        let serial = self.next_serial;
        self.slots.put(slot as usize, serial, value);
        self.spare -= 1;
        self.next_serial += 1;
        Name { slot, serial }
    }

    #[inline(always)]
    fn is_live(&self, name: Name) -> bool
        ensures live { IsTrue result ↔ IsLive self.now name }
        ensures sound { IsSound self.now }
    {
        match self.slots.serial(name.slot as usize) {
            Some(serial) => serial == name.serial,
            None => false,
        }
    }

    /// The live name of the slot, or `None` where the slot keeps nothing or isn't there.
    #[inline(always)]
    pub fn name_in(&self, slot: u32) -> Option<Name>
        ensures name { result ≡ name_in self.now slot }
        ensures sound { IsSound self.now }
    {
        match self.slots.serial(slot as usize) {
            Some(serial) => Some(Name { slot, serial }),
            None => None,
        }
    }

    /// The value under the live name of the slot, or `None` where there is none.
    #[inline(always)]
    pub fn value_in(&self, slot: u32) -> Option<&T>
        ensures { option_copied result ≡ value_in self.now slot }
    {
        self.slots.value(slot as usize)
    }

    /// The slots from this one to the end of its chunk, each with the value under its live name, or none where there is no such slot.
    #[inline(always)]
    pub fn run_at(&self, slot: u32) -> Run<'_, T>
        ensures { LiesFrom (value_in self.now) slot result }
    {
        self.slots.run_at(slot as usize)
    }

    /// The value under the name, or `None` where the name is not live.
    #[inline(always)]
    pub fn get(&self, name: Name) -> Option<&T>
        ensures { option_copied result ≡ value_of self.now name }
    {
        if self.is_live(name) {
            Some(self.slots.get(name.slot as usize))
        } else {
            None
        }
    }

    /// As `get`, for writing.
    #[inline(always)]
    pub fn get_mut(&mut self, name: Name) -> Option<&mut T>
        ensures* writes_back { sem 𝓛 (lends_value T.row self.entry name result) }
        ensures value { option_copied_mut result ≡ value_of self.old name }
    {
        if self.is_live(name) {
            Some(self.slots.get_mut(name.slot as usize))
        } else {
            None
        }
    }

    /// Takes the value out, and frees its slot. The name is never live again.
    pub fn take(&mut self, name: Name) -> Option<T>
        ensures value { result ≡ value_of self.old name }
        ensures taken { self.new ≡ taken self.old name }
        ensures sound { IsSound self.new }
    {
        if !self.is_live(name) {
            return None;
        }
        let value = self.slots.take(name.slot as usize);
        self.free.push_reserved(name.slot);
        self.spare += 1;
        Some(value)
    }

    /// Exchanges two values. At false one of the names is not live, and nothing changes.
    pub fn swap(&mut self, a: Name, b: Name) -> bool
        ensures both { IsTrue result ↔ (IsLive self.old a × IsLive self.old b) }
        ensures swapped { self.new ≡ swapped self.old a b }
        ensures itself { a ≡ b → self.new ≡ self.old }
        ensures sound { IsSound self.new }
    {
        if !self.is_live(a) || !self.is_live(b) {
            return false;
        }
        if a.slot != b.slot {
            self.exchange(a, b);
        }
        true
    }

    fn exchange(&mut self, a: Name, b: Name)
        requires live { IsLive self.old a × IsLive self.old b }
        requires apart { a.slot ≢ b.slot }
        ensures swapped { self.new ≡ swapped self.old a b }
        ensures sound { IsSound self.new }
    {
        let at_a = self.slots.take(a.slot as usize);
        let at_b = self.slots.take(b.slot as usize);
        self.slots.put(a.slot as usize, a.serial, at_b);
        self.slots.put(b.slot as usize, b.serial, at_a);
    }

    /// How many names are live.
    pub fn live(&self) -> u64
        ensures count { result ≡ live_count self.now }
        ensures sound { IsSound self.now }
    {
        (self.slots.len() - self.spare) as u64
    }

    /// How many slots keep nothing.
    pub fn spare(&self) -> u64
        ensures count { result ≡ self.now.spare }
        ensures sound { IsSound self.now }
    {
        self.spare as u64
    }

    /// How many slots there are.
    pub fn slots(&self) -> u64
        ensures count { result ≡ slot_count self.now }
        ensures sound { IsSound self.now }
    {
        self.slots.len() as u64
    }

    /// The serial that the next value gets.
    pub fn next_serial(&self) -> u64
        ensures serial { result ≡ self.now.next_serial }
        ensures sound { IsSound self.now }
    {
        self.next_serial
    }
}

impl<T: Drop> Pool<T> {
    /// A pool with `n` spare slots.
    pub fn with_slots(alloc: Global, n: u64) -> Result<Pool<T>, NoMemory>
        requires { n ≤ 2 ^ 30 }
        ensures empty { IfOk result (λ p. p ≡ no_values 1 n) }
        ensures sound { IfOk result (λ p. IsSound p) }
    {
        let mut pool = Pool::new(alloc);
        if n != 0 {
            pool.grow(n as usize)?;
        }
        Ok(pool)
    }

    /// Drops the value in the slot, if it keeps one.
    fn vacate(&mut self, slot: usize)
        requires { slot < slot_count self.old }
        ensures { Vacates self.old self.new slot × IsSound self.new }
    {
        if let Some(serial) = self.slots.serial(slot) {
            let _value = self.take(Name {
                slot: slot as u32,
                serial,
            });
        }
    }

    /// Drops all values, and keeps the slots.
    pub fn clear(&mut self)
        ensures cleared { self.new ≡ cleared self.old }
        ensures sound { IsSound self.new }
    {
        for slot in 0..self.slots() {
            self.vacate(slot as usize);
        }
    }
}
