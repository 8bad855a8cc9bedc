//! The array. A contract sees what it sees of a chain: a list of rows, each a name with its value, with the next serial and the
//! number of spare slots.
ghost use Rattle.std.specs.Prelude.{◌≡◌, ◌+◌, ◌-◌, ◌^◌, ◌<◌, ◌≤◌, IsOk, IfOk, OnOk, OnErr, None, Some, length, reverse, slice_get, take, drop, vec_capacity, []};
ghost use Rattle.std.specs.Borrow.{sem};
ghost use Rattle.std.specs.Ordering.{is_lt};
ghost use Rattle.ac_base.specs.Rows.{row, values};
ghost use Rattle.ac_chain.specs.Cut.{IsCut};
ghost use Rattle.ac_chain.specs.Rows.{Chained, IsLive, value_of, no_rows, with_rows, reserved, inserted, removed, cleared, values_swapped, with_value, IsFresh, IsSound};
ghost use Rattle.ac_pool.specs.NamedRows.{index_of, name_at, name_before};
ghost use Rattle.ac_model.specs.Objects.{plains};
ghost use Rattle.ac_model.specs.Rows.{over, sorted};
ghost use Rattle.ac_vector.specs.Popped.{IsPopped};
ghost use Rattle.ac_vector.specs.Stacks.{IsWoven};
ghost use Rattle.ac_vector.specs.Turn.{turned};

use crate::growth::least_slots;
use crate::places::renumber;
use crate::turning::turn_vector;
use crate::weaving::{Line, stack_last, weave};
use ac_base::{Name, NoMemory, Rank, precedes};
use ac_chain::Walked;
use ac_pool::Pool;
use std::alloc::Global;
use std::cmp::Ordering;
use std::marker::Model;

/// Values in order, each under a name that follows it. The names are a pool's, which keeps each name's place; the array keeps their slots.
#[derive(Drop)]
pub struct Array<T> {
    values: Vec<T>,
    // Each live name's slot: the pool has its serial.
    slots: Vec<u32>,
    places: Pool<u32>,
}

impl<T> Model for Array<T> {
    ghost use Rattle.std.specs.Prelude.{vec_capacity};
    ghost use Rattle.ac_chain.specs.Rows.{Chained, chained, chained_code};

    ghost Value = { Chained T };

    ghost coded = { chained_code T.code };

    ghost use Rattle.ac_vector.specs.ArrayFields.{names_in, rows_in, IsSlotted};

    ghost view = { λ a. chained (rows_in (names_in a.places a.slots.items) a.values.items) a.places.next_serial a.places.spare };

    ghost invariant = { λ a. IsSlotted a.slots.items a.values.items a.places (vec_capacity a.slots) (vec_capacity a.values) };
}

impl<T> Array<T> {
    ghost use Rattle.ac_vector.specs.ArrayLends.{lends_value};

    /// An array without rows, which takes no memory. Its first serial is 1.
    pub fn new(alloc: Global) -> Array<T>
        ensures empty { result ≡ no_rows 1 0 }
        ensures sound { IsSound result }
    {
        Array {
            values: Vec::new(alloc),
            slots: Vec::new(alloc),
            places: Pool::new(alloc),
        }
    }

    /// Makes at least `n` slots spare. Where it must grow, the slots become the least `8 * 2^k` that has room for `n` rows more.
    #[inline(always)]
    pub fn reserve(&mut self, n: u64) -> Result<(), NoMemory>
        requires { length self.old.rows + n ≤ 2 ^ 30 }
        ensures ok { OnOk result (self.new ≡ reserved self.old n) }
        ensures err { OnErr result (self.new ≡ self.old) }
        ensures had_room { n ≤ self.old.spare → IsOk result }
        ensures sound { IsSound self.new }
    {
        if n <= self.spare() {
            return Ok(());
        }
        self.grow(n)
    }

    /// As `reserve`, out of line: where so many slots are not spare.
    #[cold]
    #[inline(never)]
    fn grow(&mut self, n: u64) -> Result<(), NoMemory>
        requires short { self.old.spare < n }
        requires few { length self.old.rows + n ≤ 2 ^ 30 }
        requires sound { IsSound self.old }
        ensures ok { OnOk result (self.new ≡ reserved self.old n) }
        ensures err { OnErr result (self.new ≡ self.old) }
        ensures sound { IsSound self.new }
    {
        let len = self.values.len();
        let more = least_slots(len + n as usize) - len;
        self.values.reserve_exact(more)?;
        self.slots.reserve_exact(more)?;
        self.places.reserve(n)
    }

    /// How many slots keep nothing.
    pub fn spare(&self) -> u64
        ensures count { result ≡ self.now.spare }
        ensures sound { IsSound self.now }
    {
        self.places.spare()
    }

    /// The name of the row at this place.
    pub fn name_at(&self, place: u64) -> Name
        requires { place < length self.now.rows }
        ensures name { Some result ≡ name_at self.now.rows place }
        ensures sound { IsSound self.now }
    {
        let slot = self.slots[place as usize];
        self.places.name_in(slot).unwrap()
    }

    /// The value of the row at this place.
    pub fn value_at(&self, place: u64) -> &T
        requires { place < length self.now.rows }
        ensures value { Some result.now ≡ slice_get (values self.now.rows) place }
    {
        let _places = &self.places;
        &self.values[place as usize]
    }

    /// The place of the name's row.
    pub fn index_of(&self, name: Name) -> u64
        requires { IsLive self.now name }
        ensures index { result ≡ index_of name self.now.rows }
        ensures sound { IsSound self.now }
    {
        *self.places.get(name).unwrap() as u64
    }

    /// The values in order.
    pub fn values(&self) -> &[T]
        ensures values { result.now ≡ values self.now.rows }
    {
        let _places = &self.places;
        self.values.as_slice()
    }

    /// The name at this place, if a row stands there.
    fn name_from(&self, place: u64) -> Option<Name>
        ensures name { result ≡ name_at self.now.rows place }
        ensures sound { IsSound self.now }
    {
        if place < self.len() {
            Some(self.name_at(place))
        } else {
            None
        }
    }

    /// The name before this place.
    fn name_below(&self, place: u64) -> Option<Name>
        ensures name { result ≡ name_before self.now.rows place }
        ensures sound { IsSound self.now }
    {
        let _places = &self.places;
        if place == 0 {
            None
        } else {
            self.name_from(place - 1)
        }
    }

    /// As `at`, for writing.
    pub fn at_mut(&mut self, name: Name) -> &mut T
        requires { IsLive self.old name }
        ensures* writes_back { sem 𝓛 (lends_value T.row self.entry name result) }
        ensures value { Some result.now ≡ value_of self.old name }
    {
        let place = self.index_of(name);
        let _places = &self.places;
        &mut self.values[place as usize]
    }

    /// Puts a value behind the last row, under a fresh name.
    #[inline(always)]
    pub fn append(&mut self, v: T) -> Name
        requires spare { 0 < self.old.spare }
        requires unspent { self.old.next_serial < 2 ^ 64 - 1 }
        ensures fresh { IsFresh self.old result }
        ensures inserted { self.new ≡ inserted self.old None (row result v) }
        ensures sound { IsSound self.new }
    {
        let place = self.len();
        let name = self.places.put_reserved(place as u32);
        self.slots.push_reserved(name.slot);
        self.values.push_reserved(v);
        name
    }

    /// Takes the last row out, whose name this is, and frees its slot. Its value is the answer.
    fn take_last(&mut self, name: Name) -> Option<T>
        requires { Some name ≡ name_before self.old.rows (length self.old.rows) }
        ensures value { result ≡ value_of self.old name }
        ensures removed { self.new ≡ removed self.old name }
        ensures sound { IsSound self.new }
    {
        let value = self.values.pop();
        let _slot = self.slots.pop();
        let _place = self.places.take(name);
        value
    }

    /// Takes the last row out, if there is one. Its value is the answer.
    pub fn pop(&mut self) -> Option<T>
        ensures popped { IsPopped self.old result self.new }
        ensures sound { IsSound self.new }
    {
        let _places = &self.places;
        match self.last() {
            None => None,
            Some(name) => self.take_last(name),
        }
    }

    /// The two values change places.
    pub fn swap_values(&mut self, a: Name, b: Name)
        requires a { IsLive self.old a }
        requires b { IsLive self.old b }
        ensures swapped { self.new ≡ values_swapped self.old a b }
        ensures itself { a ≡ b → self.new ≡ self.old }
        ensures sound { IsSound self.new }
    {
        let first = self.index_of(a);
        let second = self.index_of(b);
        self.values.swap(first as usize, second as usize);
    }

    /// The last `count` rows go before the one at `place`.
    pub fn turn(&mut self, place: u64, count: u64)
        requires { place + count ≤ length self.old.rows }
        ensures turned { self.new ≡ with_rows self.old (turned self.old.rows place count) }
        ensures sound { IsSound self.new }
    {
        let len = self.len();
        if place + count == len {
            return;
        }
        let _places = &self.places;
        turn_vector(&mut self.values, place as usize, count as usize);
        turn_vector(&mut self.slots, place as usize, count as usize);
        renumber(&mut self.places, self.slots.as_slice(), place as usize);
    }

    /// The values the other way round, and the names in place.
    pub fn reverse_values(&mut self)
        ensures reversed { self.new ≡ with_rows self.old (over self.old.rows (reverse (values self.old.rows))) }
        ensures sound { IsSound self.new }
    {
        let _places = &self.places;
        self.values.reverse();
    }
}

impl<T> Walked<T> for Array<T> {
    ghost seen = { λ a. a };

    #[inline]
    fn len(&self) -> u64 {
        let _places = &self.places;
        self.values.len() as u64
    }

    #[inline]
    fn next_serial(&self) -> u64 {
        self.places.next_serial()
    }

    #[inline]
    fn is_live(&self, name: Name) -> bool {
        self.places.get(name).is_some()
    }

    #[inline]
    fn first(&self) -> Option<Name> {
        self.name_from(0)
    }

    #[inline]
    fn last(&self) -> Option<Name> {
        self.name_below(self.len())
    }

    #[inline]
    fn next(&self, name: Name) -> Option<Name> {
        self.name_from(self.index_of(name) + 1)
    }

    #[inline]
    fn prev(&self, name: Name) -> Option<Name> {
        self.name_below(self.index_of(name))
    }

    #[inline]
    fn at(&self, name: Name) -> &T {
        self.value_at(self.index_of(name))
    }
}

impl<T: Drop> Array<T> {
    /// An array with `n` spare slots.
    pub fn with_slots(alloc: Global, n: u64) -> Result<Array<T>, NoMemory>
        requires { n ≤ 2 ^ 30 }
        ensures empty { IfOk result (λ c. c ≡ no_rows 1 n) }
        ensures sound { IfOk result (λ c. IsSound c) }
    {
        Ok(Array {
            values: Vec::with_capacity(alloc, n as usize)?,
            slots: Vec::with_capacity(alloc, n as usize)?,
            places: Pool::with_slots(alloc, n)?,
        })
    }

    /// Writes another value in the row at this place.
    pub fn set_at(&mut self, place: u64, v: T)
        requires { place < length self.old.rows }
        ensures written { (a : Name) → Some a ≡ name_at self.old.rows place → self.new ≡ with_value self.old a v }
        ensures sound { IsSound self.new }
    {
        let _places = &self.places;
        self.values[place as usize] = v;
    }

    /// Drops all values, and keeps the slots.
    pub fn clear(&mut self)
        ensures cleared { self.new ≡ cleared self.old }
        ensures sound { IsSound self.new }
    {
        self.values.clear();
        self.slots.clear();
        self.places.clear();
    }

    /// Drops the last row's value, and frees its slot.
    fn drop_last(&mut self, name: Name)
        requires { Some name ≡ name_before self.old.rows (length self.old.rows) }
        ensures removed { self.new ≡ removed self.old name }
        ensures sound { IsSound self.new }
    {
        let _value = self.take_last(name);
    }

    /// Drops the last `count` rows, or all where there are fewer.
    fn cut_last(&mut self, count: u64)
        requires sound { IsSound self.old }
        ensures cut { IsCut self.old (length self.old.rows - count) count self.new }
        ensures sound { IsSound self.new }
    {
        for _i in 0..count {
            match self.last() {
                None => return,
                Some(name) => self.drop_last(name),
            }
        }
    }

    /// Drops the `count` rows from the place on, or all behind it where there are fewer.
    pub fn cut(&mut self, place: u64, count: u64)
        requires { place ≤ length self.old.rows }
        ensures cut { IsCut self.old place count self.new }
        ensures sound { IsSound self.new }
    {
        let behind = self.len() - place;
        if count < behind {
            self.turn(place, behind - count);
            self.cut_last(count);
        } else {
            self.cut_last(behind);
        }
    }
}

impl<T: Rank> Array<T> {
    /// The values in ascending order, those that are level as they stood, and the names in place.
    pub fn sort_values(&mut self) -> Result<(), NoMemory>
        ensures ok { OnOk result (self.new ≡ with_rows self.old (over self.old.rows (values (sorted T.is_less (plains self.old.rows))))) }
        ensures err { OnErr result (self.new ≡ self.old) }
        ensures sound { IsSound self.new }
    {
        let _places = &self.places;
        self.values.sort_by(|left, right| compare(left, right))?;
        Ok(())
    }

    /// Merges the rows from the seam on into those before it. The two empty stacks have room for them.
    pub(crate) fn interleave(&mut self, seam: u64, mut mine: Vec<Line<T>>, mut theirs: Vec<Line<T>>)
        requires seam { seam ≤ length self.old.rows }
        requires mine { (mine.items ≡ []) × (seam ≤ vec_capacity mine) }
        requires theirs { (theirs.items ≡ []) × (length self.old.rows ≤ seam + vec_capacity theirs) }
        ensures woven { IsWoven T.is_less (take seam self.old.rows) (drop seam self.old.rows) self.new.rows }
        ensures rest { self.new ≡ with_rows self.old self.new.rows }
        ensures sound { IsSound self.new }
    {
        let behind = self.len() - seam;
        stack_last(
            &self.places,
            &mut self.slots,
            &mut self.values,
            behind as usize,
            &mut theirs,
        );
        stack_last(
            &self.places,
            &mut self.slots,
            &mut self.values,
            seam as usize,
            &mut mine,
        );
        weave(&mut self.slots, &mut self.values, mine, theirs);
        renumber(&mut self.places, self.slots.as_slice(), 0);
    }
}

/// Which of the two stands first.
fn compare<T: Rank>(left: &T, right: &T) -> Ordering
    ensures { is_lt result ≡ T.is_less left.now right.now }
{
    if precedes(left, right) {
        Ordering::Less
    } else if precedes(right, left) {
        Ordering::Greater
    } else {
        Ordering::Equal
    }
}
