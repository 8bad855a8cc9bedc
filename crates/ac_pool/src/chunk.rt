//! A row of cells that never move. Its cells are written in ascending order, and memory that no value has reached isn't touched.
ghost use Rattle.std.specs.Prelude.{◌≡◌, ◌⊎◌, ℕ, ◌<◌, ◌≤◌, get_or, Option, Some, None, length, replicate, slice_set, IfOk, option_copied};
ghost use Rattle.std.specs.Borrow.{sem};
ghost use Rattle.ac_pool.specs.Cell.{serial_at, serial_of, IsKept};
ghost use Rattle.ac_pool.specs.Places.{IsWritten, AreBare};
ghost use Rattle.ac_pool.specs.Reached.{IsMarked, IsReached, Reaches, Empties};
ghost use Rattle.ac_pool.specs.Runs.{kept_in};

use crate::block::Block;
use std::alloc::{AllocError, Global};
use std::marker::Model;

/// Writes the cells that lie before the index and were never written, which are free then. The value goes through each of them and comes
/// back, so that no function of its own writes a serial alone.
fn reach<T>(block: &mut Block<T>, reached: usize, index: usize, given: T) -> T
    requires long { length block.old.cells ≡ 512 }
    requires within { index ≤ 512 }
    requires fresh { (i : ℕ) → reached ≤ i → get_or block.old.cells i None ≡ None }
    ensures value { result ≡ given }
    ensures cells { Reaches block.old.cells block.new.cells reached index }
{
    let mut value = given;
    for at in reached..index {
        block.put(at, 1, value);
        value = block.take(at);
    }
    value
}

/// The greater of the two.
#[inline(always)]
fn furthest(reached: usize, next: usize) -> usize
    ensures bounds { (reached ≤ result) × (next ≤ result) }
    ensures one { (result ≡ reached) ⊎ (result ≡ next) }
{
    if reached < next { next } else { reached }
}

/// Drops the value in the cell, if it keeps one.
fn empty_cell<T: Drop>(block: &mut Block<T>, index: usize)
    requires written { IsWritten block.old.cells index }
    requires marked { (c : ℕ × Option T) → get_or block.old.cells index None ≡ Some c → IsMarked c.0 c.1 }
    ensures { Empties block.old.cells block.new.cells index }
{
    if block.serial(index) != 0 {
        let _value = block.take(index);
    }
}

/// Drops all values.
fn empty_cells<T: Drop>(block: &mut Block<T>, reached: usize)
    requires { IsReached block.old.cells reached }
    ensures { AreBare block.new.cells }
{
    for index in 0..reached {
        empty_cell(block, index);
    }
}

pub struct Chunk<T> {
    block: Block<T>,
    // The cells below were written, and no other.
    reached: usize,
    alloc: Global,
}

impl<T> Model for Chunk<T> {
    ghost use Rattle.std.specs.Prelude.{ℕ, List, Option, map};
    ghost use Rattle.std.specs.Coded.{coded×, coded_list, coded_option, coded_ℕ};

    ghost Value = { List (Option (ℕ × T)) };

    ghost coded = { coded_list (coded_option (coded× coded_ℕ T.code)) };

    ghost use Rattle.ac_pool.specs.Places.{kept};
    ghost use Rattle.ac_pool.specs.Reached.{IsReached};

    ghost view = { λ c. map kept c.block.cells };

    ghost invariant = { λ c. IsReached c.block.cells c.reached };
}

impl<T: Drop> Drop for Chunk<T> {
    fn drop(self) {
        let Chunk {
            block,
            reached,
            alloc,
        } = self;
        let mut block = block;
        empty_cells(&mut block, reached);
        block.free(&alloc);
    }
}

impl<T> Chunk<T> {
    ghost use Rattle.ac_pool.specs.ChunkLends.{lends_cell_value};

    pub(crate) fn new(alloc: Global) -> Result<Chunk<T>, AllocError>
        ensures { IfOk result (λ c. c ≡ replicate 512 None) }
    {
        let block = Block::allocate(&alloc)?;
        Ok(Chunk {
            block,
            reached: 0,
            alloc,
        })
    }

    /// The serial of the value in the cell, if there is such a cell and it keeps one.
    #[inline(always)]
    pub(crate) fn serial(&self, index: usize) -> Option<u64>
        ensures { result ≡ serial_of (get_or self.now index None) }
    {
        if index >= self.reached {
            return None;
        }
        match self.block.serial(index) {
            0 => None,
            serial => Some(serial),
        }
    }

    /// The value in the cell, if there is such a cell and it keeps one.
    #[inline(always)]
    pub(crate) fn value(&self, index: usize) -> Option<&T>
        ensures { option_copied result ≡ kept_in (get_or self.now index None) }
    {
        match self.serial(index) {
            Some(_) => Some(self.block.value(index)),
            None => None,
        }
    }

    #[inline(always)]
    pub(crate) fn put(&mut self, index: usize, serial: u64, value: T)
        requires within { index < 512 }
        requires empty { get_or self.old index None ≡ None }
        requires serial { 0 < serial }
        ensures { self.new ≡ slice_set self.old index (Some (serial, value)) }
    {
        let value = reach(&mut self.block, self.reached, index, value);
        self.block.put(index, serial, value);
        let reached = furthest(self.reached, index + 1);
        self.reached = reached;
    }

    #[inline(always)]
    pub(crate) fn take(&mut self, index: usize) -> T
        requires { IsKept self.old index }
        ensures value { get_or self.old index None ≡ Some (serial_at self.old index, result) }
        ensures cells { self.new ≡ slice_set self.old index None }
    {
        self.block.take(index)
    }

    #[inline(always)]
    pub(crate) fn value_mut(&mut self, index: usize) -> &mut T
        requires { IsKept self.old index }
        ensures* writes_back { sem 𝓛 (lends_cell_value T.row self.entry index result) }
        ensures value { get_or self.old index None ≡ Some (serial_at self.old index, result.now) }
    {
        self.block.value_mut(index)
    }
}
