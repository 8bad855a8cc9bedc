//! The memory of a chunk: one block from the allocator with room for 512 cells. All functions of the pool that touch a pointer stand here.
//!
//! What holds of a block between two calls:
//!
//! - It has one block from the allocator, which is neither moved nor given back before `free`, and the right to give it back.
//! - It has 512 cells, each at its index times the size of a cell: a serial first, and room for a value behind it.
//! - A cell was never written, or a serial stands in it, with a value behind or with none. `cells` says which, and proofs alone see it.
//! - A cell that was never written has nothing that may be read. `put` alone writes it.
//! - Where no value is behind the serial the room is there, and owns nothing: what lies in it isn't read, lent or dropped.
//! - A value that is there is owned. `take` moves it out, and leaves the serial 0; while it is lent by `value_mut` no other call is made.
//! - `free` is asked for where no value is there, so that none is lost with the block.
//! - A block takes fewer than 2^63 bytes, so that no place in it is reckoned wrong.
//!
//! That a serial of 0 is one without a value is no matter of the block: the chunk over it sees to that.
ghost use Rattle.std.specs.Prelude.{◌≡◌, ℕ, ◌<◌, List, Option, Some, None, replicate, slice_set, IfOk};
ghost use Rattle.std.specs.Borrow.{sem};
ghost use Rattle.std.specs.Coded.{coded×, coded_list, coded_option, coded_ℕ};
ghost use Rattle.ac_pool.specs.Places.{serial_at_place, IsWritten, HoldsValue, Holds, IsBare, AreBare};
ghost use Rattle.ac_pool.specs.Memory.{block_own, block_lent};

use std::alloc::{AllocError, Allocator, Global};
use std::marker::{Model, Send, Sync};
use std::mem::{align_of, size_of};

/// Every chunk has so many cells.
pub(crate) const CELLS: usize = 512;

/// So many cells of this many bytes take fewer than 2^63 bytes.
const MOST_BYTES: usize = 0x3f_ffff_ffff_ffff;

/// How a cell lies in memory. Behind the serial of a free cell there is no value.
pub(crate) struct Cell<T> {
    serial: u64,
    value: T,
}

/// The block. `cells` says of each cell whether it was ever written, and then its serial and whether a value is behind it.
pub struct Block<T> {
    first: *mut Cell<T>,
    pub ghost cells: { List (Option (ℕ × Option T)) } by { coded_list (coded_option (coded× coded_ℕ (coded_option T.code))) },
}

impl<T> Model for Block<T> {
    ghost also_owns = { λ c. block_own T.row c.first c.cells };

    ghost also_shares = { λ c _ κ. block_lent T.row c.first c.cells κ };
}

unsafe impl<T: Send> Send for Block<T> {}

unsafe impl<T: Sync> Sync for Block<T> {}

impl<T> Block<T> {
    ghost use Rattle.ac_pool.specs.BlockLends.{lends_place_value};

    /// A block in which no cell was written.
    pub(crate) fn allocate(alloc: &Global) -> Result<Block<T>, AllocError>
        ensures { IfOk result (λ c. c.cells ≡ replicate 512 None) }
    {
        if MOST_BYTES < size_of::<Cell<T>>() {
            return Err(AllocError);
        }
        match alloc.allocate(CELLS * size_of::<Cell<T>>(), align_of::<Cell<T>>()) {
            Ok(block) => Ok(Block {
                first: block as *mut Cell<T>,
            }),
            Err(refused) => Err(refused),
        }
    }

    /// Gives the block back. No value is in its cells.
    pub(crate) fn free(self, alloc: &Global)
        requires { AreBare self.cells }
    {
        let Block { first } = self;
        unsafe {
            alloc.deallocate(
                first as *mut u8,
                CELLS * size_of::<Cell<T>>(),
                align_of::<Cell<T>>(),
            );
        }
    }

    /// The serial in a cell that was written.
    #[inline(always)]
    pub(crate) fn serial(&self, index: usize) -> u64
        requires { IsWritten self.now.cells index }
        ensures { result ≡ serial_at_place self.now.cells index }
    {
        unsafe { (*self.first.add(index)).serial }
    }

    #[inline(always)]
    pub(crate) fn value(&self, index: usize) -> &T
        requires { HoldsValue self.now.cells index }
        ensures { Holds self.now.cells index result.now }
    {
        unsafe { &(*self.first.add(index)).value }
    }

    #[inline(always)]
    pub(crate) fn value_mut(&mut self, index: usize) -> &mut T
        requires { HoldsValue self.old.cells index }
        ensures* writes_back { sem 𝓛 (lends_place_value T.row self.entry index result) }
        ensures value { Holds self.old.cells index result.now }
    {
        unsafe { &mut (*self.first.add(index)).value }
    }

    /// Writes a serial and a value into a cell that has no value.
    #[inline(always)]
    pub(crate) fn put(&mut self, index: usize, serial: u64, value: T)
        requires within { index < 512 }
        requires bare { IsBare self.old.cells index }
        ensures { self.new.cells ≡ slice_set self.old.cells index (Some (serial, Some value)) }
    {
        unsafe {
            let cell = self.first.add(index);
            (*cell).serial = serial;
            (&raw mut (*cell).value).write(value);
        }
    }

    /// Moves the value out of its cell, whose serial is 0 then.
    #[inline(always)]
    pub(crate) fn take(&mut self, index: usize) -> T
        requires { HoldsValue self.old.cells index }
        ensures value { Holds self.old.cells index result }
        ensures freed { self.new.cells ≡ slice_set self.old.cells index (Some (0, None)) }
    {
        unsafe {
            let cell = self.first.add(index);
            (*cell).serial = 0;
            (&raw const (*cell).value).read()
        }
    }
}
