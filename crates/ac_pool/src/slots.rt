//! The slots of a pool: chunks that never move, to which a growth adds more. A contract sees their cells as one list.
ghost use Rattle.std.specs.Prelude.{◌≡◌, ℕ, ◌+◌, ◌*◌, ◌^◌, ◌<◌, ◌≤◌, get_or, List, [], ◌++◌, Option, Some, None, length, replicate, slice_set, OnOk, OnErr, option_copied};
ghost use Rattle.std.specs.Borrow.{sem};
ghost use Rattle.ac_pool.specs.Cell.{serial_of, serial_at, IsKept};
ghost use Rattle.ac_pool.specs.Runs.{kept_in, values_in, LiesFrom};

use crate::block::CELLS;
use crate::chunk::Chunk;
use crate::run::Run;
use std::alloc::{AllocError, Global};
use std::marker::Model;

fn chunk_of(slot: usize) -> usize
    ensures { (512 * result ≤ slot) × (slot < 512 * result + 512) }
{
    slot / CELLS
}

/// How many chunks hold so many slots.
fn chunks_for(slots: usize) -> usize
    requires { slots ≤ 2 ^ 30 }
    ensures { slots ≤ 512 * result }
{
    (slots + (CELLS - 1)) / CELLS
}

/// Adds so many chunks of empty cells. Where it fails it may have added some.
fn add_chunks<T>(chunks: &mut Vec<Chunk<T>>, count: usize) -> Result<(), AllocError>
    ensures ok { OnOk result (chunks.new.items ≡ chunks.old.items ++ replicate count (replicate 512 None)) }
    ensures err { OnErr result ((n : ℕ) × (chunks.new.items ≡ chunks.old.items ++ replicate n (replicate 512 None))) }
{
    let alloc = *chunks.allocator();
    chunks.reserve(count)?;
    for _ in 0..count {
        let chunk = Chunk::new(alloc)?;
        chunks.push_reserved(chunk);
    }
    Ok(())
}

#[derive(Drop)]
pub struct Slots<T> {
    // The newest may have cells past the last slot, and a failed growth may leave more of them.
    chunks: Vec<Chunk<T>>,
    len: usize,
}

impl<T> Model for Slots<T> {
    ghost use Rattle.std.specs.Prelude.{ℕ, List, Option};
    ghost use Rattle.std.specs.Coded.{coded×, coded_list, coded_option, coded_ℕ};

    ghost Value = { List (Option (ℕ × T)) };

    ghost coded = { coded_list (coded_option (coded× coded_ℕ T.code)) };

    ghost use Rattle.ac_pool.specs.Slots.{cells_in, IsSlots};

    ghost view = { λ s. cells_in s.chunks.items s.len };

    ghost invariant = { λ s. IsSlots s.chunks.items s.len };
}

impl<T> Slots<T> {
    ghost use Rattle.ac_pool.specs.SlotsLends.{lends_slot_value};

    pub(crate) fn new(alloc: Global) -> Slots<T>
        ensures { result ≡ [] }
    {
        Slots {
            chunks: Vec::new(alloc),
            len: 0,
        }
    }

    /// Adds empty cells. No cell moves.
    pub(crate) fn grow(&mut self, by: usize) -> Result<(), AllocError>
        requires { length self.old + by ≤ 2 ^ 30 }
        ensures ok { OnOk result (self.new ≡ self.old ++ replicate by None) }
        ensures err { OnErr result (self.new ≡ self.old) }
    {
        let end = chunks_for(self.len + by);
        let more = end.saturating_sub(self.chunks.len());
        add_chunks(&mut self.chunks, more)?;
        self.len += by;
        Ok(())
    }

    #[inline(always)]
    pub(crate) fn len(&self) -> usize
        ensures count { result ≡ length self.now }
        ensures few { result ≤ 2 ^ 30 }
    {
        self.len
    }

    // A slot's cell is found by a division and its remainder, so that several reads of one slot find it once.

    /// The value in the slot, if there is such a slot and it keeps one.
    #[inline(always)]
    pub(crate) fn value(&self, slot: usize) -> Option<&T>
        ensures { option_copied result ≡ kept_in (get_or self.now slot None) }
    {
        if slot >= self.len() {
            return None;
        }
        let chunk = &self.chunks[chunk_of(slot)];
        chunk.value(slot % CELLS)
    }

    /// The slots from this one to the end of its chunk, or none where there is no such slot.
    #[inline(always)]
    pub(crate) fn run_at(&self, slot: usize) -> Run<'_, T>
        ensures { (cells : List (Option (ℕ × T))) × (result ≡ values_in cells) × LiesFrom (λ i. get_or self.now i None) slot cells }
    {
        if slot >= self.len() {
            return Run::none();
        }
        let chunk = &self.chunks[chunk_of(slot)];
        Run::over(chunk, slot % CELLS)
    }

    /// The serial of the value in the slot, if there is such a slot and it keeps one.
    #[inline(always)]
    pub(crate) fn serial(&self, slot: usize) -> Option<u64>
        ensures { result ≡ serial_of (get_or self.now slot None) }
    {
        if slot >= self.len() {
            return None;
        }
        let chunk = &self.chunks[chunk_of(slot)];
        chunk.serial(slot % CELLS)
    }

    #[inline(always)]
    pub(crate) fn put(&mut self, slot: usize, serial: u64, value: T)
        requires within { slot < length self.old }
        requires empty { get_or self.old slot None ≡ None }
        requires serial { 0 < serial }
        ensures { self.new ≡ slice_set self.old slot (Some (serial, value)) }
    {
        let chunk = &mut self.chunks[chunk_of(slot)];
        chunk.put(slot % CELLS, serial, value);
    }

    #[inline(always)]
    pub(crate) fn take(&mut self, slot: usize) -> T
        requires { IsKept self.old slot }
        ensures value { get_or self.old slot None ≡ Some (serial_at self.old slot, result) }
        ensures cells { self.new ≡ slice_set self.old slot None }
    {
        let chunk = &mut self.chunks[chunk_of(slot)];
        chunk.take(slot % CELLS)
    }

    #[inline(always)]
    pub(crate) fn get(&self, slot: usize) -> &T
        requires { IsKept self.now slot }
        ensures { get_or self.now slot None ≡ Some (serial_at self.now slot, result.now) }
    {
        match self.value(slot) {
            Some(value) => value,
            None => unreachable!(),
        }
    }

    #[inline(always)]
    pub(crate) fn get_mut(&mut self, slot: usize) -> &mut T
        requires { IsKept self.old slot }
        ensures* writes_back { sem 𝓛 (lends_slot_value T.row self.entry slot result) }
        ensures value { get_or self.old slot None ≡ Some (serial_at self.old slot, result.now) }
    {
        let chunk = &mut self.chunks[chunk_of(slot)];
        chunk.value_mut(slot % CELLS)
    }
}
