//! A run: slots that lie together in one chunk, from one of them to the chunk's end. From each the next one is at hand.
ghost use Rattle.std.specs.Prelude.{◌≡◌, ◌+◌, ◌<◌, ◌≤◌, [], length, drop, get_or, None, option_copied};
ghost use Rattle.ac_pool.specs.Runs.{values_in};

use crate::block::CELLS;
use crate::chunk::Chunk;
use std::marker::Model;

/// The index behind this one, or the same past the end.
#[inline(always)]
fn next_index(index: usize) -> usize
    ensures { (index < 512 → result ≡ index + 1) × (512 ≤ index → result ≡ index) }
{
    if index < CELLS { index + 1 } else { index }
}

/// A contract sees what each of the slots keeps.
#[derive(Drop)]
pub struct Run<'a, T> {
    // None where there is no slot.
    chunk: Option<&'a Chunk<T>>,
    index: usize,
}

impl<'a, T> Model for Run<'a, T> {
    ghost use Rattle.std.specs.Prelude.{List, Option, option_copied};
    ghost use Rattle.std.specs.Coded.{coded_list, coded_option};

    ghost Value = { List (Option T) };

    ghost coded = { coded_list (coded_option T.code) };

    ghost use Rattle.ac_pool.specs.Runs.{run_of, EndsBy};

    ghost view = { λ r. run_of (option_copied r.chunk) r.index };

    ghost invariant = { λ r. EndsBy (option_copied r.chunk) };
}

impl<'a, T> Run<'a, T> {
    /// The slots of the chunk from the index on.
    #[inline(always)]
    pub(crate) fn over(chunk: &'a Chunk<T>, index: usize) -> Run<'a, T>
        requires { length chunk.now ≤ 512 }
        ensures { result ≡ values_in (drop index chunk.now) }
    {
        Run {
            chunk: Some(chunk),
            index,
        }
    }

    #[inline(always)]
    pub(crate) fn none() -> Run<'a, T>
        ensures { result ≡ [] }
    {
        Run {
            chunk: None,
            index: 0,
        }
    }

    /// The value in the first of the slots, if there is one and it keeps a value.
    #[inline(always)]
    pub fn first(&self) -> Option<&'a T>
        ensures { option_copied result ≡ get_or self.now 0 None }
    {
        match self.chunk {
            Some(chunk) => chunk.value(self.index),
            None => None,
        }
    }

    /// The slots behind the first.
    #[inline(always)]
    pub fn rest(&self) -> Run<'a, T>
        ensures { result ≡ drop 1 self.now }
    {
        Run {
            chunk: self.chunk,
            index: next_index(self.index),
        }
    }
}
