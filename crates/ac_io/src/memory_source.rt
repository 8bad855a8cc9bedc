ghost use Rattle.std.specs.Prelude.{◌≡◌, ◌≢◌, ◌<◌, ◌≤◌, true, Some, length};
ghost use Rattle.ac_io.specs.Outside.{Rose, Gives};
ghost use Rattle.ac_io.specs.Memory.{next_answer, after_next, filled, is_unfailing};

use crate::outside::{Next, Source};
use std::marker::Model;

/// A source in memory, which gives its bytes in pieces and fails at the calls that it is told.
#[derive(Drop)]
pub struct MemorySource {
    bytes: Vec<u8>,
    given: usize,
    piece: usize,
    fails: Vec<u64>,
    calls: u64,
    faults: u64,
}

impl Model for MemorySource {
    ghost use Rattle.std.specs.Prelude.{◌<◌, ◌≤◌, drop, length};
    ghost use Rattle.ac_io.specs.Memory.{Supply};

    ghost Value = { Supply };

    ghost view = { λ s. record {
      left = drop s.given s.bytes.items;
      piece = s.piece;
      fails = s.fails.items;
      calls = s.calls;
      faults = s.faults;
    } };

    ghost invariant = { λ s. (s.given ≤ length s.bytes.items) × (0 < s.piece) };
}

impl MemorySource {
    /// A source of these bytes. A call gives at most `piece` of them, and the calls whose numbers,
    /// from 1, are in `fails` fail.
    pub fn new(bytes: Vec<u8>, piece: usize, fails: Vec<u64>) -> MemorySource
        requires { 0 < piece }
        ensures { result ≡ record {
          left = bytes.items;
          piece = piece;
          fails = fails.items;
          calls = 0;
          faults = 0;
        } }
    {
        MemorySource {
            bytes,
            given: 0,
            piece,
            fails,
            calls: 0,
            faults: 0,
        }
    }

    /// The bytes still to come.
    pub fn rest(&self) -> &[u8]
        ensures { result.now ≡ self.now.left }
    {
        &self.bytes[self.given..]
    }
}

impl Source for MemorySource {
    ghost left = { λ s. Some s.left };

    ghost faults = { λ s. s.faults };

    ghost is_steady = { λ s. is_unfailing s.fails };

    ghost counts_failures = { λ _. true };

    fn next(&mut self, buf: &mut [u8]) -> Next
        requires { 0 < length buf.old }
        ensures answer { result ≡ next_answer self.old (length buf.old) }
        ensures after { self.new ≡ after_next self.old result }
        ensures buffer { buf.new ≡ filled self.old result buf.old }

        // What the trait promises.
        ensures gives { Gives result buf.new (Some self.old.left) (Some self.new.left) }
        ensures counted { self.old.faults ≤ self.new.faults }
        ensures failed { result ≡ Next.Failed → Rose self.old.faults self.new.faults }
        ensures steady { is_unfailing self.old.fails ≡ true →
            (result ≢ Next.Failed) × (is_unfailing self.new.fails ≡ true) }
        ensures counts { result ≢ Next.Failed → self.new.faults ≡ self.old.faults }
    {
        self.calls = self.calls.saturating_add(1);
        if self.fails.contains(&self.calls) {
            self.faults = self.faults.saturating_add(1);
            return Next::Failed;
        }
        let left = self.rest();
        if left.is_empty() {
            return Next::End;
        }
        let count = self.piece.min(buf.len()).min(left.len());
        buf[..count].copy_from_slice(&left[..count]);
        self.given += count;
        Next::Got(count)
    }
}
