ghost use Rattle.std.specs.Prelude.{◌≡◌, ◌≢◌, ◌<◌, ◌≤◌, true, Some, [], length, IfOk};
ghost use Rattle.ac_io.specs.Outside.{Rose, Takes, TakesWithin};
ghost use Rattle.ac_io.specs.Memory.{put_answer, after_put, room_of};

use crate::outside::{Put, Sink};
use ac_base::NoMemory;
use std::alloc::Global;
use std::marker::Model;

/// A sink in memory with a fixed room, which takes pieces and fails at the calls that it is told.
#[derive(Drop)]
pub struct MemorySink {
    bytes: Vec<u8>,
    room: u64,
    piece: usize,
    fails: Vec<u64>,
    calls: u64,
    faults: u64,
}

impl Model for MemorySink {
    ghost use Rattle.std.specs.Prelude.{◌<◌, ◌≤◌, length, vec_capacity};
    ghost use Rattle.ac_io.specs.Memory.{Store};

    ghost Value = { Store };

    ghost view = { λ s. record {
      held = s.bytes.items;
      room = s.room;
      piece = s.piece;
      fails = s.fails.items;
      calls = s.calls;
      faults = s.faults;
    } };

    ghost invariant = { λ s.
        (length s.bytes.items ≤ s.room) × (s.room ≤ vec_capacity s.bytes) × (0 < s.piece) };
}

impl MemorySink {
    /// An empty sink with room for so many bytes. A call takes at most `piece` of them, and the
    /// calls whose numbers, from 1, are in `fails` fail, as every call does where the room is full.
    pub fn with_room(
        alloc: Global,
        room: u64,
        piece: usize,
        fails: Vec<u64>,
    ) -> Result<MemorySink, NoMemory>
        requires { 0 < piece }
        ensures { IfOk result (λ sink. sink ≡ record {
          held = [];
          room = room;
          piece = piece;
          fails = fails.items;
          calls = 0;
          faults = 0;
        }) }
    {
        let bytes = Vec::with_capacity(alloc, room as usize)?;
        Ok(MemorySink {
            bytes,
            room,
            piece,
            fails,
            calls: 0,
            faults: 0,
        })
    }

    /// The bytes taken so far.
    pub fn bytes(&self) -> &[u8]
        ensures { result.now ≡ self.now.held }
    {
        &self.bytes
    }
}

impl Sink for MemorySink {
    ghost held = { λ s. Some s.held };

    ghost faults = { λ s. s.faults };

    ghost room = { room_of };

    ghost counts_failures = { λ _. true };

    fn put(&mut self, bytes: &[u8]) -> Put
        requires { 0 < length bytes.now }
        ensures answer { result ≡ put_answer self.old (length bytes.now) }
        ensures after { self.new ≡ after_put self.old result bytes.now }

        // What the trait promises.
        ensures takes { Takes result bytes.now (Some self.old.held) (Some self.new.held) }
        ensures counted { self.old.faults ≤ self.new.faults }
        ensures failed { result ≡ Put.Failed → Rose self.old.faults self.new.faults }
        ensures within { TakesWithin result bytes.now (room_of self.old) (room_of self.new) }
        ensures counts { result ≢ Put.Failed → self.new.faults ≡ self.old.faults }
    {
        self.calls = self.calls.saturating_add(1);
        let space = self.room as usize - self.bytes.len();
        if self.fails.contains(&self.calls) || space == 0 {
            self.faults = self.faults.saturating_add(1);
            return Put::Failed;
        }
        let count = self.piece.min(bytes.len()).min(space);
        self.bytes.extend_from_slice(&bytes[..count]).unwrap();
        Put::Took(count)
    }
}
