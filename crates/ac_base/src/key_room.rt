//! Memory for the key of a text, taken beforehand.
ghost use Rattle.std.specs.Prelude.{◌≡◌, ◌≤◌, length};

use crate::fault::NoMemory;
use crate::text::LONGEST;
use std::alloc::Global;
use std::marker::Model;

/// Memory for the key of any text, so that the key can be made later and take none.
#[derive(Drop)]
pub struct KeyRoom {
    bytes: Vec<u8>,
}

impl Model for KeyRoom {
    ghost use Rattle.std.specs.Prelude.{◌≡◌, ◌≤◌, ⊤, []};
    ghost use Rattle.std.specs.Vec.{vec_capacity};

    ghost Value = { ⊤ };

    ghost view = { λ room. tt };

    ghost invariant = { λ room. (room.bytes.items ≡ []) × (1000 ≤ vec_capacity room.bytes) };
}

impl KeyRoom {
    pub fn new(alloc: Global) -> Result<KeyRoom, NoMemory> {
        Ok(KeyRoom {
            bytes: Vec::with_capacity(alloc, LONGEST)?,
        })
    }

    /// These bytes, in the memory that was taken.
    pub(crate) fn filled(self, key: &[u8]) -> Vec<u8>
        requires { length key.now ≤ 1000 }
        ensures { result.items ≡ key.now }
    {
        let mut bytes = self.bytes;
        match bytes.extend_from_slice(key) {
            Ok(()) => bytes,
            Err(_) => unreachable!(),
        }
    }
}
