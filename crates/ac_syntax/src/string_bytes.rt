ghost use Rattle.std.specs.Prelude.{◌≡◌, IfOk};

use std::alloc::{AllocError, Global};
use std::marker::Model;

/// The bytes of a string between its quotes, each doubled quote as one.
#[derive(Drop)]
pub struct StringBytes {
    bytes: Vec<u8>,
}

impl Model for StringBytes {
    ghost use Rattle.std.specs.Prelude.{List, ℕ};

    ghost Value = { List ℕ };

    ghost view = { λ string. string.bytes.items };
}

impl StringBytes {
    /// A string of these bytes as they are.
    pub fn new(bytes: Vec<u8>) -> StringBytes
        ensures { result ≡ bytes.items }
    {
        StringBytes { bytes }
    }

    pub fn bytes(&self) -> &[u8]
        ensures { result.now ≡ self.now }
    {
        &self.bytes
    }

    pub fn copy(&self, alloc: Global) -> Result<StringBytes, AllocError>
        ensures { IfOk result (λ copy. copy ≡ self.now) }
    {
        Ok(StringBytes::new(self.bytes.to_vec(alloc)?))
    }
}
