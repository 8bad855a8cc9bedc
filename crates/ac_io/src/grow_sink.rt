ghost use Rattle.std.specs.Prelude.{◌≡◌, ◌≢◌, ◌<◌, ◌≤◌, ◌⊎◌, true, Some, None, [], length};
ghost use Rattle.ac_io.specs.Outside.{Rose, Takes, TakesWithin};
ghost use Rattle.ac_io.specs.Memory.{after_growth};

use crate::outside::{Put, Sink};
use std::alloc::Global;
use std::marker::Model;

/// A sink in memory that takes each piece whole, and memory for it as it comes. A call fails only where
/// memory runs out.
#[derive(Drop)]
pub struct GrowSink {
    bytes: Vec<u8>,
    faults: u64,
}

impl Model for GrowSink {
    ghost use Rattle.ac_io.specs.Memory.{Growth};

    ghost Value = { Growth };

    ghost view = { λ s. record { held = s.bytes.items; faults = s.faults } };
}

impl GrowSink {
    /// An empty sink, which has taken no memory yet.
    pub fn new(alloc: Global) -> GrowSink
        ensures { result ≡ record { held = []; faults = 0 } }
    {
        GrowSink {
            bytes: Vec::new(alloc),
            faults: 0,
        }
    }

    /// The bytes taken so far.
    pub fn bytes(&self) -> &[u8]
        ensures { result.now ≡ self.now.held }
    {
        &self.bytes
    }
}

impl Sink for GrowSink {
    ghost held = { λ s. Some s.held };

    ghost faults = { λ s. s.faults };

    ghost room = { λ _. None };

    ghost counts_failures = { λ _. true };

    fn put(&mut self, bytes: &[u8]) -> Put
        requires { 0 < length bytes.now }
        ensures answer { (result ≡ Put.Failed) ⊎ (result ≡ Put.Took (length bytes.now)) }
        ensures after { self.new ≡ after_growth self.old result bytes.now }

        // What the trait promises.
        ensures takes { Takes result bytes.now (Some self.old.held) (Some self.new.held) }
        ensures counted { self.old.faults ≤ self.new.faults }
        ensures failed { result ≡ Put.Failed → Rose self.old.faults self.new.faults }
        ensures within { TakesWithin result bytes.now None None }
        ensures counts { result ≢ Put.Failed → self.new.faults ≡ self.old.faults }
    {
        match self.bytes.extend_from_slice(bytes) {
            Ok(()) => Put::Took(bytes.len()),
            Err(_) => {
                self.faults = self.faults.saturating_add(1);
                Put::Failed
            }
        }
    }
}
