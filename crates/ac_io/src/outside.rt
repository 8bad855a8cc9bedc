ghost use Rattle.std.specs.Prelude.{◌≡◌, ◌≢◌, ◌<◌, ◌≤◌, ℕ, Bool, true, List, Option, length};
ghost use Rattle.ac_io.specs.Outside.{Rose, Gives, Takes, TakesWithin};

/// What one call of a source gave.
#[derive(Clone, Copy, PartialEq, Eq)]
pub enum Next {
    /// So many bytes stand at the front of the buffer.
    Got(usize),
    /// Nothing more comes.
    End,
    Failed,
}

/// Where bytes come from.
pub trait Source {
    /// The bytes still to come, where the source tells them.
    ghost left: { Self → Option (List ℕ) };

    /// How many calls failed so far. The count stands still at 2^64 - 1.
    ghost faults: { Self → ℕ };

    /// The source promises that no call fails from here on.
    ghost is_steady: { Self → Bool };

    /// The source promises that the count rises only in a call that fails.
    ghost counts_failures: { Self → Bool };

    /// Moves some of the bytes to the front of the buffer.
    fn next(&mut self, buf: &mut [u8]) -> Next
        requires { 0 < length buf.old }
        ensures gives { Gives result buf.new (left self.old) (left self.new) }
        ensures counted { faults self.old ≤ faults self.new }
        ensures failed { result ≡ Next.Failed → Rose (faults self.old) (faults self.new) }
        ensures steady { is_steady self.old ≡ true →
            (result ≢ Next.Failed) × (is_steady self.new ≡ true) }
        ensures counts { counts_failures self.old ≡ true →
            (result ≢ Next.Failed → faults self.new ≡ faults self.old) × (counts_failures self.new ≡ true) };
}

/// What one call of a sink took.
#[derive(Clone, Copy, PartialEq, Eq)]
pub enum Put {
    /// So many bytes of the piece, from its front.
    Took(usize),
    Failed,
}

/// Where bytes go.
pub trait Sink {
    /// The bytes taken so far, where the sink tells them.
    ghost held: { Self → Option (List ℕ) };

    /// How many calls failed so far. The count stands still at 2^64 - 1.
    ghost faults: { Self → ℕ };

    /// How many bytes the sink promises to take before a call fails, where it promises any.
    ghost room: { Self → Option ℕ };

    /// The sink promises that the count rises only in a call that fails.
    ghost counts_failures: { Self → Bool };

    /// Takes some of the bytes, from their front.
    fn put(&mut self, bytes: &[u8]) -> Put
        requires { 0 < length bytes.now }
        ensures takes { Takes result bytes.now (held self.old) (held self.new) }
        ensures counted { faults self.old ≤ faults self.new }
        ensures failed { result ≡ Put.Failed → Rose (faults self.old) (faults self.new) }
        ensures within { TakesWithin result bytes.now (room self.old) (room self.new) }
        ensures counts { counts_failures self.old ≡ true →
            (result ≢ Put.Failed → faults self.new ≡ faults self.old) × (counts_failures self.new ≡ true) };
}
