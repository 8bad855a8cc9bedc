ghost use Rattle.std.specs.Prelude.{◌≡◌, ◌<◌, ◌≤◌, Some, None, true, false, length, IfSome};
ghost use Rattle.ac_io.specs.Outside.{Gives, Takes};
ghost use Rattle.ac_io.specs.Memory.{faults_after_next, faults_after_put};

use crate::outside::{Next, Put, Sink, Source};
use std::io::Read;

/// Standard input. It doesn't tell its bytes.
#[derive(Drop)]
pub struct StdSource<R: Read + Drop> {
    reader: R,
    faults: u64,
}

impl<R: Read + Drop> StdSource<R> {
    /// A source over the runtime's reader, as `rt.reader()` gives it.
    pub fn new(reader: R) -> StdSource<R>
        ensures reads { result.reader ≡ reader }
        ensures faults { result.faults ≡ 0 }
    {
        StdSource { reader, faults: 0 }
    }
}

impl<R: Read + Drop> Source for StdSource<R> {
    ghost left = { λ _. None };

    ghost faults = { λ s. s.faults };

    ghost is_steady = { λ _. false };

    ghost counts_failures = { λ _. true };

    /// Each error of the reader counts as a fault.
    fn next(&mut self, buf: &mut [u8]) -> Next
        requires { 0 < length buf.old }
        ensures gives { Gives result buf.new None None }
        ensures counted { self.old.faults ≤ self.new.faults }
        ensures faults { self.new.faults ≡ faults_after_next result self.old.faults }

        // A reader that tells its bytes gives them.
        ensures told { IfSome (R.remaining self.old.reader) (λ left.
            Gives result buf.new (Some left) (R.remaining self.new.reader)) }
    {
        match self.reader.read(buf) {
            Ok(0) => Next::End,
            Ok(n) => Next::Got(n),
            Err(_) => {
                self.faults = self.faults.saturating_add(1);
                Next::Failed
            }
        }
    }
}

/// Standard output. It doesn't tell what it holds.
#[derive(Drop)]
pub struct StdSink<P: Print + Drop> {
    output: P,
    faults: u64,
}

impl<P: Print + Drop> StdSink<P> {
    /// A sink over a runtime that prints.
    pub fn new(output: P) -> StdSink<P>
        ensures { result.faults ≡ 0 }
    {
        StdSink { output, faults: 0 }
    }
}

impl<P: Print + Drop> Sink for StdSink<P> {
    ghost held = { λ _. None };

    ghost faults = { λ s. s.faults };

    ghost room = { λ _. None };

    ghost counts_failures = { λ _. true };

    /// A write that takes nothing counts as a fault.
    fn put(&mut self, bytes: &[u8]) -> Put
        requires { 0 < length bytes.now }
        ensures takes { Takes result bytes.now None None }
        ensures counted { self.old.faults ≤ self.new.faults }
        ensures faults { self.new.faults ≡ faults_after_put result self.old.faults }
    {
        match self.output.write_some(bytes) {
            Ok(n) if n > 0 => Put::Took(n),
            _ => {
                self.faults = self.faults.saturating_add(1);
                Put::Failed
            }
        }
    }
}
