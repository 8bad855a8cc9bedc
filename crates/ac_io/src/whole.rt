ghost use Rattle.std.specs.Prelude.{◌≡◌, ◌≢◌, ◌<◌, ◌≤◌, ◌-◌, true, Some, [], length, IfOk, IfSome, OnOk, OnErr, IsOk};
ghost use Rattle.ac_io.specs.Outside.{Rose, GrewBy, GrewByFront, Shrank};
ghost use Rattle.ac_io.specs.declared.whole.ReadEnd.TheVariants.{NoMemory};

use crate::outside::{Next, Put, Sink, Source};
use std::alloc::{AllocError, Global};
use thiserror::Error;

/// Why a source wasn't read to its end.
#[derive(Debug, Drop, Error)]
pub enum ReadEnd {
    #[error("the input is too long")]
    TooLong,
    #[error("the input can't be read")]
    ReadFault,
    #[error("out of memory")]
    NoMemory,
}

impl From<AllocError> for ReadEnd {
    ghost from_gives = { λ _ e. e ≡ NoMemory };

    fn from(_error: AllocError) -> ReadEnd {
        ReadEnd::NoMemory
    }
}

/// A sink failed before it had taken the whole piece.
#[derive(Debug, Drop, Error)]
#[error("the output can't be written")]
pub struct WriteFault;

/// How many bytes a call of the source is asked for at most.
const BUFFER: usize = 4096;

/// Reads a source to its end, where that comes after at most `limit` bytes.
pub fn read_all<S: Source>(alloc: Global, source: &mut S, limit: u64) -> Result<Vec<u8>, ReadEnd>
    // All the bytes that came, and nothing is left.
    ensures all { IfOk result (λ bytes. IfSome (S.left source.old) (λ left.
        (bytes.items ≡ left) × (S.left source.new ≡ Some []))) }
    ensures within { IfOk result (λ bytes. length bytes.items ≤ limit) }

    // An error leaves what wasn't read.
    ensures too_long { result ≡ Err ReadEnd.TooLong →
        IfSome (S.left source.old) (λ left. limit < length left) }
    ensures fault { result ≡ Err ReadEnd.ReadFault →
        Rose (S.faults source.old) (S.faults source.new) }
    ensures shrank { Shrank (S.left source.old) (S.left source.new) }
    ensures counted { S.faults source.old ≤ S.faults source.new }
    ensures steady { S.is_steady source.old ≡ true →
        (result ≢ Err ReadEnd.ReadFault) × (S.is_steady source.new ≡ true) }

    // Where the count rises in failed calls alone, no other end moves it.
    ensures counts { S.counts_failures source.old ≡ true →
        (result ≢ Err ReadEnd.ReadFault → S.faults source.new ≡ S.faults source.old) × (S.counts_failures source.new ≡ true) }
{
    let mut bytes = Vec::new(alloc);
    let mut buffer = [0u8; BUFFER];
    loop {
        match source.next(&mut buffer) {
            Next::End => return Ok(bytes),
            Next::Failed => return Err(ReadEnd::ReadFault),
            Next::Got(count) => {
                if count as u64 > limit - bytes.len() as u64 {
                    return Err(ReadEnd::TooLong);
                }
                bytes.extend_from_slice(&buffer[..count])?;
            }
        }
    }
}

/// Writes the whole piece, or after a fault a front of it.
pub fn write_all<K: Sink>(sink: &mut K, bytes: &[u8]) -> Result<(), WriteFault>
    ensures whole { OnOk result (GrewBy (K.held sink.old) (K.held sink.new) bytes.now) }
    ensures front { OnErr result (GrewByFront (K.held sink.old) (K.held sink.new) bytes.now) }
    ensures fault { OnErr result (Rose (K.faults sink.old) (K.faults sink.new)) }
    ensures counted { K.faults sink.old ≤ K.faults sink.new }

    // Where the sink has room for the piece, it takes it all.
    ensures within { IfSome (K.room sink.old) (λ room. length bytes.now ≤ room →
        IsOk result × (K.room sink.new ≡ Some (room - length bytes.now))) }

    // Where the count rises in failed calls alone, a whole write leaves it as it was.
    ensures counts { K.counts_failures sink.old ≡ true →
        (IsOk result → K.faults sink.new ≡ K.faults sink.old) × (K.counts_failures sink.new ≡ true) }
{
    let mut rest = bytes;
    while !rest.is_empty() {
        match sink.put(rest) {
            Put::Took(count) => {
                if count == rest.len() {
                    return Ok(());
                }
                rest = &rest[count..];
            }
            Put::Failed => return Err(WriteFault),
        }
    }
    Ok(())
}
