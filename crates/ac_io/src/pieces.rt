//! Text that is written in pieces, from a buffer that stays short.
ghost use Rattle.std.specs.Prelude.{◌≡◌, ◌≤◌, ◌++◌, true, false, [], length, OnOk};
ghost use Rattle.ac_io.specs.Pieces.{Adds};

use crate::outside::Sink;
use crate::whole::{WriteFault, write_all};

/// How many bytes wait to be written at most.
pub const MOST_WAITING: usize = 65_536;

/// Adds a piece to what waits, where it has room there and memory doesn't run out.
fn keeps(text: &mut Vec<u8>, piece: &[u8]) -> bool
    ensures kept { result ≡ true → text.new.items ≡ text.old.items ++ piece.now }
    ensures short { length text.old.items ≤ MOST_WAITING → length text.new.items ≤ MOST_WAITING }
    ensures left { result ≡ false → text.new.items ≡ text.old.items }
{
    if piece.len() > MOST_WAITING.saturating_sub(text.len()) {
        return false;
    }
    match text.extend_from_slice(piece) {
        Ok(()) => true,
        Err(_) => false,
    }
}

/// Writes all that waits.
pub fn pass<K: Sink>(text: &mut Vec<u8>, sink: &mut K) -> Result<(), WriteFault>
    ensures adds { Adds K.held K.faults K.room K.counts_failures sink.old sink.new
        text.old.items text.new.items [] result }
    ensures none { OnOk result (text.new.items ≡ []) }
    ensures short { length text.old.items ≤ MOST_WAITING → length text.new.items ≤ MOST_WAITING }
{
    write_all(sink, text)?;
    text.clear();
    Ok(())
}

/// Keeps a piece where nothing waits, or writes it at once.
fn keep_alone<K: Sink>(text: &mut Vec<u8>, piece: &[u8], sink: &mut K) -> Result<(), WriteFault>
    requires alone { text.old.items ≡ [] }
    ensures adds { Adds K.held K.faults K.room K.counts_failures sink.old sink.new
        text.old.items text.new.items piece.now result }
    ensures short { length text.new.items ≤ MOST_WAITING }
{
    if keeps(text, piece) {
        return Ok(());
    }
    write_all(sink, piece)
}

/// Adds a piece to what waits. What waits is written where the piece has no room beside it, and so is a
/// piece for which there is no memory.
pub fn add<K: Sink>(text: &mut Vec<u8>, piece: &[u8], sink: &mut K) -> Result<(), WriteFault>
    ensures adds { Adds K.held K.faults K.room K.counts_failures sink.old sink.new
        text.old.items text.new.items piece.now result }
    ensures short { length text.old.items ≤ MOST_WAITING → length text.new.items ≤ MOST_WAITING }
{
    if keeps(text, piece) {
        return Ok(());
    }
    pass(text, sink)?;
    keep_alone(text, piece, sink)
}

/// Adds the last piece, and writes all that waits.
pub fn add_last<K: Sink>(text: &mut Vec<u8>, piece: &[u8], sink: &mut K) -> Result<(), WriteFault>
    ensures adds { Adds K.held K.faults K.room K.counts_failures sink.old sink.new
        text.old.items text.new.items piece.now result }
    ensures none { OnOk result (text.new.items ≡ []) }
    ensures short { length text.old.items ≤ MOST_WAITING → length text.new.items ≤ MOST_WAITING }
{
    add(text, piece, sink)?;
    pass(text, sink)
}
