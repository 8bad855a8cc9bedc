//! The literal of a string, written in pieces.
ghost use Rattle.std.specs.Prelude.{◌≡◌, ◌≤◌, not, flat_map, length};
ghost use Rattle.std.specs.List.{prefix_len};
ghost use Rattle.ac_io.specs.declared.pieces.TheConstants.{MOST_WAITING};
ghost use Rattle.ac_io.specs.Pieces.{Adds};
ghost use Rattle.ac_syntax.specs.Characters.{is_quote};
ghost use Rattle.ac_syntax.specs.Canonical.{quoted_byte, quoted};

use ac_io::{Sink, WriteFault, add};

/// How many bytes stand before the first quote.
fn plain_front(bytes: &[u8]) -> usize
    ensures { result ≡ prefix_len (λ byte. not (is_quote byte)) bytes.now }
{
    bytes.iter().take_while(|byte| **byte != b'"').count()
}

/// Adds a string's bytes; a quote is doubled.
fn add_bytes<K: Sink>(bytes: &[u8], text: &mut Vec<u8>, sink: &mut K) -> Result<(), WriteFault>
    ensures adds { Adds K.held K.faults K.room K.counts_failures sink.old sink.new
        text.old.items text.new.items (flat_map quoted_byte bytes.now) result }
    ensures short { length text.old.items ≤ MOST_WAITING → length text.new.items ≤ MOST_WAITING }
{
    let mut rest = bytes;
    loop {
        let (plain, after) = rest.split_at(plain_front(rest));
        add(text, plain, sink)?;
        if after.is_empty() {
            return Ok(());
        }
        add(text, b"\"\"", sink)?;
        rest = &after[1..];
    }
}

/// Adds a string in quotes.
pub(crate) fn add_quoted<K: Sink>(
    bytes: &[u8],
    text: &mut Vec<u8>,
    sink: &mut K,
) -> Result<(), WriteFault>
    ensures adds { Adds K.held K.faults K.room K.counts_failures sink.old sink.new
        text.old.items text.new.items (quoted bytes.now) result }
    ensures short { length text.old.items ≤ MOST_WAITING → length text.new.items ≤ MOST_WAITING }
{
    add(text, b"\"", sink)?;
    add_bytes(bytes, text, sink)?;
    add(text, b"\"", sink)
}
