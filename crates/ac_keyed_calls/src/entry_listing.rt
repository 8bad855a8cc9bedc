//! What a listing shows of an entry.
ghost use Rattle.std.specs.Prelude.{◌≤◌, length};
ghost use Rattle.ac_io.specs.declared.pieces.TheConstants.{MOST_WAITING};
ghost use Rattle.ac_io.specs.Pieces.{Adds};
ghost use Rattle.ac_model.specs.Rows.{entry};
ghost use Rattle.ac_syntax.specs.Canonical.{literal_text};
ghost use Rattle.ac_calls.specs.Listings.{entry_text};

use ac_calls::ScriptElement;
use ac_io::{Sink, WriteFault, add};

pub fn add_entry<K: ScriptElement, V: ScriptElement, W: Sink>(
    key: &K,
    element: &V,
    text: &mut Vec<u8>,
    sink: &mut W,
) -> Result<(), WriteFault>
    ensures adds { Adds W.held W.faults W.room W.counts_failures sink.old sink.new text.old.items text.new.items
        (entry_text (λ k. literal_text (K.tools.to_value k)) (λ e. literal_text (V.tools.to_value e)) (entry key.now element.now)) result }
    ensures short { length text.old.items ≤ MOST_WAITING → length text.new.items ≤ MOST_WAITING }
{
    key.add_literal(text, sink)?;
    add(text, b" => ", sink)?;
    element.add_literal(text, sink)
}
