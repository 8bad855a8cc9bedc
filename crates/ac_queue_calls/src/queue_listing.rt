//! What a queue shows.
ghost use Rattle.std.specs.Prelude.{◌≡◌, ◌≤◌, ◌++◌, Some, length};
ghost use Rattle.std.specs.List.{slice_get};
ghost use Rattle.ac_io.specs.declared.pieces.TheConstants.{MOST_WAITING};
ghost use Rattle.ac_io.specs.Pieces.{Adds};
ghost use Rattle.ac_queue.specs.Kinds.{state_of};
ghost use Rattle.ac_queue.specs.Shared.{shared};
ghost use Rattle.ac_syntax.specs.Canonical.{literal_text};
ghost use Rattle.ac_base.specs.declared.value.Value.TheVariants.{Int};
ghost use Rattle.ac_calls.specs.Listings.{separated};
ghost use Rattle.ac_calls.specs.QueueReplies.{queue_listing};
ghost use Rattle.ac_calls.specs.Listed.{comma_at};

use ac_calls::{ScriptElement, comma};
use ac_io::{Sink, WriteFault, add};
use ac_queue::AnyQueue;

/// Adds the listing of a queue to a text that is written in pieces: its items, the front one first.
pub fn write_queue<K: Sink>(
    queue: &AnyQueue,
    text: &mut Vec<u8>,
    sink: &mut K,
) -> Result<(), WriteFault>
    ensures adds { Adds K.held K.faults K.room K.counts_failures sink.old sink.new
        text.old.items text.new.items (queue_listing (shared queue.now)) result }
    ensures short { length text.old.items ≤ MOST_WAITING → length text.new.items ≤ MOST_WAITING }
{
    add(text, b"[", sink)?;
    add_items(queue, text, sink)?;
    add(text, b"]", sink)
}

fn add_items<K: Sink>(queue: &AnyQueue, text: &mut Vec<u8>, sink: &mut K) -> Result<(), WriteFault>
    ensures adds { Adds K.held K.faults K.room K.counts_failures sink.old sink.new
        text.old.items text.new.items (separated (λ item. literal_text (Int item)) (state_of queue.now).queue.items) result }
    ensures short { length text.old.items ≤ MOST_WAITING → length text.new.items ≤ MOST_WAITING }
{
    for place in 0..queue.current_use() {
        add_item(queue.item(place).unwrap(), place == 0, text, sink)?;
    }
    Ok(())
}

/// Adds an item, with a comma before it unless it is the first.
fn add_item<K: Sink>(
    item: i64,
    is_first: bool,
    text: &mut Vec<u8>,
    sink: &mut K,
) -> Result<(), WriteFault>
    ensures adds { Adds K.held K.faults K.room K.counts_failures sink.old sink.new
        text.old.items text.new.items (comma_at is_first ++ literal_text (Int item)) result }
    ensures short { length text.old.items ≤ MOST_WAITING → length text.new.items ≤ MOST_WAITING }
{
    add(text, comma(is_first), sink)?;
    item.add_literal(text, sink)
}
