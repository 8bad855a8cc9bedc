//! The text that Print answers of an object, written in pieces.
ghost use Rattle.std.specs.Prelude.{◌≡◌, ◌≤◌, [], length, None, Some};
ghost use Rattle.ac_io.specs.declared.pieces.TheConstants.{MOST_WAITING};
ghost use Rattle.ac_io.specs.Pieces.{Adds};
ghost use Rattle.ac_meaning.specs.Environment.{object_at};
ghost use Rattle.ac_calls.specs.Holdings.{Held, listing_of};
ghost use Rattle.ac_objects.specs.World.{held_of, state_of};

use crate::object::Object;
use crate::objects::Objects;
use ac_calls::write_rows;
use ac_holder_calls::write_listing;
use ac_io::{Sink, WriteFault};
use ac_queue_calls::write_queue;

/// Adds the listing of an object to a text that is written in pieces.
#[tactic(auto, unfolding(crate::specs::World::memory_of))]
fn write_any<K: Sink>(object: &Object, text: &mut Vec<u8>, sink: &mut K) -> Result<(), WriteFault>
    ensures adds { Adds K.held K.faults K.room K.counts_failures sink.old sink.new
        text.old.items text.new.items (listing_of (held_of object.now)) result }
    ensures short { length text.old.items ≤ MOST_WAITING → length text.new.items ≤ MOST_WAITING }
{
    match object {
        Object::Integers(sequence) => write_rows(sequence, text, sink),
        Object::Texts(sequence) => write_rows(sequence, text, sink),
        Object::IntegerSet(set) => write_rows(set, text, sink),
        Object::TextSet(set) => write_rows(set, text, sink),
        Object::KeyedSet(set) => write_rows(set, text, sink),
        Object::IntegersByInteger(map) => write_rows(map, text, sink),
        Object::IntegersByText(map) => write_rows(map, text, sink),
        Object::TextsByInteger(map) => write_rows(map, text, sink),
        Object::TextsByText(map) => write_rows(map, text, sink),
        Object::IntegerTree(tree) => tree.write_listing(text, sink),
        Object::TextTree(tree) => tree.write_listing(text, sink),
        Object::IntegerHolder(holder) => write_listing(holder, text, sink),
        Object::TextHolder(holder) => write_listing(holder, text, sink),
        Object::Queue(queue) => write_queue(&queue.queue, text, sink),
    }
}

impl Objects {
    /// Adds the listing of the object at the place to a text that is written in pieces.
    pub fn listing<K: Sink>(
        &self,
        place: usize,
        text: &mut Vec<u8>,
        sink: &mut K,
    ) -> Result<(), WriteFault>
        ensures adds { (h : Held) → object_at (state_of self.now) place ≡ Some h →
            Adds K.held K.faults K.room K.counts_failures sink.old sink.new text.old.items text.new.items (listing_of h) result }
        ensures none { object_at (state_of self.now) place ≡ None →
            Adds K.held K.faults K.room K.counts_failures sink.old sink.new text.old.items text.new.items [] result }
        ensures short { length text.old.items ≤ MOST_WAITING → length text.new.items ≤ MOST_WAITING }
    {
        match self.object_at(place) {
            Some(object) => write_any(object, text, sink),
            None => Ok(()),
        }
    }
}
