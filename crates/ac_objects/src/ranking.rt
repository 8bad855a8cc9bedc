//! Whether a queue is one by priority.
ghost use Rattle.std.specs.Prelude.{◌≡◌, Some};
ghost use Rattle.ac_meaning.specs.Environment.{object_at};
ghost use Rattle.ac_meaning.specs.TaskBlocks.{is_ranked, queue_in};
ghost use Rattle.ac_objects.specs.World.{held_of, state_of};

use crate::object::Object;
use crate::objects::Objects;
use ac_queue::AnyQueue;

impl Object {
    #[tactic(auto, unfolding(crate::specs::World::memory_of))]
    fn is_ranked(&self) -> bool
        ensures { result ≡ is_ranked (queue_in (Some (held_of self.now))) }
    {
        match self {
            Object::Queue(held) => match &held.queue {
                AnyQueue::Plain(_) => false,
                AnyQueue::Ranked(_) => true,
            },
            _ => false,
        }
    }
}

impl Objects {
    /// Whether a priority queue stands at the place.
    pub fn is_ranked(&self, place: usize) -> bool
        ensures { result ≡ is_ranked (queue_in (object_at (state_of self.now) place)) }
    {
        match self.object_at(place) {
            Some(object) => object.is_ranked(),
            None => false,
        }
    }
}
