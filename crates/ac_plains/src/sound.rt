//! What holds of every object in memory, for proofs alone.
ghost use Rattle.std.specs.Prelude.{◌≡◌, ℕ, All, List, [], map, true};
ghost use Rattle.ac_meaning.specs.AsDeclared.{AreAsDeclared};
ghost use Rattle.ac_meaning.specs.Plains.{plains_of};
ghost use Rattle.ac_objects.specs.World.{bound_of, held_of, state_of};
ghost use Rattle.ac_plains.specs.ValidStates.{IsSoundBound, IsSoundHeld};
ghost use Rattle.ac_rules.specs.Faults.{decl_name};
ghost use Rattle.ac_rules.specs.Resolved.{resolve_decls};
ghost use Rattle.ac_snapshot.specs.Validity.{is_valid};
ghost use Rattle.ac_syntax.specs.Refusals.{Spells};

use ac_calls::{Plains, RowObject};
use ac_check::Checked;
use ac_objects::{Bound, Object, Objects};
use ac_snapshot::values_in_memory;

/// An object is valid as the model has it.
#[tactic(auto, unfolding(ac_objects::specs::World::memory_of))]
fn sound_object(object: &Object)
    ensures { IsSoundHeld (held_of object.now) }
{
    match object {
        Object::Integers(sequence) => sequence.law(),
        Object::Texts(sequence) => sequence.law(),
        Object::IntegerSet(set) => set.keyed_law(),
        Object::TextSet(set) => set.keyed_law(),
        Object::KeyedSet(set) => set.set.keyed_law(),
        Object::IntegersByInteger(map) => map.keyed_law(),
        Object::IntegersByText(map) => map.keyed_law(),
        Object::TextsByInteger(map) => map.keyed_law(),
        Object::TextsByText(map) => map.keyed_law(),
        Object::IntegerTree(tree) => tree.tree().law(),
        Object::TextTree(tree) => tree.tree().law(),
        Object::IntegerHolder(holder) => holder.law(),
        Object::TextHolder(holder) => holder.law(),
        Object::Queue(queue) => queue.queue.law(),
    }
}

fn sound_bound(bound: &Bound)
    ensures { IsSoundBound (bound_of bound.now) }
{
    match bound {
        Bound::Object(object) => sound_object(object),
        _ => {}
    }
}

/// So is each object in scope.
pub fn sound_objects(objects: &Objects)
    ensures { All IsSoundBound (state_of objects.now).bounds }
{
    for bound in objects.bounds() {
        sound_bound(bound);
    }
}

/// What the outermost names of a script hold is a valid state, for proofs alone: as long as each is as it was declared.
pub fn plain_is_valid(objects: &Objects, script: &Checked, state: &Plains)
    requires spelled { (text : List ℕ) × Spells script.now text }
    requires declared { AreAsDeclared (resolve_decls [] script.now.decls) (state_of objects.now).bounds }
    requires state { state.now ≡ plains_of (map decl_name script.now.decls) (state_of objects.now) }
    ensures { is_valid state.now ≡ true }
{
    sound_objects(objects);
    values_in_memory(state);
    let _script = script.script();
}
