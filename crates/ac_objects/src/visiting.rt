//! One function by all kinds reads an object and one changes it. Each hands the rows, the holder or the queue to a visitor.
ghost use Rattle.std.specs.Prelude.{◌≡◌};
ghost use Rattle.ac_calls.specs.Replied.{AreValid};
ghost use Rattle.ac_objects.specs.Edited.{Edited, Edits, edited_rows, edited_holder, edited_queue};
ghost use Rattle.ac_objects.specs.Visited.{Visited, visited, some_rows, some_holder, some_queue};
ghost use Rattle.ac_objects.specs.World.{memory_of};

use crate::object::Object;
use ac_calls::{OperatedRows, RowObject, ScriptElement};
use ac_forms::Holder;
use ac_queue::AnyQueue;

/// What is read of an object, whatever its kind.
pub(crate) trait Visitor {
    type Answer;

    /// What it needs of the object.
    ghost asks: { Self → Visited → Type 0 };

    /// What its answer is.
    ghost tells: { Self → Visited → Self.Answer → Type 0 };

    fn visit_rows<C: RowObject>(self, object: &C) -> Self::Answer
        requires { asks self (some_rows (C.kind object.now) (C.own object.now) (C.rows object.now)) }
        ensures { tells self (some_rows (C.kind object.now) (C.own object.now) (C.rows object.now)) result };

    fn visit_holder<T: ScriptElement>(self, holder: &Holder<T>) -> Self::Answer
        requires { asks self (some_holder T.tools holder.now) }
        ensures { tells self (some_holder T.tools holder.now) result };

    fn visit_queue(self) -> Self::Answer
        requires { asks self some_queue }
        ensures { tells self some_queue result };
}

/// Hands what the object is to the visitor.
#[tactic(auto, unfolding(crate::specs::World::memory_of))]
pub(crate) fn visit<V: Visitor>(object: &Object, visitor: V) -> V::Answer
    requires { V.asks visitor (visited (memory_of object.now)) }
    ensures { V.tells visitor (visited (memory_of object.now)) result }
{
    match object {
        Object::Integers(sequence) => visitor.visit_rows(sequence),
        Object::Texts(sequence) => visitor.visit_rows(sequence),
        Object::IntegerSet(set) => visitor.visit_rows(set),
        Object::TextSet(set) => visitor.visit_rows(set),
        Object::KeyedSet(set) => visitor.visit_rows(set),
        Object::IntegersByInteger(map) => visitor.visit_rows(map),
        Object::IntegersByText(map) => visitor.visit_rows(map),
        Object::TextsByInteger(map) => visitor.visit_rows(map),
        Object::TextsByText(map) => visitor.visit_rows(map),
        Object::IntegerTree(tree) => visitor.visit_rows(tree),
        Object::TextTree(tree) => visitor.visit_rows(tree),
        Object::IntegerHolder(holder) => visitor.visit_holder(holder),
        Object::TextHolder(holder) => visitor.visit_holder(holder),
        Object::Queue(_) => visitor.visit_queue(),
    }
}

/// What is made of an object, whatever its kind, which stays.
pub(crate) trait Editor {
    /// What it takes and gives besides.
    type State;

    type Answer;

    /// What it needs of the object.
    ghost asks: { Self → Self.State → Visited → Type 0 };

    /// What it makes of the object, from the state before and after and the answer.
    ghost tells: { Self → Self.State → Self.State → Self.Answer → Edited → Type 0 };

    fn edit_rows<C: OperatedRows>(self, object: &mut C, state: &mut Self::State) -> Self::Answer
        requires { asks self state.old (some_rows (C.kind object.old) (C.own object.old) (C.rows object.old)) }
        ensures edited { tells self state.old state.new result
            (edited_rows (C.kind object.old) (C.own object.old) (C.comes_to object.old) (C.rows object.old) (C.rows object.new)) }
        ensures kind { C.kind object.new ≡ C.kind object.old }
        ensures valid { AreValid (C.rows object.old) (C.rows object.new) };

    fn edit_holder<T: ScriptElement>(
        self,
        holder: &mut Holder<T>,
        state: &mut Self::State,
    ) -> Self::Answer
        requires { asks self state.old (some_holder T.tools holder.old) }
        ensures { tells self state.old state.new result (edited_holder T.tools holder.old holder.new) };

    fn edit_queue(self, queue: &mut AnyQueue, state: &mut Self::State) -> Self::Answer
        requires { asks self state.old some_queue }
        ensures { tells self state.old state.new result (edited_queue queue.old queue.new) };
}

/// Hands what the object is to the editor.
#[inline(always)]
#[tactic(auto, unfolding(crate::specs::World::memory_of))]
pub(crate) fn edit<E: Editor>(object: &mut Object, editor: E, state: &mut E::State) -> E::Answer
    requires { E.asks editor state.old (visited (memory_of object.old)) }
    ensures { Edits (E.tells editor state.old state.new result) object.old object.new }
{
    match object {
        Object::Integers(sequence) => editor.edit_rows(sequence, state),
        Object::Texts(sequence) => edit_apart(sequence, editor, state),
        Object::IntegerSet(set) => editor.edit_rows(set, state),
        Object::TextSet(set) => editor.edit_rows(set, state),
        Object::KeyedSet(set) => editor.edit_rows(set, state),
        Object::IntegersByInteger(map) => editor.edit_rows(map, state),
        Object::IntegersByText(map) => editor.edit_rows(map, state),
        Object::TextsByInteger(map) => editor.edit_rows(map, state),
        Object::TextsByText(map) => editor.edit_rows(map, state),
        Object::IntegerTree(tree) => editor.edit_rows(tree, state),
        Object::TextTree(tree) => editor.edit_rows(tree, state),
        Object::IntegerHolder(holder) => editor.edit_holder(holder, state),
        Object::TextHolder(holder) => editor.edit_holder(holder, state),
        Object::Queue(queue) => editor.edit_queue(&mut queue.queue, state),
    }
}

/// As `edit_rows`, and never inlined: for lists and vectors of texts, so that the way of those of integers is short.
#[inline(never)]
fn edit_apart<C: OperatedRows, E: Editor>(
    object: &mut C,
    editor: E,
    state: &mut E::State,
) -> E::Answer
    requires { E.asks editor state.old (some_rows (C.kind object.old) (C.own object.old) (C.rows object.old)) }
    ensures edited { E.tells editor state.old state.new result
        (edited_rows (C.kind object.old) (C.own object.old) (C.comes_to object.old) (C.rows object.old) (C.rows object.new)) }
    ensures kind { C.kind object.new ≡ C.kind object.old }
    ensures valid { AreValid (C.rows object.old) (C.rows object.new) }
{
    editor.edit_rows(object, state)
}
