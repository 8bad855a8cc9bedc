//! Where a loop stands in its object, and why an element can't be viewed.
ghost use Rattle.std.specs.Prelude.{◌≡◌, ⊤};
ghost use Rattle.ac_base.specs.Rows.{names};
ghost use Rattle.ac_model.specs.Objects.{plain};
ghost use Rattle.ac_model.specs.Cursors.{plain_mark};
ghost use Rattle.ac_model.specs.Calls.{Marks};
ghost use Rattle.ac_model.specs.Forms.{Looks, seen_by};
ghost use Rattle.ac_calls.specs.Holdings.{names_of, number_of, element_value, seen_in};
ghost use Rattle.ac_meaning.specs.Execution.{in_order};
ghost use Rattle.ac_meaning.specs.Walks.{step_call, first_mark};
ghost use Rattle.ac_objects.specs.Given.{GivenBy, IsGiven, StepsOn};
ghost use Rattle.ac_objects.specs.RootFree.{NoRootAmong};
ghost use Rattle.ac_objects.specs.Visited.{AgreesThere, TellsFirst, TellsNext, TellsRefusal};
ghost use Rattle.ac_calls.specs.Arguments.{SlotAgrees};
ghost use Rattle.ac_objects.specs.World.{held_of, ObjectAgrees};

use crate::object::Object;
use crate::visiting::{Visitor, visit};
use ac_base::{Fault, Name, Reason};
use ac_calls::{RowObject, ScriptElement};
use ac_cursor::Cursor;
use ac_forms::Holder;
use ac_holder_calls::refused;
use ac_sequence_calls::by_fields;

/// The cursor at which a loop over the object begins.
fn first_in<C: RowObject>(object: &C, backward: bool) -> Cursor
    ensures given { GivenBy (C.rows object.now).object result }
    ensures named { NoRootAmong (names (plain (C.rows object.now).object).rows) }
    ensures first { let o = plain (C.rows object.now).object in
        plain_mark result ≡ first_mark o.number (in_order backward (names o.rows)) }
{
    object.law();
    if backward {
        object.last()
    } else {
        object.first()
    }
}

/// The cursor at which a loop goes on behind this one, and No_Element where it doesn't.
#[inline(always)]
fn next_in<C: RowObject>(object: &C, backward: bool, at: Cursor) -> Cursor
    requires { SlotAgrees (C.rows object.now).object at }
    ensures given { GivenBy (C.rows object.now).object result }
    ensures next { let o = plain (C.rows object.now).object in StepsOn backward o.number (names o.rows) at result }
{
    object.law();
    // By fields, as `by_fields` does it: bound whole first, the cursor would be written and read once more in each turn.
    match step_in(object, backward, at) {
        Ok(
            Cursor::At {
                object,
                name: Name { slot, serial },
            },
        ) => Cursor::At {
            object,
            name: Name { slot, serial },
        },
        Ok(Cursor::NoElement) => Cursor::NoElement,
        Err(_) => Cursor::NoElement,
    }
}

/// Next, or Previous.
#[inline(always)]
fn step_in<C: RowObject>(object: &C, backward: bool, at: Cursor) -> Result<Cursor, Fault>
    ensures { let rows = C.rows object.now in
        Looks (Marks rows.object) (λ o. step_call backward o (seen_by rows at)) rows result }
{
    if backward {
        object.previous(by_fields(at))
    } else {
        object.next(by_fields(at))
    }
}

/// Why the element at which the cursor stands can't be viewed.
fn refused_in<C: RowObject>(object: &C, at: Cursor) -> Option<Reason>
    requires { SlotAgrees (C.rows object.now).object at }
    ensures { let o = plain (C.rows object.now).object in
        result ≡ ((C.own object.now o).element (seen_in (C.kind object.now) o (plain_mark at))).reason }
{
    object.refused(at)
}

/// Where a loop over an object begins. A holder or a queue has no cursors.
#[derive(Drop)]
struct First {
    backward: bool,
}

impl Visitor for First {
    type Answer = Cursor;

    ghost asks = { λ first there. ⊤ };

    ghost tells = { λ first there answer. TellsFirst first.backward there answer };

    fn visit_rows<C: RowObject>(self, object: &C) -> Cursor {
        first_in(object, self.backward)
    }

    fn visit_holder<T: ScriptElement>(self, _holder: &Holder<T>) -> Cursor {
        Cursor::NoElement
    }

    fn visit_queue(self) -> Cursor {
        Cursor::NoElement
    }
}

/// Where it goes on behind a cursor.
#[derive(Drop)]
struct Following {
    backward: bool,
    at: Cursor,
}

impl Visitor for Following {
    type Answer = Cursor;

    ghost asks = { λ following there. AgreesThere following.at there };

    ghost tells = { λ following there answer. TellsNext following.backward following.at there answer };

    fn visit_rows<C: RowObject>(self, object: &C) -> Cursor {
        next_in(object, self.backward, self.at)
    }

    fn visit_holder<T: ScriptElement>(self, _holder: &Holder<T>) -> Cursor {
        Cursor::NoElement
    }

    fn visit_queue(self) -> Cursor {
        Cursor::NoElement
    }
}

/// Why the element at a cursor can't be viewed.
#[derive(Drop)]
struct Refusal {
    at: Cursor,
}

impl Visitor for Refusal {
    type Answer = Option<Reason>;

    ghost asks = { λ refusal there. AgreesThere refusal.at there };

    ghost tells = { λ refusal there answer. TellsRefusal refusal.at there answer };

    fn visit_rows<C: RowObject>(self, object: &C) -> Option<Reason> {
        refused_in(object, self.at)
    }

    fn visit_holder<T: ScriptElement>(self, holder: &Holder<T>) -> Option<Reason> {
        refused(holder)
    }

    fn visit_queue(self) -> Option<Reason> {
        Some(Reason::NoElement)
    }
}

impl Object {
    /// The cursor at which a loop over the object begins.
    pub(crate) fn first_of(&self, backward: bool) -> Cursor
        ensures given { IsGiven self.now result }
        ensures named { NoRootAmong (names_of (held_of self.now)) }
        ensures first { plain_mark result ≡ first_mark (number_of (held_of self.now)) (in_order backward (names_of (held_of self.now))) }
    {
        visit(self, First { backward })
    }

    /// The cursor at which a loop goes on behind this one, and No_Element where it doesn't.
    #[inline(always)]
    #[tactic(auto, unfolding(crate::specs::World::memory_of))]
    pub(crate) fn next_of(&self, backward: bool, at: Cursor) -> Cursor
        requires { ObjectAgrees self.now at }
        ensures given { IsGiven self.now result }
        ensures next { StepsOn backward (number_of (held_of self.now)) (names_of (held_of self.now)) at result }
    {
        match self {
            Object::Integers(sequence) => next_in(sequence, backward, at),
            _ => by_fields(self.next_apart(backward, by_fields(at))),
        }
    }

    /// As `next_of`, of any object. It stands apart, so that the way of a list or a vector of integers is short.
    #[inline(never)]
    fn next_apart(&self, backward: bool, at: Cursor) -> Cursor
        requires { ObjectAgrees self.now at }
        ensures given { IsGiven self.now result }
        ensures next { StepsOn backward (number_of (held_of self.now)) (names_of (held_of self.now)) at result }
    {
        visit(self, Following { backward, at })
    }

    /// Why the element at which the cursor stands can't be viewed.
    pub(crate) fn refused_view(&self, at: Cursor) -> Option<Reason>
        requires { ObjectAgrees self.now at }
        ensures { result ≡ (element_value (held_of self.now) (plain_mark at)).reason }
    {
        visit(self, Refusal { at })
    }
}
