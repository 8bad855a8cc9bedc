//! Values and cursors that are given to the names of a script.
ghost use Rattle.std.specs.Prelude.{◌≡◌, ℕ, ℤ, None, Some, slice_get, slice_set};
ghost use Rattle.ac_meaning.specs.Commands.{value_set, mark_set};
ghost use Rattle.ac_meaning.specs.Environment.{bound_at};
ghost use Rattle.ac_model.specs.Cursors.{plain_mark};
ghost use Rattle.ac_objects.specs.Called.{NotRaised};
ghost use Rattle.ac_objects.specs.Standing.{ElementsStand, counts_of};
ghost use Rattle.ac_objects.specs.Steps.{AssignsTo, SetsMark, SetsValue, CanRead, WritesAt, StandsSomewhere, marked};
ghost use Rattle.ac_objects.specs.World.{state_of, IsKnown, Persists, IsSound, world};
ghost use Rattle.ac_objects.specs.declared.object.Object.{Object as AnyObject};
ghost use Rattle.ac_objects.specs.declared.bound.Bound.TheVariants as bound;
ghost use Rattle.ac_base.specs.declared.value.Value.{Value as value_data};

use crate::bound::Bound;
use crate::held::write_element;
use crate::objects::Objects;
use ac_base::{Fault, Value};
use ac_calls::values;
use ac_cursor::Cursor;
use std::alloc::Global;

impl Objects {
    /// Gives a cursor variable the cursor. Another name takes none.
    #[inline(always)]
    pub(crate) fn set_mark(&mut self, place: usize, cursor: Cursor)
        requires { IsKnown self.old cursor }
        ensures set { state_of self.new ≡ mark_set (state_of self.old) place (plain_mark cursor) (bound_at (state_of self.old) place) }
        ensures persists { Persists self.old self.new }
        ensures counts { counts_of (state_of self.new) ≡ counts_of (state_of self.old) }
    {
        put_mark(&mut self.bounds, place, cursor)
    }

    /// Gives a variable the value, or the element that a name stands for. Another name takes none. An integer is never refused.
    #[inline(always)]
    pub fn set_value(&mut self, place: usize, value: Value) -> Result<(), Fault>
        requires { ElementsStand (state_of self.old) }
        ensures set { AssignsTo (value_set (state_of self.old) place value (bound_at (state_of self.old) place)) self.old self.new result }
        ensures integers { (n : ℤ) → value ≡ Value.Int n → NotRaised result }
        ensures persists { Persists self.old self.new }
        ensures counts { counts_of (state_of self.new) ≡ counts_of (state_of self.old) }
    {
        put_value(&mut self.bounds, self.alloc, place, value)
    }
}

#[inline(always)]
fn put_mark(bounds: &mut Vec<Bound>, place: usize, cursor: Cursor)
    ensures { SetsMark place cursor bounds.old.items bounds.new.items }
{
    match bounds.get_mut(place) {
        None => {}
        Some(bound) => mark(bound, cursor),
    }
}

#[inline(always)]
fn mark(bound: &mut Bound, cursor: Cursor)
    ensures { bound.new ≡ marked cursor bound.old }
{
    match bound {
        Bound::Cursor(held) => *held = cursor,
        _ => {}
    }
}

#[inline(always)]
fn put_value(
    bounds: &mut Vec<Bound>,
    alloc: Global,
    place: usize,
    value: Value,
) -> Result<(), Fault>
    requires { StandsSomewhere bounds.old.items }
    ensures set { SetsValue place value bounds.old.items bounds.new.items result }
    ensures integers { (n : ℤ) → value ≡ Value.Int n → NotRaised result }
{
    match bounds.get(place) {
        None => Ok(()),
        Some(Bound::Type) => Ok(()),
        Some(Bound::Object(_)) => Ok(()),
        Some(Bound::Cursor(_)) => Ok(()),
        Some(Bound::Value(_)) => {
            put_variable(bounds, place, value);
            Ok(())
        }
        Some(Bound::Element { object, at }) => {
            let object = *object;
            let at = *at;
            put_element(bounds, alloc, object, at, value)
        }
    }
}

#[inline(always)]
fn put_variable(bounds: &mut Vec<Bound>, place: usize, value: Value)
    requires { (old : value_data) × (slice_get bounds.old.items place ≡ Some (bound.Value old)) }
    ensures { bounds.new.items ≡ slice_set bounds.old.items place (bound.Value value) }
{
    match &mut bounds[place] {
        Bound::Value(held) => values::put_value(value, held),
        _ => unreachable!(),
    }
}

fn put_element(
    bounds: &mut Vec<Bound>,
    alloc: Global,
    object: usize,
    at: Cursor,
    value: Value,
) -> Result<(), Fault>
    requires { CanRead bounds.old.items object at }
    ensures written { (o : AnyObject) → slice_get bounds.old.items object ≡ Some (bound.Object o) →
        WritesAt object at value o bounds.old.items bounds.new.items result }
    ensures integers { (n : ℤ) → value ≡ Value.Int n → NotRaised result }
{
    match &mut bounds[object] {
        Bound::Object(held) => {
            held.law();
            write_element(held, alloc, at, value)
        }
        _ => unreachable!(),
    }
}
