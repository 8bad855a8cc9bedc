//! A call on the objects in their places.
ghost use Rattle.std.specs.Prelude.{◌≡◌, ◌<◌, None, Some, length, slice_get};
ghost use Rattle.ac_meaning.specs.Commands.{source_of};
ghost use Rattle.ac_meaning.specs.Environment.{object_at};
ghost use Rattle.ac_calls.specs.Holdings.{Held, reply_of, number_of};
ghost use Rattle.ac_calls.specs.Arguments.{arguments_of};
ghost use Rattle.ac_calls.specs.Replied.{told};
ghost use Rattle.ac_objects.specs.Called.{AgreesWith, CalledWith, Lasts};
ghost use Rattle.ac_objects.specs.Standing.{IsObject, counts_of};
ghost use Rattle.ac_objects.specs.Steps.{AllKnown, CalledIn, CalledInBoth, CalledAt, CanCall, CalledBounds, CanCallIn, CallsIn};
ghost use Rattle.ac_objects.specs.World.{state_of, held_of, Persists};
ghost use Rattle.ac_objects.specs.declared.object.Object.{Object as AnyObject};
ghost use Rattle.ac_objects.specs.declared.bound.Bound.TheVariants as bound;
ghost use Rattle.std.specs.Option.{ForSome};

use crate::bound::Bound;
use crate::held::{call_object, call_objects};
use crate::object::Object;
use crate::objects::Objects;
use ac_base::Fault;
use ac_calls::Frame;
use ac_syntax::Operation;
use std::alloc::Global;

impl Objects {
    /// Makes a call on the object at this place, with the one at the source's place, if there is one.
    #[inline(always)]
    pub fn call_at(
        &mut self,
        object: usize,
        source: Option<usize>,
        operation: Operation,
        frame: &mut Frame,
    ) -> Result<(), Fault>
        requires object { IsObject (state_of self.old) object }
        requires source { ForSome source (IsObject (state_of self.old)) }
        requires known { AllKnown self.old frame.old.arguments }
        ensures called { (h : Held) → object_at (state_of self.old) object ≡ Some h →
            CalledAt (reply_of h (source_of (state_of self.old) source) operation (arguments_of frame.old.arguments))
            object source self.old self.new (told frame.new.reply result) }
        ensures persists { Persists self.old self.new }
        ensures counts { counts_of (state_of self.new) ≡ counts_of (state_of self.old) }
    {
        call_in(
            &mut self.bounds,
            self.alloc,
            object,
            source,
            operation,
            frame,
        )
    }
}

#[inline(always)]
fn call_in(
    bounds: &mut Vec<Bound>,
    alloc: Global,
    object: usize,
    source: Option<usize>,
    operation: Operation,
    frame: &mut Frame,
) -> Result<(), Fault>
    requires { CanCallIn bounds.old.items object source frame.old.arguments }
    ensures { CallsIn operation frame.old.arguments object source bounds.old.items bounds.new.items (told frame.new.reply result) }
{
    match source {
        None => call_alone(bounds, alloc, object, operation, frame),
        Some(other) => call_source(bounds, alloc, object, other, operation, frame),
    }
}

#[inline(never)]
fn call_source(
    bounds: &mut Vec<Bound>,
    alloc: Global,
    object: usize,
    other: usize,
    operation: Operation,
    frame: &mut Frame,
) -> Result<(), Fault>
    requires { CanCallIn bounds.old.items object (Some other) frame.old.arguments }
    ensures { CallsIn operation frame.old.arguments object (Some other) bounds.old.items bounds.new.items (told frame.new.reply result) }
{
    if other == object {
        return call_alone(bounds, alloc, object, operation, frame);
    }
    call_with(bounds, alloc, object, other, operation, frame)
}

#[inline(always)]
fn call_alone(
    bounds: &mut Vec<Bound>,
    alloc: Global,
    place: usize,
    operation: Operation,
    frame: &mut Frame,
) -> Result<(), Fault>
    requires { (o : AnyObject) × (slice_get bounds.old.items place ≡ Some (bound.Object o)) × AgreesWith o frame.old.arguments }
    ensures { (o : AnyObject) → slice_get bounds.old.items place ≡ Some (bound.Object o) →
        CalledIn (reply_of (held_of o) None operation (arguments_of frame.old.arguments))
        place o bounds.old.items bounds.new.items (told frame.new.reply result) }
{
    match &mut bounds[place] {
        Bound::Object(object) => call_object(object, alloc, operation, frame),
        _ => unreachable!(),
    }
}

fn call_with(
    bounds: &mut Vec<Bound>,
    alloc: Global,
    place: usize,
    source: usize,
    operation: Operation,
    frame: &mut Frame,
) -> Result<(), Fault>
    requires object { (o : AnyObject) × (slice_get bounds.old.items place ≡ Some (bound.Object o)) × AgreesWith o frame.old.arguments }
    requires source { (o : AnyObject) × (slice_get bounds.old.items source ≡ Some (bound.Object o)) × AgreesWith o frame.old.arguments }
    requires apart { (o s : AnyObject) → slice_get bounds.old.items place ≡ Some (bound.Object o) →
        slice_get bounds.old.items source ≡ Some (bound.Object s) → number_of (held_of o) ≡ number_of (held_of s) → ⊥ }
    requires places { place ≡ source → ⊥ }
    ensures { (o s : AnyObject) → slice_get bounds.old.items place ≡ Some (bound.Object o) →
        slice_get bounds.old.items source ≡ Some (bound.Object s) →
        CalledInBoth (reply_of (held_of o) (Some (held_of s)) operation (arguments_of frame.old.arguments)) place source o s
        bounds.old.items bounds.new.items (told frame.new.reply result) }
{
    let mut target = std::mem::replace(&mut bounds[place], Bound::Type);
    let called = call_bounds(&mut target, &mut bounds[source], alloc, operation, frame);
    bounds[place] = target;
    called
}

fn call_bounds(
    target: &mut Bound,
    source: &mut Bound,
    alloc: Global,
    operation: Operation,
    frame: &mut Frame,
) -> Result<(), Fault>
    requires { CanCall target.old source.old frame.old.arguments }
    ensures { CalledBounds operation frame.old.arguments target.old source.old target.new source.new (told frame.new.reply result) }
{
    match target {
        Bound::Object(object) => match source {
            Bound::Object(other) => call_objects(object, other, alloc, operation, frame),
            _ => unreachable!(),
        },
        _ => unreachable!(),
    }
}
