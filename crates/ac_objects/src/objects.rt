//! The names of a script in scope, with what they hold, and its commands.
ghost use Rattle.std.specs.Prelude.{◌≡◌, [], Some, Ok, IfOk};
ghost use Rattle.ac_meaning.specs.Commands.{called, set_from, summed, sum_of};
ghost use Rattle.ac_calls.specs.Elements.{integer_in};
ghost use Rattle.ac_meaning.specs.Environment.{object_at, value_at};
ghost use Rattle.ac_calls.specs.Holdings.{Held};
ghost use Rattle.ac_base.specs.declared.reason.Reason.{Reason as Refusal};
ghost use Rattle.ac_objects.specs.Performs.{Performs, Untouched, answered};
ghost use Rattle.ac_objects.specs.Standing.{IsObject, ElementsStand, counts_of};
ghost use Rattle.ac_objects.specs.Steps.{PerformsAt, reply_in, if_integer, sum_given};
ghost use Rattle.ac_objects.specs.World.{state_of, world, counted_from, Persists};

use crate::bound::Bound;
use crate::reading::said_of;
use ac_base::{Fault, NoMemory, Reason, Value};
use ac_calls::values::integer_in;
use ac_calls::{Frame, Said, say};
use ac_cursor::TagMint;
use ac_rules::ResolvedArg;
use ac_syntax::Operation;
use std::alloc::Global;
use std::marker::Model;

/// What the names in scope hold. After want of memory nothing more is told of it than that it is sound.
#[derive(Drop)]
pub struct Objects {
    pub(crate) alloc: Global,
    pub(crate) mint: TagMint,
    pub(crate) bounds: Vec<Bound>,
    pub(crate) blocks: u64,
}

impl Model for Objects {
    ghost use Rattle.ac_objects.specs.World.{World, world, counted, IsSound};

    ghost Value = { World };

    ghost view = { λ o. world o.bounds.items (counted o.mint o.blocks) };

    ghost invariant = { λ o. IsSound (world o.bounds.items (counted o.mint o.blocks)) };
}

impl Objects {
    /// No names, objects whose numbers run from 1, and no block of tasks that has begun. Takes no memory.
    pub fn new(alloc: Global) -> Result<Objects, NoMemory>
        ensures { result ≡ Ok (world [] (counted_from 1)) }
    {
        Objects::starting_at(alloc, 1)
    }

    /// The same with numbers that run from this one.
    pub fn starting_at(alloc: Global, first: u64) -> Result<Objects, NoMemory>
        ensures { result ≡ Ok (world [] (counted_from first)) }
    {
        Ok(Objects {
            alloc,
            mint: TagMint::starting_at(first),
            bounds: Vec::new(alloc),
            blocks: 0,
        })
    }

    /// What its objects take their memory from.
    pub fn allocator(&self) -> Global {
        self.alloc
    }

    /// What the names in scope hold, by their places.
    pub fn bounds(&self) -> &[Bound]
        ensures { result.now ≡ self.now.bounds }
    {
        &self.bounds
    }

    /// Drops the objects here, so that no crate above proves their drops again.
    pub fn end(self) {}

    /// Makes a call on the object at this place, and gives its answer, which stands in the frame, to the target.
    #[inline(always)]
    pub fn call(
        &mut self,
        target: Option<usize>,
        object: usize,
        operation: Operation,
        args: &[ResolvedArg],
        frame: &mut Frame,
    ) -> Result<(), Fault>
        requires stand { ElementsStand (state_of self.old) }
        ensures performed { Performs (called (state_of self.old) target object operation args.now) object self.old self.new
            (answered frame.new.reply.said result) }
        ensures untouched { (h : Held) (reason : Refusal) → object_at (state_of self.old) object ≡ Some h →
            (reply_in (state_of self.old) h operation args.now).reason ≡ Some reason → Untouched self.old self.new result }
        ensures persists { Persists self.old self.new }
        ensures counts { counts_of (state_of self.new) ≡ counts_of (state_of self.old) }
    {
        if !self.is_object(object) {
            frame.reply.said = Said::Done;
            return Ok(());
        }
        match self.perform(object, operation, args, frame) {
            Ok(()) => self.give(target, &frame.reply.said),
            Err(fault) => Err(fault),
        }
    }

    /// A call without its target.
    #[inline(always)]
    fn perform(
        &mut self,
        object: usize,
        operation: Operation,
        args: &[ResolvedArg],
        frame: &mut Frame,
    ) -> Result<(), Fault>
        requires stand { ElementsStand (state_of self.old) }
        requires object { IsObject (state_of self.old) object }
        ensures performed { (h : Held) → object_at (state_of self.old) object ≡ Some h →
            PerformsAt (reply_in (state_of self.old) h operation args.now) object args.now self.old self.new
            (answered frame.new.reply.said result) }
        ensures persists { Persists self.old self.new }
        ensures counts { counts_of (state_of self.new) ≡ counts_of (state_of self.old) }
    {
        let source = self.source_place(args);
        match self.read_arguments(args, &mut frame.arguments) {
            Ok(()) => {}
            Err(_) => return Err(Fault::NoMemory),
        }
        match self.call_at(object, source, operation, frame) {
            Ok(()) => {
                self.set_variable(args, &frame.reply.variable);
                Ok(())
            }
            Err(fault) => Err(fault),
        }
    }

    /// Assigns a value, a cursor or what a name holds.
    #[inline(always)]
    pub fn set(&mut self, target: usize, from: &ResolvedArg, frame: &mut Frame) -> Result<(), Fault>
        requires stand { ElementsStand (state_of self.old) }
        ensures performed { Performs (set_from (state_of self.old) target from.now) target self.old self.new
            (answered frame.new.reply.said result) }
        ensures untouched { Untouched self.old self.new result }
        ensures persists { Persists self.old self.new }
        ensures counts { counts_of (state_of self.new) ≡ counts_of (state_of self.old) }
    {
        match self.read(from) {
            Ok(read) => {
                frame.reply.said = said_of(read);
                self.give(Some(target), &frame.reply.said)
            }
            Err(_) => Err(Fault::NoMemory),
        }
    }

    /// Assigns the sum of a variable and a number, or with `minus` the difference.
    #[inline(always)]
    pub fn sum(
        &mut self,
        target: usize,
        from: usize,
        minus: bool,
        number: u64,
        frame: &mut Frame,
    ) -> Result<(), Fault>
        requires stand { ElementsStand (state_of self.old) }
        ensures performed { Performs (summed (state_of self.old) target from minus number) target self.old self.new
            (answered frame.new.reply.said result) }
        ensures untouched { Untouched self.old self.new result }
        ensures persists { Persists self.old self.new }
        ensures counts { counts_of (state_of self.new) ≡ counts_of (state_of self.old) }
    {
        match self.operand(from) {
            Ok(base) => self.put_sum(target, total(base, minus, number), frame),
            Err(_) => Err(Fault::NoMemory),
        }
    }

    /// The integer that the name stands for.
    #[inline(always)]
    fn operand(&self, from: usize) -> Result<i64, NoMemory>
        requires stand { ElementsStand (state_of self.now) }
        ensures { IfOk result (λ n. n ≡ integer_in (value_at (state_of self.now) from)) }
    {
        if let Some(value) = self.variable_at(from) {
            return Ok(integer_in(value));
        }
        let read = self.read_name(from)?;
        Ok(integer_in(&read.into_value()))
    }

    #[inline(always)]
    fn put_sum(&mut self, target: usize, sum: Option<i64>, frame: &mut Frame) -> Result<(), Fault>
        requires stand { ElementsStand (state_of self.old) }
        ensures performed { Performs (sum_given (state_of self.old) target sum) target self.old self.new
            (answered frame.new.reply.said result) }
        ensures untouched { Untouched self.old self.new result }
        ensures persists { Persists self.old self.new }
        ensures counts { counts_of (state_of self.new) ≡ counts_of (state_of self.old) }
    {
        match sum {
            None => Err(Fault::Raised(Reason::Overflow)),
            Some(sum) => {
                say(Said::Value(Value::Int(sum)), &mut frame.reply.said);
                self.give(Some(target), &frame.reply.said)
            }
        }
    }
}

/// The sum or the difference, where it is an integer of a script.
#[inline(always)]
fn total(base: i64, minus: bool, number: u64) -> Option<i64>
    ensures { result ≡ if_integer (sum_of minus base number) }
{
    narrow(whole(base, minus, number))
}

#[inline(always)]
fn whole(base: i64, minus: bool, number: u64) -> i128
    ensures exact { result ≡ sum_of minus base number }
{
    if minus {
        base as i128 - number as i128
    } else {
        base as i128 + number as i128
    }
}

#[inline(always)]
fn narrow(sum: i128) -> Option<i64>
    ensures { result ≡ if_integer sum }
{
    if sum < i64::MIN as i128 {
        return None;
    }
    if sum > i64::MAX as i128 {
        return None;
    }
    Some(sum as i64)
}
