//! The arguments of a call, read before it.
ghost use Rattle.std.specs.Prelude.{◌≡◌, ◌∷◌, ℕ, List, IfOk, IfSome, OnOk, None, Some, slice_get};
ghost use Rattle.std.specs.Option.{ForSome};
ghost use Rattle.ac_meaning.specs.Commands.{source_place, argument_in, argument, argument_of as argument_at, arguments, answer_in, answer_from};
ghost use Rattle.ac_calls.specs.Replies.{value_argument};
ghost use Rattle.ac_objects.specs.Given.{IsVariable, IsAtHand};
ghost use Rattle.ac_meaning.specs.Environment.{State, bound_at, value_in, binds_element};
ghost use Rattle.ac_model.specs.Cursors.{plain_mark};
ghost use Rattle.ac_calls.specs.Arguments.{argument_of, arguments_of, cursor_in};
ghost use Rattle.ac_objects.specs.Shown.{Shows};
ghost use Rattle.ac_objects.specs.Standing.{IsObject, ElementsStand};
ghost use Rattle.ac_objects.specs.Steps.{AllKnown, CanRead, answer_of, source_or, SaidKnown};
ghost use Rattle.ac_rules.specs.declared.resolved.ResolvedArg.{ResolvedArg as ArgData};
ghost use Rattle.ac_objects.specs.World.{World, Counters, state_of, world, IsKnown};

use crate::bound::Bound;
use crate::held::element_of;
use crate::objects::Objects;
use ac_base::{NoMemory, Value};
use ac_calls::values::copy_value;
use ac_calls::{Argument, Arguments, Said};
use ac_cursor::Cursor;
use ac_rules::ResolvedArg;
use std::alloc::Global;

/// What is fetched, unless memory runs out.
type Fetched<T> = Result<T, NoMemory>;

impl Objects {
    /// Reads the arguments, with copies of the values that they name.
    #[inline(always)]
    pub(crate) fn read_arguments(&self, args: &[ResolvedArg], read: &mut Arguments) -> Fetched<()>
        requires stand { ElementsStand (state_of self.now) }
        ensures read { OnOk result (arguments_of read.new ≡ arguments (state_of self.now) args.now) }
        ensures known { OnOk result (AllKnown self.now read.new) }
    {
        self.read_at(args, 0, &mut read.first)?;
        self.read_at(args, 1, &mut read.second)?;
        self.read_rare(args, 2, &mut read.third)?;
        self.read_rare(args, 3, &mut read.fourth)?;
        read.fifth = self.count_at(args, 4)?;
        Ok(())
    }

    /// The argument at the place as a count, which is 1 where it is left out.
    #[inline(always)]
    fn count_at(&self, args: &[ResolvedArg], place: usize) -> Fetched<i64>
        requires stand { ElementsStand (state_of self.now) }
        ensures { IfOk result (λ count. count ≡ (argument_at (state_of self.now) (slice_get args.now place)).count) }
    {
        match args.get(place) {
            None => Ok(1),
            Some(arg) => self.count_of(arg),
        }
    }

    #[inline(never)]
    fn count_of(&self, arg: &ResolvedArg) -> Fetched<i64>
        requires stand { ElementsStand (state_of self.now) }
        ensures { IfOk result (λ count. count ≡ (argument (state_of self.now) arg.now).count) }
    {
        let read = self.read(arg)?;
        Ok(read.count())
    }

    /// The place of the object among the arguments.
    #[inline(always)]
    pub(crate) fn source_place(&self, args: &[ResolvedArg]) -> Option<usize>
        ensures place { result ≡ source_place (state_of self.now) args.now }
        ensures there { ForSome result (IsObject (state_of self.now)) }
    {
        for arg in args {
            if let Some(place) = self.source_in(arg) {
                return Some(place);
            }
        }
        None
    }

    #[inline(always)]
    fn source_in(&self, arg: &ResolvedArg) -> Option<usize>
        ensures found { (rest : List ArgData) → source_place (state_of self.now) (arg.now ∷ rest)
            ≡ source_or (source_place (state_of self.now) rest) result }
        ensures there { ForSome result (IsObject (state_of self.now)) }
    {
        match arg {
            ResolvedArg::Lit(_) => None,
            ResolvedArg::NoElement => None,
            ResolvedArg::At(place) => {
                if self.is_object(*place) {
                    Some(*place)
                } else {
                    None
                }
            }
        }
    }

    #[inline(always)]
    fn read_at(&self, args: &[ResolvedArg], place: usize, read: &mut Argument) -> Fetched<()>
        requires stand { ElementsStand (state_of self.now) }
        ensures read { OnOk result (argument_of read.new ≡ argument_at (state_of self.now) (slice_get args.now place)) }
        ensures known { OnOk result (IsKnown self.now (cursor_in read.new)) }
    {
        match args.get(place) {
            None => {
                read.leave_out();
                Ok(())
            }
            Some(arg) => match self.value_at_hand(arg) {
                Some(value) => read.put_copy(self.alloc, value),
                None => self.read_any(arg, read),
            },
        }
    }

    /// As `read_at`, where few calls have an argument.
    #[inline(always)]
    fn read_rare(&self, args: &[ResolvedArg], place: usize, read: &mut Argument) -> Fetched<()>
        requires stand { ElementsStand (state_of self.now) }
        ensures read { OnOk result (argument_of read.new ≡ argument_at (state_of self.now) (slice_get args.now place)) }
        ensures known { OnOk result (IsKnown self.now (cursor_in read.new)) }
    {
        match args.get(place) {
            None => {
                read.leave_out();
                Ok(())
            }
            Some(arg) => self.read_any(arg, read),
        }
    }

    /// Reads an argument of any sort. It stands apart so that the short way is short.
    #[inline(never)]
    fn read_any(&self, arg: &ResolvedArg, read: &mut Argument) -> Fetched<()>
        requires stand { ElementsStand (state_of self.now) }
        ensures read { OnOk result (argument_of read.new ≡ argument (state_of self.now) arg.now) }
        ensures known { OnOk result (IsKnown self.now (cursor_in read.new)) }
    {
        read.put(self.read(arg)?);
        Ok(())
    }

    /// The value that a literal is, or a variable that is named. Another argument has none at hand.
    #[inline(always)]
    fn value_at_hand<'a>(&'a self, arg: &'a ResolvedArg) -> Option<&'a Value>
        ensures argument { IfSome result (λ value. argument (state_of self.now) arg.now ≡ value_argument value.now) }
        ensures at_hand { IsAtHand (state_of self.now) arg.now result }
    {
        match arg {
            ResolvedArg::Lit(value) => Some(value),
            ResolvedArg::NoElement => None,
            ResolvedArg::At(place) => self.variable_at(*place),
        }
    }

    /// The value of the variable at the place. Another name has none.
    #[inline(always)]
    pub(crate) fn variable_at(&self, place: usize) -> Option<&Value>
        ensures { IsVariable (bound_at (state_of self.now) place) result }
    {
        match self.bounds.get(place) {
            Some(bound) => bound.variable(),
            None => None,
        }
    }

    #[inline(always)]
    pub(crate) fn read(&self, arg: &ResolvedArg) -> Fetched<Argument>
        requires { ElementsStand (state_of self.now) }
        ensures read { IfOk result (λ read. argument_of read ≡ argument (state_of self.now) arg.now) }
        ensures said { IfOk result (λ read. answer_of read ≡ answer_from (state_of self.now) arg.now) }
        ensures known { IfOk result (λ read. IsKnown self.now (cursor_in read)) }
    {
        match arg {
            ResolvedArg::Lit(value) => Ok(Argument::Value(copy_value(self.alloc, value)?)),
            ResolvedArg::NoElement => Ok(Argument::Place(Cursor::NoElement)),
            ResolvedArg::At(place) => self.read_name(*place),
        }
    }

    #[inline(always)]
    pub(crate) fn read_name(&self, place: usize) -> Fetched<Argument>
        requires { ElementsStand (state_of self.now) }
        ensures read { IfOk result (λ read. argument_of read ≡ argument_in (state_of self.now) (bound_at (state_of self.now) place)) }
        ensures said { IfOk result (λ read. answer_of read ≡ answer_in (state_of self.now) (bound_at (state_of self.now) place)) }
        ensures known { IfOk result (λ read. IsKnown self.now (cursor_in read)) }
    {
        match self.bounds.get(place) {
            None => Ok(Argument::Absent),
            Some(Bound::Type) => Ok(Argument::Absent),
            Some(Bound::Object(_)) => Ok(Argument::Absent),
            Some(Bound::Cursor(cursor)) => Ok(Argument::Place(*cursor)),
            Some(Bound::Value(value)) => Ok(Argument::Value(copy_value(self.alloc, value)?)),
            Some(Bound::Element { object, at }) => {
                let value = copy_element(&self.bounds, self.alloc, *object, *at)?;
                Ok(Argument::Value(value))
            }
        }
    }
}

/// A copy of the element that a name stands for.
pub(crate) fn copy_element(
    bounds: &Vec<Bound>,
    alloc: Global,
    object: usize,
    at: Cursor,
) -> Fetched<Value>
    requires { CanRead bounds.now.items object at }
    ensures { (counters : Counters) → IfOk result (λ value.
        value ≡ value_in (state_of (world bounds.now.items counters)) (binds_element object (plain_mark at))) }
{
    match bounds[object].object() {
        Some(held) => element_of(held, alloc, at),
        None => unreachable!(),
    }
}

/// What is assigned, where this was read.
#[inline(always)]
pub(crate) fn said_of(read: Argument) -> Said
    ensures says { (e : State) (object : ℕ) → Shows e object result (answer_of read) }
    ensures known { (w : World) → IsKnown w (cursor_in read) → SaidKnown w result }
{
    match read {
        Argument::Absent => Said::Done,
        Argument::Place(cursor) => Said::Place(cursor),
        Argument::Value(value) => Said::Value(value),
    }
}
