//! An answer is given to a target, and the variable among the arguments is set.
ghost use Rattle.std.specs.Prelude.{◌≡◌, ℕ, ℤ, None, Some};
ghost use Rattle.ac_calls.specs.Answers.{Answer, answers_value};
ghost use Rattle.ac_meaning.specs.Commands.{assigned, variable_set};
ghost use Rattle.ac_objects.specs.Called.{NotRaised};
ghost use Rattle.ac_objects.specs.Shown.{Shows};
ghost use Rattle.ac_objects.specs.Standing.{ElementsStand, counts_of};
ghost use Rattle.ac_objects.specs.Steps.{AssignsTo, SaidKnown, placed_of, PlacedKnown};
ghost use Rattle.ac_objects.specs.World.{state_of, Persists};

use crate::objects::Objects;
use ac_base::{Fault, Value};
use ac_calls::values::copy_value;
use ac_calls::{Placed, Said};
use ac_rules::ResolvedArg;

impl Objects {
    /// Gives what a call answered to the target, where it is a value or a cursor. An integer is never refused.
    #[inline(always)]
    pub(crate) fn give(&mut self, target: Option<usize>, said: &Said) -> Result<(), Fault>
        requires stand { ElementsStand (state_of self.old) }
        requires known { SaidKnown self.old said.now }
        ensures given { (object : ℕ) (answer : Answer) → Shows (state_of self.old) object said.now answer →
            AssignsTo (assigned (state_of self.old) target answer) self.old self.new result }
        ensures integers { (n : ℤ) → said.now ≡ Said.Value (Value.Int n) → NotRaised result }
        ensures persists { Persists self.old self.new }
        ensures counts { counts_of (state_of self.new) ≡ counts_of (state_of self.old) }
    {
        match target {
            None => Ok(()),
            Some(place) => self.give_to(place, said),
        }
    }

    #[inline(always)]
    fn give_to(&mut self, place: usize, said: &Said) -> Result<(), Fault>
        requires stand { ElementsStand (state_of self.old) }
        requires known { SaidKnown self.old said.now }
        ensures given { (object : ℕ) (answer : Answer) → Shows (state_of self.old) object said.now answer →
            AssignsTo (assigned (state_of self.old) (Some place) answer) self.old self.new result }
        ensures integers { (n : ℤ) → said.now ≡ Said.Value (Value.Int n) → NotRaised result }
        ensures persists { Persists self.old self.new }
        ensures counts { counts_of (state_of self.new) ≡ counts_of (state_of self.old) }
    {
        match said {
            Said::Value(value) => self.give_value(place, value),
            Said::Place(cursor) => {
                self.set_mark(place, *cursor);
                Ok(())
            }
            Said::Done | Said::Truth(_) | Said::Listing | Said::Stalled => Ok(()),
        }
    }

    #[inline(always)]
    fn give_value(&mut self, place: usize, value: &Value) -> Result<(), Fault>
        requires { ElementsStand (state_of self.old) }
        ensures given { AssignsTo (assigned (state_of self.old) (Some place) (answers_value value.now)) self.old self.new result }
        ensures integers { (n : ℤ) → value.now ≡ Value.Int n → NotRaised result }
        ensures persists { Persists self.old self.new }
        ensures counts { counts_of (state_of self.new) ≡ counts_of (state_of self.old) }
    {
        let copy = copy_value(self.alloc, value)?;
        self.set_value(place, copy)
    }

    /// Sets the cursor variable among the arguments that a call sets.
    #[inline(always)]
    pub(crate) fn set_variable(&mut self, args: &[ResolvedArg], variable: &Option<Placed>)
        requires { PlacedKnown self.old variable.now }
        ensures set { state_of self.new ≡ variable_set (state_of self.old) args.now (placed_of variable.now) }
        ensures persists { Persists self.old self.new }
        ensures counts { counts_of (state_of self.new) ≡ counts_of (state_of self.old) }
    {
        match variable {
            None => {}
            Some(placed) => match args.get(placed.place) {
                None => {}
                Some(ResolvedArg::Lit(_)) => {}
                Some(ResolvedArg::NoElement) => {}
                Some(ResolvedArg::At(name)) => self.set_mark(*name, placed.cursor),
            },
        }
    }
}
