//! Searches for an element by indexes.
ghost use Rattle.std.specs.Prelude.{◌≡◌, ◌+◌, ◌<◌, ◌≤◌, Some, IfSome, length, position, reverse};
ghost use Rattle.ac_base.specs.declared.limit.TheConstants.{GREATEST_LENGTH};
ghost use Rattle.ac_model.specs.Calls.{Same};
ghost use Rattle.ac_model.specs.Forms.{Looks};
ghost use Rattle.ac_model.specs.Vectors as vectors;

use super::Vector;
use super::indexes::place_of;
use ac_base::{Elem, Fault, Reason};
use ac_chain::Walked;
use ac_model::{allowed, count_of, reason_if};

/// How many values stand before the first equal one.
fn steps_to<T: Elem>(values: &[T], e: &T) -> Option<usize>
    requires { length values.now ≤ GREATEST_LENGTH }
    ensures found { result ≡ position (λ v. T.is_same v e.now) values.now }
    ensures within { IfSome result (λ steps. steps < length values.now) }
{
    values.iter().position(|v| v.same(e))
}

/// How many values stand behind the last equal one.
fn steps_back<T: Elem>(values: &[T], e: &T) -> Option<usize>
    requires { length values.now ≤ GREATEST_LENGTH }
    ensures found { result ≡ position (λ v. T.is_same v e.now) (reverse values.now) }
    ensures within { IfSome result (λ steps. steps < length values.now) }
{
    values.iter().rev().position(|v| v.same(e))
}

/// The index of what stands so many places after this one, and 0 where nothing was found.
fn index_after(place: u64, steps: Option<usize>) -> i64
    requires { IfSome steps (λ n. place + n < GREATEST_LENGTH) }
    ensures { result ≡ vectors.index_after place steps }
{
    match steps {
        None => 0,
        Some(steps) => (place + steps as u64 + 1) as i64,
    }
}

/// The index of what stands so many places before the end of the first `last` elements, and 0 where nothing was found.
fn index_before(last: u64, steps: Option<usize>) -> i64
    requires few { last ≤ GREATEST_LENGTH }
    requires within { IfSome steps (λ n. n < last) }
    ensures { result ≡ vectors.index_before last steps }
{
    match steps {
        None => 0,
        Some(steps) => (last - steps as u64) as i64,
    }
}

/// An index below 1 is refused, and one past the last isn't.
fn index_from_one(index: i64) -> Option<Reason>
    ensures { result ≡ vectors.index_from_one index }
{
    reason_if(count_of(index) == 0, Reason::IndexRange)
}

impl<T: Elem> Vector<T> {
    /// Find_Index (A.18.2): from the index on.
    pub fn find_index(&self, e: &T, index: i64) -> Result<i64, Fault>
        ensures { Looks Same (λ o. vectors.find_index_call T.is_same o e.now index) self.now result }
    {
        allowed(index_from_one(index))?;
        let place = place_of(index);
        if place >= self.rows.len() {
            return Ok(0);
        }
        let (_, behind) = self.rows.values().split_at(place as usize);
        Ok(index_after(place, steps_to(behind, e)))
    }

    /// Reverse_Find_Index (A.18.2): back from the smaller of the index and the last one.
    pub fn reverse_find_index(&self, e: &T, index: i64) -> Result<i64, Fault>
        ensures { Looks Same (λ o. vectors.reverse_find_index_call T.is_same o e.now index) self.now result }
    {
        allowed(index_from_one(index))?;
        let last = count_of(index).min(self.rows.len());
        let before = &self.rows.values()[..last as usize];
        Ok(index_before(last, steps_back(before, e)))
    }
}
