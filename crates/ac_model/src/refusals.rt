//! The reasons that are tests of numbers, as the definitions have them.
ghost use Rattle.std.specs.Prelude.{◌≡◌, ◌+◌, ◌&&◌, nat_lt, None, OnErr};
ghost use Rattle.ac_base.specs.FirstReason.{first_reason};
ghost use Rattle.ac_base.specs.Limits.{is_past, numbers_end};
ghost use Rattle.ac_model.specs.Common as common;
ghost use Rattle.ac_model.specs.Forms as forms;
ghost use Rattle.ac_model.specs.Forms.{allowed};
ghost use Rattle.ac_model.specs.Letters as letters;
ghost use Rattle.ac_model.specs.Letters.{judged_in};

use ac_base::{Cursor, Fault, GREATEST_LENGTH, Limit, Name, NoMemory, Reason, first_reason};

/// The reason, where the test is passed.
pub fn reason_if(test: bool, reason: Reason) -> Option<Reason>
    ensures { result ≡ letters.reason_if test reason }
{
    if test { Some(reason) } else { None }
}

/// Refuses a call for the reason, if there is one.
pub fn allowed(refusal: Option<Reason>) -> Result<(), Fault>
    ensures { result ≡ allowed refusal }
{
    match refusal {
        None => Ok(()),
        Some(reason) => Err(Fault::Raised(reason)),
    }
}

/// A cursor with the number of this object, or of another, at a name that the object has or hasn't.
pub fn judge(number: u64, object: u64, is_there: bool) -> Option<Reason>
    ensures { result ≡ judged_in number object is_there }
{
    if object == number {
        reason_if(!is_there, Reason::DeadCursor)
    } else {
        Some(Reason::ForeignCursor)
    }
}

/// A count as a number of elements, and 0 for a negative one.
pub fn count_of(n: i64) -> u64
    ensures { result ≡ letters.count_of n }
{
    if n < 0 { 0 } else { n as u64 }
}

/// A count, which must be in 0 .. 1,000,000.
pub fn in_range(n: i64) -> Option<Reason>
    ensures { result ≡ letters.in_range n }
{
    if n < 0 {
        return Some(Reason::LengthRange);
    }
    too_long(n as u64)
}

/// An index, counted from 1, which must be in 1 .. last.
pub fn index_in(index: i64, last: u64) -> Option<Reason>
    ensures { result ≡ letters.index_in index last }
{
    reason_if(index < 1 || index as u64 > last, Reason::IndexRange)
}

fn too_long(length: u64) -> Option<Reason>
    ensures { result ≡ letters.reason_if (nat_lt GREATEST_LENGTH length) Reason.LengthRange }
{
    reason_if(length > GREATEST_LENGTH, Reason::LengthRange)
}

/// A length that is past the limit.
pub fn too_many(limit: Limit, length: u64) -> Option<Reason>
    ensures { result ≡ letters.reason_if (is_past limit length) Reason.CapacityFull }
{
    match limit {
        Limit::Unbounded => None,
        Limit::Bounded(most) => reason_if(length > most, Reason::CapacityFull),
    }
}

/// A number that no name has would be given.
fn names_spent(next: u64, more: u64) -> Option<Reason>
    ensures { result ≡ letters.reason_if (nat_lt numbers_end (next + more)) Reason.NamesSpent }
{
    reason_if(more > u64::MAX - next, Reason::NamesSpent)
}

/// A new length, and so many new names from the next one on.
#[inline(always)]
pub fn room(limit: Limit, next: u64, length: u64, more: u64) -> Option<Reason>
    ensures { result ≡ first_reason (letters.room_in limit next length more) }
{
    first_reason(&[
        too_long(length),
        too_many(limit, length),
        names_spent(next, more),
    ])
}

/// A capacity that is asked for a copy, and too small.
pub fn too_small(capacity: u64, length: u64) -> Option<Reason>
    ensures { result ≡ letters.reason_if (nat_lt 0 capacity && nat_lt capacity length) Reason.CapacityFull }
{
    reason_if(capacity > 0 && capacity < length, Reason::CapacityFull)
}

/// The limit of a copy: a bounded one's is the capacity that is asked for, or the length where that is 0.
pub fn limit_of_copy(limit: Limit, capacity: u64, length: u64) -> Limit
    ensures { result ≡ common.limit_of_copy limit capacity length }
{
    match limit {
        Limit::Unbounded => Limit::Unbounded,
        Limit::Bounded(_) => Limit::Bounded(if capacity == 0 { length } else { capacity }),
    }
}

/// Want of memory as a fault.
pub fn as_fault(made: Result<(), NoMemory>) -> Result<(), Fault>
    ensures { result ≡ forms.as_fault made }
{
    match made {
        Ok(()) => Ok(()),
        Err(_) => Err(Fault::NoMemory),
    }
}

/// The cursor at a new name of the object with this number.
pub fn cursor_of(object: u64, name: Result<Name, NoMemory>) -> Result<Cursor, Fault>
    ensures { result ≡ forms.cursor_of object name }
{
    match name {
        Ok(name) => Ok(Cursor::At { object, name }),
        Err(_) => Err(Fault::NoMemory),
    }
}
