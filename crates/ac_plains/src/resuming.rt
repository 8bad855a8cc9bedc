//! A script's outermost variables and objects get what the entries of a state have of them.
ghost use Rattle.std.specs.Prelude.{◌≡◌, ℕ, All, Err, IfOk, OnOk, true};
ghost use Rattle.std.specs.Bool.{Decides};
ghost use Rattle.ac_calls.specs.Plains.{name_of};
ghost use Rattle.ac_meaning.specs.Environment.{binds_value, bound_at, with_bound};
ghost use Rattle.ac_objects.specs.World.{bound_of, state_of};
ghost use Rattle.ac_plains.specs.Resumed.{AreFresh, HasNoElements, HasNoMore, IsFresh, IsMatched, IsMismatch, IsObjectAs, HoldsInteger, HoldsText, HoldsValue, Matches, entry_place, filled_bound, resumed, with_entry};
ghost use Rattle.ac_snapshot.specs.Validity.{is_valid, is_valid_entry};

use crate::fault::{FillFault, ResumeFault};
use crate::filling::{Numbers, fill_object};
use crate::telling::told_of;
use ac_base::{Elem, Fault, NoMemory, Value};
use ac_calls::{Plain, Plains};
use ac_check::Checked;
use ac_objects::{Bound, Objects};
use ac_syntax::TypeDef;

fn holds_integer(bound: &Bound) -> bool
    ensures { Decides result (HoldsInteger (bound_of bound.now)) }
{
    match bound {
        Bound::Value(Value::Int(_)) => true,
        _ => false,
    }
}

fn holds_text(bound: &Bound) -> bool
    ensures { Decides result (HoldsText (bound_of bound.now)) }
{
    match bound {
        Bound::Value(Value::Text(_)) => true,
        _ => false,
    }
}

fn is_same_flag(flag: bool, other: bool) -> bool
    ensures { Decides result (flag ≡ other) }
{
    flag == other
}

/// Whether two types are one. `==` on the whole would decide it as well, but its contract doesn't say so.
fn is_same_type(def: &TypeDef, other: &TypeDef) -> bool
    ensures { Decides result (def.now ≡ other.now) }
{
    is_same_flag(def.bounded, other.bounded)
        && is_same_flag(def.keyed, other.keyed)
        && def.kind == other.kind
        && def.first == other.first
        && def.second == other.second
}

fn is_same_limit(limit: Option<u64>, other: Option<u64>) -> bool
    ensures { Decides result (limit ≡ other) }
{
    limit == other
}

/// Whether an object of this type stands there, with this limit.
fn holds_object(bound: &Bound, def: &TypeDef, limit: Option<u64>) -> bool
    ensures { Decides result (IsObjectAs def.now limit (bound_of bound.now)) }
{
    match bound {
        Bound::Object(object) => {
            let told = told_of(object);
            is_same_type(&told.def, def) && is_same_limit(told.limit, limit)
        }
        _ => false,
    }
}

/// Whether what stands there is of the entry's sort, and an object of its type and its limit.
fn matches(bound: &Bound, entry: &Plain) -> bool
    ensures { Decides result (Matches entry.now (bound_of bound.now)) }
{
    match entry {
        Plain::Int { .. } => holds_integer(bound),
        Plain::Str { .. } => holds_text(bound),
        Plain::Object { def, limit, .. } => holds_object(bound, def, *limit),
    }
}

/// Whether what stands at the place is so.
fn matches_at(objects: &Objects, place: usize, entry: &Plain) -> bool
    ensures { Decides result (Matches entry.now (bound_at (state_of objects.now) place)) }
{
    match objects.bounds().get(place) {
        Some(bound) => matches(bound, entry),
        None => false,
    }
}

/// Gives a variable a value of its sort.
fn fill_variable(objects: &mut Objects, place: usize, value: Value) -> Result<(), NoMemory>
    requires elements { HasNoElements (state_of objects.old) }
    requires variable { HoldsValue (bound_at (state_of objects.old) place) }
    ensures { OnOk result (state_of objects.new ≡ with_bound (state_of objects.old) place (binds_value value)) }
{
    match objects.set_value(place, value) {
        Ok(()) => Ok(()),
        Err(Fault::NoMemory) => Err(NoMemory),
        Err(Fault::Raised(_)) => unreachable!(),
    }
}

/// Gives the variable or the object at the place what the entry has, which is of its sort, its type and its limit.
fn fill_at(objects: &mut Objects, place: usize, entry: &Plain) -> Result<(), NoMemory>
    requires valid { is_valid_entry entry.now ≡ true }
    requires elements { HasNoElements (state_of objects.old) }
    requires fresh { IsFresh (bound_at (state_of objects.old) place) }
    requires matched { Matches entry.now (bound_at (state_of objects.old) place) }
    ensures { OnOk result (state_of objects.new ≡ with_bound (state_of objects.old) place
        (filled_bound entry.now (bound_at (state_of objects.old) place))) }
{
    match entry {
        Plain::Int { value, .. } => fill_variable(objects, place, Value::Int(*value)),
        Plain::Str { value, .. } => {
            let value = Value::Text(value.copy(objects.allocator())?);
            fill_variable(objects, place, value)
        }
        Plain::Object {
            def,
            capacity,
            peak,
            rows,
            ..
        } => {
            let numbers = Numbers {
                capacity: *capacity,
                peak: *peak,
            };
            fill_object(objects, place, def, numbers, rows.items())
        }
    }
}

fn entry_name(entry: &Plain) -> &[u8]
    ensures { result.now ≡ name_of entry.now }
{
    match entry {
        Plain::Int { name, .. } => name.bytes(),
        Plain::Str { name, .. } => name.bytes(),
        Plain::Object { name, .. } => name.bytes(),
    }
}

/// Gives an outermost variable or object of a script, which is as it was declared, what an entry of a state has of it: the value, or the rows
/// with names from 1 on, the Capacity and the greatest use. All else stays.
pub fn fill(objects: &mut Objects, script: &Checked, entry: &Plain) -> Result<(), FillFault>
    requires valid { is_valid_entry entry.now ≡ true }
    requires elements { HasNoElements (state_of objects.old) }
    requires fresh { IsFresh (bound_at (state_of objects.old) (entry_place script.now entry.now)) }
    ensures filled { OnOk result (state_of objects.new ≡ with_entry script.now (state_of objects.old) entry.now) }
    ensures matched { IfOk result (λ _. IsMatched script.now (state_of objects.old) entry.now) }
    ensures mismatch { result ≡ Err FillFault.Mismatch → IsMatched script.now (state_of objects.old) entry.now → ⊥ }
{
    let place = script.place(entry_name(entry));
    if !matches_at(objects, place, entry) {
        return Err(FillFault::Mismatch);
    }
    match fill_at(objects, place, entry) {
        Ok(()) => Ok(()),
        Err(NoMemory) => Err(FillFault::NoMemory),
    }
}

/// Gives the outermost variables and objects of a script, which are as they were declared, what the entries of a state have of them.
pub fn resume(objects: &mut Objects, script: &Checked, state: &Plains) -> Result<(), ResumeFault>
    requires valid { is_valid state.now ≡ true }
    requires elements { HasNoElements (state_of objects.old) }
    requires fresh { AreFresh (state_of objects.old) }
    requires no_more { HasNoMore script.now (state_of objects.old) }
    ensures resumed { OnOk result (state_of objects.new ≡ resumed script.now (state_of objects.old) state.now) }
    ensures matched { IfOk result (λ _. All (IsMatched script.now (state_of objects.old)) state.now) }
    ensures mismatch { (line : ℕ) → result ≡ Err (ResumeFault.Mismatch line) →
        IsMismatch script.now (state_of objects.old) state.now line }
{
    let entries = state.items();
    for i in 0..entries.len() {
        match fill(objects, script, &entries[i]) {
            Ok(()) => {}
            Err(FillFault::Mismatch) => return Err(ResumeFault::Mismatch { line: i as u64 + 1 }),
            Err(FillFault::NoMemory) => return Err(ResumeFault::NoMemory),
        }
    }
    Ok(())
}
