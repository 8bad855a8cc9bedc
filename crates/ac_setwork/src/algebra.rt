//! Set algebra, with all memory taken before any change.
ghost use Rattle.std.specs.Prelude.{◌≡◌, ◌∷◌, [], ◌++◌, ◌+◌, ◌-◌, ◌^◌, ◌<◌, ◌≤◌, length, IfOk, OnErr, OnOk};
ghost use Rattle.std.specs.List.{list_all};
ghost use Rattle.std.specs.Result.{IsOkAnd};
ghost use Rattle.ac_model.specs.Calls.{Same};
ghost use Rattle.ac_model.specs.Containers.{Grows, slots_of};
ghost use Rattle.ac_model.specs.Forms.{Does};
ghost use Rattle.ac_model.specs.Objects.{contents, length_of, plain};
ghost use Rattle.ac_model.specs.Keyed.{IsValidKeyed};
ghost use Rattle.ac_model.specs.Putting.{done};
ghost use Rattle.ac_model.specs.Sets as sets;
ghost use Rattle.ac_model.specs.Sets.{additions};
ghost use Rattle.ac_setwork.specs.Filling.{NamesDiffer};
ghost use Rattle.ac_setwork.specs.SetSeen.{HasAll, HasRoomFor, IsSifted, TakesAll, indexed, is_as, is_wanted, room_call, those};

use crate::set_like::SetLike;
use ac_base::{Fault, NoMemory};
use ac_model::allowed;
use std::alloc::Global;

fn is_as(present: bool, found: bool) -> bool
    ensures { result ≡ is_as present found }
{
    if present { found } else { !found }
}

/// The set has an equivalent of the element, or has none, as is asked for.
fn is_wanted<A: SetLike>(set: &A, item: &A::Item, present: bool) -> bool
    ensures { result ≡ is_wanted A.order (plain (A.seen set.now).object) present item.now }
{
    is_as(present, set.look(item).is_some())
}

/// Each element has an equivalent in the other set, or none has, as is asked for.
fn all_are<A: SetLike>(set: &A, other: &A, present: bool) -> bool
    requires names { NamesDiffer (indexed (A.seen set.now)) }
    ensures { result ≡ list_all (is_wanted A.order (plain (A.seen other.now).object) present) (contents (plain (A.seen set.now).object)) }
{
    let mut place = set.first_name();
    while let Some(name) = place {
        if !is_wanted(other, set.item(name), present) {
            return false;
        }
        place = set.next_name(name);
    }
    true
}

/// Overlap (A.18.7).
pub fn overlap<A: SetLike>(left: &A, right: &A) -> bool
    ensures { result ≡ sets.overlap_call A.order (plain (A.seen left.now).object) (plain (A.seen right.now).object) }
{
    left.law();
    !all_are(left, right, false)
}

/// Is_Subset (A.18.7).
pub fn is_subset<A: SetLike>(left: &A, right: &A) -> bool
    ensures { result ≡ sets.is_subset_call A.order (plain (A.seen left.now).object) (plain (A.seen right.now).object) }
{
    left.law();
    all_are(left, right, true)
}

/// Equivalent_Sets (A.18.7).
pub fn equivalent<A: SetLike>(left: &A, right: &A) -> bool
    ensures { result ≡ sets.equivalent_sets_call A.order (plain (A.seen left.now).object) (plain (A.seen right.now).object) }
{
    left.len() == right.len() && is_subset(left, right)
}

/// One copy more, while there is memory.
fn with_copy<A: SetLike>(
    copies: Result<Vec<A::Item>, NoMemory>,
    item: &A::Item,
    alloc: Global,
) -> Result<Vec<A::Item>, NoMemory>
    ensures { IfOk result (λ made. IsOkAnd copies (λ old. made.items ≡ old.items ++ item.now ∷ [])) }
{
    let mut made = copies?;
    made.push(A::copied(item, alloc)?)?;
    Ok(made)
}

/// One element more, where it is to be added: how many there are, and copies of them, where there is memory.
fn collect<A: SetLike>(
    found: (u64, Result<Vec<A::Item>, NoMemory>),
    wanted: bool,
    item: &A::Item,
    alloc: Global,
) -> (u64, Result<Vec<A::Item>, NoMemory>)
    requires { found.0 < 2 ^ 64 - 1 }
    ensures count { result.0 ≡ found.0 + length (those wanted item.now) }
    ensures copies { IfOk result.1 (λ made. IsOkAnd found.1 (λ old. made.items ≡ old.items ++ those wanted item.now)) }
{
    if wanted {
        (found.0 + 1, with_copy::<A>(found.1, item, alloc))
    } else {
        found
    }
}

/// How many elements of the source have no equivalent in the target, and copies of them, where there is memory.
fn additions<A: SetLike>(target: &A, source: &A) -> (u64, Result<Vec<A::Item>, NoMemory>)
    requires { IsValidKeyed A.order (plain (A.seen source.now).object) }
    ensures count { result.0 ≡ length (additions A.order (plain (A.seen target.now).object) (plain (A.seen source.now).object)) }
    ensures copies { IfOk result.1 (λ made. made.items ≡
        additions A.order (plain (A.seen target.now).object) (plain (A.seen source.now).object)) }
{
    let alloc = target.alloc();
    let mut found = (0, Ok(Vec::new(alloc)));
    let mut place = source.first_name();
    while let Some(name) = place {
        let item = source.item(name);
        found = collect::<A>(found, is_wanted(target, item, false), item, alloc);
        place = source.next_name(name);
    }
    found
}

/// Drops each element that isn't wanted.
fn sift<A: SetLike>(target: &mut A, other: &A, present: bool)
    ensures { IsSifted (is_wanted A.order (plain (A.seen other.now).object) present) (A.seen target.old) (A.seen target.new) }
{
    target.law();
    let mut place = target.first_name();
    while let Some(name) = place {
        place = target.next_name(name);
        if !is_wanted(other, target.item(name), present) {
            target.drop_name(name);
        }
    }
}

/// Intersection (A.18.7).
pub fn intersect_into<A: SetLike>(target: &mut A, source: &A) -> Result<(), Fault>
    ensures changed { Does Same (λ o. sets.unchecked_intersection A.order o (plain (A.seen source.now).object))
        (A.seen target.old) (A.seen target.new) result }
    ensures slots { slots_of (A.seen target.new) ≡ slots_of (A.seen target.old) }
{
    sift(target, source, true);
    Ok(())
}

/// Difference (A.18.7).
pub fn difference_into<A: SetLike>(target: &mut A, source: &A) -> Result<(), Fault>
    ensures changed { Does Same (λ o. sets.unchecked_difference A.order o (plain (A.seen source.now).object))
        (A.seen target.old) (A.seen target.new) result }
    ensures slots { slots_of (A.seen target.new) ≡ slots_of (A.seen target.old) }
{
    sift(target, source, false);
    Ok(())
}

/// Adds the elements in their order.
fn add_each<A: SetLike>(target: &mut A, items: Vec<A::Item>)
    requires { TakesAll A.order items.items (A.seen target.old) }
    ensures { HasAll A.order items.items (A.seen target.old) (A.seen target.new) }
{
    for item in items {
        target.add_new(item);
    }
}

/// Room for what is to be added, once so many are gone, and the copies. A refusal comes before want of memory.
fn room_for<A: SetLike>(
    target: &mut A,
    gone: u64,
    more: u64,
    copies: Result<Vec<A::Item>, NoMemory>,
) -> Result<Vec<A::Item>, Fault>
    requires { gone ≤ length_of (A.seen target.old).object }
    ensures changed { Does Same (room_call gone more) (A.seen target.old) (A.seen target.new) (done result) }
    ensures copies { IfOk result (λ made. IsOkAnd copies (λ old. made.items ≡ old.items)) }
    ensures ok { OnOk result (HasRoomFor gone more (A.seen target.old) (A.seen target.new)) }
    ensures err { OnErr result (A.seen target.new ≡ A.seen target.old) }
{
    allowed(target.refuses_room(gone, more))?;
    match copies {
        Err(_) => Err(Fault::NoMemory),
        Ok(items) => match target.room(gone, more) {
            Err(fault) => Err(fault),
            Ok(()) => Ok(items),
        },
    }
}

/// Union (A.18.7).
pub fn union_into<A: SetLike>(target: &mut A, source: &A) -> Result<(), Fault>
    ensures changed { Does Same (λ o. sets.unchecked_union A.order o (plain (A.seen source.now).object))
        (A.seen target.old) (A.seen target.new) result }
    ensures slots { Grows result (A.seen target.old) (A.seen target.new) }
{
    target.law();
    source.law();
    let (more, copies) = additions(target, source);
    match room_for(target, 0, more, copies) {
        Err(fault) => Err(fault),
        Ok(items) => {
            add_each(target, items);
            Ok(())
        }
    }
}

/// Symmetric_Difference (A.18.7): the length after removals and additions is what there must be room for.
pub fn symmetric_into<A: SetLike>(target: &mut A, source: &A) -> Result<(), Fault>
    ensures changed { Does Same (λ o. sets.unchecked_symmetric_difference A.order o (plain (A.seen source.now).object))
        (A.seen target.old) (A.seen target.new) result }
    ensures slots { Grows result (A.seen target.old) (A.seen target.new) }
{
    target.law();
    source.law();
    let (more, copies) = additions(target, source);
    match room_for(target, source.len() - more, more, copies) {
        Err(fault) => Err(fault),
        Ok(items) => {
            sift(target, source, false);
            add_each(target, items);
            Ok(())
        }
    }
}
