//! Calls that look for an element's own key. A cursor that is answered is the object's own.
ghost use Rattle.std.specs.Prelude.{◌≡◌};
ghost use Rattle.ac_model.specs.Calls.{Same};
ghost use Rattle.ac_model.specs.Containers.{Grows, slots_of};
ghost use Rattle.ac_model.specs.Forms.{Does};
ghost use Rattle.ac_model.specs.Keyed as keyed;
ghost use Rattle.ac_model.specs.Objects.{plain};
ghost use Rattle.ac_model.specs.Sets as sets;
ghost use Rattle.ac_calls.specs.Replied.{IsAnswer};
ghost use Rattle.ac_calls.specs.RowCalls.{PlacesOwn};

use crate::uncounted;
use ac_base::Fault;
use ac_cursor::Cursor;
use ac_setwork::{Keyed, Ordered, Table};

pub fn find<I: Keyed>(set: &Table<I>, element: &I::Row) -> Cursor
    ensures { IsAnswer set.now.object result (sets.find_call I.order (plain set.now.object) element.now) }
{
    set.find(I::key(element))
}

pub fn contains<I: Keyed>(set: &Table<I>, element: &I::Row) -> bool
    ensures { result ≡ sets.contains_call I.order (plain set.now.object) element.now }
{
    set.contains(I::key(element))
}

pub fn exclude<I: Keyed>(set: &mut Table<I>, element: &I::Row) -> Result<(), Fault>
    ensures changed { Does Same (λ o. sets.exclude_call I.order o element.now) set.old set.new result }
    ensures slots { slots_of set.new ≡ slots_of set.old }
{
    set.exclude(I::key(element))
}

pub fn delete_item<I: Keyed>(set: &mut Table<I>, element: &I::Row) -> Result<(), Fault>
    ensures changed { Does Same (λ o. sets.delete_item_call I.order o element.now) set.old set.new result }
    ensures slots { slots_of set.new ≡ slots_of set.old }
{
    set.delete_key(I::key(element))
}

pub fn insert_pos<I: Keyed>(
    set: &mut Table<I>,
    element: I::Row,
    position: &mut Cursor,
) -> Result<bool, Fault>
    ensures changed { Does (PlacesOwn set.new.object position.new) (λ o. keyed.insert_pos_call I.order o element) set.old set.new result }
    ensures slots { Grows result set.old set.new }
{
    set.insert_pos(element, position)
}

pub fn floor<I: Keyed + Ordered>(set: &Table<I>, element: &I::Row) -> Cursor
    requires above { I.is_above ≡ (λ k v. I.keys.less k (I.key_of v)) }
    ensures { IsAnswer set.now.object result (sets.floor_call I.order (plain set.now.object) element.now) }
{
    uncounted::floor(set, I::key(element))
}

pub fn ceiling<I: Keyed + Ordered>(set: &Table<I>, element: &I::Row) -> Cursor
    requires below { I.is_below ≡ (λ k v. I.keys.less (I.key_of v) k) }
    ensures { IsAnswer set.now.object result (sets.ceiling_call I.order (plain set.now.object) element.now) }
{
    uncounted::ceiling(set, I::key(element))
}
