//! Room for many rows, and a comparison of all rows.
ghost use Rattle.std.specs.Prelude.{◌≡◌, ◌≤◌, false, length, IfSome, OnOk, OnErr};
ghost use Rattle.ac_base.specs.Limits.{is_past};
ghost use Rattle.ac_base.specs.Rows.{values};
ghost use Rattle.ac_base.specs.declared.limit.TheConstants.{GREATEST_LENGTH};
ghost use Rattle.ac_model.specs.Objects.{CapacityFits};
ghost use Rattle.ac_model.specs.Rows.{row_by};
ghost use Rattle.ac_setwork.specs.Filling.{holds, AsksForMemory, NamesDiffer, Widens, are_matched, is_equal_row};
ghost use Rattle.ac_setwork.specs.Indexed.{HasSlots, plain_rows, slots};

use crate::index::Index;
use ac_base::{GREATEST_LENGTH, Limit, NoMemory};

/// So many rows are within the Capacity, or where there is none, no more than there are.
fn holds(capacity: Option<u64>, length: u64, need: u64) -> bool
    ensures { result ≡ holds capacity length need }
{
    match capacity {
        None => need <= length,
        Some(capacity) => need <= capacity,
    }
}

/// Makes room for so many rows in all.
pub(crate) fn widen<I: Index>(index: &mut I, limit: Limit, need: u64) -> Result<(), NoMemory>
    requires few { need ≤ GREATEST_LENGTH }
    requires within { is_past limit need ≡ false }
    requires capacity { IfSome (I.seen index.old).capacity (CapacityFits limit (length (I.seen index.old).rows)) }
    requires slots { HasSlots limit (I.seen index.old).capacity (slots (I.seen index.old)) }
    ensures ok { OnOk result (Widens limit need (I.seen index.old) (I.seen index.new)) }
    ensures err { OnErr result (I.seen index.new ≡ I.seen index.old) }
    ensures wants { OnErr result (AsksForMemory limit need (I.seen index.old)) }
{
    let length = index.len();
    if holds(index.capacity(), length, need) {
        return Ok(());
    }
    index.make_room(limit, need - length)
}

/// There is an equivalent row that is equal.
fn has_equal<I: Index>(index: &I, row: &I::Row) -> bool
    requires names { NamesDiffer (I.seen index.now) }
    ensures { result ≡ is_equal_row I.is_equal row.now (row_by (λ w. I.order.alike w row.now) (plain_rows (I.seen index.now))) }
{
    match index.look_like(row) {
        None => false,
        Some(name) => I::equal(row, index.at(name)),
    }
}

/// Each row has an equivalent one in the other index that is equal.
pub(crate) fn are_matched<I: Index>(left: &I, right: &I) -> bool
    requires left { NamesDiffer (I.seen left.now) }
    requires right { NamesDiffer (I.seen right.now) }
    ensures { result ≡ are_matched I.order I.is_equal (values (I.seen left.now).rows) (plain_rows (I.seen right.now)) }
{
    let mut place = left.first();
    while let Some(name) = place {
        if !has_equal(right, left.at(name)) {
            return false;
        }
        place = left.next(name);
    }
    true
}
