//! Rows that give way to those of another index, with all memory taken before any change.
ghost use Rattle.std.specs.Prelude.{◌≡◌, [], ◌+◌, ◌^◌, ◌<◌, ◌≤◌, length, IfOk, OnOk, OnErr};
ghost use Rattle.ac_base.specs.Rows.{values};
ghost use Rattle.ac_setwork.specs.Filling.{NamesDiffer};
ghost use Rattle.ac_setwork.specs.Indexed.{Becomes, slots};
ghost use Rattle.ac_setwork.specs.Refilling.{AreKeyed, IsFilled, IsRefilled, MayTake};

use crate::filling::widen;
use crate::index::Index;
use ac_base::{Limit, NoMemory};
use std::alloc::Global;

/// Copies of the rows, in their order.
fn copies<I: Index>(index: &I, alloc: Global) -> Result<Vec<I::Row>, NoMemory>
    requires { NamesDiffer (I.seen index.now) }
    ensures { IfOk result (λ made. made.items ≡ values (I.seen index.now).rows) }
{
    let mut made = Vec::new(alloc);
    let mut place = index.first();
    while let Some(name) = place {
        made.push(I::copied(index.at(name), alloc)?)?;
        place = index.next(name);
    }
    Ok(made)
}

/// Adds the rows in their order.
fn fill<I: Index>(index: &mut I, rows: Vec<I::Row>)
    requires none { (I.seen index.old).rows ≡ [] }
    requires spare { length rows.items ≤ (I.seen index.old).spare }
    requires unspent { (I.seen index.old).next + length rows.items < 2 ^ 64 }
    requires keyed { AreKeyed I.order rows.items }
    ensures { IsFilled rows.items (I.seen index.old) (I.seen index.new) }
{
    for row in rows {
        index.add_new(row);
    }
}

/// Copies of the source's rows, under new names, come in place of the rows.
pub(crate) fn refill<I: Index>(
    index: &mut I,
    limit: Limit,
    source: &I,
    alloc: Global,
) -> Result<(), NoMemory>
    requires fits { MayTake limit (length (I.seen source.now).rows) (I.seen index.old) }
    requires names { NamesDiffer (I.seen source.now) }
    requires keyed { AreKeyed I.order (values (I.seen source.now).rows) }
    ensures ok { OnOk result (IsRefilled limit (values (I.seen source.now).rows) (I.seen index.old) (I.seen index.new)) }
    ensures err { OnErr result (I.seen index.new ≡ I.seen index.old) }
{
    let rows = copies(source, alloc)?;
    widen(index, limit, source.len())?;
    index.clear();
    fill(index, rows);
    Ok(())
}

/// Takes the rows out of the source in their order, and adds them.
fn drain<I: Index>(index: &mut I, source: &mut I)
    requires none { (I.seen index.old).rows ≡ [] }
    requires spare { length (I.seen source.old).rows ≤ (I.seen index.old).spare }
    requires unspent { (I.seen index.old).next + length (I.seen source.old).rows < 2 ^ 64 }
    requires keyed { AreKeyed I.order (values (I.seen source.old).rows) }
    ensures filled { IsFilled (values (I.seen source.old).rows) (I.seen index.old) (I.seen index.new) }
    ensures drained { Becomes (I.seen source.old) (I.seen source.new) [] (I.seen source.old).next (slots (I.seen source.old)) }
{
    while let Some(name) = source.first() {
        let row = source.remove(name);
        index.add_new(row);
    }
}

/// The source's rows, under new names, come in place of the rows.
pub(crate) fn move_all<I: Index>(
    index: &mut I,
    limit: Limit,
    source: &mut I,
) -> Result<(), NoMemory>
    requires fits { MayTake limit (length (I.seen source.old).rows) (I.seen index.old) }
    requires keyed { AreKeyed I.order (values (I.seen source.old).rows) }
    ensures ok { OnOk result (IsRefilled limit (values (I.seen source.old).rows) (I.seen index.old) (I.seen index.new)) }
    ensures err { OnErr result (I.seen index.new ≡ I.seen index.old) }
    ensures source_ok { OnOk result (Becomes (I.seen source.old) (I.seen source.new) []
        (I.seen source.old).next (slots (I.seen source.old))) }
    ensures source_err { OnErr result (I.seen source.new ≡ I.seen source.old) }
{
    widen(index, limit, source.len())?;
    index.clear();
    drain(index, source);
    Ok(())
}
