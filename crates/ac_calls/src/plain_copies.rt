//! Copies of rows as plain ones.
ghost use Rattle.std.specs.Prelude.{◌≡◌, IfOk, map};
ghost use Rattle.ac_model.specs.Objects.{plain, contents};
ghost use Rattle.ac_calls.specs.PlainRows.{element_form, keyed_row, node_row};

use crate::element::ScriptElement;
use crate::plains::{PlainRow, PlainRows};
use crate::row_object::ListedRows;
use ac_base::NoMemory;
use std::alloc::Global;

/// An element of a list, a vector, a set or a holder.
pub fn element_row<T: ScriptElement>(element: &T, alloc: Global) -> Result<PlainRow, NoMemory>
    ensures { IfOk result (λ made. made ≡ element_form T.tools element.now) }
{
    let value = element.to_value(alloc)?;
    Ok(PlainRow {
        depth: 0,
        key: None,
        value,
    })
}

/// A map's key with its element.
pub fn entry_row<K: ScriptElement, T: ScriptElement>(
    key: &K,
    element: &T,
    alloc: Global,
) -> Result<PlainRow, NoMemory>
    ensures { IfOk result (λ made. made ≡ keyed_row (K.tools.to_value key.now) (T.tools.to_value element.now)) }
{
    let key = key.to_value(alloc)?;
    let value = element.to_value(alloc)?;
    Ok(PlainRow {
        depth: 0,
        key: Some(key),
        value,
    })
}

/// A tree's element at its depth.
pub fn tree_row<T: ScriptElement>(
    depth: u64,
    element: &T,
    alloc: Global,
) -> Result<PlainRow, NoMemory>
    ensures { IfOk result (λ made. made ≡ node_row depth (T.tools.to_value element.now)) }
{
    let value = element.to_value(alloc)?;
    Ok(PlainRow {
        depth,
        key: None,
        value,
    })
}

/// The rows of an object.
pub fn plain_rows<C: ListedRows>(object: &C, alloc: Global) -> Result<PlainRows, NoMemory>
    ensures { IfOk result (λ rows. rows ≡ map C.plain_of (contents (plain (C.rows object.now).object))) }
{
    object.law();
    let mut rows = Vec::with_capacity(alloc, object.live_nodes() as usize)?;
    let mut c = object.first();
    for place in 0..object.live_nodes() {
        rows.push_reserved(object.plain_row(c, alloc)?);
        c = object.next(c).unwrap();
    }
    Ok(PlainRows::from_vec(rows))
}
