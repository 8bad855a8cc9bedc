//! The items of a queue as plain rows.
ghost use Rattle.std.specs.Prelude.{◌≡◌, IfOk, map};
ghost use Rattle.ac_queue.specs.Shared.{shared};
ghost use Rattle.ac_calls.specs.PlainRows.{item_form};

use ac_base::{NoMemory, Value};
use ac_calls::{PlainRow, PlainRows};
use ac_queue::AnyQueue;
use std::alloc::Global;

/// The items of a queue, the front one first.
pub fn plain_items(queue: &AnyQueue, alloc: Global) -> Result<PlainRows, NoMemory>
    ensures { IfOk result (λ rows. rows ≡ map item_form (shared queue.now).queue.items) }
{
    let mut rows = Vec::with_capacity(alloc, queue.current_use() as usize)?;
    for place in 0..queue.current_use() {
        rows.push_reserved(item_row(queue.item(place).unwrap()));
    }
    Ok(PlainRows::from_vec(rows))
}

fn item_row(item: i64) -> PlainRow
    ensures { result ≡ item_form item }
{
    PlainRow {
        depth: 0,
        key: None,
        value: Value::Int(item),
    }
}
