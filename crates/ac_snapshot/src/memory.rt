//! What holds of every state in memory. A proof knows of values only what was read, so this is a walk over all of them.
ghost use Rattle.std.specs.Prelude.{◌≡◌, true};
ghost use Rattle.std.specs.List.{list_all};
ghost use Rattle.ac_snapshot.specs.Representable.{is_representable, is_key_representable, is_row_representable, is_entry_representable};

use ac_base::Value;
use ac_calls::{Plain, PlainRow, Plains};

fn read_value(value: &Value)
    ensures { is_representable value.now ≡ true }
{
    match value {
        Value::Int(number) => {
            let _number = *number;
        }
        Value::Text(text) => {
            let _bytes = text.bytes();
        }
    }
}

fn read_key(key: &Option<Value>)
    ensures { is_key_representable key.now ≡ true }
{
    match key {
        None => {}
        Some(key) => read_value(key),
    }
}

fn read_row(row: &PlainRow)
    ensures { is_row_representable row.now ≡ true }
{
    read_key(&row.key);
    read_value(&row.value);
}

fn read_rows(rows: &[PlainRow])
    ensures { list_all is_row_representable rows.now ≡ true }
{
    for row in rows {
        read_row(row);
    }
}

fn read_entry(entry: &Plain)
    ensures { is_entry_representable entry.now ≡ true }
{
    match entry {
        Plain::Int { name: _, value } => {
            let _value = *value;
        }
        Plain::Str { name: _, value } => {
            let _bytes = value.bytes();
        }
        Plain::Object { rows, .. } => read_rows(rows.items()),
    }
}

/// Every integer in a state has 64 bits, and every text is one.
pub fn values_in_memory(state: &Plains)
    ensures { list_all is_entry_representable state.now ≡ true }
{
    for entry in state.items() {
        read_entry(entry);
    }
}
