//! The outermost variables and objects as plain values.

ghost use Rattle.std.specs.Prelude.{◌≡◌};

use ac_base::{Text, Value};
use ac_syntax::{Ident, TypeDef};
use std::marker::Model;

/// A row of an object. The depth is 0 outside trees, a tree's topmost nodes have depth 2, and a key stands in maps alone.
#[derive(Drop)]
pub struct PlainRow {
    pub depth: u64,
    pub key: Option<Value>,
    pub value: Value,
}

/// Rows in order.
#[derive(Drop)]
pub struct PlainRows {
    items: Vec<PlainRow>,
}

impl Model for PlainRows {
    ghost use Rattle.std.specs.Prelude.{List};
    ghost use Rattle.ac_calls.specs.declared.plains.PlainRow.{PlainRow};

    ghost Value = { List PlainRow };

    ghost view = { λ rows. rows.items.items };
}

impl PlainRows {
    pub fn from_vec(items: Vec<PlainRow>) -> PlainRows
        ensures { result ≡ items.items }
    {
        PlainRows { items }
    }

    pub fn items(&self) -> &[PlainRow]
        ensures { result.now ≡ self.now }
    {
        &self.items
    }
}

/// An outermost variable or object.
#[derive(Drop)]
pub enum Plain {
    Int {
        name: Ident,
        value: i64,
    },
    Str {
        name: Ident,
        value: Text,
    },
    /// The limit stands where the object is bounded, the capacity for unbounded vectors and hashed
    /// containers, the peak for queues.
    Object {
        name: Ident,
        def: TypeDef,
        limit: Option<u64>,
        capacity: Option<u64>,
        peak: Option<u64>,
        rows: PlainRows,
    },
}

/// Variables and objects in the order of their declarations.
#[derive(Drop)]
pub struct Plains {
    items: Vec<Plain>,
}

impl Model for Plains {
    ghost use Rattle.std.specs.Prelude.{List};
    ghost use Rattle.ac_calls.specs.declared.plains.Plain.{Plain};

    ghost Value = { List Plain };

    ghost view = { λ plains. plains.items.items };
}

impl Plains {
    pub fn from_vec(items: Vec<Plain>) -> Plains
        ensures { result ≡ items.items }
    {
        Plains { items }
    }

    pub fn items(&self) -> &[Plain]
        ensures { result.now ≡ self.now }
    {
        &self.items
    }
}
