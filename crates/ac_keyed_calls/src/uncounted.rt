//! The look-ups of ordered rows for a caller that counts no steps.
ghost use Rattle.std.specs.Prelude.{◌≡◌, ◌<◌};
ghost use Rattle.ac_model.specs.Calls.{Marks};
ghost use Rattle.ac_model.specs.Keyed as keyed;
ghost use Rattle.ac_model.specs.Objects.{plain};

use ac_base::Steps;
use ac_cursor::Cursor;
use ac_setwork::{Ordered, Table};
use std::marker::Brand;
use std::sync::ledger::{Blank, Ledger};

pub fn floor<I: Ordered>(rows: &Table<I>, key: &I::Key) -> Cursor
    ensures { Marks rows.now.object result (keyed.floor_call (I.is_above key.now) (plain rows.now.object)) }
{
    floor_counted::<I, Brand>(rows, key, Blank::new(1))
}

fn floor_counted<I: Ordered, L: Ledger>(rows: &Table<I>, key: &I::Key, blank: Blank) -> Cursor
    requires name { blank.name ≡ L.name }
    requires parts { blank.parts ≡ L.parts }
    requires some { 0 < blank.parts }
    ensures { Marks rows.now.object result (keyed.floor_call (I.is_above key.now) (plain rows.now.object)) }
{
    rows.floor(key, &mut Steps::<L>::new(blank))
}

pub fn ceiling<I: Ordered>(rows: &Table<I>, key: &I::Key) -> Cursor
    ensures { Marks rows.now.object result (keyed.ceiling_call (I.is_below key.now) (plain rows.now.object)) }
{
    ceiling_counted::<I, Brand>(rows, key, Blank::new(1))
}

fn ceiling_counted<I: Ordered, L: Ledger>(rows: &Table<I>, key: &I::Key, blank: Blank) -> Cursor
    requires name { blank.name ≡ L.name }
    requires parts { blank.parts ≡ L.parts }
    requires some { 0 < blank.parts }
    ensures { Marks rows.now.object result (keyed.ceiling_call (I.is_below key.now) (plain rows.now.object)) }
{
    rows.ceiling(key, &mut Steps::<L>::new(blank))
}
