//! A row in the order of its key.
ghost use Rattle.std.specs.Prelude.{◌≡◌, false};
ghost use Rattle.ac_ordered.specs.Orders.{weak_rows};

use crate::ranked::Ranked;
use ac_balance::Keyed;
use ac_base::{Elem, NoMemory, Rank, Steps};
use ac_setwork::Keys;
use std::alloc::Global;
use std::marker::Model;
use std::sync::ledger::Ledger;

#[derive(Drop)]
pub struct Sorted<S: Keys> {
    pub(crate) row: S::Row,
}

impl<S: Keys> Model for Sorted<S> {
    ghost Value = { S.Row };

    ghost coded = { S.Row.code };

    ghost view = { λ s. s.row };
}

impl<S: Keys> Elem for Sorted<S>
where
    S::Row: Elem,
{
    ghost is_same = { S.Row.is_same };

    ghost size_of = { S.Row.size_of };

    ghost blank_element = { S.Row.blank_element };

    ghost is_unboxed = { false };

    ghost same_is_equality = { S.Row.same_is_equality };

    fn same(&self, other: &Sorted<S>) -> bool {
        self.row.same(&other.row)
    }

    fn copy(&self, alloc: Global) -> Result<Sorted<S>, NoMemory> {
        let row = self.row.copy(alloc)?;
        Ok(Sorted { row })
    }

    fn unboxed(&self) -> Option<Sorted<S>> {
        None
    }

    fn size(&self) -> u64 {
        self.row.size()
    }

    fn blank(alloc: Global) -> Result<Sorted<S>, NoMemory> {
        let row = S::Row::blank(alloc)?;
        Ok(Sorted { row })
    }
}

impl<S: Ranked> Rank for Sorted<S>
where
    S::Row: Elem,
    S::Key: Rank,
{
    ghost is_less = { S.is_less };

    ghost ordered = { weak_rows S.key_of S.Key.is_less S.Key.ordered S.is_less S.less_by_key };

    fn less<L: Ledger>(&self, other: &Sorted<S>, steps: &mut Steps<L>) -> bool {
        S::key(&self.row).less(S::key(&other.row), steps)
    }
}

impl<S: Ranked> Keyed for Sorted<S>
where
    S::Row: Elem,
    S::Key: Rank,
{
    type Key = S::Key;

    ghost key_of = { S.key_of };

    ghost less_by_key = { S.less_by_key };

    fn key(&self) -> &S::Key {
        S::key(&self.row)
    }
}
