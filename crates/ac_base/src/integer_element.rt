ghost use Rattle.std.specs.Prelude.{◌≡◌, IsOk, IfOk, pos, true};
ghost use Rattle.std.specs.Ordering.{int_eq};
ghost use Rattle.std.proofs.lemmas.Cmp.{int_eq_equiv};
ghost use Rattle.ac_base.specs.Order.{integer_less};
ghost use Rattle.ac_base.specs.OrderLaws.{integer_order, integers_alike_where_tied, integers_same};
ghost use Rattle.ac_base.specs.Hash.{hash_of_integer, wide_hash_of_integer};
ghost use Rattle.ac_base.specs.HashLaws.{alike_integers_hashes, alike_integers_wide_hashes, integers_low_halves};

use crate::element::{Elem, Hashed, KeyOf, Rank};
use crate::fault::NoMemory;
use crate::hash::{hash_bytes, widened};
use crate::steps::Steps;
use std::alloc::Global;
use std::sync::ledger::Ledger;

impl Elem for i64 {
    ghost is_same = { int_eq };

    ghost same_is_equality = { integers_same };

    ghost size_of = { λ _. 8 };

    ghost blank_element = { pos 0 };

    ghost is_unboxed = { true };

    fn same(&self, other: &i64) -> bool {
        *self == *other
    }

    fn copy(&self, _alloc: Global) -> Result<i64, NoMemory>
        ensures ok { IsOk result }
        ensures copied { IfOk result (λ made. made ≡ self.now) }
    {
        Ok(*self)
    }

    #[inline(always)]
    fn unboxed(&self) -> Option<i64> {
        Some(*self)
    }

    fn size(&self) -> u64 {
        8
    }

    fn blank(_alloc: Global) -> Result<i64, NoMemory>
        ensures ok { IsOk result }
        ensures zero { IfOk result (λ made. made ≡ pos 0) }
    {
        Ok(0)
    }
}

impl Rank for i64 {
    ghost is_less = { integer_less };

    ghost ordered = { integer_order };

    fn less<L: Ledger>(&self, other: &i64, steps: &mut Steps<L>) -> bool {
        steps.step();
        *self < *other
    }
}

impl Hashed for i64 {
    ghost is_alike = { int_eq };

    ghost hash_of = { hash_of_integer };

    ghost wide_hash_of = { wide_hash_of_integer };

    ghost equivalence = { int_eq_equiv };

    ghost alike_hashes = { alike_integers_hashes };

    ghost alike_wide_hashes = { alike_integers_wide_hashes };

    ghost low_halves = { integers_low_halves };

    fn alike(&self, other: &i64) -> bool {
        *self == *other
    }

    fn hash(&self) -> u32 {
        hash_bytes(&self.to_le_bytes())
    }

    #[inline(always)]
    fn wide_hash(&self) -> u64 {
        widened(self.hash(), self.cast_unsigned())
    }
}

impl KeyOf for i64 {
    type Key = i64;

    ghost use Rattle.std.specs.Prelude.{refl};

    ghost key_of = { λ x. x };

    ghost less_by_key = { λ x y. refl };

    ghost alike_by_key = { λ x y. refl };

    ghost hashed_by_key = { λ x. refl };

    ghost alike_where_tied = { integers_alike_where_tied };

    ghost keys_alike_where_tied = { integers_alike_where_tied };

    fn key(&self) -> &i64 {
        self
    }
}
