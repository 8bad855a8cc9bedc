ghost use Rattle.std.specs.Prelude.{◌≡◌, ◌↔◌, ◌+◌, ◌%◌, ◌^◌, ◌<◌, ℕ, Bool, IsTrue, Some, None, IfOk, if◌then◌else◌};
ghost use Rattle.std.specs.Cmp.{IsEquivalence};
ghost use Rattle.ac_base.specs.Order.{IsWeakOrder, IsTied};

use crate::fault::NoMemory;
use crate::steps::Steps;
use std::alloc::Global;
use std::marker::Brand;
use std::sync::ledger::{Blank, Ledger};

/// What a container keeps.
pub trait Elem: Drop {
    /// Whether two elements are equal.
    ghost is_same: { Self → Self → Bool };

    /// How many bytes a bounded holder counts for the element.
    ghost size_of: { Self → ℕ };

    /// The element that stands where none was given.
    ghost blank_element: { Self };

    /// Whether elements have no memory of their own.
    ghost is_unboxed: { Bool };

    fn same(&self, other: &Self) -> bool
        ensures { result ≡ is_same self.now other.now };

    fn copy(&self, alloc: Global) -> Result<Self, NoMemory>
        ensures { IfOk result (λ made. made ≡ self.now) };

    /// The same as `copy`, of a kind of elements that have no memory of their own.
    fn unboxed(&self) -> Option<Self>
        ensures { result ≡ (if is_unboxed then Some self.now else None) };

    fn size(&self) -> u64
        ensures { result ≡ size_of self.now };

    fn blank(alloc: Global) -> Result<Self, NoMemory>
        ensures { IfOk result (λ made. made ≡ blank_element) };

    ghost same_is_equality: { (x y : Self) → IsTrue (is_same x y) ↔ (x ≡ y) };
}

/// Elements in an order.
pub trait Rank: Elem {
    ghost is_less: { Self → Self → Bool };

    fn less<L: Ledger>(&self, other: &Self, steps: &mut Steps<L>) -> bool
        ensures answer { result ≡ is_less self.now other.now }
        ensures one_step { steps.new ≡ steps.old + 1 };

    ghost ordered: { IsWeakOrder is_less };
}

/// Elements that are equivalent or not, with a hash.
pub trait Hashed: Elem {
    ghost is_alike: { Self → Self → Bool };

    ghost hash_of: { Self → ℕ };

    ghost wide_hash_of: { Self → ℕ };

    fn alike(&self, other: &Self) -> bool
        ensures { result ≡ is_alike self.now other.now };

    fn hash(&self) -> u32
        ensures { result ≡ hash_of self.now };

    /// A hash in twice as many bits. Its low half follows from `hash`, and its high half may tell elements apart whose hashes are equal.
    fn wide_hash(&self) -> u64
        ensures { result ≡ wide_hash_of self.now };

    ghost equivalence: { IsEquivalence is_alike };

    ghost alike_hashes: { (x y : Self) → IsTrue (is_alike x y) → hash_of x ≡ hash_of y };

    ghost alike_wide_hashes: { (x y : Self) → IsTrue (is_alike x y) → wide_hash_of x ≡ wide_hash_of y };

    ghost low_halves: { (x y : Self) → hash_of x ≡ hash_of y → wide_hash_of x % 2 ^ 32 ≡ wide_hash_of y % 2 ^ 32 };
}

/// Elements that are ordered, alike and hashed by their keys.
pub trait KeyOf: Rank + Hashed {
    type Key: Rank + Hashed;

    ghost key_of: { Self → Self.Key };

    fn key(&self) -> &Self::Key
        ensures { result.now ≡ key_of self.now };

    ghost less_by_key: { (x y : Self) → Self.is_less x y ≡ Self.Key.is_less (key_of x) (key_of y) };

    ghost alike_by_key: { (x y : Self) → Self.is_alike x y ≡ Self.Key.is_alike (key_of x) (key_of y) };

    ghost hashed_by_key: { (x : Self) → Self.hash_of x ≡ Self.Key.hash_of (key_of x) };

    ghost alike_where_tied: { (x y : Self) → IsTrue (Self.is_alike x y) ↔ IsTied Self.is_less x y };

    ghost keys_alike_where_tied: { (x y : Self.Key) → IsTrue (Self.Key.is_alike x y) ↔ IsTied Self.Key.is_less x y };
}

fn precedes_counted<T: Rank, L: Ledger>(left: &T, right: &T, blank: Blank) -> bool
    requires name { blank.name ≡ L.name }
    requires parts { blank.parts ≡ L.parts }
    requires some { 0 < blank.parts }
    ensures { result ≡ T.is_less left.now right.now }
{
    left.less(right, &mut Steps::<L>::new(blank))
}

/// `less`, for a caller that counts nothing.
pub fn precedes<T: Rank>(left: &T, right: &T) -> bool
    ensures { result ≡ T.is_less left.now right.now }
{
    precedes_counted::<T, Brand>(left, right, Blank::new(1))
}
