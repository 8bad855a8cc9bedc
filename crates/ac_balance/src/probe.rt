//! What a search looks for.
ghost use Rattle.std.specs.Prelude.{◌≡◌, ◌+◌, ◌≤◌, Bool, refl};
ghost use Rattle.ac_balance.specs.Probes.{IsProbe, standing, probed};

use crate::keyed::Keyed;
use ac_base::{Rank, Steps};
use std::cmp::Ordering;
use std::sync::ledger::Ledger;

/// What a search among rows with such keys looks for.
pub(crate) trait Probe<K: Rank>: Drop {
    /// The key's row stands before it.
    ghost is_before: { Self → K → Bool };

    /// The key's row stands behind it.
    ghost is_behind: { Self → K → Bool };

    /// How the key stands to it, in at most two steps.
    fn standing<L: Ledger>(&self, key: &K, steps: &mut Steps<L>) -> Ordering
        ensures standing { result ≡ standing (is_before self.now key.now) (is_behind self.now key.now) }
        ensures few { steps.new ≤ steps.old + 2 }
        ensures counted { steps.old ≤ steps.new };

    ghost sided: { (p : Self) → IsProbe K.is_less (is_before p) (is_behind p) };
}

/// The key itself.
#[derive(Drop)]
pub(crate) struct WholeKey<'a, K> {
    pub key: &'a K,
}

impl<'a, K: Rank> Probe<K> for WholeKey<'a, K> {
    ghost is_before = { λ p x. K.is_less x p.key.now };

    ghost is_behind = { λ p x. K.is_less p.key.now x };

    ghost sided = { λ p. probed K.is_less K.is_less (λ x. x) (λ x y. refl) K.ordered p.key.now };

    #[inline(always)]
    fn standing<L: Ledger>(&self, key: &K, steps: &mut Steps<L>) -> Ordering {
        standing_of(key, self.key, steps)
    }
}

/// The key of a row's key.
#[derive(Drop)]
pub(crate) struct InnerKey<'a, K: Keyed> {
    pub key: &'a K::Key,
}

impl<'a, K: Keyed> Probe<K> for InnerKey<'a, K> {
    ghost is_before = { λ p x. K.Key.is_less (K.key_of x) p.key.now };

    ghost is_behind = { λ p x. K.Key.is_less p.key.now (K.key_of x) };

    ghost sided = { λ p. probed K.is_less K.Key.is_less K.key_of K.less_by_key K.Key.ordered p.key.now };

    #[inline(always)]
    fn standing<L: Ledger>(&self, key: &K, steps: &mut Steps<L>) -> Ordering {
        standing_of(key.key(), self.key, steps)
    }
}

/// How a key stands to the one that is looked for.
#[inline(always)]
fn standing_of<K: Rank, L: Ledger>(key: &K, sought: &K, steps: &mut Steps<L>) -> Ordering
    ensures standing { result ≡ standing (K.is_less key.now sought.now) (K.is_less sought.now key.now) }
    ensures few { steps.new ≤ steps.old + 2 }
    ensures counted { steps.old ≤ steps.new }
{
    if sought.less(key, steps) {
        Ordering::Greater
    } else if key.less(sought, steps) {
        Ordering::Less
    } else {
        Ordering::Equal
    }
}
