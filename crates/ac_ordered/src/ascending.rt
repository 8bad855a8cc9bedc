//! Rows that ascend by their keys.
ghost use Rattle.std.specs.Prelude.{◌≡◌, ◌∷◌, [], ◌+◌, ◌-◌, ◌^◌, ◌<◌, ◌≤◌, Bool, false, not, length, refl};
ghost use Rattle.ac_base.specs.Order.{are_level};
ghost use Rattle.ac_balance.specs.Indexed.{FewSteps, first_where};
ghost use Rattle.ac_model.specs.Keyed.{ascending};
ghost use Rattle.ac_model.specs.Rows.{entry};
ghost use Rattle.ac_model.proofs.KeyedLaws.{closed_ascending};
ghost use Rattle.ac_ordered.specs.Ascents.{ascent};
ghost use Rattle.ac_ordered.specs.Orders.{level_itself, weak_rows};

use crate::changes::{Replacement, WithElement};
use crate::ranked::Ranked;
use crate::sorted::Sorted;
use ac_balance::OrderIndex;
use ac_base::{Elem, Limit, Name, NoMemory, Rank, Steps, precedes};
use ac_setwork::{Index, Keyed, Mapped, OfEntries, Ordered, Searched};
use std::alloc::Global;
use std::marker::{Brand, Model};
use std::sync::ledger::{Blank, Ledger};

/// An index whose rows ascend by their keys, of which no two are equivalent.
#[derive(Drop)]
pub struct Ascending<S: Ranked>
where
    S::Row: Elem,
    S::Key: Rank,
{
    tree: OrderIndex<Sorted<S>, ()>,
}

impl<S: Ranked> Model for Ascending<S>
where
    S::Row: Elem,
    S::Key: Rank,
{
    ghost use Rattle.ac_balance.specs.Indexed.{Indexed, IsSound};
    ghost use Rattle.ac_ordered.specs.Ascents.{Nothing, tree_code};

    ghost Value = { Indexed S.Row Nothing };

    ghost coded = { tree_code S.Row.code };

    ghost view = { λ a. a.tree };

    ghost invariant = { λ a. IsSound S.is_less a.tree };
}

impl<S: Ranked> Index for Ascending<S>
where
    S::Row: Elem,
    S::Key: Rank,
{
    type Row = S::Row;

    type Key = S::Key;

    ghost order = { ascending S.is_less };

    ghost matches = { λ k v. are_level S.Key.is_less (S.key_of v) k };

    ghost is_equal = { S.is_equal };

    ghost has_capacity = { false };

    ghost seen = { λ a. ascent a };

    ghost closed = { closed_ascending S.is_less (weak_rows S.key_of S.Key.is_less S.Key.ordered S.is_less S.less_by_key) };

    fn new(alloc: Global, limit: Limit) -> Result<Ascending<S>, NoMemory> {
        match limit {
            Limit::Unbounded => Ok(Ascending {
                tree: OrderIndex::new(alloc),
            }),
            Limit::Bounded(most) => match OrderIndex::with_slots(alloc, most) {
                Ok(tree) => Ok(Ascending { tree }),
                Err(want) => Err(want),
            },
        }
    }

    fn copied(row: &S::Row, alloc: Global) -> Result<S::Row, NoMemory> {
        S::copied(row, alloc)
    }

    fn equal(left: &S::Row, right: &S::Row) -> bool {
        S::equal(left, right)
    }

    fn len(&self) -> u64 {
        self.tree.len()
    }

    fn spare(&self) -> u64 {
        self.tree.spare()
    }

    fn capacity(&self) -> Option<u64> {
        None
    }

    fn next_serial(&self) -> u64 {
        self.tree.next_serial()
    }

    fn is_there(&self, name: Name) -> bool {
        self.tree.is_there(name)
    }

    fn first(&self) -> Option<Name> {
        self.tree.first()
    }

    fn next(&self, name: Name) -> Option<Name> {
        self.tree.after(name)
    }

    fn last(&self) -> Option<Name> {
        self.tree.last()
    }

    fn previous(&self, name: Name) -> Option<Name> {
        self.tree.before(name)
    }

    fn look(&self, key: &S::Key) -> Option<Name> {
        sought::<S, Brand>(&self.tree, key, Blank::new(1))
    }

    fn look_like(&self, row: &S::Row) -> Option<Name> {
        self.look(S::key(row))
    }

    fn at(&self, name: Name) -> &S::Row {
        &self.tree.key(name).unwrap().row
    }

    fn make_room(&mut self, _limit: Limit, n: u64) -> Result<(), NoMemory> {
        self.tree.reserve(n)
    }

    fn add(&mut self, row: S::Row) -> Result<Name, Name> {
        match self.tree.add(Sorted { row }, ()) {
            Ok(name) => Ok(name),
            Err(present) => Err(present.at),
        }
    }

    fn add_new(&mut self, row: S::Row) -> Name {
        match self.add(row) {
            Ok(name) => name,
            Err(_) => unreachable!(),
        }
    }

    fn remove(&mut self, name: Name) -> S::Row {
        let (sorted, _) = self.tree.take(name).unwrap();
        sorted.row
    }

    fn replace(&mut self, name: Name, row: S::Row) {
        self.tree.change_key(name, Replacement::<S> { row });
    }

    fn set_row(&mut self, name: Name, row: S::Row) {
        self.tree.set_row(name, Sorted { row }, ());
    }

    fn clear(&mut self) {
        self.tree.clear();
    }
}

impl<S: Ranked> Searched for Ascending<S>
where
    S::Row: Elem,
    S::Key: Rank,
{
    ghost few = { λ n before after. FewSteps n before after };

    fn seek<L: Ledger>(&self, key: &S::Key, steps: &mut Steps<L>) -> Option<Name> {
        self.tree.find_key(key, steps)
    }
}

impl<S: Ranked> Ordered for Ascending<S>
where
    S::Row: Elem,
    S::Key: Rank,
{
    ghost is_below = { λ k v. S.Key.is_less (S.key_of v) k };

    ghost is_above = { λ k v. S.Key.is_less k (S.key_of v) };

    fn floor<L: Ledger>(&self, key: &S::Key, steps: &mut Steps<L>) -> Option<Name> {
        self.tree.floor_key(key, steps)
    }

    fn ceiling<L: Ledger>(&self, key: &S::Key, steps: &mut Steps<L>) -> Option<Name> {
        self.tree.ceiling_key(key, steps)
    }
}

impl<S: Ranked> Keyed for Ascending<S>
where
    S::Row: Elem,
    S::Key: Rank,
{
    ghost key_of = { S.key_of };

    ghost keys = { ascending S.Key.is_less };

    ghost order_by_key = { λ i. ascending (λ v w. S.less_by_key v w i) };

    ghost matches_key = { λ _. refl };

    fn key(row: &S::Row) -> &S::Key {
        S::key(row)
    }

    fn alike(row: &S::Row, other: &S::Row) -> bool {
        are_level(S::key(row), S::key(other))
    }
}

impl<K: Rank, V: Elem> Mapped for Ascending<OfEntries<K, V>> {
    type Element = V;

    ghost with_element = { λ e element. entry e.key element };

    fn set_element(&mut self, name: Name, element: V) {
        self.tree.change_key(name, WithElement { element });
    }

    ghost same_key = { λ e element. level_itself K.is_less K.ordered e.key };
}

/// A look-up that counts nothing.
fn sought<S: Ranked, L: Ledger>(
    tree: &OrderIndex<Sorted<S>, ()>,
    key: &S::Key,
    blank: Blank,
) -> Option<Name>
where
    S::Row: Elem,
    S::Key: Rank,
    requires name { blank.name ≡ L.name }
    requires parts { blank.parts ≡ L.parts }
    requires some { 0 < blank.parts }
    ensures { result ≡ first_where (λ v. are_level S.Key.is_less (S.key_of v) key.now) tree.now }
{
    tree.find_key(key, &mut Steps::<L>::new(blank))
}

/// Neither key is less than the other.
fn are_level<K: Rank>(key: &K, other: &K) -> bool
    ensures { result ≡ are_level K.is_less key.now other.now }
{
    !precedes(key, other) && !precedes(other, key)
}
