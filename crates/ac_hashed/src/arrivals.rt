//! Rows in order of arrival.
ghost use Rattle.std.specs.Prelude.{◌≡◌, refl, true};
ghost use Rattle.std.proofs.Common.{sym, ◌∙◌};
ghost use Rattle.ac_model.specs.Keyed.{by_arrival};
ghost use Rattle.ac_model.proofs.KeyedLaws.{closed_arrival};
ghost use Rattle.ac_chain.specs.Rows.{IsLive, IsSound, with_value};
ghost use Rattle.ac_hashed.specs.Likeness.{like_keys};
ghost use Rattle.ac_hashed.specs.Ties.{seen_in};

use crate::alike::Alike;
use crate::find::find;
use ac_base::{Elem, Hashed, Limit, Name, NoMemory};
use ac_buckets::Buckets;
use ac_chain::Chain;
use ac_setwork::{Entry, Index, Keyed, Mapped, OfEntries};
use std::alloc::Global;
use std::marker::Model;

/// Rows in a chain, each with its name in the bucket of its key's hash.
#[derive(Drop)]
pub struct Arrivals<S: Alike>
where
    S::Key: Hashed,
{
    chain: Chain<S::Row>,
    buckets: Buckets,
}

impl<S: Alike> Model for Arrivals<S>
where
    S::Key: Hashed,
{
    ghost use Rattle.ac_chain.specs.Rows.{Chained, chained_code};
    ghost use Rattle.ac_hashed.specs.Ties.{AreTied};

    ghost Value = { Chained S.Row };

    ghost coded = { chained_code S.Row.code };

    ghost view = { λ a. a.chain };

    ghost invariant = { λ a. AreTied (λ v. S.Key.wide_hash_of (S.key_of v)) (λ v w. S.Key.is_alike (S.key_of v) (S.key_of w)) a.chain a.buckets };
}

/// Another value under the name.
fn write<T: Drop>(chain: &mut Chain<T>, name: Name, value: T)
    requires { IsLive chain.old name }
    ensures written { chain.new ≡ with_value chain.old name value }
    ensures sound { IsSound chain.new }
{
    *chain.at_mut(name) = value;
    let _sound = chain.len();
}

impl<S: Alike> Index for Arrivals<S>
where
    S::Key: Hashed,
{
    type Row = S::Row;

    type Key = S::Key;

    ghost order = { by_arrival S.is_alike };

    ghost matches = { λ key row. S.Key.is_alike (S.key_of row) key };

    ghost is_equal = { S.is_equal };

    ghost has_capacity = { true };

    ghost seen = { seen_in };

    ghost closed = { closed_arrival S.is_alike (like_keys S.Key.equivalence S.key_of S.is_alike S.alike_by_key) };

    fn new(alloc: Global, limit: Limit) -> Result<Arrivals<S>, NoMemory> {
        let mut buckets = Buckets::new(alloc);
        let chain = match limit {
            Limit::Unbounded => Chain::new(alloc),
            Limit::Bounded(most) => {
                buckets.grow(most)?;
                Chain::with_slots(alloc, most)?
            }
        };
        Ok(Arrivals { chain, buckets })
    }

    fn copied(row: &S::Row, alloc: Global) -> Result<S::Row, NoMemory> {
        S::copied(row, alloc)
    }

    fn equal(left: &S::Row, right: &S::Row) -> bool {
        S::equal(left, right)
    }

    fn len(&self) -> u64 {
        self.chain.len()
    }

    fn spare(&self) -> u64 {
        self.chain.spare()
    }

    fn capacity(&self) -> Option<u64> {
        Some(self.chain.len() + self.chain.spare())
    }

    fn next_serial(&self) -> u64 {
        self.chain.next_serial()
    }

    fn is_there(&self, name: Name) -> bool {
        self.chain.is_live(name)
    }

    fn first(&self) -> Option<Name> {
        self.chain.first()
    }

    fn next(&self, name: Name) -> Option<Name> {
        self.chain.next(name)
    }

    fn last(&self) -> Option<Name> {
        self.chain.last()
    }

    fn previous(&self, name: Name) -> Option<Name> {
        self.chain.prev(name)
    }

    fn look(&self, key: &S::Key) -> Option<Name> {
        find::<S>(&self.chain, &self.buckets, key)
    }

    fn look_like(&self, row: &S::Row) -> Option<Name> {
        self.look(S::key(row))
    }

    fn at(&self, name: Name) -> &S::Row {
        self.chain.at(name)
    }

    fn make_room(&mut self, _limit: Limit, n: u64) -> Result<(), NoMemory> {
        self.buckets.grow(n)?;
        self.chain.reserve(n)
    }

    fn add(&mut self, row: S::Row) -> Result<Name, Name> {
        match self.look_like(&row) {
            Some(name) => Err(name),
            None => Ok(self.add_new(row)),
        }
    }

    fn add_new(&mut self, row: S::Row) -> Name {
        let hash = S::key(&row).wide_hash();
        let name = self.chain.insert_before(None, row);
        self.buckets.add(hash, name);
        name
    }

    fn remove(&mut self, name: Name) -> S::Row {
        let row = self.chain.remove(name);
        let _dropped = self.buckets.drop_one(S::key(&row).wide_hash(), name);
        row
    }

    fn replace(&mut self, name: Name, row: S::Row) {
        write(&mut self.chain, name, row);
    }

    fn set_row(&mut self, name: Name, row: S::Row) {
        let hash = S::key(&row).wide_hash();
        let _dropped = self
            .buckets
            .drop_one(S::key(self.chain.at(name)).wide_hash(), name);
        self.buckets.add(hash, name);
        write(&mut self.chain, name, row);
    }

    fn clear(&mut self) {
        self.chain.clear();
        self.buckets.clear();
    }
}

impl<S: Alike> Keyed for Arrivals<S>
where
    S::Key: Hashed,
{
    ghost key_of = { S.key_of };

    ghost keys = { by_arrival S.Key.is_alike };

    ghost order_by_key = { λ i. by_arrival (λ v w. S.alike_by_key v w i) };

    ghost matches_key = { λ _. refl };

    fn key(row: &S::Row) -> &S::Key {
        S::key(row)
    }

    fn alike(row: &S::Row, other: &S::Row) -> bool {
        S::key(row).alike(S::key(other))
    }
}

impl<K: Hashed, V: Elem> Mapped for Arrivals<OfEntries<K, V>> {
    ghost use Rattle.ac_model.specs.Rows.{entry};

    type Element = V;

    ghost with_element = { λ e element. entry e.key element };

    ghost same_key = { λ e element. K.equivalence.refl e.key };

    fn set_element(&mut self, name: Name, element: V) {
        self.chain.at_mut(name).set_element(element);
        let _sound = self.chain.len();
    }
}
