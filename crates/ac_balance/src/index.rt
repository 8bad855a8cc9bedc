//! The ordered index. A contract sees its rows, each a name with a key and a value, in the ascending order of their keys.
ghost use Rattle.std.specs.Prelude.{◌≡◌, ◌↔◌, not, ◌&&◌, ◌+◌, ◌-◌, ◌^◌, ◌<◌, ◌≤◌, IsTrue, IsOk, IfOk, IfErr, OnOk, OnErr, Some, None, option_copied, length};
ghost use Rattle.std.specs.Option.{option_copied_mut};
ghost use Rattle.std.specs.Borrow.{sem};
ghost use Rattle.ac_base.specs.Order.{are_level, IsTied};
ghost use Rattle.ac_balance.specs.Walking.{first_name, last_name, or_else};
ghost use Rattle.ac_balance.specs.Indexed.{IsThere, IsFresh, IsSound, FewSteps, first_where, last_where, next_name, prev_name};
ghost use Rattle.ac_balance.specs.Indexed.{key_of, value_of, row_of, without_row, no_rows, reserved, cleared, added, taken, with_changed, with_new_row};
ghost use Rattle.ac_balance.specs.Present.{IsPresent};
ghost use Rattle.ac_pool.specs.Link.{name_in};

use crate::change::Change;
use crate::detaching::detach;
use crate::entry::Entry;
use crate::keyed::Keyed;
use crate::links::{Links, Node, alone, name_in, renew};
use crate::places::{Place, mend};
use crate::probe::{InnerKey, Probe, WholeKey};
use crate::search::{place_for, seek};
use crate::walk::{leftmost, predecessor, rightmost, successor};
use ac_base::{Name, NoMemory, Rank, Steps};
use ac_pool::Pool;
use std::alloc::Global;
use std::marker::Model;
use std::sync::ledger::Ledger;

/// A row that was not added, since one with an equivalent key is there.
#[derive(Drop)]
pub struct Present<K, V> {
    pub at: Name,
    pub k: K,
    pub v: V,
}

/// Rows under names, in the ascending order of their keys, of which no two are equivalent. The names are a pool's, and so is the memory.
#[derive(Drop)]
pub struct OrderIndex<K: Rank, V> {
    links: Links<Entry<K, V>>,
}

impl<K: Rank, V> Model for OrderIndex<K, V> {
    ghost use Rattle.ac_balance.specs.Indexed.{Indexed, indexed, indexed_code};

    ghost Value = { Indexed K V };

    ghost coded = { indexed_code K.code V.code };

    ghost use Rattle.ac_balance.specs.IndexFields.{rows_in, IsOrderIndex};

    ghost view = { λ x. indexed (rows_in x.links) x.links.nodes.next_serial x.links.nodes.spare };

    ghost invariant = { λ x. IsOrderIndex K.is_less x.links };
}

impl<K: Rank, V> OrderIndex<K, V> {
    ghost use Rattle.ac_balance.specs.IndexLends.{lends_value};

    /// An index without rows, which takes no memory. Its first serial is 1.
    pub fn new(alloc: Global) -> OrderIndex<K, V>
        ensures empty { result ≡ no_rows 1 0 }
        ensures sound { IsSound K.is_less result }
    {
        OrderIndex {
            links: Links {
                nodes: Pool::new(alloc),
                root: None,
            },
        }
    }

    /// Makes at least `n` slots spare. Where it must grow, the slots become the least `8 * 2^k` that has room for `n` rows more.
    pub fn reserve(&mut self, n: u64) -> Result<(), NoMemory>
        requires { length self.old.rows + n ≤ 2 ^ 30 }
        ensures ok { OnOk result (self.new ≡ reserved self.old n) }
        ensures err { OnErr result (self.new ≡ self.old) }
        ensures had_room { n ≤ self.old.spare → IsOk result }
        ensures sound { IsSound K.is_less self.new }
    {
        self.links.nodes.reserve(n)
    }

    /// How many rows there are.
    pub fn len(&self) -> u64
        ensures count { result ≡ length self.now.rows }
        ensures sound { IsSound K.is_less self.now }
    {
        self.links.nodes.live()
    }

    /// How many slots keep nothing.
    pub fn spare(&self) -> u64
        ensures count { result ≡ self.now.spare }
        ensures sound { IsSound K.is_less self.now }
    {
        self.links.nodes.spare()
    }

    /// The serial that the next row gets.
    pub fn next_serial(&self) -> u64
        ensures serial { result ≡ self.now.next_serial }
        ensures sound { IsSound K.is_less self.now }
    {
        self.links.nodes.next_serial()
    }

    /// Adds a row, in O(log n). Where one with an equivalent key is there, the key and the value come back.
    pub fn add(&mut self, k: K, v: V) -> Result<Name, Present<K, V>>
        requires spare { 0 < self.old.spare }
        requires unspent { self.old.next_serial < 2 ^ 64 - 1 }
        ensures fresh { IfOk result (IsFresh self.old) }
        ensures absent { OnOk result (first_where (λ x. are_level K.is_less x k) self.old ≡ None) }
        ensures added { IfOk result (λ name. self.new ≡ added K.is_less self.old name k v) }
        ensures present { IfErr result (IsPresent K.is_less self.old k v) }
        ensures err { OnErr result (self.new ≡ self.old) }
        ensures sound { IsSound K.is_less self.new }
    {
        let spot = place_for(&self.links.nodes, self.links.root, &k);
        if let Some(at) = spot.part {
            return Err(Present { at, k, v });
        }
        let name = self
            .links
            .nodes
            .put_reserved(alone(Entry { key: k, value: v }));
        mend(
            &mut self.links,
            Place {
                parent: spot.parent,
                is_left: spot.is_left,
                top: Some(name),
            },
        );
        Ok(name)
    }

    /// Takes the row out, in O(log n), and frees its slot. `None` where the name has no row.
    pub fn take(&mut self, name: Name) -> Option<(K, V)>
        ensures row { result ≡ row_of self.old name }
        ensures taken { self.new ≡ taken self.old name }
        ensures sound { IsSound K.is_less self.new }
    {
        if self.links.nodes.get(name).is_none() {
            return None;
        }
        detach(&mut self.links, name);
        let node = self.links.nodes.take(name).unwrap();
        Some((node.value.key, node.value.value))
    }

    /// The name of the first row, in O(log n).
    pub fn first(&self) -> Option<Name>
        ensures { result ≡ first_name self.now.rows }
    {
        match self.links.root {
            Some(root) => Some(leftmost(&self.links.nodes, root)),
            None => None,
        }
    }

    /// The name of the last row, in O(log n).
    pub fn last(&self) -> Option<Name>
        ensures { result ≡ last_name self.now.rows }
    {
        match self.links.root {
            Some(root) => Some(rightmost(&self.links.nodes, root)),
            None => None,
        }
    }

    /// The name of the row behind the name's, in O(log n). A walk over all rows is linear.
    pub fn after(&self, name: Name) -> Option<Name>
        requires { IsThere self.now name }
        ensures { result ≡ next_name self.now name }
    {
        successor(&self.links.nodes, name)
    }

    /// The name of the row before the name's, in O(log n). A walk over all rows is linear.
    pub fn before(&self, name: Name) -> Option<Name>
        requires { IsThere self.now name }
        ensures { result ≡ prev_name self.now name }
    {
        predecessor(&self.links.nodes, name)
    }

    /// Whether the name has a row.
    pub fn is_there(&self, name: Name) -> bool
        ensures there { IsTrue result ↔ IsThere self.now name }
        ensures sound { IsSound K.is_less self.now }
    {
        self.links.nodes.get(name).is_some()
    }

    /// The key of the name's row, or `None` where it has none.
    pub fn key(&self, name: Name) -> Option<&K>
        ensures key { option_copied result ≡ key_of self.now name }
    {
        match self.links.nodes.get(name) {
            Some(node) => Some(&node.value.key),
            None => None,
        }
    }

    /// The value of the name's row, or `None` where it has none.
    pub fn value(&self, name: Name) -> Option<&V>
        ensures value { option_copied result ≡ value_of self.now name }
    {
        match self.links.nodes.get(name) {
            Some(node) => Some(&node.value.value),
            None => None,
        }
    }

    /// As `key`, of the value for writing.
    pub fn value_mut(&mut self, name: Name) -> Option<&mut V>
        ensures* writes_back { sem 𝓛
            (lends_value K.row V.row K.is_less K.is_same K.size_of K.blank_element K.is_unboxed self.entry name result) }
        ensures value { option_copied_mut result ≡ value_of self.old name }
    {
        match self.links.nodes.get_mut(name) {
            Some(node) => Some(&mut node.value.value),
            None => None,
        }
    }

    /// Changes the key of the name's row, in constant time. It must stay equivalent.
    pub fn change_key<C: Change<K>>(&mut self, name: Name, change: C)
        requires there { IsThere self.old name }
        requires level { (k : K) → key_of self.old name ≡ Some k → IsTied K.is_less k (C.changed change k) }
        ensures key { self.new ≡ with_changed self.old name (C.changed change) }
        ensures sound { IsSound K.is_less self.new }
    {
        change.make(&mut self.links.nodes.get_mut(name).unwrap().value.key);
    }

    /// The name of the row whose key is equivalent, or `None` where there is none.
    pub fn find<L: Ledger>(&self, k: &K, steps: &mut Steps<L>) -> Option<Name>
        ensures name { result ≡ first_where (λ x. are_level K.is_less x k.now) self.now }
        ensures few { FewSteps (length self.now.rows) steps.old steps.new }
    {
        self.find_by(WholeKey { key: k }, steps)
    }

    /// The name of the last row whose key isn't greater.
    pub fn floor<L: Ledger>(&self, k: &K, steps: &mut Steps<L>) -> Option<Name>
        ensures name { result ≡ last_where (λ x. not (K.is_less k.now x)) self.now }
        ensures few { FewSteps (length self.now.rows) steps.old steps.new }
    {
        self.floor_by(WholeKey { key: k }, steps)
    }

    /// The name of the first row whose key isn't less.
    pub fn ceiling<L: Ledger>(&self, k: &K, steps: &mut Steps<L>) -> Option<Name>
        ensures name { result ≡ first_where (λ x. not (K.is_less x k.now)) self.now }
        ensures few { FewSteps (length self.now.rows) steps.old steps.new }
    {
        self.ceiling_by(WholeKey { key: k }, steps)
    }

    /// The name of the row that is looked for.
    #[inline(always)]
    fn find_by<P: Probe<K>, L: Ledger>(&self, probe: P, steps: &mut Steps<L>) -> Option<Name>
        ensures name { result ≡ first_where (λ x. not (P.is_before probe x) && not (P.is_behind probe x)) self.now }
        ensures few { FewSteps (length self.now.rows) steps.old steps.new }
    {
        let found = seek(&self.links.nodes, self.links.root, probe, steps);
        name_in(&self.links.nodes, found.part)
    }

    /// The name of the last row that isn't behind what is looked for.
    #[inline(always)]
    fn floor_by<P: Probe<K>, L: Ledger>(&self, probe: P, steps: &mut Steps<L>) -> Option<Name>
        ensures name { result ≡ last_where (λ x. not (P.is_behind probe x)) self.now }
        ensures few { FewSteps (length self.now.rows) steps.old steps.new }
    {
        let place = seek(&self.links.nodes, self.links.root, probe, steps);
        either(&self.links.nodes, place.part, place.below)
    }

    /// The name of the first row that isn't before what is looked for.
    #[inline(always)]
    fn ceiling_by<P: Probe<K>, L: Ledger>(&self, probe: P, steps: &mut Steps<L>) -> Option<Name>
        ensures name { result ≡ first_where (λ x. not (P.is_before probe x)) self.now }
        ensures few { FewSteps (length self.now.rows) steps.old steps.new }
    {
        let spot = seek(&self.links.nodes, self.links.root, probe, steps);
        either(&self.links.nodes, spot.part, spot.above)
    }
}

impl<K: Keyed, V> OrderIndex<K, V> {
    /// The name of the row whose key has an equivalent key.
    pub fn find_key<L: Ledger>(&self, k: &K::Key, steps: &mut Steps<L>) -> Option<Name>
        ensures name { result ≡ first_where (λ x. are_level K.Key.is_less (K.key_of x) k.now) self.now }
        ensures few { FewSteps (length self.now.rows) steps.old steps.new }
    {
        self.find_by(InnerKey { key: k }, steps)
    }

    /// The name of the last row whose key's key isn't greater.
    pub fn floor_key<L: Ledger>(&self, k: &K::Key, steps: &mut Steps<L>) -> Option<Name>
        ensures name { result ≡ last_where (λ x. not (K.Key.is_less k.now (K.key_of x))) self.now }
        ensures few { FewSteps (length self.now.rows) steps.old steps.new }
    {
        self.floor_by(InnerKey { key: k }, steps)
    }

    /// The name of the first row whose key's key isn't less.
    pub fn ceiling_key<L: Ledger>(&self, k: &K::Key, steps: &mut Steps<L>) -> Option<Name>
        ensures name { result ≡ first_where (λ x. not (K.Key.is_less (K.key_of x) k.now)) self.now }
        ensures few { FewSteps (length self.now.rows) steps.old steps.new }
    {
        self.ceiling_by(InnerKey { key: k }, steps)
    }
}

impl<K: Rank, V: Drop> OrderIndex<K, V> {
    /// Gives the name another row, in O(log n). No other row may have an equivalent key.
    pub fn set_row(&mut self, name: Name, k: K, v: V)
        requires there { IsThere self.old name }
        requires only { first_where (λ x. are_level K.is_less x k) (without_row self.old name) ≡ None }
        ensures row { self.new ≡ with_new_row K.is_less self.old name k v }
        ensures sound { IsSound K.is_less self.new }
    {
        detach(&mut self.links, name);
        let spot = place_for(&self.links.nodes, self.links.root, &k);
        renew(&mut self.links.nodes, name, Entry { key: k, value: v });
        mend(
            &mut self.links,
            Place {
                parent: spot.parent,
                is_left: spot.is_left,
                top: Some(name),
            },
        );
    }

    /// Drops all rows, and keeps the slots.
    pub fn clear(&mut self)
        ensures cleared { self.new ≡ cleared self.old }
        ensures sound { IsSound K.is_less self.new }
    {
        self.links.nodes.clear();
        self.links.root = None;
    }

    /// An index with `n` spare slots.
    pub fn with_slots(alloc: Global, n: u64) -> Result<OrderIndex<K, V>, NoMemory>
        requires { n ≤ 2 ^ 30 }
        ensures empty { IfOk result (λ x. x ≡ no_rows 1 n) }
        ensures sound { IfOk result (λ x. IsSound K.is_less x) }
    {
        Ok(OrderIndex {
            links: Links {
                nodes: Pool::with_slots(alloc, n)?,
                root: None,
            },
        })
    }
}

/// The first of the two names to which the links lead that there is.
#[inline(always)]
fn either<T>(nodes: &Pool<Node<T>>, link: u32, other: u32) -> Option<Name>
    ensures { result ≡ or_else (name_in nodes.now link) (name_in nodes.now other) }
{
    let name = name_in(nodes, link);
    match name {
        Some(_) => name,
        None => name_in(nodes, other),
    }
}
