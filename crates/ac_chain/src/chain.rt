//! The chain. A contract sees a list of rows, each a name with its value, with the next serial and the number of spare slots.
ghost use Rattle.std.specs.Prelude.{◌≡◌, ◌≢◌, ℕ, ◌+◌, ◌-◌, ◌^◌, ◌<◌, ◌≤◌, ◌↔◌, IsTrue, IsOk, IfOk, OnOk, OnErr, length};
ghost use Rattle.std.specs.Option.{ForSome};
ghost use Rattle.std.specs.Borrow.{sem};
ghost use Rattle.ac_base.specs.Rows.{row, names};
ghost use Rattle.ac_chain.specs.Rows.{Chained, IsLive, value_of, next_name, prev_name, no_rows, reserved, inserted, removed, cleared, values_swapped, links_swapped, moved, reversed, WalksInOrder, IsOrderOf, Reorders, IsFresh, IsSound};
ghost use Rattle.ac_pool.specs.NamedRows.{index_of, name_at, name_before};

use crate::links::{Links, Node};
use ac_base::{Name, NoMemory};
use ac_pool::{Pool, link_to};
use std::alloc::Global;
use std::marker::Model;

/// Values in a row, each under a name that it keeps. The names are a pool's, and so is the memory.
#[derive(Drop)]
pub struct Chain<T> {
    links: Links<T>,
}

impl<T> Model for Chain<T> {
    ghost use Rattle.ac_chain.specs.Rows.{Chained, chained, chained_code};

    ghost Value = { Chained T };

    ghost coded = { chained_code T.code };

    ghost use Rattle.ac_chain.specs.ChainFields.{rows_in, IsChain};

    ghost view = { λ c. chained (rows_in c.links) c.links.nodes.next_serial c.links.nodes.spare };

    ghost invariant = { λ c. IsChain c.links };
}

impl<T> Chain<T> {
    ghost use Rattle.ac_chain.specs.ChainLends.{lends_value};

    /// A chain without rows, which takes no memory. Its first serial is 1.
    pub fn new(alloc: Global) -> Chain<T>
        ensures empty { result ≡ no_rows 1 0 }
        ensures sound { IsSound result }
    {
        Chain::starting_at(alloc, 1)
    }

    /// The same with another first serial.
    pub fn starting_at(alloc: Global, serial: u64) -> Chain<T>
        requires { 0 < serial }
        ensures empty { result ≡ no_rows serial 0 }
        ensures sound { IsSound result }
    {
        Chain {
            links: Links {
                nodes: Pool::starting_at(alloc, serial),
                first: None,
                last: None,
            },
        }
    }

    /// Makes at least `n` slots spare. Where it must grow, the slots become the least `8 * 2^k` that has room for `n` rows more.
    pub fn reserve(&mut self, n: u64) -> Result<(), NoMemory>
        requires { length self.old.rows + n ≤ 2 ^ 30 }
        ensures ok { OnOk result (self.new ≡ reserved self.old n) }
        ensures err { OnErr result (self.new ≡ self.old) }
        ensures had_room { n ≤ self.old.spare → IsOk result }
        ensures sound { IsSound self.new }
    {
        self.links.nodes.reserve(n)
    }

    /// How many rows there are.
    pub fn len(&self) -> u64
        ensures count { result ≡ length self.now.rows }
        ensures sound { IsSound self.now }
    {
        self.links.nodes.live()
    }

    /// How many slots keep nothing.
    pub fn spare(&self) -> u64
        ensures count { result ≡ self.now.spare }
        ensures sound { IsSound self.now }
    {
        self.links.nodes.spare()
    }

    /// The serial that the next row gets.
    pub fn next_serial(&self) -> u64
        ensures serial { result ≡ self.now.next_serial }
        ensures sound { IsSound self.now }
    {
        self.links.nodes.next_serial()
    }

    /// The first row's name. A walk from it by `next` meets each row once, in order.
    pub fn first(&self) -> Option<Name>
        ensures name { result ≡ name_at self.now.rows 0 }
        ensures walk { WalksInOrder self.now }
        ensures sound { IsSound self.now }
    {
        self.links.first
    }

    pub fn last(&self) -> Option<Name>
        ensures name { result ≡ name_before self.now.rows (length self.now.rows) }
        ensures sound { IsSound self.now }
    {
        self.links.last
    }

    #[inline(always)]
    pub fn next(&self, name: Name) -> Option<Name>
        requires { IsLive self.now name }
        ensures name { result ≡ next_name self.now name }
        ensures in_order { (i : ℕ) → name_at self.now.rows i ≡ Some name → result ≡ name_at self.now.rows (i + 1) }
        ensures sound { IsSound self.now }
    {
        self.links.next(name)
    }

    pub fn prev(&self, name: Name) -> Option<Name>
        requires { IsLive self.now name }
        ensures name { result ≡ prev_name self.now name }
        ensures in_order { (i : ℕ) → name_at self.now.rows i ≡ Some name → result ≡ name_before self.now.rows i }
        ensures sound { IsSound self.now }
    {
        self.links.prev(name)
    }

    #[inline(always)]
    pub fn is_live(&self, name: Name) -> bool
        ensures live { IsTrue result ↔ IsLive self.now name }
        ensures sound { IsSound self.now }
    {
        self.links.nodes.get(name).is_some()
    }

    /// The value under the name.
    pub fn at(&self, name: Name) -> &T
        requires { IsLive self.now name }
        ensures value { Some result.now ≡ value_of self.now name }
    {
        &self.links.nodes.get(name).unwrap().value
    }

    /// As `at`, for writing.
    pub fn at_mut(&mut self, name: Name) -> &mut T
        requires { IsLive self.old name }
        ensures* writes_back { sem 𝓛 (lends_value T.row self.entry name result) }
        ensures value { Some result.now ≡ value_of self.old name }
    {
        self.links.value_mut(name)
    }

    /// Puts a value before the place, under a fresh name. The place `None` is the end.
    #[inline(always)]
    pub fn insert_before(&mut self, place: Option<Name>, v: T) -> Name
        requires place { ForSome place (IsLive self.old) }
        requires spare { 0 < self.old.spare }
        requires unspent { self.old.next_serial < 2 ^ 64 - 1 }
        ensures fresh { IsFresh self.old result }
        ensures inserted { self.new ≡ inserted self.old place (row result v) }
        ensures sound { IsSound self.new }
    {
        let before = self.links.link_before(place);
        let name = self.links.nodes.put_reserved(Node {
            value: v,
            prev: before,
            next: link_to(place),
        });
        self.links.attach(before, place, name);
        name
    }

    /// Takes the value out, and frees its slot. The name is never live again.
    pub fn remove(&mut self, name: Name) -> T
        requires { IsLive self.old name }
        ensures value { Some result ≡ value_of self.old name }
        ensures removed { self.new ≡ removed self.old name }
        ensures sound { IsSound self.new }
    {
        let Node { value, prev, next } = self.links.nodes.take(name).unwrap();
        self.links.close(prev, next);
        value
    }

    /// Takes the row out and puts it before the place. Before itself or before the one that follows it, nothing changes.
    pub fn move_before(&mut self, place: Option<Name>, name: Name)
        requires place { ForSome place (IsLive self.old) }
        requires name { IsLive self.old name }
        ensures moved { self.new ≡ moved self.old place name }
        ensures itself { place ≡ Some name → self.new ≡ self.old }
        ensures before_next { place ≡ next_name self.old name → self.new ≡ self.old }
        ensures sound { IsSound self.new }
    {
        let next = self.next(name);
        if is_same(place, Some(name)) || is_same(place, next) {
            return;
        }
        self.links.unlink(name);
        self.links.link(place, name);
    }

    /// The two values change places.
    pub fn swap_values(&mut self, a: Name, b: Name)
        requires a { IsLive self.old a }
        requires b { IsLive self.old b }
        ensures swapped { self.new ≡ values_swapped self.old a b }
        ensures itself { a ≡ b → self.new ≡ self.old }
        ensures sound { IsSound self.new }
    {
        self.links.exchange(a, b);
    }

    /// The two rows change places.
    pub fn swap_links(&mut self, a: Name, b: Name)
        requires a { IsLive self.old a }
        requires b { IsLive self.old b }
        ensures swapped { self.new ≡ links_swapped self.old a b }
        ensures itself { a ≡ b → self.new ≡ self.old }
        ensures sound { IsSound self.new }
    {
        let after_a = self.next(a);
        let after_b = self.next(b);
        self.move_before(after_b, a);
        self.move_before(after_a, b);
    }

    /// The rows the other way round.
    pub fn reverse(&mut self)
        ensures reversed { self.new ≡ reversed self.old }
        ensures sound { IsSound self.new }
    {
        if let Some(head) = self.first() {
            self.turn(head);
        }
    }

    /// Moves each row that follows the first one to the front.
    fn turn(&mut self, head: Name)
        requires head { name_at self.old.rows 0 ≡ Some head }
        requires sound { IsSound self.old }
        ensures reversed { self.new ≡ reversed self.old }
        ensures sound { IsSound self.new }
    {
        while let Some(name) = self.next(head) {
            let first = self.first();
            self.move_before(first, name);
        }
    }

    /// Puts the rows in the order of their names in the list.
    pub fn relink(&mut self, order: &[Name])
        requires { IsOrderOf order.now self.old }
        ensures names { names self.new.rows ≡ order.now }
        ensures same { Reorders self.old self.new }
        ensures sound { IsSound self.new }
    {
        let _links = &self.links;
        for name in order {
            self.move_before(None, *name);
        }
    }
}

impl<T: Drop> Chain<T> {
    /// Drops all values, and keeps the slots.
    pub fn clear(&mut self)
        ensures cleared { self.new ≡ cleared self.old }
        ensures sound { IsSound self.new }
    {
        self.links.nodes.clear();
        self.links.first = None;
        self.links.last = None;
    }

    /// A chain with `n` spare slots.
    pub fn with_slots(alloc: Global, n: u64) -> Result<Chain<T>, NoMemory>
        requires { n ≤ 2 ^ 30 }
        ensures empty { IfOk result (λ c. c ≡ no_rows 1 n) }
        ensures sound { IfOk result (λ c. IsSound c) }
    {
        Ok(Chain {
            links: Links {
                nodes: Pool::with_slots(alloc, n)?,
                first: None,
                last: None,
            },
        })
    }
}

fn is_same(a: Option<Name>, b: Option<Name>) -> bool
    ensures { IsTrue result ↔ (a ≡ b) }
{
    a == b
}
