//! The buckets. A contract sees names with their hashes, the newest first, with the number of buckets and of the pairs more that they
//! take without memory.
ghost use Rattle.std.specs.Prelude.{◌≡◌, ℕ, ◌+◌, ◌-◌, ◌*◌, ◌^◌, ◌<◌, ◌≤◌, ◌↔◌, List, ◌∷◌, ◌++◌, length, slice_get, Contains, None, IsTrue, IsOk, OnOk, OnErr};
ghost use Rattle.std.specs.Bool.{OnTrue, OnFalse};
ghost use Rattle.std.specs.List.Sorted.{IsPermutation};
ghost use Rattle.ac_base.specs.declared.name.Name.{Name};
ghost use Rattle.ac_base.specs.Rows.{row, names};
ghost use Rattle.ac_buckets.specs.Pairs.{bucketed, names_in, no_pairs, grown, added, cleared, IsSound};
ghost use Rattle.ac_buckets.specs.Places.{Begins, IsPlace, Steps};

use crate::linked::{Node, bucket_of};
use crate::placing::{link_all, relink, take_out};
use crate::size::size_for;
use crate::walk::{Place, find, find_pair, name_behind};
use ac_base::{Name, NoMemory};
use std::alloc::Global;
use std::marker::Model;

/// How many buckets there are before the first growth.
const LEAST_SIZE: usize = 64;

/// Names with their hashes. A pair stands in the bucket that its hash gives modulo the number of buckets.
#[derive(Drop)]
pub struct Buckets {
    // The link to each bucket's first node. There are none before the first growth.
    heads: Vec<u32>,
    // They have room for a node for each bucket.
    nodes: Vec<Node>,
}

impl Model for Buckets {
    ghost use Rattle.std.specs.Prelude.{vec_capacity};
    ghost use Rattle.ac_buckets.specs.Pairs.{Bucketed, bucketed_code};

    ghost Value = { Bucketed };

    ghost coded = { bucketed_code };

    ghost use Rattle.ac_buckets.specs.BucketFields.{seen_in, IsBuckets};

    ghost view = { λ b. seen_in b.nodes.items b.heads.items };

    ghost invariant = { λ b. IsBuckets b.nodes.items b.heads.items (vec_capacity b.nodes) };
}

impl Buckets {
    /// No pairs. It takes no memory.
    pub fn new(alloc: Global) -> Buckets
        ensures empty { result ≡ no_pairs }
        ensures sound { IsSound result }
    {
        Buckets {
            heads: Vec::new(alloc),
            nodes: Vec::new(alloc),
        }
    }

    /// How many buckets there are.
    pub fn size(&self) -> u64
        ensures size { result ≡ self.now.size }
        ensures sound { IsSound self.now }
    {
        self.heads.len().max(LEAST_SIZE) as u64
    }

    /// Makes room for `n` pairs more. Where there are too few buckets, their number becomes the least `8 * 2^k` that is enough, and
    /// each pair is put into its new bucket, in one pass.
    pub fn grow(&mut self, n: u64) -> Result<(), NoMemory>
        requires { length self.old.pairs + n ≤ 2 ^ 30 }
        ensures ok { OnOk result (self.new ≡ grown self.old n) }
        ensures room { OnOk result ((self.new.pairs ≡ self.old.pairs) × (n ≤ self.new.spare)) }
        ensures wider { OnOk result (self.old.spare ≤ self.new.spare) }
        ensures err { OnErr result (self.new ≡ self.old) }
        ensures had_room { n ≤ self.old.spare → IsOk result }
        ensures sound { IsSound self.new }
    {
        let wanted = self.nodes.len() + n as usize;
        if wanted <= self.heads.len() {
            return Ok(());
        }
        let size = size_for(self.heads.len().max(LEAST_SIZE), wanted);
        self.resize(size)
    }

    /// Takes memory for so many buckets and pairs, and puts each pair into its bucket.
    fn resize(&mut self, size: usize) -> Result<(), NoMemory>
        requires room { length self.old.pairs ≤ size }
        requires few { (64 ≤ size) × (size ≤ 2 ^ 30) }
        requires power { (k : ℕ) × (size ≡ 8 * 2 ^ k) }
        ensures ok { OnOk result (self.new ≡ bucketed self.old.pairs size (size - length self.old.pairs)) }
        ensures err { OnErr result (self.new ≡ self.old) }
        ensures sound { IsSound self.new }
    {
        let alloc = *self.heads.allocator();
        let mut heads = vec![in alloc; 0u32; size]?;
        self.nodes.reserve_exact(size - self.nodes.len())?;
        link_all(heads.as_mut_slice(), self.nodes.as_mut_slice());
        self.heads = heads;
        Ok(())
    }

    /// Adds the pair. It takes no memory.
    pub fn add(&mut self, hash: u64, name: Name)
        requires spare { 0 < self.old.spare }
        requires absent { Contains (names self.old.pairs) name → ⊥ }
        ensures added { self.new ≡ added self.old (row name hash) }
        ensures sound { IsSound self.new }
    {
        let index = self.nodes.len();
        self.nodes.push_reserved(Node {
            hash,
            next: 0,
            slot: name.slot,
            serial: name.serial,
        });
        relink(self.heads.as_mut_slice(), self.nodes.as_mut_slice(), index);
    }

    /// Drops the pair. At false it isn't there. The cost is the length of its bucket, and of that of the newest pair.
    pub fn drop_one(&mut self, hash: u64, name: Name) -> bool
        ensures there { IsTrue result ↔ Contains self.old.pairs (row name hash) }
        ensures gone { OnTrue result (IsPermutation self.old.pairs (row name hash ∷ self.new.pairs)) }
        ensures room { OnTrue result ((self.new.size ≡ self.old.size) × (self.new.spare ≡ self.old.spare + 1)) }
        ensures kept { OnFalse result (self.new ≡ self.old) }
        ensures sound { IsSound self.new }
    {
        let Some(index) = find_pair(self.heads.as_slice(), self.nodes.as_slice(), hash, name) else {
            return false;
        };
        take_out(self.heads.as_mut_slice(), &mut self.nodes, index);
        true
    }

    /// The first name in the bucket of the hash. A walk from it by `next_in` meets each name of the bucket once.
    pub fn first_in(&self, hash: u64) -> Option<Name>
        ensures first { result ≡ slice_get (names_in self.now hash) 0 }
        ensures sound { IsSound self.now }
    {
        if self.heads.is_empty() {
            return None;
        }
        let bucket = bucket_of(hash, self.heads.len());
        name_behind(self.nodes.as_slice(), self.heads[bucket])
    }

    /// The name that follows this one in the bucket of the hash.
    pub fn next_in(&self, hash: u64, name: Name) -> Option<Name>
        ensures next { (before rest : List Name) → names_in self.now hash ≡ before ++ (name ∷ rest) → result ≡ slice_get rest 0 }
        ensures absent { (Contains (names_in self.now hash) name → ⊥) → result ≡ None }
        ensures sound { IsSound self.now }
    {
        if self.heads.is_empty() {
            return None;
        }
        let index = find(self.heads.as_slice(), self.nodes.as_slice(), hash, name)?;
        name_behind(self.nodes.as_slice(), self.nodes[index].next)
    }

    /// Where a walk of the pairs with the hash begins. A walk by `step` reads each node of the bucket once.
    #[inline(always)]
    pub fn walk(&self, hash: u64) -> Place
        ensures { Begins self.now hash result }
    {
        if self.heads.is_empty() {
            return Place { left: 0 };
        }
        Place {
            left: self.heads[bucket_of(hash, self.heads.len())],
        }
    }

    /// The next name with the hash, and the place behind it.
    #[inline(always)]
    pub fn step(&self, hash: u64, place: Place) -> Option<(Name, Place)>
        requires { IsPlace self.now hash place.left }
        ensures { Steps self.now hash place result }
    {
        let mut link = place.left;
        while link != 0 {
            let node = &self.nodes[link as usize - 1];
            if node.hash == hash {
                return Some((node.name(), Place { left: node.next }));
            }
            link = node.next;
        }
        None
    }

    /// Drops all pairs, and keeps the buckets.
    pub fn clear(&mut self)
        ensures cleared { self.new ≡ cleared self.old }
        ensures sound { IsSound self.new }
    {
        self.nodes.clear();
        self.heads.fill(0);
    }
}
