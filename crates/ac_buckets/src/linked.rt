//! Nodes in an array, linked bucket by bucket from the last node to the first. A link is the number of a node, counted from 1, or
//! 0 where there is none.
ghost use Rattle.std.specs.Prelude.{◌≡◌, ℕ, ◌%◌, ◌^◌, ◌<◌, ◌≤◌, List, length, IfSome};
ghost use Rattle.ac_buckets.specs.Linked.{name_of, rows_of, links_of, bucket_at, AreLinked, IsLinkedAs, TakesOut, PutsIn, IsAbove, link_below, heads_below, links_below};

use ac_base::Name;

/// A pair, and the link to the next one in its bucket.
#[derive(Clone, Copy)]
pub struct Node {
    pub hash: u64,
    pub next: u32,
    pub slot: u32,
    pub serial: u64,
}

impl Node {
    #[inline(always)]
    pub(crate) fn name(&self) -> Name
        ensures { result ≡ name_of self.now }
    {
        Name {
            slot: self.slot,
            serial: self.serial,
        }
    }
}

#[inline(always)]
pub(crate) fn bucket_of(hash: u64, size: usize) -> usize
    requires { 0 < size }
    ensures bucket { result ≡ hash % size }
    ensures within { result < size }
{
    if size.is_power_of_two() {
        hash as usize & (size - 1)
    } else {
        hash as usize % size
    }
}

/// The link behind the node, or at none the bucket's first one.
fn link_below(heads: &[u32], nodes: &[Node], bucket: usize, above: Option<usize>) -> u32
    requires bucket { bucket < length heads.now }
    requires above { IfSome above (λ i. i < length nodes.now) }
    ensures { result ≡ link_below heads.now (links_of nodes.now) bucket above }
{
    match above {
        Some(index) => nodes[index].next,
        None => heads[bucket],
    }
}

/// Writes the link behind the node, or at none the bucket's first one.
fn set_link_below(
    heads: &mut [u32],
    nodes: &mut [Node],
    bucket: usize,
    above: Option<usize>,
    link: u32,
)
    requires bucket { bucket < length heads.old }
    requires above { IfSome above (λ i. i < length nodes.old) }
    ensures heads { heads.new ≡ heads_below heads.old bucket above link }
    ensures links { links_of nodes.new ≡ links_below (links_of nodes.old) above link }
    ensures rows { rows_of nodes.new ≡ rows_of nodes.old }
{
    match above {
        Some(index) => nodes[index].next = link,
        None => heads[bucket] = link,
    }
}

/// The bucket's nearest node above the index.
fn above(heads: &[u32], nodes: &[Node], bucket: usize, index: usize) -> Option<usize>
    requires bucket { bucket < length heads.now }
    requires index { index < length nodes.now }
    requires linked { (marks : List ℕ) × AreLinked marks nodes.now heads.now }
    ensures above { (marks : List ℕ) → AreLinked marks nodes.now heads.now → IsAbove marks bucket index result }
    ensures within { IfSome result (λ i. i < length nodes.now) }
{
    let mut above = None;
    let mut link = heads[bucket] as usize;
    while link > index + 1 {
        above = Some(link - 1);
        link = nodes[link - 1].next as usize;
    }
    above
}

/// Takes the node out of its bucket.
pub(crate) fn unlink(heads: &mut [u32], nodes: &mut [Node], index: usize)
    requires index { index < length nodes.old }
    requires heads { 0 < length heads.old }
    requires linked { IsLinkedAs index (bucket_at (length heads.old) nodes.old index) nodes.old heads.old }
    ensures linked { TakesOut index nodes.old heads.old nodes.new heads.new }
    ensures rows { rows_of nodes.new ≡ rows_of nodes.old }
{
    let bucket = bucket_of(nodes[index].hash, heads.len());
    let next = nodes[index].next;
    let above = above(heads, nodes, bucket, index);
    set_link_below(heads, nodes, bucket, above, next);
}

/// Puts a node that isn't linked into its bucket, at its place.
pub(crate) fn link_in(heads: &mut [u32], nodes: &mut [Node], index: usize)
    requires index { (index < length nodes.old) × (length nodes.old ≤ 2 ^ 30) }
    requires heads { 0 < length heads.old }
    requires linked { IsLinkedAs index (length heads.old) nodes.old heads.old }
    ensures linked { PutsIn index nodes.old heads.old nodes.new heads.new }
    ensures rows { rows_of nodes.new ≡ rows_of nodes.old }
{
    let bucket = bucket_of(nodes[index].hash, heads.len());
    let above = above(heads, nodes, bucket, index);
    nodes[index].next = link_below(heads, nodes, bucket, above);
    set_link_below(heads, nodes, bucket, above, index as u32 + 1);
}
