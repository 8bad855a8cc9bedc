//! Walks down one bucket.
ghost use Rattle.std.specs.Prelude.{◌≡◌, ◌<◌, ◌≤◌, length, get_or, Contains, IfSome, IfNone};
ghost use Rattle.ac_base.specs.Rows.{row, names};
ghost use Rattle.ac_buckets.specs.Pairs.{IsOnce};
ghost use Rattle.ac_buckets.specs.Linked.{AreLinked, marks_of, name_of, rows_of, blank_node, blank_row, name_behind, IsInBucket, IsNotInBucket};

use crate::linked::{Node, bucket_of};
use ac_base::Name;

/// A place in a bucket, good until the buckets change: at the newest of so many pairs, counted from the oldest one, or at 0 behind all.
#[derive(Clone, Copy)]
pub struct Place {
    pub(crate) left: u32,
}

/// The name of the node to which the link leads.
pub(crate) fn name_behind(nodes: &[Node], link: u32) -> Option<Name>
    requires { link ≤ length nodes.now }
    ensures { result ≡ name_behind nodes.now link }
{
    if link == 0 {
        return None;
    }
    Some(nodes[link as usize - 1].name())
}

/// Where the name's node stands, if there is one in the bucket of the hash.
pub(crate) fn find(heads: &[u32], nodes: &[Node], hash: u64, name: Name) -> Option<usize>
    requires heads { 0 < length heads.now }
    requires linked { AreLinked (marks_of (length heads.now) nodes.now) nodes.now heads.now }
    ensures within { IfSome result (λ i. i < length nodes.now) }
    ensures some { IfSome result (λ i. name_of (get_or nodes.now i blank_node) ≡ name) }
    ensures bucket { IfSome result (λ i. IsInBucket (length heads.now) hash (get_or nodes.now i blank_node)) }
    ensures none { IfNone result (IsNotInBucket (length heads.now) hash name nodes.now) }
{
    let mut link = heads[bucket_of(hash, heads.len())];
    while link != 0 {
        let index = link as usize - 1;
        let node = &nodes[index];
        if node.name() == name {
            return Some(index);
        }
        link = node.next;
    }
    None
}

/// Where the pair's node stands, if there is one.
pub(crate) fn find_pair(heads: &[u32], nodes: &[Node], hash: u64, name: Name) -> Option<usize>
    requires fits { length nodes.now ≤ length heads.now }
    requires linked { AreLinked (marks_of (length heads.now) nodes.now) nodes.now heads.now }
    requires once { IsOnce (names (rows_of nodes.now)) }
    ensures within { IfSome result (λ i. i < length nodes.now) }
    ensures some { IfSome result (λ i. get_or (rows_of nodes.now) i blank_row ≡ row name hash) }
    ensures none { IfNone result (Contains (rows_of nodes.now) (row name hash) → ⊥) }
{
    if heads.is_empty() {
        return None;
    }
    let index = find(heads, nodes, hash, name)?;
    (nodes[index].hash == hash).then_some(index)
}
