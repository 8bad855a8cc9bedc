//! Nodes that are copied with their depths, and put below a node of a tree.
ghost use Rattle.std.specs.Prelude.{◌≡◌, ◌+◌, ◌^◌, ◌==◌, ◌<◌, ◌≤◌, Some, None, IfOk, IfErr, length, reverse, if◌then◌else◌};
ghost use Rattle.std.specs.Option.{ForSome};
ghost use Rattle.ac_base.specs.Rows.{values};
ghost use Rattle.ac_model.specs.Objects.{plains};
ghost use Rattle.ac_model.specs.Outline.{moved_to_depth};
ghost use Rattle.ac_pool.specs.Contents.{IsLive};
ghost use Rattle.ac_tree.specs.Copying.{nodes_in, Part, subtree_nodes, run_nodes, IsForestOf, HoleAt, Grafted, Planted};
ghost use Rattle.ac_tree.specs.Forests.{or_name};
ghost use Rattle.ac_tree.specs.Inserting.{Hole, depth_at};
ghost use Rattle.ac_tree.specs.TreeFields.{IsForest};
ghost use Rattle.ac_tree.specs.TreeRows.{rows_of};

use crate::copying::{Leveled, after_level, raised};
use crate::counts::{count_subtree, depth};
use crate::links::Links;
use ac_base::{Elem, GREATEST_LENGTH, Name, NoMemory};
use std::alloc::Global;

/// Copies of so many values from a node on, the last one first, with their depths when the node's is the one that is given.
fn copied_part<T: Elem>(
    links: &Links<T>,
    from: Name,
    level: u64,
    count: u64,
    first: u64,
    alloc: Global,
) -> Result<Vec<Leveled<T>>, NoMemory>
    requires forest { IsForest links.now }
    requires part { Part links.now from level count }
    requires first { first ≤ 2 ^ 32 }
    ensures { (k : Part links.now from level count) →
        IfOk result (λ made. nodes_in made.items ≡ reverse (values (moved_to_depth level first (plains k.rows)))) }
{
    let mut made = Vec::new(alloc);
    let mut here = level;
    let mut left = count;
    let mut place = Some(from);
    while let Some(name) = place {
        if left == 0 {
            made.reverse();
            return Ok(made);
        }
        made.push(Leveled {
            depth: (here + first).saturating_sub(level),
            value: links.at(name).copy(alloc)?,
        })?;
        left -= 1;
        place = after_level(links, name, &mut here);
    }
    made.reverse();
    Ok(made)
}

/// Copies of the values of a subtree, the last one first, with their depths when the top's is the one that is given.
pub fn copied_subtree<T: Elem>(
    links: &Links<T>,
    top: Name,
    first: u64,
    alloc: Global,
) -> Result<Vec<Leveled<T>>, NoMemory>
    requires forest { IsForest links.now }
    requires live { IsLive links.now.nodes top }
    requires first { first ≤ 2 ^ 32 }
    ensures copies { IfOk result (λ made. nodes_in made.items ≡ reverse (subtree_nodes links.now top first)) }
    ensures forest { IfOk result (λ made. IsForestOf first made.items) }
{
    let level = depth(links, Some(top));
    let count = count_subtree(links, Some(top));
    copied_part(links, top, level, count, first, alloc)
}

/// The same of what is below a node, or below the root at none, with their depths when its children's is the one that is given.
pub fn copied_below<T: Elem>(
    links: &Links<T>,
    parent: Option<Name>,
    first: u64,
    alloc: Global,
) -> Result<Vec<Leveled<T>>, NoMemory>
    requires forest { IsForest links.now }
    requires live { ForSome parent (IsLive links.now.nodes) }
    requires first { first ≤ 2 ^ 32 }
    ensures copies { IfOk result (λ made. nodes_in made.items ≡ reverse (run_nodes links.now parent first)) }
    ensures forest { IfOk result (λ made. IsForestOf first made.items) }
{
    let Some(child) = links.first_child(parent) else {
        return Ok(Vec::new(alloc));
    };
    let level = depth(links, parent) + 1;
    let count = count_subtree(links, parent).saturating_sub(1);
    copied_part(links, child, level, count, first, alloc)
}

/// The child before which a node of the depth goes: of the topmost ones before this one, and else behind the last.
fn before_at(depth: u64, first: u64, before: Option<Name>) -> Option<Name>
    ensures { result ≡ (if depth == first then before else None) }
{
    if depth == first { before } else { None }
}

/// The first name that was made.
fn first_made(made: Option<Name>, name: Name) -> Option<Name>
    ensures { result ≡ Some (or_name name made) }
{
    match made {
        Some(first) => Some(first),
        None => Some(name),
    }
}

/// Puts a forest as children of the parent before one of its children, or behind the last: its values, the last one first.
/// The answer is the first one's name.
fn graft<T: Drop>(
    links: &mut Links<T>,
    parent: Option<Name>,
    before: Option<Name>,
    first: u64,
    mut items: Vec<Leveled<T>>,
) -> Option<Name>
    requires hole { HoleAt links.old parent before first }
    requires spare { length items.items ≤ links.old.nodes.spare }
    requires unspent { links.old.nodes.next_serial + length items.items < 2 ^ 64 }
    requires forest { IsForestOf first items.items }
    ensures { (h : Hole links.old parent before) → depth_at h ≡ first →
        Grafted links.old parent before h (nodes_in (reverse items.items)) links.new result }
{
    let mut made = None;
    let mut depth = first - 1;
    let mut node = parent;
    while let Some(item) = items.pop() {
        let above = raised(links, node, depth + 1 - item.depth);
        depth = item.depth;
        let name = links.insert(above, before_at(depth, first, before), item.value);
        made = first_made(made, name);
        node = Some(name);
    }
    made
}

/// The same, with all memory taken before any change.
pub fn put_nodes<T: Drop>(
    links: &mut Links<T>,
    parent: Option<Name>,
    before: Option<Name>,
    first: u64,
    items: Vec<Leveled<T>>,
) -> Result<Option<Name>, NoMemory>
    requires hole { HoleAt links.old parent before first }
    requires few { length (rows_of links.old).rows + length items.items ≤ GREATEST_LENGTH }
    requires unspent { links.old.nodes.next_serial + length items.items < 2 ^ 64 }
    requires forest { IsForestOf first items.items }
    ensures planted { (h : Hole links.old parent before) → depth_at h ≡ first →
        IfOk result (λ made. Planted links.old parent before h (nodes_in (reverse items.items)) links.new made) }
    ensures refused { IfErr result (λ _. links.new ≡ links.old) }
    ensures forest { IsForest links.new }
{
    links.reserve(items.len() as u64)?;
    Ok(graft(links, parent, before, first, items))
}
