//! The nodes of a tree, copied with their depths and put as those of another one.
ghost use Rattle.std.specs.Prelude.{◌≡◌, ◌+◌, ◌^◌, ◌<◌, ◌≤◌, IfOk, IfErr, length, max, reverse, true};
ghost use Rattle.std.specs.Option.{ForSome};
ghost use Rattle.ac_base.specs.Growth.{pow8};
ghost use Rattle.ac_base.specs.Rows.{values};
ghost use Rattle.ac_chain.specs.Refill.{IsRefilled};
ghost use Rattle.ac_chain.specs.Rows.{cleared, slots_in};
ghost use Rattle.ac_model.specs.Objects.{plains};
ghost use Rattle.ac_model.specs.Outline.{follows};
ghost use Rattle.ac_model.specs.Rows.{fresh};
ghost use Rattle.ac_pool.specs.Contents.{IsLive};
ghost use Rattle.ac_tree.specs.Copying.{level_of, nodes_in, levels_in, up_of, raised_by};
ghost use Rattle.ac_tree.specs.Forests.{bare};
ghost use Rattle.ac_tree.specs.TreeFields.{IsForest, StandsFor};
ghost use Rattle.ac_tree.specs.TreeRows.{rows_of};
ghost use Rattle.ac_tree.specs.Walking.{Passes, Follows};

use crate::clearing::remove_below;
use crate::links::Links;
use ac_base::{Elem, GREATEST_LENGTH, Name, NoMemory};
use std::alloc::Global;

/// A value, and the depth at which it stands.
#[derive(Drop)]
pub struct Leveled<T> {
    pub depth: u64,
    pub value: T,
}

/// The first node behind all that is below this one, with its depth in place of this one's.
fn past_level<T>(links: &Links<T>, name: Name, depth: &mut u64) -> Option<Name>
    requires forest { IsForest links.now }
    requires live { IsLive links.now.nodes name }
    requires depth { depth.old ≡ level_of links.now name }
    ensures passes { Passes links.now None name result }
    ensures level { ForSome result (λ b. depth.new ≡ level_of links.now b) }
{
    let mut place = Some(name);
    while let Some(here) = place {
        let sibling = links.next(here);
        if sibling.is_some() {
            return sibling;
        }
        place = links.parent(here);
        *depth -= 1;
    }
    None
}

/// The node after this one in preorder, with its depth in place of this one's.
pub(crate) fn after_level<T>(links: &Links<T>, name: Name, depth: &mut u64) -> Option<Name>
    requires forest { IsForest links.now }
    requires live { IsLive links.now.nodes name }
    requires depth { depth.old ≡ level_of links.now name }
    ensures follows { Follows links.now None name result }
    ensures level { ForSome result (λ b. depth.new ≡ level_of links.now b) }
{
    let child = links.first_child(Some(name));
    if child.is_some() {
        *depth += 1;
        return child;
    }
    past_level(links, name, depth)
}

/// Copies of the values with their depths, the last one first.
pub fn copied_nodes<T: Elem>(links: &Links<T>, alloc: Global) -> Result<Vec<Leveled<T>>, NoMemory>
    requires forest { IsForest links.now }
    ensures copies { IfOk result (λ made. nodes_in made.items ≡ reverse (values (rows_of links.now).rows)) }
{
    let mut made = Vec::new(alloc);
    let mut depth = 2;
    let mut place = links.first_child(None);
    while let Some(name) = place {
        made.push(Leveled {
            depth,
            value: links.at(name).copy(alloc)?,
        })?;
        place = after_level(links, name, &mut depth);
    }
    made.reverse();
    Ok(made)
}

fn up<T>(links: &Links<T>, node: Option<Name>) -> Option<Name>
    ensures { result ≡ up_of links.now node }
{
    match node {
        Some(name) => links.parent(name),
        None => None,
    }
}

/// The node so many levels above one.
pub(crate) fn raised<T>(links: &Links<T>, node: Option<Name>, levels: u64) -> Option<Name>
    ensures { result ≡ raised_by links.now levels node }
{
    let mut place = node;
    for _ in 0..levels {
        place = up(links, place);
    }
    place
}

/// Puts the values as the nodes of an empty tree, the last one first, each at its depth.
pub fn put_leveled<T: Drop>(links: &mut Links<T>, mut items: Vec<Leveled<T>>)
    requires empty { StandsFor links.old bare }
    requires spare { length items.items ≤ links.old.nodes.spare }
    requires unspent { links.old.nodes.next_serial + length items.items < 2 ^ 64 }
    requires outline { follows 1 (levels_in (reverse items.items)) ≡ true }
    ensures forest { IsForest links.new }
    ensures rows { plains (rows_of links.new).rows ≡ fresh links.old.nodes.next_serial (nodes_in (reverse items.items)) }
    ensures next { links.new.nodes.next_serial ≡ links.old.nodes.next_serial + length items.items }
    ensures spare { links.new.nodes.spare + length items.items ≡ links.old.nodes.spare }
{
    let mut node = None;
    let mut depth = 1;
    while let Some(item) = items.pop() {
        let parent = raised(links, node, depth + 1 - item.depth);
        depth = item.depth;
        node = Some(links.insert(parent, None, item.value));
    }
}

/// Copies of the source's nodes come in place of the nodes, with all memory taken before any change.
pub fn refill<T: Elem>(
    links: &mut Links<T>,
    source: &Links<T>,
    alloc: Global,
) -> Result<(), NoMemory>
    requires few { length (rows_of source.now).rows ≤ GREATEST_LENGTH }
    requires unspent { links.old.nodes.next_serial + length (rows_of source.now).rows < 2 ^ 64 }
    requires forest { IsForest links.old }
    requires source { IsForest source.now }
    ensures put { IfOk result (λ _. IsRefilled (rows_of links.old) (values (rows_of source.now).rows) (rows_of links.new)) }
    ensures refused { IfErr result (λ _. links.new ≡ links.old) }
    ensures slots { length (rows_of source.now).rows ≤ slots_in (rows_of links.old) →
        slots_in (rows_of links.new) ≡ slots_in (rows_of links.old) }
    ensures grown { IfOk result (λ _.
        slots_in (rows_of links.new) ≤ max (slots_in (rows_of links.old)) (pow8 (length (rows_of links.new).rows))) }
    ensures forest { IsForest links.new }
{
    let items = copied_nodes(source, alloc)?;
    links.reserve(source.count().saturating_sub(links.count()))?;
    remove_below(links, None);
    put_leveled(links, items);
    Ok(())
}

/// The source's nodes, under new names, come in place of the nodes, and the source is left empty.
pub fn take_over<T: Elem>(
    links: &mut Links<T>,
    source: &mut Links<T>,
    alloc: Global,
) -> Result<(), NoMemory>
    requires few { length (rows_of source.old).rows ≤ GREATEST_LENGTH }
    requires unspent { links.old.nodes.next_serial + length (rows_of source.old).rows < 2 ^ 64 }
    requires forest { IsForest links.old }
    requires source { IsForest source.old }
    ensures put { IfOk result (λ _. IsRefilled (rows_of links.old) (values (rows_of source.old).rows) (rows_of links.new)) }
    ensures cleared { IfOk result (λ _. rows_of source.new ≡ cleared (rows_of source.old)) }
    ensures slots { length (rows_of source.old).rows ≤ slots_in (rows_of links.old) →
        slots_in (rows_of links.new) ≡ slots_in (rows_of links.old) }
    ensures grown { IfOk result (λ _.
        slots_in (rows_of links.new) ≤ max (slots_in (rows_of links.old)) (pow8 (length (rows_of links.new).rows))) }
    ensures refused_target { IfErr result (λ _. links.new ≡ links.old) }
    ensures refused_source { IfErr result (λ _. source.new ≡ source.old) }
    ensures target { IsForest links.new }
    ensures source { IsForest source.new }
{
    refill(links, source, alloc)?;
    remove_below(source, None);
    Ok(())
}
