//! Values that are put into a forest as new nodes, with all memory taken before any change.
ghost use Rattle.std.specs.Prelude.{◌≡◌, ◌∷◌, ◌+◌, ◌^◌, ◌<◌, ◌≤◌, IfOk, IfErr, IsOk, length, max, reverse};
ghost use Rattle.ac_base.specs.Growth.{pow8};
ghost use Rattle.ac_chain.specs.Rows.{slots_in};
ghost use Rattle.ac_model.specs.Rows.{node};
ghost use Rattle.ac_tree.specs.Inserting.{Hole, depth_at, nodes_at, PutEach, PutCopies};
ghost use Rattle.ac_tree.specs.TreeFields.{IsForest};
ghost use Rattle.ac_tree.specs.TreeRows.{rows_of};

use crate::links::Links;
use ac_base::{Elem, GREATEST_LENGTH, Name, NoMemory};
use ac_chain::copies;
use std::alloc::Global;

/// Puts the first value before the place, and then the others, the last one first. The answer is the first one's name.
fn put_each<T: Drop>(
    links: &mut Links<T>,
    parent: Option<Name>,
    before: Option<Name>,
    first: T,
    mut others: Vec<T>,
) -> Name
    requires hole { Hole links.old parent before }
    requires spare { length others.items < links.old.nodes.spare }
    requires unspent { links.old.nodes.next_serial + length others.items + 1 < 2 ^ 64 }
    ensures { (h : Hole links.old parent before) →
        PutEach links.old parent before h (node (depth_at h) first ∷ reverse (nodes_at (depth_at h) others.items)) links.new result }
{
    let name = links.insert(parent, before, first);
    while let Some(value) = others.pop() {
        links.insert(parent, before, value);
    }
    name
}

/// Puts so many copies of the element before the place. The answer is the first one's name.
pub fn put_copies<T: Elem>(
    links: &mut Links<T>,
    alloc: Global,
    parent: Option<Name>,
    before: Option<Name>,
    e: T,
    n: u64,
) -> Result<Option<Name>, NoMemory>
    requires hole { Hole links.old parent before }
    requires few { length (rows_of links.old).rows + n ≤ GREATEST_LENGTH }
    requires unspent { links.old.nodes.next_serial + n < 2 ^ 64 }
    ensures put { PutCopies links.old parent before e n links.new result }
    ensures forest { IsForest links.new }
    ensures none { n ≡ 0 → links.new ≡ links.old }
    ensures refused { IfErr result (λ _. links.new ≡ links.old) }
    ensures room { n ≤ 1 → n ≤ links.old.nodes.spare → IsOk result }
    ensures slots { n ≤ links.old.nodes.spare → slots_in (rows_of links.new) ≡ slots_in (rows_of links.old) }
    ensures grown { IfOk result (λ _.
        slots_in (rows_of links.new) ≤ max (slots_in (rows_of links.old)) (pow8 (length (rows_of links.new).rows))) }
{
    if n == 0 {
        return Ok(None);
    }
    let more = copies(alloc, &e, n - 1)?;
    links.reserve(n)?;
    Ok(Some(put_each(links, parent, before, e, more)))
}
