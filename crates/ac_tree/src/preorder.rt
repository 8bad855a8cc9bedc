//! A walk in preorder that doesn't recurse: from a node to the next among those below a top.
ghost use Rattle.std.specs.Prelude.{◌≡◌, Some};
ghost use Rattle.std.specs.Option.{ForSome};
ghost use Rattle.ac_pool.specs.Contents.{IsLive};
ghost use Rattle.ac_pool.specs.Link.{name_in, value_in};
ghost use Rattle.ac_tree.specs.TreeFields.{IsForest, parent_of};
ghost use Rattle.ac_tree.specs.Walking.{Passes, Follows};

use crate::links::{Links, TreeNode, is_same};
use ac_base::Name;
use ac_pool::NO_SLOT;

/// The node above, unless it is the top.
pub(crate) fn above<T>(links: &Links<T>, top: Option<Name>, name: Name) -> Option<Name>
    ensures top { parent_of links.now name ≡ top → result ≡ None }
    ensures within { (parent_of links.now name ≡ top → ⊥) → result ≡ parent_of links.now name }
    ensures parent { ForSome result (λ b. parent_of links.now name ≡ Some b) }
{
    let parent = links.parent(name);
    if is_same(parent, top) { None } else { parent }
}

/// The link to the first node behind all that is below this one.
fn past<T>(links: &Links<T>, top: Option<Name>, name: Name) -> u32
    requires forest { IsForest links.now }
    requires live { IsLive links.now.nodes name }
    ensures { Passes links.now top name (name_in links.now.nodes result) }
{
    let mut place = Some(name);
    while let Some(here) = place {
        let sibling = links.next_link(here);
        if links.leads(sibling) {
            return sibling;
        }
        place = above(links, top, here);
    }
    NO_SLOT
}

/// The link to the node after this one.
#[inline(always)]
pub fn following_link<T>(links: &Links<T>, top: Option<Name>, link: u32, node: &TreeNode<T>) -> u32
    requires forest { IsForest links.now }
    requires node { value_in links.now.nodes link ≡ Some node.now }
    ensures { ForSome (name_in links.now.nodes link) (λ name. Follows links.now top name (name_in links.now.nodes result)) }
{
    if links.leads(node.first) {
        return node.first;
    }
    if links.leads(node.next) {
        return node.next;
    }
    match links.name_in(link) {
        Some(name) => past(links, top, name),
        None => NO_SLOT,
    }
}

/// The node after this one.
pub fn following<T>(links: &Links<T>, top: Option<Name>, name: Name) -> Option<Name>
    requires forest { IsForest links.now }
    requires live { IsLive links.now.nodes name }
    ensures { Follows links.now top name result }
{
    let child = links.first_child(Some(name));
    if child.is_some() {
        return child;
    }
    links.name_in(past(links, top, name))
}
