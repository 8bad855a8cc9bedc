//! Cursors of a tree: where they stand, and why they are refused.
ghost use Rattle.std.specs.Prelude.{◌≡◌, ◌∷◌};
ghost use Rattle.ac_base.specs.Rows.{names};
ghost use Rattle.ac_model.specs.Cursors as cursors;
ghost use Rattle.ac_model.specs.Letters.{is_among, is_same_name, may};
ghost use Rattle.ac_model.specs.Objects.{plain};
ghost use Rattle.ac_model.specs.Trees as trees;
ghost use Rattle.ac_tree.specs.TreeCursors.{node_of, node_in, cursor_of_node, is_root_cursor};
ghost use Rattle.ac_chain.specs.TreeCursors.{seen_by};

use super::Tree;
use ac_base::{Cursor, Name, Reason, first_reason};
use ac_model::{cursor_at, judge, reason_if};

/// The name of the root, which has no node.
pub(crate) const ROOT_NAME: Name = Name { slot: 0, serial: 0 };

/// The node that the name is of, where none is the root.
fn node_of(name: Name) -> Option<Name>
    ensures { result ≡ node_of name }
{
    if name.serial == 0 { None } else { Some(name) }
}

/// The node at which a cursor is: none for the root, and for No_Element.
pub(crate) fn node_in(c: Cursor) -> Option<Name>
    ensures { result ≡ node_in c }
{
    match c {
        Cursor::NoElement => None,
        Cursor::At { object: _, name } => node_of(name),
    }
}

/// Whether the cursor has the root's serial.
pub(crate) fn is_root(c: Cursor) -> bool
    ensures { result ≡ is_root_cursor c }
{
    match c {
        Cursor::NoElement => false,
        Cursor::At { object: _, name } => name.serial == 0,
    }
}

fn is_root_name(name: Name) -> bool
    ensures { result ≡ is_same_name name trees.root_name }
{
    name.slot == 0 && name.serial == 0
}

fn cursor_of_node(number: u64, node: Option<Name>) -> Cursor
    ensures { result ≡ cursor_of_node number node }
{
    match node {
        None => Cursor::At {
            object: number,
            name: ROOT_NAME,
        },
        Some(name) => Cursor::At {
            object: number,
            name,
        },
    }
}

impl<T> Tree<T> {
    fn is_live(&self, name: Name) -> bool
        ensures { result ≡ is_among (names self.now.object.rows) name }
    {
        self.links.nodes.get(name).is_some()
    }

    /// Whether the name is a node's, or the root's.
    fn is_node(&self, name: Name) -> bool
        ensures { result ≡ is_among (trees.root_name ∷ names self.now.object.rows) name }
    {
        is_root_name(name) || self.is_live(name)
    }

    fn judged(&self, object: u64, name: Name) -> Option<Reason>
        ensures { result ≡ trees.needs_node (plain self.now.object) (seen_by self.now (Cursor.At object name)) }
    {
        let _links = &self.links;
        judge(self.number(), object, self.is_node(name))
    }

    /// Why a cursor that must be at a node, or at the root, is refused.
    pub(crate) fn needs_node(&self, c: Cursor) -> Option<Reason>
        ensures { result ≡ trees.needs_node (plain self.now.object) (seen_by self.now c) }
    {
        match c {
            Cursor::NoElement => Some(Reason::NoElement),
            Cursor::At { object, name } => self.judged(object, name),
        }
    }

    /// Why a cursor that may be No_Element is refused.
    pub(crate) fn may_node(&self, c: Cursor) -> Option<Reason>
        ensures { result ≡ trees.may_node (plain self.now.object) (seen_by self.now c) }
    {
        match c {
            Cursor::NoElement => None,
            Cursor::At { object, name } => self.judged(object, name),
        }
    }

    /// Why a cursor that may be No_Element is refused, where the root is no element.
    pub(crate) fn may_element(&self, c: Cursor) -> Option<Reason>
        ensures { result ≡ may (plain self.now.object) (seen_by self.now c) }
    {
        let _links = &self.links;
        match c {
            Cursor::NoElement => None,
            Cursor::At { object, name } => judge(self.number(), object, self.is_live(name)),
        }
    }

    /// Why a cursor that must designate an element is refused.
    pub(crate) fn needs_element(&self, c: Cursor) -> Option<Reason>
        ensures { result ≡ trees.needs_element (plain self.now.object) (seen_by self.now c) }
    {
        first_reason(&[self.needs_node(c), reason_if(is_root(c), Reason::RootNode)])
    }

    /// The name as a cursor of this tree.
    pub(crate) fn named(&self, name: Option<Name>) -> Cursor
        ensures { result ≡ cursors.cursor_at self.now.object.number name }
    {
        cursor_at(self.number(), name)
    }

    /// The node, where none is the root, as a cursor of this tree.
    pub(crate) fn at_node(&self, node: Option<Name>) -> Cursor
        ensures { result ≡ cursor_of_node self.now.object.number node }
    {
        cursor_of_node(self.number(), node)
    }
}
