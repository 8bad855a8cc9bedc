//! New nodes, as children of a node.
ghost use Rattle.std.specs.Prelude.{◌≡◌, ◌∷◌, [], None};
ghost use Rattle.ac_base.specs.FirstReason.{first_reason};
ghost use Rattle.ac_model.specs.Calls.{Marks, Same};
ghost use Rattle.ac_model.specs.Containers.{Grows};
ghost use Rattle.ac_model.specs.Forms.{Does};
ghost use Rattle.ac_model.specs.Letters.{name_of, tampers_cursors};
ghost use Rattle.ac_model.specs.Objects.{plain};
ghost use Rattle.ac_model.specs.Outline.{children_of, is_in};
ghost use Rattle.ac_model.specs.Putting.{Takes};
ghost use Rattle.ac_model.specs.Sequences.{room_for_copies};
ghost use Rattle.ac_model.specs.Trees as trees;
ghost use Rattle.ac_tree.specs.Children.{IsPlace, children_call};
ghost use Rattle.ac_chain.specs.TreeCursors.{seen_by, SetsNode};

use super::Tree;
use super::cursors::node_in;
use crate::growing::put_copies;
use crate::links::is_same;
use ac_base::{Class, Cursor, Elem, Fault, Name, Reason, first_reason};
use ac_chain::calls::done;
use ac_model::{allowed, count_of, cursor_of_first, in_range, place_in, reason_if, room};

impl<T> Tree<T> {
    /// Why a place for children is refused, before it is looked at.
    fn refuses_place(&self, parent: Cursor, before: Cursor) -> Option<Reason>
        ensures { result ≡ first_reason (tampers_cursors (plain self.now.object)
            ∷ trees.needs_node (plain self.now.object) (seen_by self.now parent)
            ∷ trees.may_node (plain self.now.object) (seen_by self.now before) ∷ []) }
    {
        first_reason(&[
            self.guards.forbids(Class::Cursors),
            self.needs_node(parent),
            self.may_node(before),
        ])
    }

    /// Whether the second cursor is at a child of the first one's node.
    fn is_child(&self, parent: Cursor, before: Cursor) -> bool
        requires parent { trees.needs_node (plain self.now.object) (seen_by self.now parent) ≡ None }
        requires before { trees.may_node (plain self.now.object) (seen_by self.now before) ≡ None }
        ensures { result ≡ is_in (name_of (seen_by self.now before))
            (children_of (plain self.now.object).rows (name_of (seen_by self.now parent))) }
    {
        let _links = &self.links;
        match node_in(before) {
            None => false,
            Some(name) => is_same(self.links.parent(name), node_in(parent)),
        }
    }

    pub(super) fn refuses_child(&self, parent: Cursor, before: Cursor) -> Option<Reason>
        requires parent { trees.needs_node (plain self.now.object) (seen_by self.now parent) ≡ None }
        requires before { trees.may_node (plain self.now.object) (seen_by self.now before) ≡ None }
        ensures { result ≡ trees.child_or_none (plain self.now.object) (seen_by self.now parent) (seen_by self.now before) }
    {
        if before == Cursor::NoElement {
            return None;
        }
        let is_child = self.is_child(parent, before);
        reason_if(!is_child, Reason::NotChild)
    }

    /// Why so many new elements are refused.
    #[inline(always)]
    fn refuses_count(&self, n: i64) -> Option<Reason>
        ensures { result ≡ first_reason (room_for_copies (plain self.now.object) n) }
    {
        let more = count_of(n);
        let all = self.live_nodes() + more;
        first_reason(&[
            in_range(n),
            room(self.limit, self.links.nodes.next_serial(), all, more),
        ])
    }

    /// Why so many children before a place are refused.
    fn refuses_children(&self, parent: Cursor, before: Cursor, n: i64) -> Option<Reason>
        ensures { result ≡ first_reason (tampers_cursors (plain self.now.object)
            ∷ trees.needs_node (plain self.now.object) (seen_by self.now parent)
            ∷ trees.may_node (plain self.now.object) (seen_by self.now before)
            ∷ trees.child_or_none (plain self.now.object) (seen_by self.now parent) (seen_by self.now before)
            ∷ room_for_copies (plain self.now.object) n) }
    {
        let place = self.refuses_place(parent, before);
        if place.is_some() {
            return place;
        }
        first_reason(&[self.refuses_child(parent, before), self.refuses_count(n)])
    }

    /// Why so many children at one end are refused.
    #[inline(always)]
    fn refuses_more(&self, parent: Cursor, n: i64) -> Option<Reason>
        ensures { result ≡ first_reason (tampers_cursors (plain self.now.object)
            ∷ trees.needs_node (plain self.now.object) (seen_by self.now parent)
            ∷ room_for_copies (plain self.now.object) n) }
    {
        first_reason(&[
            self.guards.forbids(Class::Cursors),
            self.needs_node(parent),
            self.refuses_count(n),
        ])
    }
}

impl<T: Elem> Tree<T> {
    /// Puts so many copies as children of the node. The answer is the first one's cursor.
    #[inline(always)]
    fn put(
        &mut self,
        parent: Option<Name>,
        before: Option<Name>,
        e: T,
        n: u64,
    ) -> Result<Cursor, Fault>
        requires place { IsPlace self.old.object parent before }
        requires room { Takes self.old.object n }
        ensures changed { Does (Marks self.new.object) (λ o. children_call self.old.object parent before e n) self.old self.new result }
        ensures none { n ≡ 0 → self.new ≡ self.old }
        ensures slots { Grows result self.old self.new }
    {
        match put_copies(&mut self.links, self.alloc, parent, before, e, n) {
            Ok(first) => Ok(self.named(first)),
            Err(_) => Err(Fault::NoMemory),
        }
    }

    /// Insert_Child with a position (A.18.10): so many children of the node before one of its children, where No_Element is the
    /// end. The variable is set to the first of them, or to the cursor where there is none.
    pub fn insert_child_pos(
        &mut self,
        parent: Cursor,
        before: Cursor,
        e: T,
        p: &mut Cursor,
        n: i64,
    ) -> Result<(), Fault>
        ensures changed { SetsNode (λ o. trees.insert_child_pos_call o (seen_by self.old parent) (seen_by self.old before) e n)
            self.old p.old self.new p.new result }
        ensures slots { Grows result self.old self.new }
    {
        let _links = &self.links;
        allowed(self.refuses_children(parent, before, n))?;
        let count = count_of(n);
        let first = self.put(node_in(parent), place_in(before), e, count)?;
        *p = cursor_of_first(count, first, before);
        Ok(())
    }

    /// Insert_Child (A.18.10): so many children of the node before one of its children, where No_Element is the end.
    pub fn insert_child(
        &mut self,
        parent: Cursor,
        before: Cursor,
        e: T,
        n: i64,
    ) -> Result<(), Fault>
        ensures changed { Does Same (λ o. trees.insert_child_call o (seen_by self.old parent) (seen_by self.old before) e n)
            self.old self.new result }
        ensures slots { Grows result self.old self.new }
    {
        let mut first = before;
        self.insert_child_pos(parent, before, e, &mut first, n)
    }

    /// Append_Child (A.18.10): so many children of the node, behind the last.
    pub fn append_child(&mut self, parent: Cursor, e: T, n: i64) -> Result<(), Fault>
        ensures changed { Does Same (λ o. trees.append_child_call o (seen_by self.old parent) e n) self.old self.new result }
        ensures slots { Grows result self.old self.new }
    {
        let _links = &self.links;
        allowed(self.refuses_more(parent, n))?;
        done(self.put(node_in(parent), None, e, count_of(n)))
    }

    /// Prepend_Child (A.18.10): so many children of the node, before the first.
    pub fn prepend_child(&mut self, parent: Cursor, e: T, n: i64) -> Result<(), Fault>
        ensures changed { Does Same (λ o. trees.prepend_child_call o (seen_by self.old parent) e n) self.old self.new result }
        ensures slots { Grows result self.old self.new }
    {
        let _links = &self.links;
        allowed(self.refuses_more(parent, n))?;
        let node = node_in(parent);
        let first = self.links.first_child(node);
        done(self.put(node, first, e, count_of(n)))
    }
}
