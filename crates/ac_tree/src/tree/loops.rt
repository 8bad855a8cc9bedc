//! A walk over all elements in preorder, as a loop makes it.
ghost use Rattle.ac_model.specs.Forms.{Looks};
ghost use Rattle.ac_model.specs.Objects.{plain};
ghost use Rattle.ac_model.specs.Sequences as sequences;
ghost use Rattle.ac_chain.specs.TreeWalk.{IsMet, MeetsNext, StandsBefore};
ghost use Rattle.ac_chain.specs.TreeCursors.{seen_by, NodeMarks};

use super::Tree;
use crate::backward::{last_node, preceding};
use crate::copying::after_level;
use crate::preorder::following;
use ac_base::{Cursor, Fault};
use ac_model::{allowed, name_in};

impl<T> Tree<T> {
    /// The cursor at which a loop begins: at the first element.
    pub fn first(&self) -> Cursor
        ensures { NodeMarks self.now.object result (sequences.first_call (plain self.now.object)) }
    {
        self.named(self.links.first_child(None))
    }

    /// The cursor at which a loop backwards begins: at the last element.
    pub fn last(&self) -> Cursor
        ensures { NodeMarks self.now.object result (sequences.last_call (plain self.now.object)) }
    {
        self.named(last_node(&self.links))
    }

    /// The cursor at which a loop backwards goes on before this one, and No_Element before the first element.
    pub fn previous(&self, c: Cursor) -> Result<Cursor, Fault>
        ensures { Looks (NodeMarks self.now.object) (λ o. sequences.previous_call o (seen_by self.now c)) self.now result }
    {
        allowed(self.may_element(c))?;
        match c {
            Cursor::NoElement => Ok(Cursor::NoElement),
            Cursor::At { object: _, name } => Ok(self.named(preceding(&self.links, name))),
        }
    }

    /// The cursor at which a loop goes on behind this one, and No_Element behind the last element.
    pub fn next(&self, c: Cursor) -> Result<Cursor, Fault>
        ensures { Looks (NodeMarks self.now.object) (λ o. sequences.next_call o (seen_by self.now c)) self.now result }
    {
        allowed(self.may_element(c))?;
        match c {
            Cursor::NoElement => Ok(Cursor::NoElement),
            Cursor::At { object: _, name } => { Ok(self.named(following(&self.links, None, name))) }
        }
    }

    /// The cursor at which a listing begins, with its depth.
    pub fn first_level(&self) -> (Cursor, u64)
        ensures { StandsBefore self.now.object.number self.now.object.rows result.0 result.1 }
    {
        (self.named(self.links.first_child(None)), 2)
    }

    /// The cursor at which a listing goes on behind this one, and its depth, where this one's is known: so no depth is counted anew.
    pub fn next_level(&self, c: Cursor, depth: u64) -> (Cursor, u64)
        requires { IsMet self.now.object c depth }
        ensures { MeetsNext self.now.object c result.0 result.1 }
    {
        let mut level = depth;
        let next = after_level(&self.links, name_in(c), &mut level);
        (self.named(next), level)
    }
}
