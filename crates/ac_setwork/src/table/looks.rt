//! What is found, and where a walk goes.
ghost use Rattle.std.specs.Prelude.{◌≡◌};
ghost use Rattle.ac_model.specs.Objects.{plain};
ghost use Rattle.ac_model.specs.Calls.{Marks, Lends};
ghost use Rattle.ac_model.specs.Forms.{Looks, seen_by};
ghost use Rattle.ac_model.specs.Common as common;
ghost use Rattle.ac_model.specs.Keyed as keyed;
ghost use Rattle.ac_model.specs.Sequences as sequences;
ghost use Rattle.ac_setwork.specs.TableCalls.{key_row_call};

use super::Table;
use crate::index::Index;
use ac_base::{Fault, Reason};
use ac_cursor::Cursor;
use ac_model::{allowed, name_in};

impl<I: Index> Table<I> {
    /// Find (A.18.4, A.18.7).
    pub fn find(&self, key: &I::Key) -> Cursor
        ensures { Marks self.now.object result (keyed.find_call (I.matches key.now) (plain self.now.object)) }
    {
        self.cursor_at(self.index.look(key))
    }

    /// Contains (A.18.4, A.18.7).
    pub fn contains(&self, key: &I::Key) -> bool
        ensures { result ≡ keyed.contains_call (I.matches key.now) (plain self.now.object) }
    {
        self.index.look(key).is_some()
    }

    /// Has_Element (A.18.4, A.18.7): false for a cursor of another object, and for one whose element is gone.
    pub fn has_element(&self, c: Cursor) -> bool
        ensures { result ≡ common.has_element_call (plain self.now.object) (seen_by self.now c) }
    {
        self.needs(c).is_none()
    }

    /// Element (A.18.7), and a map's key with its element.
    pub fn row(&self, c: Cursor) -> Result<&I::Row, Fault>
        ensures { Looks Lends (λ o. sequences.element_call o (seen_by self.now c)) self.now result }
    {
        allowed(self.needs(c))?;
        Ok(self.index.at(name_in(c)))
    }

    /// The row with the key.
    pub fn row_by(&self, key: &I::Key) -> Result<&I::Row, Fault>
        ensures { Looks Lends (key_row_call (I.matches key.now)) self.now result }
    {
        match self.index.look(key) {
            None => Err(Fault::Raised(Reason::KeyAbsent)),
            Some(name) => Ok(self.index.at(name)),
        }
    }

    /// First (A.18.4, A.18.7).
    pub fn first(&self) -> Cursor
        ensures { Marks self.now.object result (sequences.first_call (plain self.now.object)) }
    {
        self.cursor_at(self.index.first())
    }

    /// Next (A.18.4, A.18.7).
    pub fn next(&self, b: Cursor) -> Result<Cursor, Fault>
        ensures { Looks (Marks self.now.object) (λ o. sequences.next_call o (seen_by self.now b)) self.now result }
    {
        if b == Cursor::NoElement {
            return Ok(Cursor::NoElement);
        }
        allowed(self.needs(b))?;
        Ok(self.cursor_at(self.index.next(name_in(b))))
    }

    /// Last (A.18.6, A.18.9), in order of arrival too.
    pub fn last(&self) -> Cursor
        ensures { Marks self.now.object result (sequences.last_call (plain self.now.object)) }
    {
        self.cursor_at(self.index.last())
    }

    /// Previous (A.18.6, A.18.9), in order of arrival too.
    pub fn previous(&self, b: Cursor) -> Result<Cursor, Fault>
        ensures { Looks (Marks self.now.object) (λ o. sequences.previous_call o (seen_by self.now b)) self.now result }
    {
        if b == Cursor::NoElement {
            return Ok(Cursor::NoElement);
        }
        allowed(self.needs(b))?;
        Ok(self.cursor_at(self.index.previous(name_in(b))))
    }
}
