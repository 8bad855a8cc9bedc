//! A vector, to the calls that it has in common with a list.
ghost use Rattle.std.specs.Prelude.{◌≡◌};

use super::Vector;
use crate::array::Array;
use crate::put::put_copies;
use ac_base::{Elem, Fault, Limit, Name};
use ac_chain::calls::{Puts, Sequence, named};
use ac_cursor::{Cursor, Guards};

impl<T> Sequence<T> for Vector<T> {
    type Rows = Array<T>;

    ghost seen = { λ vector. vector };

    #[inline]
    fn rows(&self) -> &Array<T> {
        &self.rows
    }

    #[inline]
    fn guards(&self) -> &Guards {
        let _rows = &self.rows;
        &self.guards
    }

    #[inline]
    fn limit(&self) -> Limit {
        self.limit
    }
}

impl<T: Elem> Puts<T> for Vector<T> {
    #[inline(always)]
    fn put(&mut self, place: Option<Name>, e: T, n: u64) -> Result<Cursor, Fault> {
        match put_copies(&mut self.rows, self.alloc, place, e, n) {
            Ok(first) => Ok(named(self, first)),
            Err(_) => Err(Fault::NoMemory),
        }
    }
}
