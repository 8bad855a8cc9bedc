//! A list, to the calls that it has in common with a vector.
ghost use Rattle.std.specs.Prelude.{◌≡◌};

use super::List;
use ac_base::{Elem, Fault, Limit, Name};
use ac_chain::calls::{Puts, Sequence, named};
use ac_chain::{Chain, put_copies};
use ac_cursor::{Cursor, Guards};

impl<T> Sequence<T> for List<T> {
    type Rows = Chain<T>;

    ghost seen = { λ list. list };

    #[inline]
    fn rows(&self) -> &Chain<T> {
        &self.chain
    }

    #[inline]
    fn guards(&self) -> &Guards {
        let _chain = &self.chain;
        &self.guards
    }

    #[inline]
    fn limit(&self) -> Limit {
        self.limit
    }
}

impl<T: Elem> Puts<T> for List<T> {
    #[inline(always)]
    fn put(&mut self, place: Option<Name>, e: T, n: u64) -> Result<Cursor, Fault> {
        match put_copies(&mut self.chain, self.alloc, place, e, n) {
            Ok(first) => Ok(named(self, first)),
            Err(_) => Err(Fault::NoMemory),
        }
    }
}
