//! What is walked over by names, as a chain is: rows in order, each a name with its value.
ghost use Rattle.std.specs.Prelude.{◌≡◌, ◌↔◌, IsTrue, Some, length};
ghost use Rattle.ac_chain.specs.Rows.{Chained, IsLive, IsSound, next_name, prev_name, value_of};
ghost use Rattle.ac_pool.specs.NamedRows.{name_at, name_before};

use crate::chain::Chain;
use ac_base::Name;

/// Rows that are walked over by their names.
pub trait Walked<T> {
    /// The rows, as a chain has them.
    ghost seen: { Self → Chained T };

    /// How many rows there are.
    fn len(&self) -> u64
        ensures count { result ≡ length (seen self.now).rows }
        ensures sound { IsSound (seen self.now) };

    /// The serial that the next row gets.
    fn next_serial(&self) -> u64
        ensures serial { result ≡ (seen self.now).next_serial };

    fn is_live(&self, name: Name) -> bool
        ensures live { IsTrue result ↔ IsLive (seen self.now) name };

    fn first(&self) -> Option<Name>
        ensures name { result ≡ name_at (seen self.now).rows 0 };

    fn last(&self) -> Option<Name>
        ensures name { result ≡ name_before (seen self.now).rows (length (seen self.now).rows) };

    fn next(&self, name: Name) -> Option<Name>
        requires { IsLive (seen self.now) name }
        ensures name { result ≡ next_name (seen self.now) name };

    fn prev(&self, name: Name) -> Option<Name>
        requires { IsLive (seen self.now) name }
        ensures name { result ≡ prev_name (seen self.now) name };

    /// The value under the name.
    fn at(&self, name: Name) -> &T
        requires { IsLive (seen self.now) name }
        ensures value { Some result.now ≡ value_of (seen self.now) name };
}

impl<T> Walked<T> for Chain<T> {
    ghost seen = { λ c. c };

    #[inline]
    fn len(&self) -> u64 {
        self.len()
    }

    #[inline]
    fn next_serial(&self) -> u64 {
        self.next_serial()
    }

    #[inline(always)]
    fn is_live(&self, name: Name) -> bool {
        self.is_live(name)
    }

    #[inline]
    fn first(&self) -> Option<Name> {
        self.first()
    }

    #[inline]
    fn last(&self) -> Option<Name> {
        self.last()
    }

    #[inline(always)]
    fn next(&self, name: Name) -> Option<Name> {
        self.next(name)
    }

    #[inline]
    fn prev(&self, name: Name) -> Option<Name> {
        self.prev(name)
    }

    #[inline]
    fn at(&self, name: Name) -> &T {
        self.at(name)
    }
}
