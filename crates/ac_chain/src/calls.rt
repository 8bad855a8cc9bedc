//! The calls that a list and a vector have in common, over what both are: rows that are walked over, with guards and a limit.
ghost use Rattle.std.specs.Prelude.{◌≡◌};
ghost use Rattle.ac_chain.specs.Called.{HasRows};
ghost use Rattle.ac_model.specs.Containers.{Container, guards_of};

mod finding;
mod looking;
mod putting;
mod refusing;

use crate::walked::Walked;
use ac_base::Limit;
use ac_cursor::Guards;
pub use finding::{contains, equal, find, is_sorted, reverse_find};
pub use looking::{
    element, first, first_element, has_element, last, last_element, may, named, needs, next,
    previous,
};
pub use putting::{Puts, append, done, insert, insert_pos, prepend};
pub use refusing::{
    forbids, refuses_copies, refuses_count, refuses_deletion, refuses_merge, refuses_merge_self,
    refuses_move, refuses_refill, refuses_replacement, refuses_swap,
};

/// A list or a vector, to the calls that both have.
pub trait Sequence<T> {
    type Rows: Walked<T>;

    ghost seen: { Self → Container T };

    fn rows(&self) -> &Self::Rows
        ensures { HasRows (seen self.now) (Self.Rows.seen result.now) };

    fn guards(&self) -> &Guards
        ensures { result.now ≡ guards_of (seen self.now) };

    fn limit(&self) -> Limit
        ensures { result ≡ (seen self.now).object.limit };
}
