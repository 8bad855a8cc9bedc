//! An object whose rows stand in an order that the program makes: a list or a vector. A contract sees its rows and which of the two it is.
ghost use Rattle.std.specs.Prelude.{◌≡◌, true, false};
ghost use Rattle.ac_calls.specs.Holdings.{of_list};
ghost use Rattle.ac_sequence_calls.specs.Sequences.{kind_of};

mod guarded;
mod operated_rows;
mod row_object;

use crate::sequence_rows::SequenceRows;

/// A list (A.18.3) or a vector (A.18.2) of a script.
#[derive(Drop)]
pub enum Sequence<L, V> {
    List(SequenceRows<L>),
    Vector(SequenceRows<V>),
}

impl<L, V> Sequence<L, V> {
    fn is_list(&self) -> bool
        ensures yes { result ≡ true → kind_of self.now ≡ of_list }
        ensures no { result ≡ false → kind_of self.now ≡ of_list → ⊥ }
    {
        match self {
            Sequence::List(_) => true,
            Sequence::Vector(_) => false,
        }
    }
}
