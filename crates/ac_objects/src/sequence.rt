//! A list or a vector of a script, over the containers that it is made of.
use ac_list::List;
use ac_vector::Vector;

/// A list (A.18.3) or a vector (A.18.2).
pub type Sequence<T> = ac_sequence_calls::Sequence<List<T>, Vector<T>>;
