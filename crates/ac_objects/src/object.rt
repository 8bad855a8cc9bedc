//! An object of a script, of any kind and element type.
use crate::map::Map;
use crate::numbered_queue::NumberedQueue;
use crate::sequence::Sequence;
use crate::set::{KeyedSet, Set};
use ac_base::Text;
use ac_forms::Holder;
use ac_tree::Tree;
use ac_tree_calls::TreeRows;

/// An object of a script.
#[derive(Drop)]
pub enum Object {
    Integers(Sequence<i64>),
    Texts(Sequence<Text>),
    IntegerSet(Set<i64>),
    TextSet(Set<Text>),
    KeyedSet(KeyedSet),
    IntegersByInteger(Map<i64, i64>),
    IntegersByText(Map<Text, i64>),
    TextsByInteger(Map<i64, Text>),
    TextsByText(Map<Text, Text>),
    IntegerTree(TreeRows<i64, Tree<i64>>),
    TextTree(TreeRows<Text, Tree<Text>>),
    IntegerHolder(Holder<i64>),
    TextHolder(Holder<Text>),
    Queue(NumberedQueue),
}
