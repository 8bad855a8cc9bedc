//! The calls of each kind of container.
ghost use Rattle.std.specs.Prelude.{◌≡◌};
ghost use Rattle.ac_check.specs.Rows.{joined};
ghost use Rattle.ac_rules.specs.Table as table;

use ac_rules::{Answer, Letter};
use ac_syntax::{
    CapacityCall, CommonCall, HolderCall, KeyedCall, Kind, ListCall, MapCall, Operation,
    OrderedCall, OrderedMapCall, OrderedSetCall, QueueCall, SequenceCall, SetCall, SetPairCall,
    TreeCall, TreeChangeCall, TypeDef, VectorCall, WalkCall,
};

/// A call: its word, what its arguments must be, what it answers, and the operation that it means.
#[derive(Clone, Copy)]
pub struct Row {
    pub word: &'static [u8],
    pub letters: &'static [Letter],
    /// One argument more, which may be left out.
    pub optional: Option<Letter>,
    pub answer: Answer,
    pub operation: Operation,
}

// The letter of an argument that may be left out stands behind a semicolon.
macro_rules! row {
    ($word:literal, [$($letter:ident),*], $answer:ident => $group:ident($calls:ident::$call:ident)) => {
        Row {
            word: $word,
            letters: &[$(Letter::$letter),*],
            optional: None,
            answer: Answer::$answer,
            operation: Operation::$group($calls::$call),
        }
    };
    ($word:literal, [$($letter:ident),*; $last:ident], $answer:ident => $group:ident($calls:ident::$call:ident)) => {
        Row {
            word: $word,
            letters: &[$(Letter::$letter),*],
            optional: Some(Letter::$last),
            answer: Answer::$answer,
            operation: Operation::$group($calls::$call),
        }
    };
}

/// Vectors, lists, maps, sets and trees (A.18.2 to A.18.10).
const COMMON: [Row; 9] = [
    row!(b"is_empty", [], Truth => Common(CommonCall::IsEmpty)),
    row!(b"clear", [], Done => Common(CommonCall::Clear)),
    row!(b"assign", [Object], Done => Common(CommonCall::Assign)),
    row!(b"move", [Object], Done => Common(CommonCall::MoveFrom)),
    row!(b"equal", [Object], Truth => Common(CommonCall::Equal)),
    row!(b"has_element", [Cursor], Truth => Common(CommonCall::HasElement)),
    row!(b"element", [Cursor], Element => Common(CommonCall::Element)),
    row!(b"replace_element", [Cursor, Element], Done => Common(CommonCall::ReplaceElement)),
    row!(b"print", [], Listing => Common(CommonCall::Print)),
];

/// Of these, all but trees.
const COUNTED: [Row; 1] = [row!(b"length", [], Integer => Common(CommonCall::Length))];

/// Vectors (A.18.2) and lists (A.18.3).
const SEQUENCE: [Row; 21] = [
    row!(b"append", [Element; Integer], Done => Sequence(SequenceCall::Append)),
    row!(b"prepend", [Element; Integer], Done => Sequence(SequenceCall::Prepend)),
    row!(b"insert", [Cursor, Element; Integer], Done => Sequence(SequenceCall::Insert)),
    row!(b"insert", [Cursor, Element, CursorVariable; Integer], Done => Sequence(SequenceCall::InsertPos)),
    row!(b"delete", [CursorVariable; Integer], Done => Sequence(SequenceCall::Delete)),
    row!(b"delete_first", [; Integer], Done => Sequence(SequenceCall::DeleteFirst)),
    row!(b"delete_last", [; Integer], Done => Sequence(SequenceCall::DeleteLast)),
    row!(b"first", [], Cursor => Sequence(SequenceCall::First)),
    row!(b"last", [], Cursor => Sequence(SequenceCall::Last)),
    row!(b"first_element", [], Element => Sequence(SequenceCall::FirstElement)),
    row!(b"last_element", [], Element => Sequence(SequenceCall::LastElement)),
    row!(b"next", [Cursor], Cursor => Sequence(SequenceCall::Next)),
    row!(b"previous", [Cursor], Cursor => Sequence(SequenceCall::Previous)),
    row!(b"find", [Element; Cursor], Cursor => Sequence(SequenceCall::Find)),
    row!(b"reverse_find", [Element; Cursor], Cursor => Sequence(SequenceCall::ReverseFind)),
    row!(b"contains", [Element], Truth => Sequence(SequenceCall::Contains)),
    row!(b"swap", [Cursor, Cursor], Done => Sequence(SequenceCall::Swap)),
    row!(b"reverse_elements", [], Done => Sequence(SequenceCall::ReverseElements)),
    row!(b"sort", [], Done => Sequence(SequenceCall::Sort)),
    row!(b"is_sorted", [], Truth => Sequence(SequenceCall::IsSorted)),
    row!(b"merge", [Object], Done => Sequence(SequenceCall::Merge)),
];

/// What has a Capacity: vectors, and hashed maps and sets.
const CAPACITY: [Row; 2] = [
    row!(b"capacity", [], Integer => Capacity(CapacityCall::Capacity)),
    row!(b"reserve_capacity", [Integer], Done => Capacity(CapacityCall::ReserveCapacity)),
];

/// Vectors alone (A.18.2).
const VECTOR: [Row; 17] = [
    row!(b"set_length", [Integer], Done => Vector(VectorCall::SetLength)),
    row!(b"to_cursor", [Integer], Cursor => Vector(VectorCall::ToCursor)),
    row!(b"to_index", [Cursor], Integer => Vector(VectorCall::ToIndex)),
    row!(b"first_index", [], Integer => Vector(VectorCall::FirstIndex)),
    row!(b"last_index", [], Integer => Vector(VectorCall::LastIndex)),
    row!(b"element", [Integer], Element => Vector(VectorCall::ElementIndex)),
    row!(b"replace_element", [Integer, Element], Done => Vector(VectorCall::ReplaceIndex)),
    row!(b"swap", [Integer, Integer], Done => Vector(VectorCall::SwapIndex)),
    row!(b"insert", [Integer, Element; Integer], Done => Vector(VectorCall::InsertIndex)),
    row!(b"insert_vector", [Integer, Object], Done => Vector(VectorCall::InsertVectorIndex)),
    row!(b"insert_vector", [Cursor, Object], Done => Vector(VectorCall::InsertVector)),
    row!(b"insert_vector", [Cursor, Object, CursorVariable], Done => Vector(VectorCall::InsertVectorPos)),
    row!(b"append_vector", [Object], Done => Vector(VectorCall::AppendVector)),
    row!(b"prepend_vector", [Object], Done => Vector(VectorCall::PrependVector)),
    row!(b"delete", [Integer; Integer], Done => Vector(VectorCall::DeleteIndex)),
    row!(b"find_index", [Element; Integer], Integer => Vector(VectorCall::FindIndex)),
    row!(b"reverse_find_index", [Element; Integer], Integer => Vector(VectorCall::ReverseFindIndex)),
];

/// Lists alone (A.18.3).
const LIST: [Row; 4] = [
    row!(b"swap_links", [Cursor, Cursor], Done => List(ListCall::SwapLinks)),
    row!(b"splice", [Cursor, Object], Done => List(ListCall::Splice)),
    row!(b"splice", [Cursor, Object, CursorVariable], Done => List(ListCall::SpliceOne)),
    row!(b"splice", [Cursor, Cursor], Done => List(ListCall::SpliceWithin)),
];

/// Maps and sets (A.18.4, A.18.7).
const KEYED_WALK: [Row; 3] = [
    row!(b"first", [], Cursor => Walk(WalkCall::First)),
    row!(b"next", [Cursor], Cursor => Walk(WalkCall::Next)),
    row!(b"delete", [CursorVariable], Done => Walk(WalkCall::Delete)),
];

/// Maps (A.18.4).
const MAP: [Row; 10] = [
    row!(b"key", [Cursor], Key => Map(MapCall::Key)),
    row!(b"element", [Key], Element => Map(MapCall::ElementKey)),
    row!(b"insert", [Key, Element], Done => Map(MapCall::Insert)),
    row!(b"insert", [Key, Element, CursorVariable], Truth => Map(MapCall::InsertPos)),
    row!(b"include", [Key, Element], Done => Map(MapCall::Include)),
    row!(b"replace", [Key, Element], Done => Map(MapCall::Replace)),
    row!(b"exclude", [Key], Done => Map(MapCall::Exclude)),
    row!(b"delete", [Key], Done => Map(MapCall::DeleteKey)),
    row!(b"find", [Key], Cursor => Map(MapCall::Find)),
    row!(b"contains", [Key], Truth => Map(MapCall::Contains)),
];

/// Sets (A.18.7).
const SET: [Row; 15] = [
    row!(b"insert", [Element], Done => Set(SetCall::Insert)),
    row!(b"insert", [Element, CursorVariable], Truth => Set(SetCall::InsertPos)),
    row!(b"include", [Element], Done => Set(SetCall::Include)),
    row!(b"replace", [Element], Done => Set(SetCall::Replace)),
    row!(b"exclude", [Element], Done => Set(SetCall::Exclude)),
    row!(b"delete", [Element], Done => Set(SetCall::DeleteItem)),
    row!(b"find", [Element], Cursor => Set(SetCall::Find)),
    row!(b"contains", [Element], Truth => Set(SetCall::Contains)),
    row!(b"union", [Object], Done => SetPair(SetPairCall::Union)),
    row!(b"intersection", [Object], Done => SetPair(SetPairCall::Intersection)),
    row!(b"difference", [Object], Done => SetPair(SetPairCall::Difference)),
    row!(b"symmetric_difference", [Object], Done => SetPair(SetPairCall::SymmetricDifference)),
    row!(b"overlap", [Object], Truth => SetPair(SetPairCall::Overlap)),
    row!(b"is_subset", [Object], Truth => SetPair(SetPairCall::IsSubset)),
    row!(b"equivalent_sets", [Object], Truth => SetPair(SetPairCall::EquivalentSets)),
];

/// Keyed sets (Generic_Keys of A.18.8 and A.18.9).
const KEYED: [Row; 7] = [
    row!(b"key", [Cursor], Key => Keyed(KeyedCall::Key)),
    row!(b"key_element", [Key], Element => Keyed(KeyedCall::KeyElement)),
    row!(b"key_find", [Key], Cursor => Keyed(KeyedCall::KeyFind)),
    row!(b"key_contains", [Key], Truth => Keyed(KeyedCall::KeyContains)),
    row!(b"key_exclude", [Key], Done => Keyed(KeyedCall::KeyExclude)),
    row!(b"key_delete", [Key], Done => Keyed(KeyedCall::KeyDelete)),
    row!(b"key_replace", [Key, Element], Done => Keyed(KeyedCall::KeyReplace)),
];

/// Ordered keyed sets alone (A.18.9).
const ORDERED_KEYED: [Row; 2] = [
    row!(b"key_floor", [Key], Cursor => Keyed(KeyedCall::KeyFloor)),
    row!(b"key_ceiling", [Key], Cursor => Keyed(KeyedCall::KeyCeiling)),
];

/// Ordered maps (A.18.6) and sets (A.18.9).
const ORDERED: [Row; 6] = [
    row!(b"last", [], Cursor => Ordered(OrderedCall::Last)),
    row!(b"previous", [Cursor], Cursor => Ordered(OrderedCall::Previous)),
    row!(b"delete_first", [], Done => Ordered(OrderedCall::DeleteFirst)),
    row!(b"delete_last", [], Done => Ordered(OrderedCall::DeleteLast)),
    row!(b"first_element", [], Element => Ordered(OrderedCall::FirstElement)),
    row!(b"last_element", [], Element => Ordered(OrderedCall::LastElement)),
];

/// Ordered maps alone (A.18.6).
const ORDERED_MAP: [Row; 4] = [
    row!(b"first_key", [], Key => OrderedMap(OrderedMapCall::FirstKey)),
    row!(b"last_key", [], Key => OrderedMap(OrderedMapCall::LastKey)),
    row!(b"floor", [Key], Cursor => OrderedMap(OrderedMapCall::Floor)),
    row!(b"ceiling", [Key], Cursor => OrderedMap(OrderedMapCall::Ceiling)),
];

/// Ordered sets alone (A.18.9).
const ORDERED_SET: [Row; 2] = [
    row!(b"floor", [Element], Cursor => OrderedSet(OrderedSetCall::Floor)),
    row!(b"ceiling", [Element], Cursor => OrderedSet(OrderedSetCall::Ceiling)),
];

/// Multiway trees (A.18.10).
const TREE: [Row; 16] = [
    row!(b"node_count", [], Integer => Tree(TreeCall::NodeCount)),
    row!(b"root", [], Cursor => Tree(TreeCall::Root)),
    row!(b"is_root", [Cursor], Truth => Tree(TreeCall::IsRoot)),
    row!(b"is_leaf", [Cursor], Truth => Tree(TreeCall::IsLeaf)),
    row!(b"depth", [Cursor], Integer => Tree(TreeCall::Depth)),
    row!(b"subtree_node_count", [Cursor], Integer => Tree(TreeCall::SubtreeNodeCount)),
    row!(b"child_count", [Cursor], Integer => Tree(TreeCall::ChildCount)),
    row!(b"parent", [Cursor], Cursor => Tree(TreeCall::Parent)),
    row!(b"next_sibling", [Cursor], Cursor => Tree(TreeCall::NextSibling)),
    row!(b"previous_sibling", [Cursor], Cursor => Tree(TreeCall::PreviousSibling)),
    row!(b"first_child", [Cursor], Cursor => Tree(TreeCall::FirstChild)),
    row!(b"last_child", [Cursor], Cursor => Tree(TreeCall::LastChild)),
    row!(b"find", [Element], Cursor => Tree(TreeCall::Find)),
    row!(b"contains", [Element], Truth => Tree(TreeCall::Contains)),
    row!(b"find_in_subtree", [Cursor, Element], Cursor => Tree(TreeCall::FindInSubtree)),
    row!(b"ancestor_find", [Cursor, Element], Cursor => Tree(TreeCall::AncestorFind)),
];

/// What changes a tree.
const TREE_CHANGE: [Row; 13] = [
    row!(b"insert_child", [Cursor, Cursor, Element; Integer], Done => TreeChange(TreeChangeCall::InsertChild)),
    row!(b"insert_child", [Cursor, Cursor, Element, CursorVariable; Integer], Done => TreeChange(TreeChangeCall::InsertChildPos)),
    row!(b"append_child", [Cursor, Element; Integer], Done => TreeChange(TreeChangeCall::AppendChild)),
    row!(b"prepend_child", [Cursor, Element; Integer], Done => TreeChange(TreeChangeCall::PrependChild)),
    row!(b"delete_leaf", [CursorVariable], Done => TreeChange(TreeChangeCall::DeleteLeaf)),
    row!(b"delete_subtree", [CursorVariable], Done => TreeChange(TreeChangeCall::DeleteSubtree)),
    row!(b"delete_children", [Cursor], Done => TreeChange(TreeChangeCall::DeleteChildren)),
    row!(b"swap", [Cursor, Cursor], Done => TreeChange(TreeChangeCall::Swap)),
    row!(b"copy_subtree", [Cursor, Cursor, Object, Cursor], Done => TreeChange(TreeChangeCall::CopySubtree)),
    row!(b"splice_subtree", [Cursor, Cursor, Object, CursorVariable], Done => TreeChange(TreeChangeCall::SpliceSubtreeFrom)),
    row!(b"splice_subtree", [Cursor, Cursor, Cursor], Done => TreeChange(TreeChangeCall::SpliceSubtree)),
    row!(b"splice_children", [Cursor, Cursor, Object, Cursor], Done => TreeChange(TreeChangeCall::SpliceChildrenFrom)),
    row!(b"splice_children", [Cursor, Cursor, Cursor], Done => TreeChange(TreeChangeCall::SpliceChildren)),
];

/// Holders (A.18.18).
const HOLDER: [Row; 9] = [
    row!(b"is_empty", [], Truth => Holder(HolderCall::IsEmpty)),
    row!(b"element", [], Element => Holder(HolderCall::Element)),
    row!(b"replace_element", [Element], Done => Holder(HolderCall::ReplaceElement)),
    row!(b"clear", [], Done => Holder(HolderCall::Clear)),
    row!(b"assign", [Object], Done => Holder(HolderCall::Assign)),
    row!(b"move", [Object], Done => Holder(HolderCall::MoveFrom)),
    row!(b"swap", [Object], Done => Holder(HolderCall::Swap)),
    row!(b"equal", [Object], Truth => Holder(HolderCall::Equal)),
    row!(b"print", [], Listing => Holder(HolderCall::Print)),
];

/// Queues (A.18.27 to A.18.31).
const QUEUE: [Row; 5] = [
    row!(b"enqueue", [Element], Done => Queue(QueueCall::Enqueue)),
    row!(b"dequeue", [], Integer => Queue(QueueCall::Dequeue)),
    row!(b"current_use", [], Integer => Queue(QueueCall::CurrentUse)),
    row!(b"peak_use", [], Integer => Queue(QueueCall::PeakUse)),
    row!(b"print", [], Listing => Queue(QueueCall::Print)),
];

/// Priority queues alone (A.18.30, A.18.31).
const PRIORITY_QUEUE: [Row; 1] = [
    row!(b"dequeue_only_high_priority", [Integer], Integer => Queue(QueueCall::DequeueOnlyHighPriority)),
];

static VECTORS: [&[Row]; 5] = [&COMMON, &COUNTED, &SEQUENCE, &VECTOR, &CAPACITY];

static LISTS: [&[Row]; 4] = [&COMMON, &COUNTED, &SEQUENCE, &LIST];

static HASHED_MAPS: [&[Row]; 5] = [&COMMON, &COUNTED, &KEYED_WALK, &MAP, &CAPACITY];

static ORDERED_MAPS: [&[Row]; 6] = [&COMMON, &COUNTED, &KEYED_WALK, &MAP, &ORDERED, &ORDERED_MAP];

static HASHED_SETS: [&[Row]; 5] = [&COMMON, &COUNTED, &KEYED_WALK, &SET, &CAPACITY];

static KEYED_HASHED_SETS: [&[Row]; 6] = [&COMMON, &COUNTED, &KEYED_WALK, &SET, &KEYED, &CAPACITY];

static ORDERED_SETS: [&[Row]; 6] = [&COMMON, &COUNTED, &KEYED_WALK, &SET, &ORDERED, &ORDERED_SET];

static KEYED_ORDERED_SETS: [&[Row]; 8] = [
    &COMMON,
    &COUNTED,
    &KEYED_WALK,
    &SET,
    &ORDERED,
    &ORDERED_SET,
    &KEYED,
    &ORDERED_KEYED,
];

static TREES: [&[Row]; 3] = [&COMMON, &TREE, &TREE_CHANGE];

static HOLDERS: [&[Row]; 1] = [&HOLDER];

static QUEUES: [&[Row]; 1] = [&QUEUE];

static PRIORITY_QUEUES: [&[Row]; 2] = [&QUEUE, &PRIORITY_QUEUE];

/// The calls of a type's objects, in groups.
pub fn rows_of(def: &TypeDef) -> &'static [&'static [Row]]
    ensures { joined result.now ≡ table.rows_of def.now }
{
    match (def.kind, def.keyed) {
        (Kind::Vector, _) => &VECTORS,
        (Kind::List, _) => &LISTS,
        (Kind::HashedMap, _) => &HASHED_MAPS,
        (Kind::OrderedMap, _) => &ORDERED_MAPS,
        (Kind::HashedSet, false) => &HASHED_SETS,
        (Kind::HashedSet, true) => &KEYED_HASHED_SETS,
        (Kind::OrderedSet, false) => &ORDERED_SETS,
        (Kind::OrderedSet, true) => &KEYED_ORDERED_SETS,
        (Kind::Tree, _) => &TREES,
        (Kind::Holder, _) => &HOLDERS,
        (Kind::Queue, _) => &QUEUES,
        (Kind::PriorityQueue, _) => &PRIORITY_QUEUES,
    }
}
