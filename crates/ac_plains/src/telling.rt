//! What is told of an object beside its rows: its type, its limit, its Capacity and its greatest use.
ghost use Rattle.std.specs.Prelude.{◌≡◌, ℕ, None, Some, false, true};
ghost use Rattle.ac_model.specs.Letters as letters;
ghost use Rattle.ac_calls.specs.Holdings.{is_hashed, is_vector, of_queue};
ghost use Rattle.ac_keyed_calls.specs.Maps.{entries_of, map_kind_of};
ghost use Rattle.ac_keyed_calls.specs.Sets.{items_of, set_kind_of};
ghost use Rattle.ac_meaning.specs.Plains as plains;
ghost use Rattle.ac_meaning.specs.Plains.{a_def, map_kind, queue_kind, sequence_kind, set_kind};
ghost use Rattle.ac_objects.specs.Sequences.{kind_of, rows_of};
ghost use Rattle.ac_plains.specs.Told as told;
ghost use Rattle.ac_plains.specs.Told.{told_by};
ghost use Rattle.ac_objects.specs.World.{held_of};
ghost use Rattle.ac_queue.specs.Kinds.{discipline_of};
ghost use Rattle.ac_queue.specs.Shared.{shared};

use ac_base::Limit;
use ac_calls::{ScriptElement, WithCapacity};
use ac_forms::Holder;
use ac_model::count_of;
use ac_objects::{Map, Object, Sequence, Set};
use ac_queue::AnyQueue;
use ac_syntax::{ElemKind, Kind, TypeDef};
use ac_tree::Tree;
use ac_tree_calls::TreeRows;

/// An object's type, its limit, its Capacity and its greatest use.
#[derive(Drop)]
pub(crate) struct Told {
    pub(crate) def: TypeDef,
    pub(crate) limit: Option<u64>,
    pub(crate) capacity: Option<u64>,
    pub(crate) peak: Option<u64>,
}

/// What is told of an object of any kind.
#[tactic(auto, unfolding(ac_objects::specs::World::memory_of))]
pub(crate) fn told_of(object: &Object) -> Told
    ensures { result ≡ told.told_of (held_of object.now) }
{
    match object {
        Object::Integers(sequence) => sequence_told(sequence, ElemKind::Integer),
        Object::Texts(sequence) => sequence_told(sequence, ElemKind::Str),
        Object::IntegerSet(set) => set_told(set, ElemKind::Integer, false),
        Object::TextSet(set) => set_told(set, ElemKind::Str, false),
        Object::KeyedSet(set) => set_told(&set.set, ElemKind::Str, true),
        Object::IntegersByInteger(map) => map_told(map, ElemKind::Integer, ElemKind::Integer),
        Object::IntegersByText(map) => map_told(map, ElemKind::Str, ElemKind::Integer),
        Object::TextsByInteger(map) => map_told(map, ElemKind::Integer, ElemKind::Str),
        Object::TextsByText(map) => map_told(map, ElemKind::Str, ElemKind::Str),
        Object::IntegerTree(tree) => tree_told(tree, ElemKind::Integer),
        Object::TextTree(tree) => tree_told(tree, ElemKind::Str),
        Object::IntegerHolder(holder) => holder_told(holder, ElemKind::Integer),
        Object::TextHolder(holder) => holder_told(holder, ElemKind::Str),
        Object::Queue(queue) => queue_told(&queue.queue),
    }
}

fn sequence_told<T: ScriptElement>(sequence: &Sequence<T>, first: ElemKind) -> Told
    ensures { let o = (rows_of sequence.now).object in let kind = kind_of sequence.now in
        result ≡ told_by (a_def (plains.is_bounded o.limit) (sequence_kind kind) first None false) o.limit (is_vector kind) o.capacity }
{
    match sequence {
        Sequence::List(rows) => {
            let limit = rows.sequence().limit();
            without_capacity(limit, def_by(limit, Kind::List, first, None, false))
        }
        Sequence::Vector(rows) => {
            let limit = rows.sequence().limit();
            let def = def_by(limit, Kind::Vector, first, None, false);
            with_capacity(limit, def, rows.sequence().capacity())
        }
    }
}

fn set_told<T: ScriptElement>(set: &Set<T>, first: ElemKind, keyed: bool) -> Told
    ensures { let o = (items_of set.now).object in let kind = set_kind_of set.now in
        result ≡ told_by (a_def (plains.is_bounded o.limit) (set_kind kind) first None keyed) o.limit (is_hashed kind) o.capacity }
{
    match set {
        Set::Hashed(rows) => {
            let limit = rows.limit();
            let def = def_by(limit, Kind::HashedSet, first, None, keyed);
            with_capacity(limit, def, rows.capacity())
        }
        Set::Ordered(rows) => {
            let limit = rows.limit();
            without_capacity(limit, def_by(limit, Kind::OrderedSet, first, None, keyed))
        }
    }
}

fn map_told<K: ScriptElement, V: ScriptElement>(
    map: &Map<K, V>,
    key: ElemKind,
    element: ElemKind,
) -> Told
    ensures { let o = (entries_of map.now).object in let kind = map_kind_of map.now in
        result ≡ told_by (a_def (plains.is_bounded o.limit) (map_kind kind) key (Some element) false) o.limit (is_hashed kind) o.capacity }
{
    match map {
        Map::Hashed(rows) => {
            let limit = rows.limit();
            let def = def_by(limit, Kind::HashedMap, key, Some(element), false);
            with_capacity(limit, def, rows.capacity())
        }
        Map::Ordered(rows) => {
            let limit = rows.limit();
            let def = def_by(limit, Kind::OrderedMap, key, Some(element), false);
            without_capacity(limit, def)
        }
    }
}

fn tree_told<T: ScriptElement>(tree: &TreeRows<T, Tree<T>>, first: ElemKind) -> Told
    ensures { let o = tree.now.object in
        result ≡ told_by (a_def (plains.is_bounded o.limit) Kind.Tree first None false) o.limit false o.capacity }
{
    let limit = tree.tree().limit();
    without_capacity(limit, def_by(limit, Kind::Tree, first, None, false))
}

fn holder_told<T: ScriptElement>(holder: &Holder<T>, first: ElemKind) -> Told
    ensures { let limit = holder.now.limit in
        result ≡ told_by (a_def (plains.is_bounded limit) Kind.Holder first None false) limit false None }
{
    let limit = holder.limit();
    without_capacity(limit, def_by(limit, Kind::Holder, first, None, false))
}

fn queue_told(queue: &AnyQueue) -> Told
    ensures { (number : ℕ) → result ≡ told.told_of (of_queue number (shared queue.now)) }
{
    let limit = queue.limit();
    Told {
        def: def_by(limit, kind_of_queue(queue), ElemKind::Integer, None, false),
        limit: limit_number(limit),
        capacity: None,
        peak: Some(queue.peak_use()),
    }
}

fn kind_of_queue(queue: &AnyQueue) -> Kind
    ensures { result ≡ queue_kind (discipline_of queue.now) }
{
    if queue.is_ranked() {
        Kind::PriorityQueue
    } else {
        Kind::Queue
    }
}

fn def_by(
    limit: Limit,
    kind: Kind,
    first: ElemKind,
    second: Option<ElemKind>,
    keyed: bool,
) -> TypeDef
    ensures { result ≡ a_def (plains.is_bounded limit) kind first second keyed }
{
    TypeDef {
        bounded: is_bounded(limit),
        kind,
        first,
        second,
        keyed,
    }
}

fn is_bounded(limit: Limit) -> bool
    ensures { result ≡ plains.is_bounded limit }
{
    match limit {
        Limit::Unbounded => false,
        Limit::Bounded(_) => true,
    }
}

fn limit_number(limit: Limit) -> Option<u64>
    ensures { result ≡ plains.limit_number limit }
{
    match limit {
        Limit::Unbounded => None,
        Limit::Bounded(most) => Some(most),
    }
}

fn without_capacity(limit: Limit, def: TypeDef) -> Told
    ensures { result ≡ told_by def limit false None }
{
    Told {
        def,
        limit: limit_number(limit),
        capacity: None,
        peak: None,
    }
}

/// With this Capacity, unless it is bounded.
fn with_capacity(limit: Limit, def: TypeDef, capacity: i64) -> Told
    ensures { result ≡ told_by def limit true (Some (letters.count_of capacity)) }
{
    Told {
        def,
        limit: limit_number(limit),
        capacity: unless_bounded(limit, count_of(capacity)),
        peak: None,
    }
}

fn unless_bounded(limit: Limit, capacity: u64) -> Option<u64>
    ensures { result ≡ plains.unless_bounded limit capacity }
{
    match limit {
        Limit::Unbounded => Some(capacity),
        Limit::Bounded(_) => None,
    }
}
