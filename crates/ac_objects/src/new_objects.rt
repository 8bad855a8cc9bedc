//! New objects without elements, of every kind and element type.
ghost use Rattle.std.specs.Prelude.{◌≡◌, Bool, true, false, Option, IfOk};
ghost use Rattle.ac_base.specs.Limits.{IsLimit};
ghost use Rattle.ac_syntax.specs.Kinds.{has_cursors, is_queue};
ghost use Rattle.ac_queue.specs.Shared.{shared};
ghost use Rattle.ac_calls.specs.Holdings.{a_sequence, a_set, a_keyed_set, a_map, kind_by, element_or, discipline_by, limit_by, new_held, new_within, is_vector, is_hashed};
ghost use Rattle.ac_model.specs.Holders.{empty_holder};
ghost use Rattle.ac_model.specs.Objects.{plain, empty_object};
ghost use Rattle.ac_model.specs.Queues.{empty_queue};
ghost use Rattle.ac_syntax.specs.declared.kind.ElemKind.{ElemKind as Elements};
ghost use Rattle.ac_keyed_calls.specs.Maps.{entries_of, map_kind_of};
ghost use Rattle.ac_objects.specs.Sequences.{rows_of, kind_of};
ghost use Rattle.ac_keyed_calls.specs.Sets.{items_of, set_kind_of};
ghost use Rattle.ac_objects.specs.World.{held_of};

use crate::map::Map;
use crate::numbered_queue::NumberedQueue;
use crate::object::Object;
use crate::sequence::Sequence;
use crate::set::{KeyedSet, Set};
use ac_base::{Elem, GREATEST_LENGTH, Limit, NoMemory};
use ac_calls::ScriptElement;
use ac_cursor::Tag;
use ac_forms::Holder;
use ac_keyed_calls::{MapRows, SetRows};
use ac_list::List;
use ac_queue::{AnyQueue, PriorityQueue, Queue};
use ac_sequence_calls::SequenceRows;
use ac_syntax::{ElemKind, Kind, TypeDef};
use ac_tree::Tree;
use ac_tree_calls::TreeRows;
use ac_vector::Vector;
use std::alloc::Global;

/// What is made, unless memory runs out.
type Made<T> = Result<T, NoMemory>;

/// An object of this number without elements, and NoMemory where so large a capacity can't be had.
pub fn new_object(alloc: Global, def: &TypeDef, tag: Tag, capacity: Option<u64>) -> Made<Object>
    ensures { IfOk result (λ made. held_of made ≡ new_held def.now tag capacity) }
{
    let limit = limit_by(capacity)?;
    match def.kind {
        Kind::List | Kind::Vector => new_sequence_object(alloc, def, tag, limit),
        Kind::HashedSet | Kind::OrderedSet => new_set_object(alloc, def, tag, limit),
        Kind::HashedMap | Kind::OrderedMap => new_map_object(alloc, def, tag, limit),
        Kind::Holder => new_holder_object(alloc, def, tag, limit),
        Kind::Tree => new_tree_object(alloc, def, tag, limit),
        Kind::Queue | Kind::PriorityQueue => new_queue_object(alloc, def, tag, limit),
    }
}

fn new_sequence_object(alloc: Global, def: &TypeDef, tag: Tag, limit: Limit) -> Made<Object>
    requires { IsLimit limit }
    ensures { IfOk result (λ made. held_of made ≡ new_within def.now tag limit) }
{
    match def.first {
        ElemKind::Integer => {
            let made = new_sequence(alloc, def.kind, tag, limit)?;
            Ok(Object::Integers(made))
        }
        ElemKind::Str => {
            let made = new_sequence(alloc, def.kind, tag, limit)?;
            Ok(Object::Texts(made))
        }
    }
}

fn new_holder_object(alloc: Global, def: &TypeDef, tag: Tag, limit: Limit) -> Made<Object>
    requires kind { def.now.kind ≡ Kind.Holder }
    requires limit { IsLimit limit }
    ensures { IfOk result (λ made. held_of made ≡ new_within def.now tag limit) }
{
    match def.first {
        ElemKind::Integer => {
            let made = new_holder(alloc, tag, limit)?;
            Ok(Object::IntegerHolder(made))
        }
        ElemKind::Str => {
            let made = new_holder(alloc, tag, limit)?;
            Ok(Object::TextHolder(made))
        }
    }
}

fn new_tree_object(alloc: Global, def: &TypeDef, tag: Tag, limit: Limit) -> Made<Object>
    requires kind { def.now.kind ≡ Kind.Tree }
    requires limit { IsLimit limit }
    ensures { IfOk result (λ made. held_of made ≡ new_within def.now tag limit) }
{
    match def.first {
        ElemKind::Integer => {
            let made = new_tree(alloc, tag, limit)?;
            Ok(Object::IntegerTree(made))
        }
        ElemKind::Str => {
            let made = new_tree(alloc, tag, limit)?;
            Ok(Object::TextTree(made))
        }
    }
}

fn new_queue_object(alloc: Global, def: &TypeDef, tag: Tag, limit: Limit) -> Made<Object>
    requires kind { is_queue def.now.kind ≡ true }
    requires limit { IsLimit limit }
    ensures { IfOk result (λ made. held_of made ≡ new_within def.now tag limit) }
{
    let queue = new_queue(alloc, def.kind, limit)?;
    Ok(Object::Queue(NumberedQueue { tag, queue }))
}

fn new_set_object(alloc: Global, def: &TypeDef, tag: Tag, limit: Limit) -> Made<Object>
    requires { IsLimit limit }
    ensures { IfOk result (λ made. held_of made ≡ new_within def.now tag limit) }
{
    if def.keyed {
        new_keyed_set_object(alloc, def, tag, limit)
    } else {
        new_plain_set_object(alloc, def, tag, limit)
    }
}

fn new_plain_set_object(alloc: Global, def: &TypeDef, tag: Tag, limit: Limit) -> Made<Object>
    requires plain { def.now.keyed ≡ false }
    requires limit { IsLimit limit }
    ensures { IfOk result (λ made. held_of made ≡ new_within def.now tag limit) }
{
    match def.first {
        ElemKind::Integer => {
            let made = new_set(alloc, def.kind, tag, limit)?;
            Ok(Object::IntegerSet(made))
        }
        ElemKind::Str => {
            let made = new_set(alloc, def.kind, tag, limit)?;
            Ok(Object::TextSet(made))
        }
    }
}

fn new_keyed_set_object(alloc: Global, def: &TypeDef, tag: Tag, limit: Limit) -> Made<Object>
    requires keyed { def.now.keyed ≡ true }
    requires limit { IsLimit limit }
    ensures { IfOk result (λ made. held_of made ≡ new_within def.now tag limit) }
{
    let set = new_set(alloc, def.kind, tag, limit)?;
    Ok(Object::KeyedSet(KeyedSet { set }))
}

fn new_map_object(alloc: Global, def: &TypeDef, tag: Tag, limit: Limit) -> Made<Object>
    requires { IsLimit limit }
    ensures { IfOk result (λ made. held_of made ≡ new_within def.now tag limit) }
{
    let element = element_or(def.first, def.second);
    match def.first {
        ElemKind::Integer => match element {
            ElemKind::Integer => {
                let made = new_map(alloc, def.kind, tag, limit)?;
                Ok(Object::IntegersByInteger(made))
            }
            ElemKind::Str => {
                let made = new_map(alloc, def.kind, tag, limit)?;
                Ok(Object::TextsByInteger(made))
            }
        },
        ElemKind::Str => match element {
            ElemKind::Integer => {
                let made = new_map(alloc, def.kind, tag, limit)?;
                Ok(Object::IntegersByText(made))
            }
            ElemKind::Str => {
                let made = new_map(alloc, def.kind, tag, limit)?;
                Ok(Object::TextsByText(made))
            }
        },
    }
}

fn element_or(first: ElemKind, second: Option<ElemKind>) -> ElemKind
    ensures { result ≡ element_or first second }
{
    match second {
        Some(element) => element,
        None => first,
    }
}

/// A list or a vector without elements.
fn new_sequence<T: Drop>(alloc: Global, kind: Kind, tag: Tag, limit: Limit) -> Made<Sequence<T>>
    requires { IsLimit limit }
    ensures kind { (first : Elements) (second : Option Elements) (keyed : Bool) →
        IfOk result (λ made. kind_by kind first second keyed ≡ a_sequence (kind_of made) first) }
    ensures rows { IfOk result (λ _. has_cursors kind ≡ true) }
    ensures empty { IfOk result (λ made. plain (rows_of made).object ≡ empty_object (is_vector (kind_of made)) tag limit) }
{
    match kind {
        Kind::List => match List::new(alloc, tag, limit) {
            Ok(list) => Ok(Sequence::List(SequenceRows::new(list))),
            Err(_) => Err(NoMemory),
        },
        Kind::Vector => match Vector::new(alloc, tag, limit) {
            Ok(vector) => Ok(Sequence::Vector(SequenceRows::new(vector))),
            Err(_) => Err(NoMemory),
        },
        _ => Err(NoMemory),
    }
}

/// A holder without an element.
fn new_holder<T: Elem>(alloc: Global, tag: Tag, limit: Limit) -> Made<Holder<T>>
    requires { IsLimit limit }
    ensures { IfOk result (λ made. made ≡ empty_holder tag limit) }
{
    match Holder::new(alloc, tag, limit) {
        Ok(holder) => Ok(holder),
        Err(_) => Err(NoMemory),
    }
}

/// A queue without items.
fn new_queue(alloc: Global, kind: Kind, limit: Limit) -> Made<AnyQueue>
    requires { IsLimit limit }
    ensures { IfOk result (λ made. shared made ≡ record { discipline = discipline_by kind; queue = empty_queue limit }) }
{
    match kind {
        Kind::Queue => match Queue::new(alloc, limit) {
            Ok(queue) => Ok(AnyQueue::Plain(queue)),
            Err(_) => Err(NoMemory),
        },
        Kind::PriorityQueue => match PriorityQueue::new(alloc, limit) {
            Ok(queue) => Ok(AnyQueue::Ranked(queue)),
            Err(_) => Err(NoMemory),
        },
        _ => Err(NoMemory),
    }
}

/// A tree without elements.
fn new_tree<T: ScriptElement>(alloc: Global, tag: Tag, limit: Limit) -> Made<TreeRows<T, Tree<T>>>
    requires { IsLimit limit }
    ensures { IfOk result (λ made. plain made.object ≡ empty_object false tag limit) }
{
    match Tree::new(alloc, tag, limit) {
        Ok(tree) => Ok(TreeRows::new(tree)),
        Err(_) => Err(NoMemory),
    }
}

/// A set without elements.
fn new_set<T: ScriptElement>(alloc: Global, kind: Kind, tag: Tag, limit: Limit) -> Made<Set<T>>
    requires { IsLimit limit }
    ensures kind { (first : Elements) (second : Option Elements) →
        IfOk result (λ made. (kind_by kind first second false ≡ a_set (set_kind_of made) first)
        × (kind_by kind first second true ≡ a_keyed_set (set_kind_of made))) }
    ensures rows { IfOk result (λ _. has_cursors kind ≡ true) }
    ensures empty { IfOk result (λ made. plain (items_of made).object ≡ empty_object (is_hashed (set_kind_of made)) tag limit) }
{
    match kind {
        Kind::HashedSet => match SetRows::new(alloc, tag, limit) {
            Ok(set) => Ok(Set::Hashed(set)),
            Err(_) => Err(NoMemory),
        },
        Kind::OrderedSet => match SetRows::new(alloc, tag, limit) {
            Ok(set) => Ok(Set::Ordered(set)),
            Err(_) => Err(NoMemory),
        },
        _ => Err(NoMemory),
    }
}

/// A map without elements.
fn new_map<K: ScriptElement, V: ScriptElement>(
    alloc: Global,
    kind: Kind,
    tag: Tag,
    limit: Limit,
) -> Made<Map<K, V>>
    requires { IsLimit limit }
    ensures kind { (first : Elements) (second : Option Elements) (keyed : Bool) →
        IfOk result (λ made. kind_by kind first second keyed ≡ a_map (map_kind_of made) first (element_or first second)) }
    ensures rows { IfOk result (λ _. has_cursors kind ≡ true) }
    ensures empty { IfOk result (λ made. plain (entries_of made).object ≡ empty_object (is_hashed (map_kind_of made)) tag limit) }
{
    match kind {
        Kind::HashedMap => match MapRows::new(alloc, tag, limit) {
            Ok(map) => Ok(Map::Hashed(map)),
            Err(_) => Err(NoMemory),
        },
        Kind::OrderedMap => match MapRows::new(alloc, tag, limit) {
            Ok(map) => Ok(Map::Ordered(map)),
            Err(_) => Err(NoMemory),
        },
        _ => Err(NoMemory),
    }
}

/// The limit of an object of this capacity.
fn limit_by(capacity: Option<u64>) -> Made<Limit>
    ensures { IfOk result (λ limit. (limit ≡ limit_by capacity) × IsLimit limit) }
{
    match capacity {
        None => Ok(Limit::Unbounded),
        Some(most) if most <= GREATEST_LENGTH => Ok(Limit::Bounded(most)),
        Some(_) => Err(NoMemory),
    }
}
