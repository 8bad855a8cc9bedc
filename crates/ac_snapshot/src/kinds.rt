//! What each sort of object has.
ghost use Rattle.std.specs.Prelude.{◌≡◌, ◌&&◌, ◌||◌, not};
ghost use Rattle.ac_syntax.specs.declared.kind.ElemKind.TheVariants.{Integer, Str};
ghost use Rattle.ac_syntax.specs.Kinds as kinds;
ghost use Rattle.ac_rules.specs.Rules as rules;
ghost use Rattle.ac_rules.specs.Scopes as scopes;
ghost use Rattle.ac_snapshot.specs.RowValidity as rows;

use ac_syntax::{ElemKind, Kind, TypeDef};

pub fn is_map(kind: Kind) -> bool
    ensures { result ≡ kinds.is_map kind }
{
    matches!(kind, Kind::HashedMap | Kind::OrderedMap)
}

fn is_set(kind: Kind) -> bool
    ensures { result ≡ kinds.is_set kind }
{
    matches!(kind, Kind::HashedSet | Kind::OrderedSet)
}

pub fn is_queue(kind: Kind) -> bool
    ensures { result ≡ kinds.is_queue kind }
{
    matches!(kind, Kind::Queue | Kind::PriorityQueue)
}

pub fn is_holder(kind: Kind) -> bool
    ensures { result ≡ kinds.is_holder kind }
{
    matches!(kind, Kind::Holder)
}

pub fn is_tree(kind: Kind) -> bool
    ensures { result ≡ rows.is_tree kind }
{
    matches!(kind, Kind::Tree)
}

/// Whether objects of the kind that aren't bounded have a Capacity.
pub fn has_capacity(kind: Kind) -> bool
    ensures { result ≡ kinds.has_capacity kind }
{
    matches!(kind, Kind::Vector | Kind::HashedMap | Kind::HashedSet)
}

/// What the elements are: a map's are its second.
pub fn element_of(def: TypeDef) -> ElemKind
    ensures { result ≡ scopes.element_of def }
{
    match def.second {
        Some(second) => second,
        None => def.first,
    }
}

/// Whether a queue's elements are integers.
fn is_queue_right(def: TypeDef) -> bool
    ensures { result ≡ (not (kinds.is_queue def.kind) || rules.is_elem Integer def.first) }
{
    !is_queue(def.kind) || def.first == ElemKind::Integer
}

/// Whether what has keys is a set of strings.
fn is_keyed_right(def: TypeDef) -> bool
    ensures { result ≡ (not def.keyed || (kinds.is_set def.kind && rules.is_elem Str def.first)) }
{
    !def.keyed || (is_set(def.kind) && def.first == ElemKind::Str)
}

/// Whether scripts can have objects of the kind.
fn is_built(kind: Kind) -> bool
    ensures { result ≡ kinds.is_built kind }
{
    matches!(
        kind,
        Kind::Vector
            | Kind::List
            | Kind::HashedMap
            | Kind::OrderedMap
            | Kind::HashedSet
            | Kind::OrderedSet
            | Kind::Tree
            | Kind::Holder
            | Kind::Queue
            | Kind::PriorityQueue
    )
}

/// Whether a type can be declared so.
pub fn is_type(def: TypeDef) -> bool
    ensures { result ≡ rules.is_type def }
{
    is_built(def.kind)
        && def.second.is_some() == is_map(def.kind)
        && is_queue_right(def)
        && is_keyed_right(def)
}
