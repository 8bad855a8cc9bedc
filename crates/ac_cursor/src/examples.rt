//! What callers know of tags, and of guards on any object.
ghost use Rattle.std.specs.Prelude.{◌≡◌, ◌+◌, ◌<◌, ◌≤◌, IfSome, IsSome};
ghost use Rattle.ac_base.specs.Guards.{count_of, one_more, raised_kind, OthersKept};

use crate::guards::{GuardKey, Guarded};
use crate::mint::{Tag, TagMint};
use ac_base::GuardKind;

/// A number that a mint gives is above each that it gave before.
pub fn two_tags(mint: &mut TagMint) -> Option<(Tag, Tag)>
    ensures given { mint.old + 1 < u64.MAX → IsSome result }
    ensures above { IfSome result (λ tags. (mint.old ≤ tags.0) × (tags.0 < tags.1)) }
{
    let first = mint.next()?;
    let second = mint.next()?;
    Some((first, second))
}

/// A guard that is held changes one count, by one.
pub fn held_once<G: Guarded>(object: &mut G, kind: GuardKind) -> GuardKey
    requires { count_of (raised_kind (G.is_set object.old) kind) (G.guards object.old) < u64.MAX }
    ensures object { result.object ≡ (G.guards object.old).number }
    ensures kind { result.kind ≡ raised_kind (G.is_set object.old) kind }
    ensures number { (G.guards object.new).number ≡ (G.guards object.old).number }
    ensures set { G.is_set object.new ≡ G.is_set object.old }
    ensures raised { count_of result.kind (G.guards object.new) ≡ count_of result.kind (G.guards object.old) + 1 }
    ensures others { OthersKept result.kind (G.guards object.old) (G.guards object.new) }
    ensures rest { G.with_guards object.new (G.guards object.old) ≡ object.old }
{
    object.hold(kind)
}

/// A guard that is released changes the count that it raised, by one.
pub fn released_once<G: Guarded>(object: &mut G, key: GuardKey)
    requires own { key.object ≡ (G.guards object.old).number }
    requires held { 0 < count_of key.kind (G.guards object.old) }
    ensures number { (G.guards object.new).number ≡ (G.guards object.old).number }
    ensures set { G.is_set object.new ≡ G.is_set object.old }
    ensures lowered { count_of key.kind (G.guards object.new) + 1 ≡ count_of key.kind (G.guards object.old) }
    ensures others { OthersKept key.kind (G.guards object.old) (G.guards object.new) }
    ensures rest { G.with_guards object.new (G.guards object.old) ≡ object.old }
{
    object.release(key)
}

/// How many guards of the kind are held while there is one guard more, whose release leaves the object as it was.
pub fn count_under_guard<G: Guarded>(object: &mut G, kind: GuardKind) -> u64
    requires { count_of (raised_kind (G.is_set object.old) kind) (G.guards object.old) < u64.MAX }
    ensures count { let held = raised_kind (G.is_set object.old) kind in
        result ≡ count_of kind (one_more held (G.guards object.old)) }
    ensures restored { object.new ≡ object.old }
{
    let key = object.hold(kind);
    let count = object.held(kind);
    object.release(key);
    count
}
