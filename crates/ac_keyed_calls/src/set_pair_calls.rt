//! The calls of two sets.
ghost use Rattle.ac_calls.specs.Replied.{told};
ghost use Rattle.ac_keyed_calls.specs.SetCalls.{SetPairReplied, SetPairRepliedWith};

mod alone;
mod sources;

use ac_base::Fault;
use ac_calls::{Reply, ScriptElement};
use ac_setwork::{Index, Table};
use ac_syntax::SetPairCall;

/// A call of two sets, with the set itself as the source.
pub fn set_pair_call<I: Index>(
    set: &mut Table<I>,
    call: SetPairCall,
    reply: &mut Reply,
) -> Result<(), Fault>
where
    I::Row: ScriptElement,
    ensures { SetPairReplied I.Row.tools I.order call set.old set.new (told reply.new result) }
{
    match call {
        SetPairCall::Union => alone::union(set, reply),
        SetPairCall::Intersection => alone::intersection(set, reply),
        SetPairCall::Difference => alone::difference(set, reply),
        SetPairCall::SymmetricDifference => alone::symmetric_difference(set, reply),
        SetPairCall::Overlap => alone::overlap(set, reply),
        SetPairCall::IsSubset => alone::is_subset(set, reply),
        SetPairCall::EquivalentSets => alone::equivalent_sets(set, reply),
    }
}

/// The same with another one of its kind as the source.
pub fn set_pair_call_with<I: Index>(
    set: &mut Table<I>,
    source: &Table<I>,
    call: SetPairCall,
    reply: &mut Reply,
) -> Result<(), Fault>
where
    I::Row: ScriptElement,
    ensures { SetPairRepliedWith I.Row.tools I.order call set.old source.now set.new (told reply.new result) }
{
    match call {
        SetPairCall::Union => sources::union(set, source, reply),
        SetPairCall::Intersection => sources::intersection(set, source, reply),
        SetPairCall::Difference => sources::difference(set, source, reply),
        SetPairCall::SymmetricDifference => sources::symmetric_difference(set, source, reply),
        SetPairCall::Overlap => sources::overlap(set, source, reply),
        SetPairCall::IsSubset => sources::is_subset(set, source, reply),
        SetPairCall::EquivalentSets => sources::equivalent_sets(set, source, reply),
    }
}
