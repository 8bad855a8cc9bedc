//! The calls of sets alone, and of ordered ones.
ghost use Rattle.std.specs.Prelude.{◌≡◌};
ghost use Rattle.ac_calls.specs.Replied.{told};
ghost use Rattle.ac_keyed_calls.specs.SetCalls.{OrderedSetReplied, SetReplied};

mod changes;
mod likeness;
mod looks;

use ac_base::Fault;
use ac_calls::{Arguments, Reply, ScriptElement};
use ac_setwork::{Keyed, Ordered, Table};
use ac_syntax::{OrderedSetCall, SetCall};
use std::alloc::Global;

/// A call of sets alone.
pub fn set_call<I: Keyed>(
    set: &mut Table<I>,
    alloc: Global,
    call: SetCall,
    args: &mut Arguments,
    reply: &mut Reply,
) -> Result<(), Fault>
where
    I::Row: ScriptElement,
    ensures { SetReplied I.Row.tools I.order call args.old set.old set.new (told reply.new result) }
{
    match call {
        SetCall::Insert => changes::insert(set, alloc, args, reply),
        SetCall::InsertPos => changes::insert_pos(set, alloc, args, reply),
        SetCall::Include => changes::include(set, alloc, args, reply),
        SetCall::Replace => changes::replace(set, alloc, args, reply),
        SetCall::Exclude => changes::exclude(set, alloc, args, reply),
        SetCall::DeleteItem => changes::delete_item(set, alloc, args, reply),
        SetCall::Find => looks::find(set, alloc, args, reply),
        SetCall::Contains => looks::contains(set, alloc, args, reply),
    }
}

/// A call of ordered sets alone, of which the index tells by the order of keys what is less than a key and what is greater.
pub fn ordered_set_call<I: Keyed + Ordered>(
    set: &Table<I>,
    alloc: Global,
    call: OrderedSetCall,
    args: &mut Arguments,
    reply: &mut Reply,
) -> Result<(), Fault>
where
    I::Row: ScriptElement,
    requires below { I.is_below ≡ (λ k v. I.keys.less (I.key_of v) k) }
    requires above { I.is_above ≡ (λ k v. I.keys.less k (I.key_of v)) }
    ensures { OrderedSetReplied I.Row.tools I.order call args.old set.now set.now (told reply.new result) }
{
    match call {
        OrderedSetCall::Floor => looks::floor(set, alloc, args, reply),
        OrderedSetCall::Ceiling => looks::ceiling(set, alloc, args, reply),
    }
}
