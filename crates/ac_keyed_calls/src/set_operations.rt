//! Operations on sets: each goes to the calls that mean it. One that the kind hasn't says that it is done.
ghost use Rattle.std.specs.Prelude.{◌≡◌, true};
ghost use Rattle.ac_calls.specs.KeyedReplies.{of_hashed, of_ordered};
ghost use Rattle.ac_calls.specs.Replied.{told};
ghost use Rattle.ac_keyed_calls.specs.SetCalls.{SetOperated, SetOperatedWith};

use crate::capacity_calls::capacity_call;
use crate::ordered_calls::ordered_call;
use crate::set_calls::{ordered_set_call, set_call};
use crate::set_pair_calls::{set_pair_call, set_pair_call_with};
use crate::set_rows::SetRows;
use crate::walk_calls::walk_call;
use ac_base::Fault;
use ac_calls::{Arguments, Reply, Said, ScriptElement, common_call, common_call_with};
use ac_setwork::{Keyed, Ordered};
use ac_syntax::Operation;
use std::alloc::Global;

/// Makes a call on a hashed set that is its own source, where the call has one.
pub fn operate_hashed<I: Keyed>(
    set: &mut SetRows<I>,
    alloc: Global,
    operation: Operation,
    args: &mut Arguments,
    reply: &mut Reply,
) -> Result<(), Fault>
where
    I::Row: ScriptElement,
    requires { I.has_capacity ≡ true }
    ensures { SetOperated I.Row.tools I.order of_hashed operation args.old set.old set.new (told reply.new result) }
{
    match operation {
        Operation::Common(call) => common_call(set, alloc, call, args, reply),
        Operation::Walk(call) => walk_call(set, call, args, reply),
        Operation::Set(call) => set_call(&mut set.table, alloc, call, args, reply),
        Operation::SetPair(call) => set_pair_call(&mut set.table, call, reply),
        Operation::Capacity(call) => capacity_call(&mut set.table, call, args, reply),
        _ => {
            *reply = Reply::says(Said::Done);
            Ok(())
        }
    }
}

/// The same with another hashed set as the source, which calls of all kinds of rows and those of two sets have.
pub fn operate_hashed_with<I: Keyed>(
    set: &mut SetRows<I>,
    source: &mut SetRows<I>,
    alloc: Global,
    operation: Operation,
    args: &mut Arguments,
    reply: &mut Reply,
) -> Result<(), Fault>
where
    I::Row: ScriptElement,
    requires { I.has_capacity ≡ true }
    ensures { SetOperatedWith I.Row.tools I.order of_hashed operation args.old
        set.old source.old set.new source.new (told reply.new result) }
{
    match operation {
        Operation::Common(call) => common_call_with(set, source, alloc, call, args, reply),
        Operation::SetPair(call) => {
            set_pair_call_with(&mut set.table, &source.table, call, reply)
        }
        _ => operate_hashed(set, alloc, operation, args, reply),
    }
}

/// Makes a call on an ordered set that is its own source, where the call has one. Its index tells by the order of keys what is less than
/// a key and what is greater.
pub fn operate_ordered<I: Keyed + Ordered>(
    set: &mut SetRows<I>,
    alloc: Global,
    operation: Operation,
    args: &mut Arguments,
    reply: &mut Reply,
) -> Result<(), Fault>
where
    I::Row: ScriptElement,
    requires below { I.is_below ≡ (λ k v. I.keys.less (I.key_of v) k) }
    requires above { I.is_above ≡ (λ k v. I.keys.less k (I.key_of v)) }
    ensures { SetOperated I.Row.tools I.order of_ordered operation args.old set.old set.new (told reply.new result) }
{
    match operation {
        Operation::Common(call) => common_call(set, alloc, call, args, reply),
        Operation::Walk(call) => walk_call(set, call, args, reply),
        Operation::Set(call) => set_call(&mut set.table, alloc, call, args, reply),
        Operation::SetPair(call) => set_pair_call(&mut set.table, call, reply),
        Operation::Ordered(call) => ordered_call(set, alloc, call, args, reply),
        Operation::OrderedSet(call) => ordered_set_call(&set.table, alloc, call, args, reply),
        _ => {
            *reply = Reply::says(Said::Done);
            Ok(())
        }
    }
}

/// The same with another ordered set as the source.
pub fn operate_ordered_with<I: Keyed + Ordered>(
    set: &mut SetRows<I>,
    source: &mut SetRows<I>,
    alloc: Global,
    operation: Operation,
    args: &mut Arguments,
    reply: &mut Reply,
) -> Result<(), Fault>
where
    I::Row: ScriptElement,
    requires below { I.is_below ≡ (λ k v. I.keys.less (I.key_of v) k) }
    requires above { I.is_above ≡ (λ k v. I.keys.less k (I.key_of v)) }
    ensures { SetOperatedWith I.Row.tools I.order of_ordered operation args.old
        set.old source.old set.new source.new (told reply.new result) }
{
    match operation {
        Operation::Common(call) => common_call_with(set, source, alloc, call, args, reply),
        Operation::SetPair(call) => {
            set_pair_call_with(&mut set.table, &source.table, call, reply)
        }
        _ => operate_ordered(set, alloc, operation, args, reply),
    }
}
