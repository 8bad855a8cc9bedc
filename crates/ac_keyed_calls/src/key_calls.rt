//! The calls of keyed sets by a key.
ghost use Rattle.std.specs.Prelude.{◌≡◌};
ghost use Rattle.ac_calls.specs.KeyedReplies.{of_hashed, of_ordered};
ghost use Rattle.ac_calls.specs.Replied.{told};
ghost use Rattle.ac_keyed_calls.specs.KeyCalls.{KeyRepliedBy};

mod changes;
mod looks;

use crate::set_rows::SetRows;
use ac_base::{Fault, KeyedText, Text};
use ac_calls::{Arguments, Reply, Said};
use ac_setwork::{Keyed, Ordered};
use ac_syntax::KeyedCall;
use std::alloc::Global;

/// A call by key of a hashed set, which hasn't those that look for a neighbour.
pub fn hashed_key_call<I: Keyed<Row = KeyedText, Key = Text>>(
    set: &mut SetRows<I>,
    alloc: Global,
    call: KeyedCall,
    args: &mut Arguments,
    reply: &mut Reply,
) -> Result<(), Fault>
    ensures { KeyRepliedBy I.key_of I.keys of_hashed call args.old set.old set.new (told reply.new result) }
{
    match call {
        KeyedCall::Key => looks::key(&set.table, alloc, args, reply),
        KeyedCall::KeyElement => looks::key_element(&set.table, alloc, args, reply),
        KeyedCall::KeyFind => looks::key_find(&set.table, alloc, args, reply),
        KeyedCall::KeyContains => looks::key_contains(&set.table, alloc, args, reply),
        KeyedCall::KeyExclude => changes::key_exclude(&mut set.table, alloc, args, reply),
        KeyedCall::KeyDelete => changes::key_delete(&mut set.table, alloc, args, reply),
        KeyedCall::KeyReplace => changes::key_replace(&mut set.table, alloc, args, reply),
        KeyedCall::KeyFloor | KeyedCall::KeyCeiling => {
            reply.tell(Said::Done);
            Ok(())
        }
    }
}

/// A call by key of an ordered set, whose index tells by the order of keys what is less than a key and what is greater.
pub fn ordered_key_call<I: Keyed<Row = KeyedText, Key = Text> + Ordered>(
    set: &mut SetRows<I>,
    alloc: Global,
    call: KeyedCall,
    args: &mut Arguments,
    reply: &mut Reply,
) -> Result<(), Fault>
    requires below { I.is_below ≡ (λ k v. I.keys.less (I.key_of v) k) }
    requires above { I.is_above ≡ (λ k v. I.keys.less k (I.key_of v)) }
    ensures { KeyRepliedBy I.key_of I.keys of_ordered call args.old set.old set.new (told reply.new result) }
{
    match call {
        KeyedCall::Key => looks::key(&set.table, alloc, args, reply),
        KeyedCall::KeyElement => looks::key_element(&set.table, alloc, args, reply),
        KeyedCall::KeyFind => looks::key_find(&set.table, alloc, args, reply),
        KeyedCall::KeyContains => looks::key_contains(&set.table, alloc, args, reply),
        KeyedCall::KeyExclude => changes::key_exclude(&mut set.table, alloc, args, reply),
        KeyedCall::KeyDelete => changes::key_delete(&mut set.table, alloc, args, reply),
        KeyedCall::KeyReplace => changes::key_replace(&mut set.table, alloc, args, reply),
        KeyedCall::KeyFloor => looks::key_floor(&set.table, alloc, args, reply),
        KeyedCall::KeyCeiling => looks::key_ceiling(&set.table, alloc, args, reply),
    }
}
