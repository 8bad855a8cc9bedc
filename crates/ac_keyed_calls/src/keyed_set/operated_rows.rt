//! Operations on keyed sets as objects with rows: the calls by key, and else those of sets.
ghost use Rattle.std.specs.Prelude.{◌≡◌};
ghost use Rattle.ac_base.specs.Key.{key_of_text};
ghost use Rattle.ac_calls.specs.KeyedSetReplies.{keyed_set_reply};
ghost use Rattle.ac_calls.specs.Replied.{told};
ghost use Rattle.ac_keyed_calls.specs.KeyCalls.{KeyRepliedBy};
ghost use Rattle.ac_keyed_calls.specs.KeyedSets.{keyed_items, keyed_kind, keys_of};

use super::KeyedSet;
use crate::key_calls::{hashed_key_call, ordered_key_call};
use crate::set::Set;
use crate::set_kind::{HashedSetKind, KeyedSetKind, OrderedSetKind};
use ac_base::{Fault, KeyedText};
use ac_calls::{Arguments, OperatedRows, Reply};
use ac_setwork::Ordered;
use ac_syntax::{KeyedCall, Operation};
use std::alloc::Global;

impl<H, O> KeyedSet<H, O>
where
    H: HashedSetKind<KeyedText> + KeyedSetKind,
    O: OrderedSetKind<KeyedText> + KeyedSetKind,
    O::Index: Ordered,
{
    /// A call by key, as each of the two kinds has it.
    fn key_call(
        &mut self,
        alloc: Global,
        call: KeyedCall,
        args: &mut Arguments,
        reply: &mut Reply,
    ) -> Result<(), Fault>
        ensures replied { KeyRepliedBy key_of_text (keys_of self.old) (keyed_kind self.old) call args.old
            (keyed_items self.old) (keyed_items self.new) (told reply.new result) }
        ensures kind { keyed_kind self.new ≡ keyed_kind self.old }
    {
        match &mut self.set {
            Set::Hashed(set) => hashed_key_call(set, alloc, call, args, reply),
            Set::Ordered(set) => ordered_key_call(set, alloc, call, args, reply),
        }
    }
}

impl<H, O> OperatedRows for KeyedSet<H, O>
where
    H: HashedSetKind<KeyedText> + KeyedSetKind,
    O: OrderedSetKind<KeyedText> + KeyedSetKind,
    O::Index: Ordered,
{
    ghost comes_to = { λ m o source args operation. keyed_set_reply o source args (keyed_kind m) operation };

    fn operate(
        &mut self,
        alloc: Global,
        operation: Operation,
        args: &mut Arguments,
        reply: &mut Reply,
    ) -> Result<(), Fault> {
        match operation {
            Operation::Keyed(call) => self.key_call(alloc, call, args, reply),
            _ => self.set.operate(alloc, operation, args, reply),
        }
    }

    fn operate_with(
        &mut self,
        source: &mut KeyedSet<H, O>,
        alloc: Global,
        operation: Operation,
        args: &mut Arguments,
        reply: &mut Reply,
    ) -> Result<(), Fault> {
        match operation {
            Operation::Keyed(call) => self.key_call(alloc, call, args, reply),
            _ => {
                self.set
                    .operate_with(&mut source.set, alloc, operation, args, reply)
            }
        }
    }
}
