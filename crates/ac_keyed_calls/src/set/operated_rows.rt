//! Operations on hashed and ordered sets, as each of the two has them.
ghost use Rattle.ac_calls.specs.SetReplies.{set_reply};
ghost use Rattle.ac_keyed_calls.specs.Sets.{set_kind_of};

use super::Set;
use crate::set_kind::{HashedSetKind, OrderedSetKind};
use crate::set_operations::{
    operate_hashed, operate_hashed_with, operate_ordered, operate_ordered_with,
};
use ac_base::Fault;
use ac_calls::{Arguments, OperatedRows, Reply, ScriptElement};
use ac_setwork::Ordered;
use ac_syntax::Operation;
use std::alloc::Global;

impl<T: ScriptElement, H: HashedSetKind<T>, O: OrderedSetKind<T>> OperatedRows for Set<T, H, O>
where
    O::Index: Ordered,
{
    ghost comes_to = { λ m o source args operation. set_reply T.tools o source args (set_kind_of m) operation };

    fn operate(
        &mut self,
        alloc: Global,
        operation: Operation,
        args: &mut Arguments,
        reply: &mut Reply,
    ) -> Result<(), Fault> {
        match self {
            Set::Hashed(set) => operate_hashed(set, alloc, operation, args, reply),
            Set::Ordered(set) => operate_ordered(set, alloc, operation, args, reply),
        }
    }

    fn operate_with(
        &mut self,
        source: &mut Set<T, H, O>,
        alloc: Global,
        operation: Operation,
        args: &mut Arguments,
        reply: &mut Reply,
    ) -> Result<(), Fault> {
        match self {
            Set::Hashed(set) => match source {
                Set::Hashed(other) => {
                    operate_hashed_with(set, other, alloc, operation, args, reply)
                }
                Set::Ordered(_) => unreachable!(),
            },
            Set::Ordered(set) => match source {
                Set::Hashed(_) => unreachable!(),
                Set::Ordered(other) => {
                    operate_ordered_with(set, other, alloc, operation, args, reply)
                }
            },
        }
    }
}
