//! Operations on lists and vectors as objects with rows.
ghost use Rattle.ac_calls.specs.Holdings.{reply_by};
ghost use Rattle.ac_sequence_calls.specs.Sequences.{kind_of};

use super::Sequence;
use crate::sequence_operations::{
    operate_list, operate_list_with, operate_vector, operate_vector_with,
};
use ac_base::Fault;
use ac_calls::{Arguments, OperatedRows, Reply, ScriptElement};
use ac_chain::{ListLike, VectorLike};
use ac_syntax::Operation;
use std::alloc::Global;

impl<L: ListLike, V: VectorLike<Element = L::Element>> OperatedRows for Sequence<L, V>
where
    L::Element: ScriptElement,
{
    ghost comes_to = { λ s o source args operation. reply_by L.Element.tools o source args (kind_of s) operation };

    #[inline(always)]
    fn operate(
        &mut self,
        alloc: Global,
        operation: Operation,
        args: &mut Arguments,
        reply: &mut Reply,
    ) -> Result<(), Fault> {
        match self {
            Sequence::List(list) => operate_list(list, alloc, operation, args, reply),
            Sequence::Vector(vector) => operate_vector(vector, alloc, operation, args, reply),
        }
    }

    fn operate_with(
        &mut self,
        source: &mut Sequence<L, V>,
        alloc: Global,
        operation: Operation,
        args: &mut Arguments,
        reply: &mut Reply,
    ) -> Result<(), Fault> {
        match self {
            Sequence::List(list) => match source {
                Sequence::List(other) => {
                    operate_list_with(list, other, alloc, operation, args, reply)
                }
                Sequence::Vector(_) => unreachable!(),
            },
            Sequence::Vector(vector) => match source {
                Sequence::List(_) => unreachable!(),
                Sequence::Vector(other) => {
                    operate_vector_with(vector, other, alloc, operation, args, reply)
                }
            },
        }
    }
}
