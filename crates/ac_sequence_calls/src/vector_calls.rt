//! The calls of vectors alone: by index, and of another vector's elements.
ghost use Rattle.ac_calls.specs.Replied.{told};
ghost use Rattle.ac_sequence_calls.specs.SequenceCalls.{VectorAloneReplied};

mod copies;
mod indexes;

use ac_base::{Fault, Value};
use ac_calls::{Arguments, Reply, Said, ScriptElement};
use ac_chain::VectorLike;
use ac_syntax::VectorCall;
pub use copies::vector_call_with;
use std::alloc::Global;

/// A call of vectors alone, where the vector is its own source if the call has one.
#[inline(always)]
pub fn vector_call<V: VectorLike>(
    vector: &mut V,
    alloc: Global,
    call: VectorCall,
    args: &mut Arguments,
    reply: &mut Reply,
) -> Result<(), Fault>
where
    V::Element: ScriptElement,
    ensures { VectorAloneReplied V.Element.tools call args.old
        (V.seen vector.old) (V.seen vector.new) (told reply.new result) }
{
    match call {
        VectorCall::SetLength => indexes::set_length(vector, args, reply),
        VectorCall::ToCursor => indexes::to_cursor(vector, args, reply),
        VectorCall::ToIndex => indexes::to_index(vector, args, reply),
        VectorCall::FirstIndex => {
            reply.tell_apart(Said::Value(Value::Int(vector.first_index())));
            Ok(())
        }
        VectorCall::LastIndex => {
            reply.tell_integer(vector.last_index());
            Ok(())
        }
        VectorCall::ElementIndex => indexes::element_index(vector, alloc, args, reply),
        VectorCall::ReplaceIndex => indexes::replace_index(vector, alloc, args, reply),
        VectorCall::SwapIndex => indexes::swap_index(vector, args, reply),
        VectorCall::InsertIndex => indexes::insert_index(vector, alloc, args, reply),
        VectorCall::InsertVectorIndex => copies::insert_vector_index_self(vector, args, reply),
        VectorCall::InsertVector => copies::insert_vector_self(vector, args, reply),
        VectorCall::InsertVectorPos => copies::insert_vector_pos_self(vector, args, reply),
        VectorCall::AppendVector => copies::append_vector_self(vector, reply),
        VectorCall::PrependVector => copies::prepend_vector_self(vector, reply),
        VectorCall::DeleteIndex => indexes::delete_index(vector, args, reply),
        VectorCall::FindIndex => indexes::find_index(vector, alloc, args, reply),
        VectorCall::ReverseFindIndex => indexes::reverse_find_index(vector, alloc, args, reply),
    }
}
