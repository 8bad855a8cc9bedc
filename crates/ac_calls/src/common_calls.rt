//! The calls that all kinds of rows have.
ghost use Rattle.std.specs.Prelude.{◌≡◌};
ghost use Rattle.ac_model.specs.Calls.{Same};
ghost use Rattle.ac_model.specs.Common as common;
ghost use Rattle.ac_model.specs.Containers.{Grows, slots_of};
ghost use Rattle.ac_model.specs.Forms.{Does, DoesBoth};
ghost use Rattle.ac_model.specs.Objects.{plain};
ghost use Rattle.ac_calls.specs.Replies.{itself};
ghost use Rattle.ac_calls.specs.SequenceReplies.{common_reply};
ghost use Rattle.ac_calls.specs.Arguments.{mark_in};
ghost use Rattle.ac_calls.specs.RowWrites.{WritesIn};
ghost use Rattle.ac_calls.specs.Replied.{told};
ghost use Rattle.ac_calls.specs.RowCalls.{KindReplied, KindRepliedWith};

mod alone;
mod sources;

use crate::argument::Arguments;
use crate::reply::{Reply, Said};
use crate::row_object::RowObject;
use ac_base::{Fault, Value};
use ac_cursor::Cursor;
use ac_syntax::CommonCall;
use std::alloc::Global;

/// Rows with the calls that all kinds have.
pub trait CommonRows: RowObject {
    fn length(&self) -> i64
        ensures { result ≡ common.length_call (plain (Self.rows self.now).object) };

    fn is_empty(&self) -> bool
        ensures { result ≡ common.is_empty_call (plain (Self.rows self.now).object) };

    fn has_element(&self, c: Cursor) -> bool
        ensures { result ≡ common.has_element_call (plain (Self.rows self.now).object)
            (mark_in (Self.kind self.now) (Self.rows self.now).object c) };

    fn equal(&self, other: &Self) -> bool
        requires { Self.kind other.now ≡ Self.kind self.now }
        ensures { result ≡ (Self.own self.now (plain (Self.rows self.now).object)).equal (plain (Self.rows other.now).object) };

    /// "=" with itself: a kind may know the answer.
    fn equal_self(&self) -> bool
        ensures { result ≡ (Self.own self.now (plain (Self.rows self.now).object)).equal (plain (Self.rows self.now).object) }
    {
        self.equal(self)
    }

    fn clear(&mut self) -> Result<(), Fault>
        ensures changed { Does Same common.clear_call (Self.rows self.old) (Self.rows self.new) result }
        ensures kind { Self.kind self.new ≡ Self.kind self.old }
        ensures slots { slots_of (Self.rows self.new) ≡ slots_of (Self.rows self.old) };

    /// Replaces the element at the cursor, by a call of the library.
    fn replace_value(&mut self, alloc: Global, c: Cursor, value: Value) -> Result<(), Fault>
        ensures replaced { WritesIn (λ o. (Self.own self.old o).replace_element
            (mark_in (Self.kind self.old) (Self.rows self.old).object c) value) (Self.rows self.old) (Self.rows self.new) result }
        ensures kind { Self.kind self.new ≡ Self.kind self.old };

    fn assign_self(&mut self) -> Result<(), Fault>
        ensures changed { Does Same common.assign_self_call (Self.rows self.old) (Self.rows self.new) result }
        ensures same { self.new ≡ self.old };

    fn move_from_self(&mut self) -> Result<(), Fault>
        ensures changed { Does Same common.move_from_self_call (Self.rows self.old) (Self.rows self.new) result }
        ensures same { self.new ≡ self.old };

    fn assign(&mut self, source: &Self) -> Result<(), Fault>
        requires like { Self.kind source.now ≡ Self.kind self.old }
        ensures changed { Does Same (λ o. common.assign_call o (plain (Self.rows source.now).object))
            (Self.rows self.old) (Self.rows self.new) result }
        ensures kind { Self.kind self.new ≡ Self.kind self.old }
        ensures slots { Grows result (Self.rows self.old) (Self.rows self.new) };

    fn move_from(&mut self, source: &mut Self) -> Result<(), Fault>
        requires like { Self.kind source.old ≡ Self.kind self.old }
        ensures changed { DoesBoth Same common.move_from_call (Self.rows self.old) (Self.rows source.old)
            (Self.rows self.new) (Self.rows source.new) result }
        ensures kind { Self.kind self.new ≡ Self.kind self.old }
        ensures source_kind { Self.kind source.new ≡ Self.kind source.old }
        ensures slots { Grows result (Self.rows self.old) (Self.rows self.new) }
        ensures source { slots_of (Self.rows source.new) ≡ slots_of (Self.rows source.old) };
}

/// Makes a call that all kinds have, with the object itself as the source, where the call has one.
#[inline(always)]
pub fn common_call<C: CommonRows>(
    object: &mut C,
    alloc: Global,
    call: CommonCall,
    args: &mut Arguments,
    reply: &mut Reply,
) -> Result<(), Fault>
    ensures replied { KindReplied (C.kind object.old) (λ o seen. common_reply o itself seen (C.own object.old o) call) args.old
        (C.rows object.old) (C.rows object.new) (told reply.new result) }
    ensures kind { C.kind object.new ≡ C.kind object.old }
{
    match call {
        CommonCall::IsEmpty => {
            reply.tell_apart(Said::Truth(object.is_empty()));
            Ok(())
        }
        CommonCall::Clear => alone::clear(object, reply),
        CommonCall::Assign => alone::assign(object, reply),
        CommonCall::MoveFrom => alone::move_from(object, reply),
        CommonCall::Equal => {
            reply.tell_apart(Said::Truth(object.equal_self()));
            Ok(())
        }
        CommonCall::HasElement => alone::has_element(object, args, reply),
        CommonCall::Element => alone::element(object, alloc, args, reply),
        CommonCall::ReplaceElement => alone::replace_element(object, alloc, args, reply),
        CommonCall::Print => {
            reply.tell_apart(Said::Listing);
            Ok(())
        }
        CommonCall::Length => {
            reply.tell_integer(object.length());
            Ok(())
        }
    }
}

/// The same with another one of its kind as the source.
pub fn common_call_with<C: CommonRows>(
    object: &mut C,
    source: &mut C,
    alloc: Global,
    call: CommonCall,
    args: &mut Arguments,
    reply: &mut Reply,
) -> Result<(), Fault>
    requires like { C.kind source.old ≡ C.kind object.old }
    ensures replied { KindRepliedWith (C.kind object.old) (λ o source seen. common_reply o source seen (C.own object.old o) call) args.old
        (C.rows object.old) (C.rows source.old) (C.rows object.new) (C.rows source.new) (told reply.new result) }
    ensures kind { C.kind object.new ≡ C.kind object.old }
    ensures source_kind { C.kind source.new ≡ C.kind source.old }
{
    match call {
        CommonCall::Assign => sources::assign(object, source, reply),
        CommonCall::MoveFrom => sources::move_from(object, source, reply),
        CommonCall::Equal => {
            reply.tell(Said::Truth(object.equal(source)));
            Ok(())
        }
        _ => common_call(object, alloc, call, args, reply),
    }
}
