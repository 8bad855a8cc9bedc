//! Objects with rows as the operations of scripts find them. They stand apart from `RowObject`, so that the calls that an operation goes to can ask that of the object.
ghost use Rattle.std.specs.Prelude.{◌≡◌, ℕ};
ghost use Rattle.ac_model.specs.Objects.{Object, plain};
ghost use Rattle.ac_syntax.specs.declared.operation.Operation.{Operation as Operations};
ghost use Rattle.ac_calls.specs.Replies as replies;
ghost use Rattle.ac_calls.specs.Holdings.{seen_in};
ghost use Rattle.ac_calls.specs.Replies.{itself, another, arguments_seen};
ghost use Rattle.ac_calls.specs.Arguments.{AllAgree, arguments_of};
ghost use Rattle.ac_calls.specs.Replied.{Replied, RepliedWith, told};

use crate::argument::Arguments;
use crate::reply::Reply;
use crate::row_object::RowObject;
use ac_base::Fault;
use ac_syntax::Operation;
use std::alloc::Global;

/// An object with rows on which operations are made.
pub trait OperatedRows: RowObject {
    /// What an operation comes to.
    ghost comes_to: { Self → Object ℕ Self.Row → replies.Source (Object ℕ Self.Row) → replies.Arguments → Operations →
        replies.Reply (Object ℕ Self.Row) };

    /// Makes a call with the object itself as the source, where the call has one.
    fn operate(
        &mut self,
        alloc: Global,
        operation: Operation,
        args: &mut Arguments,
        reply: &mut Reply,
    ) -> Result<(), Fault>
        requires agree { AllAgree (Self.rows self.old).object args.old }
        ensures replied { let o = plain (Self.rows self.old).object in
            Replied (Self.comes_to self.old o itself (arguments_seen (seen_in (Self.kind self.old) o) (arguments_of args.old)) operation)
            (Self.rows self.old) (Self.rows self.new) (told reply.new result) }
        ensures kind { Self.kind self.new ≡ Self.kind self.old };

    /// Makes a call with another one of the same kind as the source.
    fn operate_with(
        &mut self,
        source: &mut Self,
        alloc: Global,
        operation: Operation,
        args: &mut Arguments,
        reply: &mut Reply,
    ) -> Result<(), Fault>
        requires like { Self.kind source.old ≡ Self.kind self.old }
        requires agree { AllAgree (Self.rows self.old).object args.old }
        requires agree_with_source { AllAgree (Self.rows source.old).object args.old }
        ensures replied { let o = plain (Self.rows self.old).object in let s = plain (Self.rows source.old).object in
            let kind = Self.kind self.old in
            RepliedWith
            (Self.comes_to self.old o (another s (arguments_seen (seen_in kind s) (arguments_of args.old)))
            (arguments_seen (seen_in kind o) (arguments_of args.old)) operation)
            (Self.rows self.old) (Self.rows source.old) (Self.rows self.new) (Self.rows source.new) (told reply.new result) }
        ensures kind { Self.kind self.new ≡ Self.kind self.old }
        ensures source_kind { Self.kind source.new ≡ Self.kind source.old };
}
