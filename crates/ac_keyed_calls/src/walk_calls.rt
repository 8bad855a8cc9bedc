//! The calls that maps and sets have in common.
ghost use Rattle.std.specs.Prelude.{◌≡◌};
ghost use Rattle.ac_model.specs.Containers.{slots_of};
ghost use Rattle.ac_model.specs.Forms.{Sets, seen_by as mark_by};
ghost use Rattle.ac_model.specs.Keyed as keyed;
ghost use Rattle.ac_calls.specs.KeyedReplies.{walk_reply};
ghost use Rattle.ac_calls.specs.Replied.{told};
ghost use Rattle.ac_calls.specs.RowCalls.{RowsReplied};

use ac_base::Fault;
use ac_calls::{Arguments, Reply, RowObject, Said, row_cursors};
use ac_cursor::Cursor;
use ac_syntax::WalkCall;

/// A map or a set.
pub trait KeyedRows: RowObject {
    fn delete(&mut self, q: &mut Cursor) -> Result<(), Fault>
        ensures changed { Sets (λ o. keyed.delete_call o (mark_by (Self.rows self.old) q.old))
            (Self.rows self.old) q.old (Self.rows self.new) q.new result }
        ensures kind { Self.kind self.new ≡ Self.kind self.old }
        ensures slots { slots_of (Self.rows self.new) ≡ slots_of (Self.rows self.old) };
}

/// A call that maps and sets have.
pub fn walk_call<C: KeyedRows>(
    object: &mut C,
    call: WalkCall,
    args: &Arguments,
    reply: &mut Reply,
) -> Result<(), Fault>
    ensures replied { RowsReplied (λ o seen. walk_reply o seen call) args.now
        (C.rows object.old) (C.rows object.new) (told reply.new result) }
    ensures kind { C.kind object.new ≡ C.kind object.old }
{
    match call {
        WalkCall::First => {
            reply.tell(Said::Place(row_cursors::first(object)));
            Ok(())
        }
        WalkCall::Next => next(object, args, reply),
        WalkCall::Delete => delete(object, args, reply),
    }
}

fn next<C: KeyedRows>(object: &C, args: &Arguments, reply: &mut Reply) -> Result<(), Fault>
    ensures { RowsReplied (λ o seen. walk_reply o seen WalkCall.Next) args.now
        (C.rows object.now) (C.rows object.now) (told reply.new result) }
{
    let next = row_cursors::next(object, args.first.cursor())?;
    reply.tell(Said::Place(next));
    Ok(())
}

fn delete<C: KeyedRows>(object: &mut C, args: &Arguments, reply: &mut Reply) -> Result<(), Fault>
    ensures replied { RowsReplied (λ o seen. walk_reply o seen WalkCall.Delete) args.now
        (C.rows object.old) (C.rows object.new) (told reply.new result) }
    ensures kind { C.kind object.new ≡ C.kind object.old }
{
    let mut position = args.first.cursor();
    object.delete(&mut position)?;
    *reply = Reply::sets(0, position);
    Ok(())
}
