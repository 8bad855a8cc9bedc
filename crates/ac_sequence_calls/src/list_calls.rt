//! The calls of lists alone, in which elements move with their cursors.
ghost use Rattle.std.specs.Prelude.{◌≡◌};
ghost use Rattle.ac_model.specs.Containers.{slots_of, Grows};
ghost use Rattle.ac_model.specs.Forms.{Does, DoesBoth, seen_by};
ghost use Rattle.ac_model.specs.Lists as lists;
ghost use Rattle.ac_sequence_calls.specs.SequenceCalls.{ListAloneReplied, ListAloneRepliedWith};
ghost use Rattle.ac_calls.specs.Replied.{IsAnswer, told};

use ac_base::Fault;
use ac_calls::{Arguments, Reply, Said, ScriptElement};
use ac_chain::ListLike;
use ac_cursor::Cursor;
use ac_syntax::ListCall;

/// A call of lists alone, where the list is its own source if the call has one.
pub fn list_call<L: ListLike>(
    list: &mut L,
    call: ListCall,
    args: &Arguments,
    reply: &mut Reply,
) -> Result<(), Fault>
where
    L::Element: ScriptElement,
    ensures { ListAloneReplied L.Element.tools call args.now
        (L.seen list.old) (L.seen list.new) (told reply.new result) }
{
    match call {
        ListCall::SwapLinks => swap_links(list, args, reply),
        ListCall::Splice => splice_self(list, args, reply),
        ListCall::SpliceOne => splice_one_self(list, args, reply),
        ListCall::SpliceWithin => splice_within(list, args, reply),
    }
}

/// The same with another list as the source. The variable that a splice of one element sets is a cursor of the target.
pub fn list_call_with<L: ListLike>(
    list: &mut L,
    source: &mut L,
    call: ListCall,
    args: &Arguments,
    reply: &mut Reply,
) -> Result<(), Fault>
where
    L::Element: ScriptElement,
    ensures { ListAloneRepliedWith L.Element.tools call args.now
        (L.seen list.old) (L.seen source.old) (L.seen list.new) (L.seen source.new) (told reply.new result) }
{
    match call {
        ListCall::Splice => splice(list, source, args, reply),
        ListCall::SpliceOne => splice_one(list, source, args, reply),
        ListCall::SwapLinks | ListCall::SpliceWithin => list_call(list, call, args, reply),
    }
}

fn swap_links<L: ListLike>(list: &mut L, args: &Arguments, reply: &mut Reply) -> Result<(), Fault>
where
    L::Element: ScriptElement,
    ensures { ListAloneReplied L.Element.tools ListCall.SwapLinks args.now
        (L.seen list.old) (L.seen list.new) (told reply.new result) }
{
    list.swap_links(args.first.cursor(), args.second.cursor())?;
    reply.tell(Said::Done);
    Ok(())
}

fn splice_self<L: ListLike>(list: &mut L, args: &Arguments, reply: &mut Reply) -> Result<(), Fault>
where
    L::Element: ScriptElement,
    ensures { ListAloneReplied L.Element.tools ListCall.Splice args.now
        (L.seen list.old) (L.seen list.new) (told reply.new result) }
{
    list.splice_self(args.first.cursor())?;
    reply.tell(Said::Done);
    Ok(())
}

fn splice_one_self<L: ListLike>(
    list: &mut L,
    args: &Arguments,
    reply: &mut Reply,
) -> Result<(), Fault>
where
    L::Element: ScriptElement,
    ensures { ListAloneReplied L.Element.tools ListCall.SpliceOne args.now
        (L.seen list.old) (L.seen list.new) (told reply.new result) }
{
    let before = args.first.cursor();
    let moved = own_splice_one_self(list, before, args.third.cursor())?;
    *reply = Reply::sets(2, moved);
    Ok(())
}

fn splice_within<L: ListLike>(
    list: &mut L,
    args: &Arguments,
    reply: &mut Reply,
) -> Result<(), Fault>
where
    L::Element: ScriptElement,
    ensures { ListAloneReplied L.Element.tools ListCall.SpliceWithin args.now
        (L.seen list.old) (L.seen list.new) (told reply.new result) }
{
    list.splice_within(args.first.cursor(), args.second.cursor())?;
    reply.tell(Said::Done);
    Ok(())
}

fn splice<L: ListLike>(
    list: &mut L,
    source: &mut L,
    args: &Arguments,
    reply: &mut Reply,
) -> Result<(), Fault>
where
    L::Element: ScriptElement,
    ensures { ListAloneRepliedWith L.Element.tools ListCall.Splice args.now
        (L.seen list.old) (L.seen source.old) (L.seen list.new) (L.seen source.new) (told reply.new result) }
{
    list.splice(args.first.cursor(), source)?;
    reply.tell(Said::Done);
    Ok(())
}

fn splice_one<L: ListLike>(
    list: &mut L,
    source: &mut L,
    args: &Arguments,
    reply: &mut Reply,
) -> Result<(), Fault>
where
    L::Element: ScriptElement,
    ensures { ListAloneRepliedWith L.Element.tools ListCall.SpliceOne args.now
        (L.seen list.old) (L.seen source.old) (L.seen list.new) (L.seen source.new) (told reply.new result) }
{
    let moved = own_splice_one(list, args.first.cursor(), source, args.third.cursor())?;
    *reply = Reply::sets(2, moved);
    Ok(())
}

/// What the cursor becomes.
fn own_splice_one_self<L: ListLike>(
    list: &mut L,
    before: Cursor,
    c: Cursor,
) -> Result<Cursor, Fault>
    ensures changed { Does (IsAnswer (L.seen list.new).object)
        (λ o. lists.splice_one_self_call o (seen_by (L.seen list.old) before) (seen_by (L.seen list.old) c))
        (L.seen list.old) (L.seen list.new) result }
    ensures spare { (L.seen list.new).spare ≡ (L.seen list.old).spare }
{
    let mut moved = c;
    list.splice_one_self(before, &mut moved)?;
    Ok(moved)
}

/// The cursor of the element where it is now.
fn own_splice_one<L: ListLike>(
    list: &mut L,
    before: Cursor,
    source: &mut L,
    c: Cursor,
) -> Result<Cursor, Fault>
    ensures changed { DoesBoth (IsAnswer (L.seen list.new).object)
        (λ o s. lists.splice_one_call o (seen_by (L.seen list.old) before) s (seen_by (L.seen source.old) c))
        (L.seen list.old) (L.seen source.old) (L.seen list.new) (L.seen source.new) result }
    ensures slots { Grows result (L.seen list.old) (L.seen list.new) }
    ensures source { slots_of (L.seen source.new) ≡ slots_of (L.seen source.old) }
{
    let mut moved = c;
    list.splice_one(before, source, &mut moved)?;
    Ok(moved)
}
