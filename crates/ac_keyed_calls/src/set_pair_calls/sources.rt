//! The calls of two sets, with another one of its kind as the source, which stays as it is.
ghost use Rattle.ac_model.specs.Objects.{plain};
ghost use Rattle.ac_model.specs.Sets as sets;
ghost use Rattle.ac_calls.specs.Answers.{answers_truth};
ghost use Rattle.ac_calls.specs.Replied.{RepliedWith, told};
ghost use Rattle.ac_calls.specs.Replies.{changes_ok, tells};

use ac_base::Fault;
use ac_calls::{Reply, Said};
use ac_setwork::{Index, Table};

pub fn union<I: Index>(
    set: &mut Table<I>,
    source: &Table<I>,
    reply: &mut Reply,
) -> Result<(), Fault>
    ensures { RepliedWith (changes_ok (sets.union_call I.order (plain set.old.object) (plain source.now.object)))
        set.old source.now set.new source.now (told reply.new result) }
{
    set.union(source)?;
    reply.tell(Said::Done);
    Ok(())
}

pub fn intersection<I: Index>(
    set: &mut Table<I>,
    source: &Table<I>,
    reply: &mut Reply,
) -> Result<(), Fault>
    ensures { RepliedWith (changes_ok (sets.intersection_call I.order (plain set.old.object) (plain source.now.object)))
        set.old source.now set.new source.now (told reply.new result) }
{
    set.intersection(source)?;
    reply.tell(Said::Done);
    Ok(())
}

pub fn difference<I: Index>(
    set: &mut Table<I>,
    source: &Table<I>,
    reply: &mut Reply,
) -> Result<(), Fault>
    ensures { RepliedWith (changes_ok (sets.difference_call I.order (plain set.old.object) (plain source.now.object)))
        set.old source.now set.new source.now (told reply.new result) }
{
    set.difference(source)?;
    reply.tell(Said::Done);
    Ok(())
}

pub fn symmetric_difference<I: Index>(
    set: &mut Table<I>,
    source: &Table<I>,
    reply: &mut Reply,
) -> Result<(), Fault>
    ensures { RepliedWith (changes_ok (sets.symmetric_difference_call I.order (plain set.old.object) (plain source.now.object)))
        set.old source.now set.new source.now (told reply.new result) }
{
    set.symmetric_difference(source)?;
    reply.tell(Said::Done);
    Ok(())
}

pub fn overlap<I: Index>(set: &Table<I>, source: &Table<I>, reply: &mut Reply) -> Result<(), Fault>
    ensures { let o = plain set.now.object in
        RepliedWith (tells o (answers_truth (sets.overlap_call I.order o (plain source.now.object))))
        set.now source.now set.now source.now (told reply.new result) }
{
    reply.tell(Said::Truth(set.overlap(source)));
    Ok(())
}

pub fn is_subset<I: Index>(
    set: &Table<I>,
    source: &Table<I>,
    reply: &mut Reply,
) -> Result<(), Fault>
    ensures { let o = plain set.now.object in
        RepliedWith (tells o (answers_truth (sets.is_subset_call I.order o (plain source.now.object))))
        set.now source.now set.now source.now (told reply.new result) }
{
    reply.tell(Said::Truth(set.is_subset(source)));
    Ok(())
}

pub fn equivalent_sets<I: Index>(
    set: &Table<I>,
    source: &Table<I>,
    reply: &mut Reply,
) -> Result<(), Fault>
    ensures { let o = plain set.now.object in
        RepliedWith (tells o (answers_truth (sets.equivalent_sets_call I.order o (plain source.now.object))))
        set.now source.now set.now source.now (told reply.new result) }
{
    reply.tell(Said::Truth(set.equivalent_sets(source)));
    Ok(())
}
