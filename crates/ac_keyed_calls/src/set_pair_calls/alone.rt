//! The calls of two sets, with the set itself as the source.
ghost use Rattle.ac_model.specs.Objects.{plain};
ghost use Rattle.ac_model.specs.Sets as sets;
ghost use Rattle.ac_calls.specs.Answers.{answers_truth};
ghost use Rattle.ac_calls.specs.Replied.{Replied, told};
ghost use Rattle.ac_calls.specs.Replies.{changes_ok, tells};

use ac_base::Fault;
use ac_calls::{Reply, Said};
use ac_setwork::{Index, Table};

pub fn union<I: Index>(set: &mut Table<I>, reply: &mut Reply) -> Result<(), Fault>
    ensures { Replied (changes_ok (sets.union_self_call (plain set.old.object))) set.old set.new (told reply.new result) }
{
    set.union_self()?;
    reply.tell(Said::Done);
    Ok(())
}

pub fn intersection<I: Index>(set: &mut Table<I>, reply: &mut Reply) -> Result<(), Fault>
    ensures { Replied (changes_ok (sets.intersection_self_call (plain set.old.object))) set.old set.new (told reply.new result) }
{
    set.intersection_self()?;
    reply.tell(Said::Done);
    Ok(())
}

pub fn difference<I: Index>(set: &mut Table<I>, reply: &mut Reply) -> Result<(), Fault>
    ensures { Replied (changes_ok (sets.difference_self_call (plain set.old.object))) set.old set.new (told reply.new result) }
{
    set.difference_self()?;
    reply.tell(Said::Done);
    Ok(())
}

pub fn symmetric_difference<I: Index>(set: &mut Table<I>, reply: &mut Reply) -> Result<(), Fault>
    ensures { Replied (changes_ok (sets.symmetric_difference_self_call (plain set.old.object))) set.old set.new (told reply.new result) }
{
    set.symmetric_difference_self()?;
    reply.tell(Said::Done);
    Ok(())
}

pub fn overlap<I: Index>(set: &Table<I>, reply: &mut Reply) -> Result<(), Fault>
    ensures { let o = plain set.now.object in
        Replied (tells o (answers_truth (sets.overlap_call I.order o o))) set.now set.now (told reply.new result) }
{
    reply.tell(Said::Truth(set.overlap(set)));
    Ok(())
}

pub fn is_subset<I: Index>(set: &Table<I>, reply: &mut Reply) -> Result<(), Fault>
    ensures { let o = plain set.now.object in
        Replied (tells o (answers_truth (sets.is_subset_call I.order o o))) set.now set.now (told reply.new result) }
{
    reply.tell(Said::Truth(set.is_subset(set)));
    Ok(())
}

pub fn equivalent_sets<I: Index>(set: &Table<I>, reply: &mut Reply) -> Result<(), Fault>
    ensures { let o = plain set.now.object in
        Replied (tells o (answers_truth (sets.equivalent_sets_call I.order o o))) set.now set.now (told reply.new result) }
{
    reply.tell(Said::Truth(set.equivalent_sets(set)));
    Ok(())
}
