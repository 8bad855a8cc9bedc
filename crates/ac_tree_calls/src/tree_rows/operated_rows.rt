//! Operations on trees as objects with rows: each goes to the calls that mean it.
ghost use Rattle.std.specs.Prelude.{◌≡◌};
ghost use Rattle.ac_calls.specs.Replied.{told};
ghost use Rattle.ac_calls.specs.TreeReplies.{tree_reply};
ghost use Rattle.ac_tree_calls.specs.TreeCalls.{TreeLooked, TreeChanged, TreeChangedWith};

use super::TreeRows;
use crate::tree_calls::{tree_change, tree_change_with, tree_look};
use ac_base::Fault;
use ac_calls::{
    Arguments, OperatedRows, Reply, Said, ScriptElement, common_call, common_call_with,
};
use ac_chain::EditedTree;
use ac_syntax::{Operation, TreeCall, TreeChangeCall};
use std::alloc::Global;

impl<T: ScriptElement, C: EditedTree<T>> TreeRows<T, C> {
    fn look(
        &self,
        alloc: Global,
        call: TreeCall,
        args: &mut Arguments,
        reply: &mut Reply,
    ) -> Result<(), Fault>
        ensures { TreeLooked T.tools call args.old self.now (told reply.new result) }
    {
        tree_look(&self.tree, alloc, call, args, reply)
    }

    fn change(
        &mut self,
        alloc: Global,
        call: TreeChangeCall,
        args: &mut Arguments,
        reply: &mut Reply,
    ) -> Result<(), Fault>
        ensures { TreeChanged T.tools call args.old self.old self.new (told reply.new result) }
    {
        tree_change(&mut self.tree, alloc, call, args, reply)
    }

    fn change_with(
        &mut self,
        source: &mut TreeRows<T, C>,
        alloc: Global,
        call: TreeChangeCall,
        args: &mut Arguments,
        reply: &mut Reply,
    ) -> Result<(), Fault>
        ensures { TreeChangedWith T.tools call args.old self.old source.old self.new source.new (told reply.new result) }
    {
        tree_change_with(&mut self.tree, &mut source.tree, alloc, call, args, reply)
    }
}

impl<T: ScriptElement, C: EditedTree<T>> OperatedRows for TreeRows<T, C> {
    ghost comes_to = { λ _ o source args operation. tree_reply T.tools o source args operation };

    fn operate(
        &mut self,
        alloc: Global,
        operation: Operation,
        args: &mut Arguments,
        reply: &mut Reply,
    ) -> Result<(), Fault> {
        match operation {
            Operation::Common(call) => common_call(self, alloc, call, args, reply),
            Operation::Tree(call) => self.look(alloc, call, args, reply),
            Operation::TreeChange(call) => self.change(alloc, call, args, reply),
            _ => {
                *reply = Reply::says(Said::Done);
                Ok(())
            }
        }
    }

    fn operate_with(
        &mut self,
        source: &mut TreeRows<T, C>,
        alloc: Global,
        operation: Operation,
        args: &mut Arguments,
        reply: &mut Reply,
    ) -> Result<(), Fault> {
        match operation {
            Operation::Common(call) => common_call_with(self, source, alloc, call, args, reply),
            Operation::Tree(call) => self.look(alloc, call, args, reply),
            Operation::TreeChange(call) => { self.change_with(source, alloc, call, args, reply) },
            _ => {
                *reply = Reply::says(Said::Done);
                Ok(())
            }
        }
    }
}
