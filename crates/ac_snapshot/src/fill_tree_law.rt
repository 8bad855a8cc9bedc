//! How a tree is filled.
ghost use Rattle.ac_snapshot.specs.FillTrees.{FillsTrees};

/// A tree that was just declared is filled by a call for each row, under the parent that is on the path to the row before.
pub fn trees_fill()
    ensures { FillsTrees }
{}
