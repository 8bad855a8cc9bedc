//! What the bound on steps comes to.
ghost use Rattle.ac_balance.specs.Bounds.{TakesAtMost};

/// Among 1,000 rows a search takes at most 40 steps, and among 200,000 at most 72.

pub fn steps_of_searches()
    ensures thousand { TakesAtMost 1000 40 }
    ensures many { TakesAtMost 200000 72 }
{}
