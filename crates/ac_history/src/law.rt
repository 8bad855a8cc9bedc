//! What holds of histories, and of blocks that began alike.
ghost use Rattle.std.specs.Prelude.{◌≡◌, ◌++◌, [], List, ℕ};
ghost use Rattle.ac_history.specs.declared.entry.Entry.{Entry};
ghost use Rattle.ac_history.specs.Blocks.{Block, SameStart, after_turns, with_entries};
ghost use Rattle.ac_history.specs.Histories.{IsLegal, Turned, begun_at, turned, replay};
ghost use Rattle.ac_history.specs.Orders.{OrdersRun, HistoriesHaveOrders};
ghost use Rattle.ac_history.specs.States.{State};

/// Turns of tasks, as they come, make a legal history, and leave what its replay leaves.
pub fn every_list_of_turns()
    ensures legal { (start : State) (tasks : List ℕ) → IsLegal start (turned (begun_at start) tasks).history }
    ensures replayed { (start : State) (tasks : List ℕ) →
        replay start (turned (begun_at start) tasks).history ≡ (turned (begun_at start) tasks).state }
{}

/// A history is explained in parts: the second part from where the first one ends.
pub fn in_parts()
    ensures legal { (start : State) (first second : List Entry) →
        IsLegal start first → IsLegal (replay start first) second → IsLegal start (first ++ second) }
    ensures replayed { (start : State) (first second : List Entry) →
        replay start (first ++ second) ≡ replay (replay start first) second }
{}

/// To have begun alike is an equivalence.
pub fn begun_alike()
    ensures with_itself { (b : Block) → SameStart b b }
    ensures turned_round { (b other : Block) → SameStart b other → SameStart other b }
    ensures passed_on { (b other third : Block) → SameStart b other → SameStart other third → SameStart b third }
{}

/// A block has begun as it did, whatever was done since.
pub fn start_stays()
    ensures any_entries { (b : Block) (more : List Entry) → SameStart (with_entries b more) b }
    ensures any_turns { (b : Block) (tasks : List ℕ) → SameStart (after_turns b tasks) b }
{}

/// Each order runs a block to its end by a legal history, and each legal history that ends there is that of an order: so to say
/// that a run goes by some order is to say that its history is legal and nothing more can be done behind it.
pub fn orders_and_histories()
    ensures runs { OrdersRun }
    ensures all { HistoriesHaveOrders }
{}
