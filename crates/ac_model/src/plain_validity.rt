//! Every effect keeps a valid holder or queue valid.
ghost use Rattle.std.specs.Prelude.{ℕ, ℤ};
ghost use Rattle.ac_model.specs.Holders as holder;
ghost use Rattle.ac_model.specs.Holders.{Holder, KeepsHolder, KeepsBothHolders};
ghost use Rattle.ac_model.specs.Queues as queue;
ghost use Rattle.ac_model.specs.Queues.{Queue, Discipline, KeepsQueue};

/// The calls of holders: an element is no larger than the limit.
pub fn holder_calls<T>()
    ensures replace_element { (size : T → ℕ) (h : Holder T) (element : T) →
        KeepsHolder size h (holder.replace_element_call size h element) }
    ensures write { (size : T → ℕ) (h : Holder T) (element : T) → KeepsHolder size h (holder.write_call size h element) }
    ensures clear { (size : T → ℕ) (h : Holder T) → KeepsHolder size h (holder.clear_call h) }
    ensures assign { (size : T → ℕ) (target source : Holder T) → KeepsHolder size target (holder.assign_call size target source) }
    ensures move_from { (size : T → ℕ) (target source : Holder T) →
        KeepsBothHolders size target source (holder.move_from_call size target source) }
    ensures swap { (size : T → ℕ) (target source : Holder T) → KeepsBothHolders size target source (holder.swap_call size target source) }
{}

/// The calls of queues, where they don't wait: a priority queue stays in line.
pub fn queue_calls()
    ensures enqueue { (discipline : Discipline) (q : Queue) (item : ℤ) → KeepsQueue discipline q (queue.enqueue_call discipline q item) }
    ensures dequeue { (discipline : Discipline) (q : Queue) → KeepsQueue discipline q (queue.dequeue_call q) }
    ensures high_only { (discipline : Discipline) (q : Queue) (at_least : ℤ) → KeepsQueue discipline q (queue.high_only_call q at_least) }
{}
