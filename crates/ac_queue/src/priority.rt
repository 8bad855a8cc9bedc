ghost use Rattle.std.specs.Prelude.{◌≡◌};
ghost use Rattle.ac_model.specs.Queues.{priority};

/// Get_Priority (A.18.30).
pub(crate) fn priority(item: i64) -> i64
    ensures { result ≡ priority item }
{
    item / 100
}
