ghost use Rattle.std.specs.Prelude.{◌≡◌, ◌+ℤ◌, Bool};
ghost use Rattle.ac_history.specs.Steps.{is_integer, sum_reply};

use ac_base::Reason;
use ac_history::Reply;

/// The sum as a reply, refused where it is outside the integers.
pub(crate) fn sum(base: i64, add: i64) -> Reply
    ensures { result ≡ sum_reply (base +ℤ add) }
{
    narrow(base as i128 + add as i128)
}

fn narrow(total: i128) -> Reply
    ensures { result ≡ sum_reply total }
{
    if total < i64::MIN as i128 {
        return Reply::Raised(Reason::Overflow);
    }
    if total > i64::MAX as i128 {
        return Reply::Raised(Reason::Overflow);
    }
    Reply::Number(total as i64)
}
