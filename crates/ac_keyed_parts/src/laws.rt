//! What a caller knows of calls that follow one another.
ghost use Rattle.std.specs.Prelude.{◌≡◌, None};
ghost use Rattle.ac_balance.specs.Indexed.{cleared};

use ac_balance::OrderIndex;
use ac_base::Name;

/// An index that was cleared has no first row.
pub fn emptied(index: &mut OrderIndex<i64, i64>) -> Option<Name>
    ensures cleared { index.new ≡ cleared index.old }
    ensures none { result ≡ None }
{
    index.clear();
    index.first()
}
