//! The calls of hashed maps and sets, which have a Capacity.
ghost use Rattle.std.specs.Prelude.{◌≡◌, true};
ghost use Rattle.ac_calls.specs.Replied.{told};
ghost use Rattle.ac_calls.specs.RowCalls.{RowsReplied};
ghost use Rattle.ac_calls.specs.SequenceReplies.{capacity_reply};

use ac_base::{Fault, Value};
use ac_calls::{Arguments, Reply, Said};
use ac_setwork::{Index, Table};
use ac_syntax::CapacityCall;

/// A call of rows that have a Capacity.
pub fn capacity_call<I: Index>(
    rows: &mut Table<I>,
    call: CapacityCall,
    args: &Arguments,
    reply: &mut Reply,
) -> Result<(), Fault>
    requires { I.has_capacity ≡ true }
    ensures { RowsReplied (λ o seen. capacity_reply o seen call) args.now rows.old rows.new (told reply.new result) }
{
    match call {
        CapacityCall::Capacity => {
            reply.tell(Said::Value(Value::Int(rows.capacity())));
            Ok(())
        }
        CapacityCall::ReserveCapacity => reserve_capacity(rows, args, reply),
    }
}

fn reserve_capacity<I: Index>(
    rows: &mut Table<I>,
    args: &Arguments,
    reply: &mut Reply,
) -> Result<(), Fault>
    requires { I.has_capacity ≡ true }
    ensures { RowsReplied (λ o seen. capacity_reply o seen CapacityCall.ReserveCapacity) args.now
        rows.old rows.new (told reply.new result) }
{
    rows.reserve_capacity(args.first.count())?;
    reply.tell(Said::Done);
    Ok(())
}
