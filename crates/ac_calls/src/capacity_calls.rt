//! The calls of what has a Capacity: vectors, and hashed maps and sets.
ghost use Rattle.std.specs.Prelude.{◌≡◌, OnErr};
ghost use Rattle.ac_model.specs.Calls.{Same};
ghost use Rattle.ac_model.specs.Common as common;
ghost use Rattle.ac_model.specs.Containers.{Container};
ghost use Rattle.ac_model.specs.Forms.{Does};
ghost use Rattle.ac_model.specs.Objects.{plain};
ghost use Rattle.ac_calls.specs.SequenceReplies.{capacity_reply};
ghost use Rattle.ac_calls.specs.Replied.{told};
ghost use Rattle.ac_calls.specs.RowCalls.{RowsReplied};

use crate::argument::Arguments;
use crate::reply::{Reply, Said};
use ac_base::{Fault, Value};
use ac_syntax::CapacityCall;

/// What has a Capacity.
pub trait WithCapacity {
    type Row;

    ghost rows: { Self → Container Self.Row };

    fn capacity(&self) -> i64
        ensures { result ≡ common.capacity_call (plain (rows self.now).object) };

    fn reserve_capacity(&mut self, n: i64) -> Result<(), Fault>
        ensures changed { Does Same (λ o. common.reserve_capacity_call o n) (rows self.old) (rows self.new) result }
        ensures err { OnErr result (rows self.new ≡ rows self.old) };
}

/// A call of what has a Capacity.
pub fn capacity_call<C: WithCapacity>(
    object: &mut C,
    call: CapacityCall,
    args: &Arguments,
    reply: &mut Reply,
) -> Result<(), Fault>
    ensures { RowsReplied (λ o seen. capacity_reply o seen call) args.now
        (C.rows object.old) (C.rows object.new) (told reply.new result) }
{
    match call {
        CapacityCall::Capacity => {
            reply.tell(Said::Value(Value::Int(object.capacity())));
            Ok(())
        }
        CapacityCall::ReserveCapacity => reserve_capacity(object, args, reply),
    }
}

fn reserve_capacity<C: WithCapacity>(
    object: &mut C,
    args: &Arguments,
    reply: &mut Reply,
) -> Result<(), Fault>
    ensures { RowsReplied (λ o seen. capacity_reply o seen CapacityCall.ReserveCapacity) args.now
        (C.rows object.old) (C.rows object.new) (told reply.new result) }
{
    object.reserve_capacity(args.first.count())?;
    reply.tell(Said::Done);
    Ok(())
}
