//! Rows that are taken out of a chain, with their values dropped. Each of them takes a constant time.
ghost use Rattle.std.specs.Prelude.{◌-◌, length};
ghost use Rattle.std.specs.Option.{ForSome};
ghost use Rattle.ac_chain.specs.Rows.{IsLive, IsSound, place_of};
ghost use Rattle.ac_chain.specs.Cut.{IsCut};

use crate::chain::Chain;
use ac_base::Name;

/// Takes at most so many rows out, from the place on.
pub fn remove_from<T: Drop>(chain: &mut Chain<T>, mut place: Option<Name>, n: u64)
    requires place { ForSome place (IsLive chain.old) }
    requires sound { IsSound chain.old }
    ensures cut { IsCut chain.old (place_of place chain.old.rows) n chain.new }
    ensures sound { IsSound chain.new }
{
    for _i in 0..n {
        match place {
            None => return,
            Some(name) => {
                place = chain.next(name);
                chain.remove(name);
            }
        }
    }
}

/// Takes at most so many rows out, from the end on.
pub fn remove_last<T: Drop>(chain: &mut Chain<T>, n: u64)
    requires sound { IsSound chain.old }
    ensures cut { IsCut chain.old (length chain.old.rows - n) n chain.new }
    ensures sound { IsSound chain.new }
{
    for _i in 0..n {
        match chain.last() {
            None => return,
            Some(name) => {
                chain.remove(name);
            }
        }
    }
}
