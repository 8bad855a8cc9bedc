//! What set algebra needs of a set.
ghost use Rattle.std.specs.Prelude.{◌≡◌, ◌+◌, ◌-◌, ◌<◌, ◌≤◌, None, Some, IfOk, IsTrue, OnErr, OnOk};
ghost use Rattle.ac_base.specs.FirstReason.{first_reason};
ghost use Rattle.ac_model.specs.Calls.{IsAfter, Same};
ghost use Rattle.ac_model.specs.Containers.{Container};
ghost use Rattle.ac_model.specs.Forms.{Does, Refuses};
ghost use Rattle.ac_model.specs.Keyed.{Order, IsValidKeyed, with_added};
ghost use Rattle.ac_model.specs.Letters.{room_for_one};
ghost use Rattle.ac_model.specs.Objects.{capacity_after, length_of, plain, with_rows};
ghost use Rattle.ac_model.specs.Rows.{cut, place_of};
ghost use Rattle.ac_model.proofs.KeyedLaws.{Closed};
ghost use Rattle.ac_setwork.specs.Indexed.{is_there, name_at, name_after, value_of};
ghost use Rattle.ac_setwork.specs.SetSeen.{HasRoomFor, indexed, room_call};
ghost use Rattle.ac_setwork.specs.TableFields.{named_like};

use ac_base::{Fault, Name, NoMemory, Reason};
use std::alloc::Global;

/// Elements under names, of which no two are equivalent.
pub trait SetLike: Drop {
    type Item: Drop;

    /// Which elements are equivalent, and where a new one goes: behind the others, or ascending.
    ghost order: { Order Self.Item };

    /// The set as a container.
    ghost seen: { Self → Container Self.Item };

    /// What holds of every set, for proofs alone.
    fn law(&self)
        ensures { IsValidKeyed order (plain (seen self.now).object) };

    /// Where the set takes its memory from.
    fn alloc(&self) -> Global;

    fn copied(item: &Self::Item, alloc: Global) -> Result<Self::Item, NoMemory>
        ensures { IfOk result (λ made. made ≡ item.now) };

    fn len(&self) -> u64
        ensures { result ≡ length_of (seen self.now).object };

    /// The first element's name. A walk from it by `next_name` meets each element once, in order.
    fn first_name(&self) -> Option<Name>
        ensures { result ≡ name_at (indexed (seen self.now)) 0 };

    fn next_name(&self, name: Name) -> Option<Name>
        requires { IsTrue (is_there (indexed (seen self.now)) name) }
        ensures { result ≡ name_after (indexed (seen self.now)) name };

    fn item(&self, name: Name) -> &Self::Item
        requires { IsTrue (is_there (indexed (seen self.now)) name) }
        ensures { value_of (indexed (seen self.now)) name ≡ Some result.now };

    /// The name of the element that is equivalent to this one.
    fn look(&self, item: &Self::Item) -> Option<Name>
        ensures { result ≡ named_like order (seen self.now).object item.now };

    /// Takes the element out. Its name is never there again.
    fn drop_name(&mut self, name: Name)
        requires { IsTrue (is_there (indexed (seen self.old)) name) }
        ensures dropped { let o = plain (seen self.old).object in
            IsAfter (seen self.old).object (seen self.new).object (with_rows o (cut o.rows (place_of o.rows name.serial) 1)) }
        ensures spare { (seen self.new).spare ≡ (seen self.old).spare + 1 };

    /// Why room for so many elements more, once so many are gone, is refused.
    fn refuses_room(&self, gone: u64, more: u64) -> Option<Reason>
        requires { gone ≤ length_of (seen self.now).object }
        ensures { Refuses (room_call gone more) (seen self.now) result };

    /// Makes room for so many elements more, once so many are gone, and raises the Capacity where there is one.
    fn room(&mut self, gone: u64, more: u64) -> Result<(), Fault>
        requires { gone ≤ length_of (seen self.old).object }
        ensures changed { Does Same (room_call gone more) (seen self.old) (seen self.new) result }
        ensures ok { OnOk result (HasRoomFor gone more (seen self.old) (seen self.new)) }
        ensures err { OnErr result (seen self.new ≡ seen self.old) };

    /// Adds an element, which has no equivalent, at its place. It takes no memory.
    fn add_new(&mut self, item: Self::Item) -> Name
        requires spare { 0 < (seen self.old).spare }
        requires room { first_reason (room_for_one (plain (seen self.old).object)) ≡ None }
        requires absent { named_like order (seen self.old).object item ≡ None }
        requires capacity { let o = (seen self.old).object in capacity_after o.limit o.capacity (length_of o + 1) ≡ o.capacity }
        ensures added { IsAfter (seen self.old).object (seen self.new).object (with_added order (plain (seen self.old).object) item) }
        ensures serial { result.serial ≡ (seen self.old).object.next }
        ensures there { IsTrue (is_there (indexed (seen self.new)) result) }
        ensures spare { (seen self.new).spare ≡ (seen self.old).spare - 1 };

    /// The order is one in which the calls keep a set valid.
    ghost closed: { Closed order };
}
