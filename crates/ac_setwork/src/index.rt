//! What a map or a set needs of its rows.
ghost use Rattle.std.specs.Prelude.{◌≡◌, ◌∷◌, [], ◌+◌, ◌-◌, ◌^◌, ◌<◌, ◌≤◌, Bool, false, Option, Some, None, is_some, IsOk, IsTrue, IfOk, IfErr, IfSome, OnOk, OnErr, length};
ghost use Rattle.ac_base.specs.Limits.{IsLimit, is_past};
ghost use Rattle.ac_base.specs.declared.limit.TheConstants.{GREATEST_LENGTH};
ghost use Rattle.ac_model.specs.Rows.{cut, place_of, with_value};
ghost use Rattle.ac_model.specs.Keyed.{Order, added, with_reordered, another_is_like};
ghost use Rattle.ac_model.proofs.KeyedLaws.{Closed};
ghost use Rattle.ac_setwork.specs.Ends.{last_name, name_before};
ghost use Rattle.ac_setwork.specs.Indexed.{Indexed, Becomes, IsEmpty, MakesRoom, HasSlots, slots, takes_one, plain_rows, is_there, name_at, name_after, found, value_of};

use ac_base::{Limit, Name, NoMemory};
use std::alloc::Global;

/// Rows under names, of which no two have equivalent keys.
pub trait Index: Drop {
    /// What a row holds: a map's key with its element, or a set's element.
    type Row: Drop;

    /// What is looked for.
    type Key;

    /// Which rows are equivalent, and where a new one goes: behind the others, or ascending.
    ghost order: { Order Self.Row };

    /// The row has the key.
    ghost matches: { Self.Key → Self.Row → Bool };

    /// Rows with equivalent keys are equal.
    ghost is_equal: { Self.Row → Self.Row → Bool };

    /// There is a Capacity.
    ghost has_capacity: { Bool };

    ghost seen: { Self → Indexed Self.Row };

    /// No rows. A bounded one takes all its memory here, and an unbounded one takes none.
    fn new(alloc: Global, limit: Limit) -> Result<Self, NoMemory>
        requires { IsLimit limit }
        ensures empty { IfOk result (λ made. IsEmpty has_capacity limit (seen made)) }
        ensures unbounded { limit ≡ Limit.Unbounded → IsOk result };

    fn copied(row: &Self::Row, alloc: Global) -> Result<Self::Row, NoMemory>
        ensures { IfOk result (λ made. made ≡ row.now) };

    fn equal(left: &Self::Row, right: &Self::Row) -> bool
        ensures { result ≡ is_equal left.now right.now };

    fn len(&self) -> u64
        ensures { result ≡ length (seen self.now).rows };

    /// How many rows more take no memory.
    fn spare(&self) -> u64
        ensures count { result ≡ (seen self.now).spare }
        ensures few { slots (seen self.now) ≤ 2 ^ 30 };

    fn capacity(&self) -> Option<u64>
        ensures capacity { result ≡ (seen self.now).capacity }
        ensures has { is_some result ≡ has_capacity }
        ensures few { IfSome result (λ n. n ≤ 2 ^ 30) };

    /// The serial that the next row gets.
    fn next_serial(&self) -> u64
        ensures { result ≡ (seen self.now).next };

    fn is_there(&self, name: Name) -> bool
        ensures { result ≡ is_there (seen self.now) name };

    /// The first row's name. A walk from it by `next` meets each row once, in order.
    fn first(&self) -> Option<Name>
        ensures { result ≡ name_at (seen self.now) 0 };

    fn next(&self, name: Name) -> Option<Name>
        requires { IsTrue (is_there (seen self.now) name) }
        ensures { result ≡ name_after (seen self.now) name };

    /// The last row's name. A walk from it by `previous` meets each row once, backwards.
    fn last(&self) -> Option<Name>
        ensures { result ≡ last_name (seen self.now) };

    fn previous(&self, name: Name) -> Option<Name>
        requires { IsTrue (is_there (seen self.now) name) }
        ensures { result ≡ name_before (seen self.now) name };

    /// The name of the row with the key.
    fn look(&self, key: &Self::Key) -> Option<Name>
        ensures { result ≡ found (matches key.now) (seen self.now) };

    /// The name of the row that is equivalent to this one.
    fn look_like(&self, row: &Self::Row) -> Option<Name>
        ensures { result ≡ found (λ other. order.alike other row.now) (seen self.now) };

    fn at(&self, name: Name) -> &Self::Row
        requires { IsTrue (is_there (seen self.now) name) }
        ensures { value_of (seen self.now) name ≡ Some result.now };

    /// Makes room for so many rows more, and raises the Capacity where there is one.
    fn make_room(&mut self, limit: Limit, n: u64) -> Result<(), NoMemory>
        requires few { length (seen self.old).rows + n ≤ GREATEST_LENGTH }
        requires within { is_past limit (length (seen self.old).rows + n) ≡ false }
        requires slots { HasSlots limit (seen self.old).capacity (slots (seen self.old)) }
        ensures ok { OnOk result (MakesRoom limit n (seen self.old) (seen self.new)) }
        ensures err { OnErr result (seen self.new ≡ seen self.old) }
        ensures had_room { n ≡ 1 → IsTrue (takes_one limit (seen self.old)) → IsOk result };

    /// Adds a row at its place, or answers the name of the one that has an equivalent key. It takes no memory.
    fn add(&mut self, row: Self::Row) -> Result<Name, Name>
        requires spare { 0 < (seen self.old).spare }
        requires unspent { (seen self.old).next < 2 ^ 64 - 1 }
        ensures absent { OnOk result (found (λ other. order.alike other row) (seen self.old) ≡ None) }
        ensures added { OnOk result (Becomes (seen self.old) (seen self.new)
            (added order (plain_rows (seen self.old)) (seen self.old).next (row ∷ [])) ((seen self.old).next + 1) ((seen self.old).spare - 1)) }
        ensures serial { IfOk result (λ name. name.serial ≡ (seen self.old).next) }
        ensures there { IfOk result (λ name. IsTrue (is_there (seen self.new) name)) }
        ensures present { IfErr result (λ name. found (λ other. order.alike other row) (seen self.old) ≡ Some name) }
        ensures err { OnErr result (seen self.new ≡ seen self.old) };

    /// Adds a row, whose key no other has, at its place. It takes no memory.
    fn add_new(&mut self, row: Self::Row) -> Name
        requires spare { 0 < (seen self.old).spare }
        requires unspent { (seen self.old).next < 2 ^ 64 - 1 }
        requires absent { found (λ other. order.alike other row) (seen self.old) ≡ None }
        ensures added { Becomes (seen self.old) (seen self.new)
            (added order (plain_rows (seen self.old)) (seen self.old).next (row ∷ [])) ((seen self.old).next + 1) ((seen self.old).spare - 1) }
        ensures serial { result.serial ≡ (seen self.old).next }
        ensures there { IsTrue (is_there (seen self.new) result) };

    /// Takes the row out. Its name is never there again.
    fn remove(&mut self, name: Name) -> Self::Row
        requires { IsTrue (is_there (seen self.old) name) }
        ensures value { value_of (seen self.old) name ≡ Some result }
        ensures removed { let rows = plain_rows (seen self.old) in Becomes (seen self.old) (seen self.new)
            (cut rows (place_of rows name.serial) 1) (seen self.old).next ((seen self.old).spare + 1) };

    /// An equivalent row in a row's place.
    fn replace(&mut self, name: Name, row: Self::Row)
        requires { found (λ other. order.alike other row) (seen self.old) ≡ Some name }
        ensures { Becomes (seen self.old) (seen self.new)
            (with_value (plain_rows (seen self.old)) name.serial row) (seen self.old).next (seen self.old).spare };

    /// Any row under a row's name, at the place where it belongs.
    fn set_row(&mut self, name: Name, row: Self::Row)
        requires there { IsTrue (is_there (seen self.old) name) }
        requires only { another_is_like order (plain_rows (seen self.old)) name.serial row ≡ false }
        ensures { Becomes (seen self.old) (seen self.new)
            (with_reordered order (plain_rows (seen self.old)) name.serial row) (seen self.old).next (seen self.old).spare };

    /// Drops all rows, and keeps the memory.
    fn clear(&mut self)
        ensures { Becomes (seen self.old) (seen self.new) [] (seen self.old).next (slots (seen self.old)) };

    /// The order is one in which the calls keep a map or a set valid.
    ghost closed: { Closed order };
}
