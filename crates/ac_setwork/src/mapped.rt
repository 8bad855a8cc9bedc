//! What a map needs of its rows beyond a set.
ghost use Rattle.std.specs.Prelude.{◌≡◌, true, IsTrue, option_map};
ghost use Rattle.ac_model.specs.Rows.{value_at, with_some_value};
ghost use Rattle.ac_setwork.specs.Indexed.{Becomes, is_there, plain_rows};

use crate::index::Index;
use ac_base::Name;

/// Rows of keys with elements, of which the elements can be replaced.
pub trait Mapped: Index {
    type Element: Drop;

    /// The row's key with another element.
    ghost with_element: { Self.Row → Self.Element → Self.Row };

    /// Another element for the row's key, which stays.
    fn set_element(&mut self, name: Name, element: Self::Element)
        requires { IsTrue (is_there (Self.seen self.old) name) }
        ensures { let rows = plain_rows (Self.seen self.old) in Becomes (Self.seen self.old) (Self.seen self.new)
            (with_some_value rows name.serial (option_map (λ row. with_element row element) (value_at rows name.serial)))
            (Self.seen self.old).next (Self.seen self.old).spare };

    ghost same_key: { (row : Self.Row) (element : Self.Element) → Self.order.alike row (with_element row element) ≡ true };
}
