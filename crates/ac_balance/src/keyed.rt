ghost use Rattle.std.specs.Prelude.{◌≡◌, refl};
ghost use Rattle.ac_base.specs.Key.{key_of_text};

use ac_base::{KeyOf, KeyedText, Rank, Text};

/// Keys of rows that are in order by a key of their own.
pub trait Keyed: Rank {
    type Key: Rank;

    ghost key_of: { Self → Self.Key };

    fn key(&self) -> &Self::Key
        ensures { result.now ≡ key_of self.now };

    ghost less_by_key: { (x y : Self) → Self.is_less x y ≡ Self.Key.is_less (key_of x) (key_of y) };
}

impl Keyed for i64 {
    type Key = i64;

    ghost key_of = { λ x. x };

    ghost less_by_key = { λ x y. refl };

    fn key(&self) -> &i64 {
        self
    }
}

impl Keyed for Text {
    type Key = Text;

    ghost key_of = { λ x. x };

    ghost less_by_key = { λ x y. refl };

    fn key(&self) -> &Text {
        self
    }
}

impl Keyed for KeyedText {
    type Key = Text;

    ghost key_of = { key_of_text };

    ghost less_by_key = { λ x y. refl };

    fn key(&self) -> &Text {
        KeyOf::key(self)
    }
}
