ghost use Rattle.std.specs.Prelude.{◌≡◌, IfOk, []};
ghost use Rattle.ac_base.specs.Key.{key_of_text};

use crate::fault::NoMemory;
use crate::key_room::KeyRoom;
use crate::text::Text;
use std::alloc::Global;
use std::marker::Model;

/// A text with its key, by which keyed sets compare and hash it. Contracts see the text.
#[derive(Drop)]
pub struct KeyedText {
    text: Text,
    key: Text,
}

impl Model for KeyedText {
    ghost use Rattle.std.specs.Prelude.{◌≡◌, List, ℕ};
    ghost use Rattle.ac_base.specs.Key.{key_of_text};

    ghost Value = { List ℕ };

    ghost view = { λ keyed. keyed.text };

    ghost invariant = { λ keyed. keyed.key ≡ key_of_text keyed.text };
}

impl KeyedText {
    pub fn new(alloc: Global, text: Text) -> Result<KeyedText, NoMemory>
        ensures { IfOk result (λ keyed. keyed ≡ text) }
    {
        let key = text.key_part(alloc)?;
        Ok(KeyedText { text, key })
    }

    /// The same, with its key in memory that was taken before.
    pub fn within(text: Text, room: KeyRoom) -> KeyedText
        ensures { result ≡ text }
    {
        let key = text.key_within(room);
        KeyedText { text, key }
    }

    pub fn text(&self) -> &Text
        ensures { result.now ≡ self.now }
    {
        &self.text
    }

    pub(crate) fn empty(alloc: Global) -> KeyedText
        ensures { result ≡ [] }
    {
        KeyedText {
            text: Text::empty(alloc),
            key: Text::empty(alloc),
        }
    }

    pub(crate) fn key_text(&self) -> &Text
        ensures { result.now ≡ key_of_text self.now }
    {
        &self.key
    }
}

impl PartialEq for KeyedText {
    ghost use Rattle.std.specs.Prelude.{nat_eq};
    ghost use Rattle.std.specs.Cmp.Lexicographic.{pointwise};
    ghost use Rattle.std.proofs.Common.{rules};
    ghost use Rattle.std.specs.Cmp.Rules.{comparing};

    ghost eq = { pointwise nat_eq };

    ghost laws = { Prim.search (comparing, rules) };

    fn eq(&self, other: &KeyedText) -> bool {
        self.text == other.text
    }
}

impl Eq for KeyedText {
    ghost use Rattle.std.proofs.Common.{rules};
    ghost use Rattle.std.specs.Cmp.Rules.{comparing};

    ghost laws = { Prim.search (comparing, rules) };
}
