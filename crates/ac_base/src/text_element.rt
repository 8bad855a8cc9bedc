ghost use Rattle.std.specs.Prelude.{◌≡◌, IsOk, IfOk, refl, length, [], false};
ghost use Rattle.std.specs.Ordering.{on};
ghost use Rattle.std.proofs.lemmas.Cmp.{on_equiv};
ghost use Rattle.ac_base.specs.Key.{key_of_text};
ghost use Rattle.ac_base.specs.Order.{text_less, text_alike};
ghost use Rattle.ac_base.specs.OrderLaws.{text_order, key_order, text_equivalence, texts_same, texts_alike_where_tied, keyed_texts_alike_where_tied};
ghost use Rattle.ac_base.specs.Hash.{hash_of_bytes};
ghost use Rattle.ac_base.specs.HashLaws.{alike_texts_hashes, texts_low_halves};

use crate::element::{Elem, Hashed, KeyOf, Rank};
use crate::fault::NoMemory;
use crate::hash::hash_bytes;
use crate::keyed_text::KeyedText;
use crate::steps::Steps;
use crate::text::Text;
use std::alloc::Global;
use std::sync::ledger::Ledger;

impl Elem for Text {
    ghost is_same = { text_alike };

    ghost same_is_equality = { texts_same };

    ghost size_of = { length };

    ghost blank_element = { [] };

    ghost is_unboxed = { false };

    fn same(&self, other: &Text) -> bool {
        *self == *other
    }

    fn copy(&self, alloc: Global) -> Result<Text, NoMemory> {
        self.duplicate(alloc)
    }

    fn unboxed(&self) -> Option<Text> {
        None
    }

    fn size(&self) -> u64 {
        self.bytes().len() as u64
    }

    fn blank(alloc: Global) -> Result<Text, NoMemory>
        ensures ok { IsOk result }
        ensures empty { IfOk result (λ made. made ≡ []) }
    {
        Ok(Text::empty(alloc))
    }
}

impl Rank for Text {
    ghost is_less = { text_less };

    ghost ordered = { text_order };

    fn less<L: Ledger>(&self, other: &Text, steps: &mut Steps<L>) -> bool {
        steps.step();
        self.bytes().cmp(&other.bytes()).is_lt()
    }
}

impl Hashed for Text {
    ghost is_alike = { text_alike };

    ghost hash_of = { hash_of_bytes };

    ghost wide_hash_of = { hash_of_bytes };

    ghost equivalence = { text_equivalence };

    ghost alike_hashes = { alike_texts_hashes };

    ghost alike_wide_hashes = { alike_texts_hashes };

    ghost low_halves = { texts_low_halves };

    fn alike(&self, other: &Text) -> bool {
        *self == *other
    }

    fn hash(&self) -> u32 {
        hash_bytes(self.bytes())
    }

    fn wide_hash(&self) -> u64 {
        self.hash() as u64
    }
}

impl KeyOf for Text {
    type Key = Text;

    ghost key_of = { λ x. x };

    ghost less_by_key = { λ x y. refl };

    ghost alike_by_key = { λ x y. refl };

    ghost hashed_by_key = { λ x. refl };

    ghost alike_where_tied = { texts_alike_where_tied };

    ghost keys_alike_where_tied = { texts_alike_where_tied };

    fn key(&self) -> &Text {
        self
    }
}

impl Elem for KeyedText {
    ghost is_same = { text_alike };

    ghost same_is_equality = { texts_same };

    ghost size_of = { length };

    ghost blank_element = { [] };

    ghost is_unboxed = { false };

    fn same(&self, other: &KeyedText) -> bool {
        self.text().same(other.text())
    }

    fn copy(&self, alloc: Global) -> Result<KeyedText, NoMemory> {
        KeyedText::new(alloc, self.text().copy(alloc)?)
    }

    fn unboxed(&self) -> Option<KeyedText> {
        None
    }

    fn size(&self) -> u64 {
        self.text().size()
    }

    fn blank(alloc: Global) -> Result<KeyedText, NoMemory>
        ensures ok { IsOk result }
        ensures empty { IfOk result (λ made. made ≡ []) }
    {
        Ok(KeyedText::empty(alloc))
    }
}

impl Rank for KeyedText {
    ghost is_less = { on key_of_text text_less };

    ghost ordered = { key_order };

    fn less<L: Ledger>(&self, other: &KeyedText, steps: &mut Steps<L>) -> bool {
        self.key().less(other.key(), steps)
    }
}

impl Hashed for KeyedText {
    ghost is_alike = { on key_of_text text_alike };

    ghost hash_of = { λ keyed. hash_of_bytes (key_of_text keyed) };

    ghost wide_hash_of = { λ keyed. hash_of_bytes (key_of_text keyed) };

    ghost equivalence = { on_equiv key_of_text text_equivalence };

    ghost alike_hashes = { λ x y. alike_texts_hashes (key_of_text x) (key_of_text y) };

    ghost alike_wide_hashes = { λ x y. alike_texts_hashes (key_of_text x) (key_of_text y) };

    ghost low_halves = { λ x y. texts_low_halves (key_of_text x) (key_of_text y) };

    fn alike(&self, other: &KeyedText) -> bool {
        self.key().alike(other.key())
    }

    fn hash(&self) -> u32 {
        self.key().hash()
    }

    fn wide_hash(&self) -> u64 {
        self.key().wide_hash()
    }
}

impl KeyOf for KeyedText {
    type Key = Text;

    ghost key_of = { key_of_text };

    ghost less_by_key = { λ x y. refl };

    ghost alike_by_key = { λ x y. refl };

    ghost hashed_by_key = { λ x. refl };

    ghost alike_where_tied = { keyed_texts_alike_where_tied };

    ghost keys_alike_where_tied = { texts_alike_where_tied };

    fn key(&self) -> &Text {
        self.key_text()
    }
}
