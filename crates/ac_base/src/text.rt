ghost use Rattle.std.specs.Prelude.{◌≡◌, ◌==◌, ◌<◌, ◌↔◌, IfOk, OnOk, length, []};
ghost use Rattle.std.specs.List.{prefix_len, position_or_len};
ghost use Rattle.ac_base.specs.Key.{key_of_text};
ghost use Rattle.ac_base.specs.Text.{IsText, is_printable, first_bad_place};

use crate::fault::NoMemory;
use crate::key_room::KeyRoom;
use std::alloc::Global;
use std::marker::Model;

/// A string: at most 1,000 bytes, each printable.
#[derive(Drop)]
pub struct Text {
    bytes: Vec<u8>,
}

impl Model for Text {
    ghost use Rattle.std.specs.Prelude.{List, ℕ};
    ghost use Rattle.ac_base.specs.Text.{IsText};

    ghost Value = { List ℕ };

    ghost view = { λ text. text.bytes.items };

    ghost invariant = { λ text. IsText text.bytes.items };
}

/// Why bytes aren't taken as a text.
#[derive(Clone, Copy, PartialEq, Eq)]
pub enum TextFault {
    /// The first byte outside 32..126 stands at this place, counted from 1.
    BadByte(u64),
    /// There are more than 1,000 bytes.
    TooLong,
    NoMemory,
}

/// How many bytes a text has at most.
pub(crate) const LONGEST: usize = 1_000;

fn printable(byte: u8) -> bool
    ensures { result ≡ is_printable byte }
{
    (32..=126).contains(&byte)
}

fn printable_front(bytes: &[u8]) -> usize
    ensures { result ≡ prefix_len is_printable bytes.now }
{
    bytes.iter().take_while(|byte| printable(**byte)).count()
}

fn bad_place(bytes: &[u8]) -> Option<u64>
    ensures { result ≡ first_bad_place bytes.now }
{
    let good = printable_front(bytes);
    if good < bytes.len() {
        Some(good as u64 + 1)
    } else {
        None
    }
}

fn key_len(bytes: &[u8]) -> usize
    ensures { result ≡ position_or_len (λ byte. byte == 61) bytes.now }
{
    bytes.iter().take_while(|byte| **byte != b'=').count()
}

impl Text {
    #[tactic(auto, using(crate::specs::TextLaws::text_of))]
    pub fn new(alloc: Global, bytes: &[u8]) -> Result<Text, TextFault>
        ensures ok { IfOk result (λ text. text ≡ bytes.now) }
        ensures valid { OnOk result (IsText bytes.now) }
        ensures bad_byte { (place : _) → (result ≡ Err (TextFault.BadByte place)) ↔ (first_bad_place bytes.now ≡ Some place) }
        ensures too_long { (result ≡ Err TextFault.TooLong) ↔ ((first_bad_place bytes.now ≡ None) × (1000 < length bytes.now)) }
        ensures no_memory { result ≡ Err TextFault.NoMemory → IsText bytes.now }
    {
        if let Some(place) = bad_place(bytes) {
            return Err(TextFault::BadByte(place));
        }
        if bytes.len() > LONGEST {
            return Err(TextFault::TooLong);
        }
        match Vec::from_slice(alloc, bytes) {
            Ok(bytes) => Ok(Text { bytes }),
            Err(_) => Err(TextFault::NoMemory),
        }
    }

    pub fn bytes(&self) -> &[u8]
        ensures now { result.now ≡ self.now }
        ensures valid { IsText self.now }
    {
        &self.bytes
    }

    pub(crate) fn empty(alloc: Global) -> Text
        ensures { result ≡ [] }
    {
        Text {
            bytes: Vec::new(alloc),
        }
    }

    pub(crate) fn duplicate(&self, alloc: Global) -> Result<Text, NoMemory>
        ensures { IfOk result (λ made. made ≡ self.now) }
    {
        Ok(Text {
            bytes: Vec::from_slice(alloc, &self.bytes)?,
        })
    }

    /// The bytes before the first `=`, or all of them.
    pub(crate) fn key_part(&self, alloc: Global) -> Result<Text, NoMemory>
        ensures { IfOk result (λ key. key ≡ key_of_text self.now) }
    {
        let key = &self.bytes[..key_len(&self.bytes)];
        Ok(Text {
            bytes: Vec::from_slice(alloc, key)?,
        })
    }

    /// The same, in memory that was taken before.
    pub(crate) fn key_within(&self, room: KeyRoom) -> Text
        ensures { result ≡ key_of_text self.now }
    {
        let key = &self.bytes[..key_len(&self.bytes)];
        Text {
            bytes: room.filled(key),
        }
    }
}

impl PartialEq for Text {
    ghost use Rattle.std.specs.Prelude.{nat_eq};
    ghost use Rattle.std.specs.Cmp.Lexicographic.{pointwise};
    ghost use Rattle.std.proofs.Common.{rules};
    ghost use Rattle.std.specs.Cmp.Rules.{comparing};

    ghost eq = { pointwise nat_eq };

    ghost laws = { Prim.search (comparing, rules) };

    fn eq(&self, other: &Text) -> bool {
        self.bytes == other.bytes
    }
}

impl Eq for Text {
    ghost use Rattle.std.proofs.Common.{rules};
    ghost use Rattle.std.specs.Cmp.Rules.{comparing};

    ghost laws = { Prim.search (comparing, rules) };
}
