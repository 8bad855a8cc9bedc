ghost use Rattle.std.specs.Prelude.{◌≡◌, ◌+◌, ◌<◌, IfSome, IfNone};

use std::marker::Model;

/// The number of one object. There is one tag for each number of a mint, since a tag is never copied.
#[derive(Drop)]
pub struct Tag {
    number: u64,
}

impl Model for Tag {
    ghost use Rattle.std.specs.Prelude.{ℕ};

    ghost Value = { ℕ };

    ghost view = { λ tag. tag.number };
}

impl Tag {
    pub fn number(&self) -> u64
        ensures { result ≡ self.now }
    {
        self.number
    }
}

/// Gives each object its number. Contracts see a mint as the number that it gives next.
#[derive(Drop)]
pub struct TagMint {
    coming: u64,
}

impl Model for TagMint {
    ghost use Rattle.std.specs.Prelude.{ℕ};

    ghost Value = { ℕ };

    ghost view = { λ mint. mint.coming };
}

impl TagMint {
    /// A mint whose numbers run from 1.
    pub fn new() -> TagMint
        ensures { result ≡ 1 }
    {
        TagMint::starting_at(1)
    }

    /// A mint whose numbers run from this one.
    pub fn starting_at(number: u64) -> TagMint
        ensures { result ≡ number }
    {
        TagMint { coming: number }
    }

    /// The next number, which the mint never gives again: the numbers after it are higher. The last
    /// number of 64 bits is never given.
    pub fn next(&mut self) -> Option<Tag>
        ensures given { IfSome result (λ tag. (tag ≡ self.old) × (tag < u64.MAX) × (self.new ≡ tag + 1)) }
        ensures spent { IfNone result ((self.old ≡ u64.MAX) × (self.new ≡ self.old)) }
    {
        if self.coming == u64::MAX {
            return None;
        }
        let number = self.coming;
        self.coming += 1;
        Some(Tag { number })
    }
}
