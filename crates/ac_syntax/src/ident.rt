ghost use Rattle.std.specs.Prelude.{◌≡◌, IfOk};

use std::alloc::{AllocError, Global};
use std::marker::Model;

/// The bytes of a name.
#[derive(Drop)]
pub struct Ident {
    bytes: Vec<u8>,
}

impl Model for Ident {
    ghost use Rattle.std.specs.Prelude.{List, ℕ};

    ghost Value = { List ℕ };

    ghost view = { λ ident. ident.bytes.items };
}

impl Ident {
    /// A name of these bytes as they are.
    pub fn new(bytes: Vec<u8>) -> Ident
        ensures { result ≡ bytes.items }
    {
        Ident { bytes }
    }

    pub fn bytes(&self) -> &[u8]
        ensures { result.now ≡ self.now }
    {
        &self.bytes
    }

    pub fn copy(&self, alloc: Global) -> Result<Ident, AllocError>
        ensures { IfOk result (λ copy. copy ≡ self.now) }
    {
        Ok(Ident::new(self.bytes.to_vec(alloc)?))
    }
}

/// Names in order.
#[derive(Drop)]
pub struct Idents {
    items: Vec<Ident>,
}

impl Model for Idents {
    ghost use Rattle.std.specs.Prelude.{List, ℕ};

    ghost Value = { List (List ℕ) };

    ghost view = { λ idents. idents.items.items };
}

impl Idents {
    pub fn from_vec(items: Vec<Ident>) -> Idents
        ensures { result ≡ items.items }
    {
        Idents { items }
    }

    pub fn items(&self) -> &[Ident]
        ensures { result.now ≡ self.now }
    {
        &self.items
    }
}
