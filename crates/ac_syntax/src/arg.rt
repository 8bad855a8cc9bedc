ghost use Rattle.std.specs.Prelude.{◌≡◌};

use crate::ident::Ident;
use ac_base::Value;
use std::marker::Model;

/// An argument of a call, or what is assigned.
#[derive(Drop)]
pub enum Arg {
    Lit(Value),
    NoElement,
    Var(Ident),
}

/// The arguments of a call in order.
#[derive(Drop)]
pub struct Args {
    items: Vec<Arg>,
}

impl Model for Args {
    ghost use Rattle.std.specs.Prelude.{List};
    ghost use Rattle.ac_syntax.specs.declared.arg.Arg.{Arg};

    ghost Value = { List Arg };

    ghost view = { λ args. args.items.items };
}

impl Args {
    pub fn from_vec(items: Vec<Arg>) -> Args
        ensures { result ≡ items.items }
    {
        Args { items }
    }

    pub fn items(&self) -> &[Arg]
        ensures { result.now ≡ self.now }
    {
        &self.items
    }
}
