//! The heads of blocks: loops and views.
ghost use Rattle.std.specs.Prelude.{◌≡◌};
ghost use Rattle.std.specs.Option.{option_map};
ghost use Rattle.ac_rules.specs.Rules as rules;
ghost use Rattle.ac_check.specs.Views.{typed_view};

use crate::given::{Typed, given_in, is_cursor};
use crate::kinds::{goes_backward, has_cursors, is_holder, is_queue, is_set};
use crate::scope::Scope;
use ac_syntax::{Ident, TypeDef, ViewKind};

/// Whether a loop can go over an object, and in this direction.
pub fn is_looped(backward: bool, typed: Option<Typed<'_>>) -> bool
    ensures { result ≡ rules.is_looped backward (option_map typed_view typed.entry) }
{
    match typed {
        Some(typed) => {
            has_cursors(typed.def.kind) && (!backward || goes_backward(typed.def.kind))
        }
        None => false,
    }
}

fn is_viewed(view: ViewKind, def: TypeDef) -> bool
    ensures { result ≡ rules.is_viewed view def }
{
    match view {
        ViewKind::Query => !is_queue(def.kind),
        ViewKind::Update | ViewKind::Reference => !is_queue(def.kind) && !is_set(def.kind),
        ViewKind::UpdateKey => is_set(def.kind) && def.keyed,
    }
}

/// Whether a view names its place: a holder's element has no cursor, and every other one has one.
fn is_place(scope: &Scope, typed: Typed<'_>, at: &Option<Ident>) -> bool
    ensures { result ≡ rules.is_place scope.now (typed_view typed.entry) at.now }
{
    match at {
        Some(cursor) => {
            !is_holder(typed.def.kind)
                && is_cursor(typed.of, given_in(scope.meaning(cursor.bytes())))
        }
        None => is_holder(typed.def.kind),
    }
}

pub fn is_view(scope: &Scope, view: ViewKind, typed: Option<Typed<'_>>, at: &Option<Ident>) -> bool
    ensures { result ≡ rules.is_view scope.now view (option_map typed_view typed.entry) at.now }
{
    match typed {
        Some(typed) => is_viewed(view, typed.def) && is_place(scope, typed, at),
        None => false,
    }
}
