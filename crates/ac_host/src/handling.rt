//! How exceptions go on, and which handler takes one.
ghost use Rattle.std.specs.Prelude.{◌≡◌, None, if◌then◌else◌};
ghost use Rattle.std.specs.Option.{option_copied};
ghost use Rattle.ac_meaning.specs.Execution.{takes_any};
ghost use Rattle.ac_rules.specs.ResolvedStatements.{resolved_handlers_of};
ghost use Rattle.ac_host.specs.Handling.{handler_in};

use ac_base::Exception;
use ac_rules::{ResolvedHandler, ResolvedStmts};

/// How a statement that ended so counts: where exceptions don't propagate, as one that ended normally.
#[inline(always)]
pub fn passed_on(propagates: bool, end: Option<Exception>) -> Option<Exception>
    ensures { result ≡ (if propagates then end else None) }
{
    if propagates { end } else { None }
}

/// A handler takes its exception, and one of all others every exception.
fn takes(handler: &ResolvedHandler, raised: Exception) -> bool
    ensures { result ≡ takes_any handler.now.catches raised }
{
    match handler.catches {
        None => true,
        Some(own) => own == raised,
    }
}

/// The statements of the first handler that takes the exception.
pub fn handler_of(handlers: &[ResolvedHandler], raised: Exception) -> Option<&ResolvedStmts>
    ensures { option_copied result ≡ handler_in (resolved_handlers_of handlers.now) raised }
{
    for handler in handlers {
        if takes(handler, raised) {
            return Some(&handler.body);
        }
    }
    None
}
