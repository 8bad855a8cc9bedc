//! What holds of every script that runs.
ghost use Rattle.std.specs.Prelude.{List};
ghost use Rattle.ac_rules.specs.declared.resolved.ResolvedDecl.{ResolvedDecl};
ghost use Rattle.ac_meaning.specs.Environment.{first_state, after_decls};
ghost use Rattle.ac_host.specs.Start.{IsAtStart, StartsAgain};

/// Statements can begin behind the outermost declarations, and as well where what was declared holds other values and rows.
pub fn statements_begin()
    ensures declared { (decls : List ResolvedDecl) → IsAtStart (after_decls decls first_state).after }
    ensures again { StartsAgain }
{}
