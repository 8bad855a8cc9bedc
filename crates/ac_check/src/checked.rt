//! Scripts that can run.
ghost use Rattle.std.specs.Prelude.{◌≡◌, ◌⊎◌, [], ℕ, Ok, Err, IfOk, OnOk};
ghost use Rattle.ac_syntax.specs.declared.refusal.RefusalKind.{RefusalKind};
ghost use Rattle.ac_syntax.specs.declared.fault.ScriptFault.TheVariants.{Refused, NoMemory};
ghost use Rattle.ac_syntax.specs.Canonical.{propagates_in};
ghost use Rattle.ac_rules.specs.Faults.{IsChecked, IsFirstFault};
ghost use Rattle.ac_rules.specs.HasTasks.{has_tasks};
ghost use Rattle.ac_rules.specs.Resolved.{place_of, resolve_decls, resolve};
ghost use Rattle.ac_rules.specs.Scopes.{with_decls};

use crate::having::has_tasks;
use crate::walk::{Resolved, walk_script};
use ac_rules::{ResolvedDecl, ResolvedStmts};
use ac_syntax::{Script, ScriptFault};
use std::alloc::Global;
use std::marker::Model;

/// A script without a faulty item: its names are declared once and in scope where they are used, its calls
/// are those of its objects' types, and it stays within the limits.
#[derive(Drop)]
pub struct Checked {
    script: Script,
    resolved: Resolved,
}

impl Model for Checked {
    ghost use Rattle.ac_syntax.specs.declared.script.Script.{Script};
    ghost use Rattle.ac_rules.specs.Faults.{IsChecked};
    ghost use Rattle.std.specs.Coded.{codes};
    ghost use Rattle.ac_syntax.specs.Coded.{coded_code};

    ghost Value = { Script };

    ghost coded = { Prim.hlevel (codes, coded_code) };

    ghost view = { λ checked. checked.script };

    ghost use Rattle.ac_rules.specs.Resolved.{IsResolved};
    ghost use Rattle.std.specs.Prelude.{◌≡◌, []};
    ghost use Rattle.ac_rules.specs.Scopes.{with_decls};

    ghost invariant = { λ checked. IsChecked checked.script × IsResolved checked.script checked.resolved.decls checked.resolved.stmts
        × (checked.resolved.scope ≡ with_decls [] checked.script.decls) };
}

impl Checked {
    pub fn script(&self) -> &Script
        ensures value { result.now ≡ self.now }
        ensures valid { IsChecked self.now }
    {
        &self.script
    }

    /// What its outermost declarations are resolved to.
    pub fn decls(&self) -> &[ResolvedDecl]
        ensures { result.now ≡ resolve_decls [] self.now.decls }
    {
        self.resolved.decls.items()
    }

    /// What its statements are resolved to.
    pub fn statements(&self) -> &ResolvedStmts
        ensures { result.now ≡ resolve (with_decls [] self.now.decls) self.now.stmts }
    {
        &self.resolved.stmts
    }

    /// The place of an outermost name, or how many there are if it is none.
    pub fn place(&self, name: &[u8]) -> usize
        ensures { result ≡ place_of (with_decls [] self.now.decls) name.now }
    {
        self.resolved.scope.place(name)
    }

    /// Whether its exceptions propagate.
    pub fn propagates(&self) -> bool
        ensures { result ≡ propagates_in self.now }
    {
        self.script.pragma.is_some()
    }

    /// Whether there is a block of tasks in it.
    pub fn has_tasks(&self) -> bool
        ensures { result ≡ has_tasks (resolve (with_decls [] self.now.decls) self.now.stmts) }
    {
        has_tasks(&self.resolved.stmts)
    }
}

/// Takes a script that can run, and else says on which line its first faulty item stands, and what is faulty in it.
pub fn check(alloc: Global, script: Script) -> Result<Checked, ScriptFault>
    ensures ok { IfOk result (λ checked. checked ≡ script) }
    ensures checked { OnOk result (IsChecked script) }
    ensures taken { IsChecked script → (result ≡ Ok script) ⊎ (result ≡ Err NoMemory) }
    ensures refused { (line : ℕ) (kind : RefusalKind) → result ≡ Err (Refused line kind) → IsFirstFault script line kind }
    ensures faulty { (line : ℕ) (kind : RefusalKind) → IsFirstFault script line kind →
        (result ≡ Err (Refused line kind)) ⊎ (result ≡ Err NoMemory) }
{
    let resolved = walk_script(alloc, &script)?;
    Ok(Checked { script, resolved })
}
