//! What holds of scripts, whatever looks for their faults.
ghost use Rattle.std.specs.Prelude.{◌≡◌, ◌⊎◌, ◌<◌, ◌++◌, ◌∷◌, ℕ, List, length, slice_get, Option, Some, is_some, IsTrue, false};
ghost use Rattle.ac_syntax.specs.declared.refusal.RefusalKind.{RefusalKind};
ghost use Rattle.ac_syntax.specs.declared.script.Script.{Script};
ghost use Rattle.ac_rules.specs.Faults.{IsChecked, IsFirstFault, is_in_scope};
ghost use Rattle.ac_syntax.specs.declared.arg.Arg.{Arg};
ghost use Rattle.ac_rules.specs.Kept.{ScriptKept};
ghost use Rattle.ac_rules.specs.Operations.{HasOneRow, FindsRow, operation_of, CallKept};
ghost use Rattle.ac_rules.specs.Resolved.{place_of};
ghost use Rattle.ac_rules.specs.Rules.{is_call};
ghost use Rattle.ac_rules.specs.Scopes.{Scope, Typed, Meaning, entry, meaning_in};

/// A script has at most one first fault, and none where it is checked.
pub fn one_fault()
    ensures one { (script : Script) (line place : ℕ) (kind other : RefusalKind) →
        IsFirstFault script line kind → IsFirstFault script place other → (line ≡ place) × (kind ≡ other) }
    ensures none { (script : Script) (line : ℕ) (kind : RefusalKind) → IsChecked script → IsFirstFault script line kind → ⊥ }
{}

/// Each script can run, or has a first fault.
pub fn each_script()
    ensures { (script : Script) → IsChecked script ⊎ ((line : ℕ) × (kind : RefusalKind) × IsFirstFault script line kind) }
{}

/// In a script that can run each statement keeps the rules in the scope where it stands.
pub fn rules_kept()
    ensures { (script : Script) → IsChecked script → ScriptKept script }
{}

/// A call is one row of the table at most, and that is found; so a call of the table means one operation.
pub fn one_row()
    ensures one { (scope : Scope) (typed : Typed) (target : Option (List ℕ)) (word : List ℕ) (args : List Arg) →
        HasOneRow scope typed target word args }
    ensures found { (scope : Scope) (typed : Typed) (target : Option (List ℕ)) (word : List ℕ) (args : List Arg) →
        FindsRow scope typed target word args }
    ensures means { (scope : Scope) (typed : Option Typed) (target : Option (List ℕ)) (word : List ℕ) (args : List Arg) →
        is_some (operation_of scope typed target word args) ≡ is_call scope typed target word args }
    ensures kept { (scope : Scope) (typed : Option Typed) (target : Option (List ℕ)) (word : List ℕ) (args : List Arg) →
        IsTrue (is_call scope typed target word args) → CallKept scope typed target word args }
{}

/// At the place of a name in scope stands its entry; scopes grow behind it, and a new name has the place behind all others.
pub fn places()
    ensures found { (scope : Scope) (name : List ℕ) (meaning : Meaning) → meaning_in scope name ≡ Some meaning →
        slice_get scope (place_of scope name) ≡ Some (entry name meaning) }
    ensures below { (scope : Scope) (name : List ℕ) → IsTrue (is_in_scope scope name) → place_of scope name < length scope }
    ensures stays { (scope more : Scope) (name : List ℕ) → IsTrue (is_in_scope scope name) →
        place_of (scope ++ more) name ≡ place_of scope name }
    ensures new { (scope more : Scope) (name : List ℕ) (meaning : Meaning) → is_in_scope scope name ≡ false →
        place_of (scope ++ entry name meaning ∷ more) name ≡ length scope }
{}
