//! What holds of the readers of this crate.
ghost use Rattle.std.specs.Prelude.{◌≡◌, ◌⊎◌, ℕ, Bool, List};
ghost use Rattle.ac_syntax.specs.declared.closing.Closing.{Closing};
ghost use Rattle.ac_syntax.specs.declared.refusal.RefusalKind.{RefusalKind};
ghost use Rattle.ac_syntax.specs.declared.script.Script.{Script};
ghost use Rattle.ac_syntax.specs.declared.token.Placed.{Placed};
ghost use Rattle.ac_syntax.specs.Grammar.{Derives};
ghost use Rattle.ac_syntax.specs.Order.{Stage};
ghost use Rattle.ac_syntax.specs.Refusals.{Spells, IsFirstRefusal};
ghost use Rattle.ac_script.specs.ItemReader.{item, innermost_of};
ghost use Rattle.ac_script.specs.ExactItems.{MayCatch, ReadsItems};
ghost use Rattle.ac_script.specs.RefusalExamples.{RefusesNoTask, RefusesBareTask, RefusesBlockInTask, RefusesTaskInTask, RefusesCommandBehindTask, RefusesBareEndOfTasks, RefusesTextInTask};
ghost use Rattle.ac_script.specs.RefusalExamples.{RefusesBareBegin, RefusesEndOfTried, RefusesNoHandler, RefusesBehindOthers, RefusesBareHandler};
ghost use Rattle.ac_script.specs.RefusalExamples.{RefusesMarkFirst, RefusesOpenHead, RefusesOpenBlock, RefusesBareEnd, RefusesLateDeclaration};

/// In each context the items that may come are read, and reading stops at the first token with which none begins. Where a handler has
/// to come, the innermost block is to be one that may have it.
pub fn items_read()
    ensures { (propagating : Bool) (blocks : List Closing) (stage : Stage) → MayCatch blocks stage →
        ReadsItems propagating blocks stage (item propagating stage (innermost_of blocks)) }
{}

/// No tokens derive two scripts.
pub fn one_script()
    ensures { (placed : List Placed) (script other : Script) → Derives placed script → Derives placed other → script ≡ other }
{}

/// Each text spells a script, or has a first refusal.
pub fn each_text()
    ensures { (text : List ℕ) →
        ((script : Script) × Spells script text) ⊎ ((line : ℕ) × (kind : RefusalKind) × IsFirstRefusal text line kind) }
{}

/// Texts that no script begins with or is, worked out by hand.
pub fn refused_texts()
    ensures mark_first { RefusesMarkFirst }
    ensures open_head { RefusesOpenHead }
    ensures open_block { RefusesOpenBlock }
    ensures bare_end { RefusesBareEnd }
    ensures late_declaration { RefusesLateDeclaration }
{}

/// Texts with tasks that no script begins with, worked out by hand.
pub fn refused_tasks()
    ensures no_task { RefusesNoTask }
    ensures bare_task { RefusesBareTask }
    ensures block_inside { RefusesBlockInTask }
    ensures task_inside { RefusesTaskInTask }
    ensures command_behind { RefusesCommandBehindTask }
    ensures bare_end { RefusesBareEndOfTasks }
    ensures text_inside { RefusesTextInTask }
{}

/// Texts with handlers that no script begins with, worked out by hand.
pub fn refused_handlers()
    ensures bare_begin { RefusesBareBegin }
    ensures end_of_tried { RefusesEndOfTried }
    ensures no_handler { RefusesNoHandler }
    ensures behind_others { RefusesBehindOthers }
    ensures bare_handler { RefusesBareHandler }
{}
