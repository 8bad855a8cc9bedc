//! What holds of the language itself, whatever reads it.
ghost use Rattle.std.specs.Prelude.{◌≡◌, ℕ, false, List, ◌∷◌, ◌++◌, Some, None, IsTrue};
ghost use Rattle.std.specs.List.{list_all, list_any};
ghost use Rattle.ac_syntax.specs.declared.script.Script.{Script};
ghost use Rattle.ac_syntax.specs.declared.token.Placed.{Placed};
ghost use Rattle.ac_syntax.specs.FurtherMarks.{is_further};
ghost use Rattle.ac_syntax.specs.Grammar.{IsItem, BeginsScript};
ghost use Rattle.ac_syntax.specs.Tokens.{tokens};
ghost use Rattle.ac_syntax.specs.Items.{Item, script_items};
ghost use Rattle.ac_syntax.specs.Keywords.{script_cut};
ghost use Rattle.ac_syntax.specs.Canonical.{canonical_text, canonical_placed, canonical_tokens, is_written, propagates_in, IsWellFormed};
ghost use Rattle.ac_syntax.specs.Nesting.{AreStatements};
ghost use Rattle.ac_syntax.specs.Order.{Context, context_after, at_front, AreInOrder};
ghost use Rattle.ac_syntax.specs.Refusals.{Spells, HasNoBadToken, IsFirstRefusal};
ghost use Rattle.ac_syntax.specs.declared.refusal.RefusalKind.{RefusalKind};
ghost use Rattle.ac_syntax.specs.declared.refusal.RefusalKind.TheVariants.{Syntax};
ghost use Rattle.ac_syntax.specs.Examples.{SpellsLoosely, WritesStrictly, SpellsNested, WritesNested, ReadsDoubledQuote, RefusesOpenString, EndsComment, RefusesLetterAfterNumber, WritesNothing, TakesDepth16, RefusesDepth17, Takes17InARow};
ghost use Rattle.ac_syntax.specs.Examples.{TakesTab, TakesReturnBeforeLineFeed, RefusesLoneReturn, RefusesReturnTwice, RefusesLastReturn, TakesReturnInComment, RefusesTabInString};
ghost use Rattle.ac_syntax.specs.TaskExamples.{SpellsSharing, WritesSharing, IsSharingWell, NeedsTask, NeedsBlock, NeedsCommands, Takes8Tasks, RefusesTask9};
ghost use Rattle.ac_syntax.specs.TaskExamples.{TakesTasksAtDepth16, RefusesTasksAtDepth17, RefusesDepth17BehindTasks, CountsCommands, TakesCommand1000, RefusesCommand1001, TakesEndBehind1000};
ghost use Rattle.ac_syntax.specs.HandlerExamples.{SpellsHandled, WritesHandled, IsHandledWell, NeedsPragma, NeedsHandler, NeedsException, EndsAtOthers, NeedsStatements, SpellsEachException, RefusesEquals, NamesWhen, NamesPragma, NamesPropagate};
ghost use Rattle.ac_syntax.specs.HandlerExamples.{ReservesWhen, ReservesPragma, WritesNoWhen, NeedsFront, NeedsOnePragma, TakesBegin16, RefusesBegin17, RefusesDepth17InHandler, TakesDeclare16, RefusesBeginBehindDeclare};
ghost use Rattle.ac_syntax.specs.WordExamples.{ReservesWords, LeavesWords};
ghost use Rattle.ac_syntax.specs.MarkExamples.{CutsEachMark, TakesLessEqual, TakesGreaterEqual, TakesArrow, TakesNotEqual, TakesAssign, TakesApart, RefusesSlash, RefusesOtherBytes, CutsReduction, WritesBrackets};
ghost use Rattle.ac_syntax.specs.FormExamples.{SpellsEveryForm, WritesEveryForm, IsEveryFormWell, SpellsMinusZero, WritesZero, NeedsCursor, NeedsRisingLines};
ghost use Rattle.ac_syntax.specs.RefusalExamples.{TakesName64, RefusesName65, TakesString1000, RefusesString1001, TakesLeast, TakesCounting, RefusesPastGreatest, RefusesLessTooMuch, RefusesTooRoomy, RefusesMalformed, RefusesBracket, RefusesTick, RefusesStar, RefusesLessEqual};

/// A text has at most one first refusal, and none where it spells a script.
pub fn one_refusal()
    ensures one { (text : List ℕ) (line place : ℕ) (kind other : RefusalKind) →
        IsFirstRefusal text line kind → IsFirstRefusal text place other → (line ≡ place) × (kind ≡ other) }
    ensures not_spelled { (script : Script) (text : List ℕ) (line : ℕ) (kind : RefusalKind) →
        Spells script text → IsFirstRefusal text line kind → ⊥ }
{}

/// The items of a script whose tasks stand in blocks of tasks alone, and whose blocks with handlers stand where exceptions propagate, may come in
/// their order, each list of items that may come is a script's, and each front that may come is the front of one.
pub fn items_order()
    ensures script { (script : Script) → AreStatements (propagates_in script) script.stmts → AreInOrder (script_items script) }
    ensures only { (items : List Item) → AreInOrder items → (script : Script) × (script_items script ≡ items) }
    ensures front { (items : List Item) (context : Context) → context_after at_front items ≡ Some context →
        (more : List Item) × (script : Script) × (script_items script ≡ items ++ more) }
{}

/// No two scripts have the same items.
pub fn items_alone()
    ensures { (script other : Script) → script_items script ≡ script_items other → script ≡ other }
{}

/// The canonical text of a script whose tokens can be written is cut into these, each on its line, and it spells the script where that is
/// well formed.
pub fn round_trip()
    ensures cut { (script : Script) → IsTrue (list_all (is_written (propagates_in script)) (canonical_tokens script)) →
        script_cut (canonical_text script) ≡ record { placed = canonical_placed script; malformed = None } }
    ensures spelled { (script : Script) → IsWellFormed script → Spells script (canonical_text script) }
{}

/// A script that some text spells is well formed, so its canonical text spells it too.
pub fn well_formed()
    ensures spelled { (script : Script) (text : List ℕ) → Spells script text → IsWellFormed script }
    ensures again { (script : Script) (text : List ℕ) → Spells script text → Spells script (canonical_text script) }
{}

/// No item has a further mark, and no script begins with tokens of which one is such a mark. So a text is refused there, unless it is refused before.
pub fn further_marks()
    ensures items { (item : Item) (placed : List Placed) → IsItem item placed → list_any is_further (tokens placed) ≡ false }
    ensures begun { (placed : List Placed) → BeginsScript placed → list_any is_further (tokens placed) ≡ false }
    ensures refused { (text : List ℕ) (before after : List Placed) (bad : Placed) → (script_cut text).placed ≡ before ++ bad ∷ after →
        IsTrue (is_further bad.token) → HasNoBadToken before → IsFirstRefusal text bad.line Syntax }
{}

/// Texts whose tokens, scripts and canonical texts were worked out by hand.
pub fn examples()
    ensures loose { SpellsLoosely }
    ensures strict { WritesStrictly }
    ensures nested { SpellsNested }
    ensures nested_text { WritesNested }
    ensures doubled_quote { ReadsDoubledQuote }
    ensures open_string { RefusesOpenString }
    ensures comment { EndsComment }
    ensures letter_after_number { RefusesLetterAfterNumber }
    ensures nothing { WritesNothing }
    ensures depth_16 { TakesDepth16 }
    ensures depth_17 { RefusesDepth17 }
    ensures in_a_row { Takes17InARow }
{}

/// Tabs and CRs, where they are white space and where they are malformed, worked out by hand.
pub fn blanks()
    ensures tab { TakesTab }
    ensures return_before_line_feed { TakesReturnBeforeLineFeed }
    ensures lone_return { RefusesLoneReturn }
    ensures return_twice { RefusesReturnTwice }
    ensures last_return { RefusesLastReturn }
    ensures return_in_comment { TakesReturnInComment }
    ensures tab_in_string { RefusesTabInString }
{}

/// Each reserved word, and words near them, worked out by hand.
pub fn words()
    ensures reserved { ReservesWords }
    ensures others { LeavesWords }
{}

/// Marks next to each other, worked out by hand.
pub fn marks()
    ensures each { CutsEachMark }
    ensures less_equal { TakesLessEqual }
    ensures greater_equal { TakesGreaterEqual }
    ensures arrow { TakesArrow }
    ensures not_equal { TakesNotEqual }
    ensures assign { TakesAssign }
    ensures apart { TakesApart }
    ensures slash { RefusesSlash }
    ensures other_bytes { RefusesOtherBytes }
    ensures reduction { CutsReduction }
    ensures brackets { WritesBrackets }
{}

/// Each form of the grammar, and what is or isn't well formed, worked out by hand.
pub fn forms()
    ensures every_form { SpellsEveryForm }
    ensures every_form_text { WritesEveryForm }
    ensures every_form_well { IsEveryFormWell }
    ensures minus_zero { SpellsMinusZero }
    ensures zero { WritesZero }
    ensures cursor { NeedsCursor }
    ensures rising_lines { NeedsRisingLines }
{}

/// Texts whose first fault was worked out by hand, and texts right inside a limit.
pub fn refusals()
    ensures name_64 { TakesName64 }
    ensures name_65 { RefusesName65 }
    ensures string_1000 { TakesString1000 }
    ensures string_1001 { RefusesString1001 }
    ensures least { TakesLeast }
    ensures counting { TakesCounting }
    ensures past_greatest { RefusesPastGreatest }
    ensures less_too_much { RefusesLessTooMuch }
    ensures too_roomy { RefusesTooRoomy }
    ensures malformed { RefusesMalformed }
    ensures bracket { RefusesBracket }
    ensures tick { RefusesTick }
    ensures star { RefusesStar }
    ensures less_equal { RefusesLessEqual }
{}

/// Blocks of tasks, worked out by hand.
pub fn tasks()
    ensures spelled { SpellsSharing }
    ensures written { WritesSharing }
    ensures well { IsSharingWell }
    ensures some_task { NeedsTask }
    ensures in_block { NeedsBlock }
    ensures commands_alone { NeedsCommands }
{}

/// The limits of blocks of tasks, worked out by hand.
pub fn task_limits()
    ensures tasks_8 { Takes8Tasks }
    ensures task_9 { RefusesTask9 }
    ensures depth_16 { TakesTasksAtDepth16 }
    ensures depth_17 { RefusesTasksAtDepth17 }
    ensures behind { RefusesDepth17BehindTasks }
    ensures counted { CountsCommands }
    ensures command_1000 { TakesCommand1000 }
    ensures command_1001 { RefusesCommand1001 }
    ensures end_behind { TakesEndBehind1000 }
{}

/// Blocks with handlers, worked out by hand.
pub fn handlers()
    ensures spelled { SpellsHandled }
    ensures written { WritesHandled }
    ensures well { IsHandledWell }
    ensures pragma { NeedsPragma }
    ensures handler { NeedsHandler }
    ensures exception { NeedsException }
    ensures others { EndsAtOthers }
    ensures in_task { NeedsStatements }
    ensures exceptions { SpellsEachException }
    ensures equals { RefusesEquals }
{}

/// The pragma, and the words that it reserves, worked out by hand.
pub fn pragma_words()
    ensures names_when { NamesWhen }
    ensures names_pragma { NamesPragma }
    ensures names_propagate { NamesPropagate }
    ensures reserves_when { ReservesWhen }
    ensures reserves_pragma { ReservesPragma }
    ensures unwritten { WritesNoWhen }
    ensures front { NeedsFront }
    ensures once { NeedsOnePragma }
{}

/// The limits of blocks with handlers, worked out by hand.
pub fn handler_limits()
    ensures begin_16 { TakesBegin16 }
    ensures begin_17 { RefusesBegin17 }
    ensures in_handler { RefusesDepth17InHandler }
    ensures declare_16 { TakesDeclare16 }
    ensures behind_declare { RefusesBeginBehindDeclare }
{}
