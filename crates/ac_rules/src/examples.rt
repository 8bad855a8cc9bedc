//! Declarations and statements, judged by hand.
ghost use Rattle.ac_rules.specs.Examples.{TakesElements, CountsArguments, SplicesOfOneType, TakesCursors, TakesAnswers, SumsIntegers, CallsByKind};
ghost use Rattle.ac_rules.specs.Examples.{KeepsLoopCursor, WritesNothingQueried, WritesUpdated, WritesLooped, WritesNoSet, LoopsOverCursors};
ghost use Rattle.ac_rules.specs.Examples.{ViewsElements, ViewsSets, UpdatesNoKey, ViewsHolders, FitsCapacity, NeedsCursors, MakesRows};
ghost use Rattle.ac_rules.specs.Examples.{CountsNames, MeansByArguments, MeansByKind, TreesMeanByArguments};
ghost use Rattle.ac_rules.specs.TaskExamples.{CallsQueues, SetsLocals, HasNoBlocks, TakesTasks, RefusesTaskTwice, RefusesLocalAsItsTask, RefusesOuterName};
ghost use Rattle.ac_rules.specs.TaskExamples.{RefusesLocalOfAnother, RefusesOuterVariable, RefusesTextLocal, FreesNames};
ghost use Rattle.ac_rules.specs.HandlerExamples.{TakesHandlers, RefusesTwice, RefusesTwiceBehindAnother, RefusesInOrder, TakesInnerHandlers, RefusesUnknownName};
ghost use Rattle.ac_rules.specs.HandlerExamples.{RefusesNameOfBody, RefusesNameOfHandler, FreesNamesOfHandlers, TriesNothingInTasks, ResolvesHandlers};
ghost use Rattle.ac_rules.specs.ResolvedExamples.{PlacesInBlocks, PlacesNoName, ResolvesArguments, ResolvesByArguments, ResolvesObjects, ResolvesScript};

/// Commands that keep the rules, and beside them some that break them.
pub fn command_examples()
    ensures takes_elements { TakesElements }
    ensures counts_arguments { CountsArguments }
    ensures splices_of_one_type { SplicesOfOneType }
    ensures takes_cursors { TakesCursors }
    ensures takes_answers { TakesAnswers }
    ensures sums_integers { SumsIntegers }
    ensures calls_by_kind { CallsByKind }
{}

/// The same of heads of blocks and of what stands in them.
pub fn block_examples()
    ensures keeps_loop_cursor { KeepsLoopCursor }
    ensures writes_nothing_queried { WritesNothingQueried }
    ensures writes_updated { WritesUpdated }
    ensures writes_looped { WritesLooped }
    ensures loops_over_cursors { LoopsOverCursors }
    ensures views_elements { ViewsElements }
    ensures views_sets { ViewsSets }
    ensures updates_no_key { UpdatesNoKey }
    ensures views_holders { ViewsHolders }
    ensures writes_no_set { WritesNoSet }
{}

/// The same of declarations.
pub fn declaration_examples()
    ensures fits_capacity { FitsCapacity }
    ensures needs_cursors { NeedsCursors }
    ensures makes_rows { MakesRows }
    ensures counts_names { CountsNames }
{}

/// Calls with the operations that they mean.
pub fn operation_examples()
    ensures by_arguments { MeansByArguments }
    ensures by_kind { MeansByKind }
    ensures trees { TreesMeanByArguments }
{}

/// What statements and declarations are resolved to.
pub fn resolved_examples()
    ensures places_in_blocks { PlacesInBlocks }
    ensures places_no_name { PlacesNoName }
    ensures arguments { ResolvesArguments }
    ensures by_arguments { ResolvesByArguments }
    ensures objects { ResolvesObjects }
    ensures script { ResolvesScript }
{}

/// What a task may have, and blocks of tasks.
pub fn task_examples()
    ensures calls_queues { CallsQueues }
    ensures sets_locals { SetsLocals }
    ensures has_no_blocks { HasNoBlocks }
    ensures takes_tasks { TakesTasks }
    ensures task_twice { RefusesTaskTwice }
    ensures local_as_its_task { RefusesLocalAsItsTask }
    ensures outer_name { RefusesOuterName }
    ensures local_of_another { RefusesLocalOfAnother }
    ensures outer_variable { RefusesOuterVariable }
    ensures text_local { RefusesTextLocal }
    ensures frees_names { FreesNames }
{}

/// Handlers of one block, what they may name, and what they are resolved to.
pub fn handler_examples()
    ensures takes_handlers { TakesHandlers }
    ensures twice { RefusesTwice }
    ensures twice_behind_another { RefusesTwiceBehindAnother }
    ensures in_order { RefusesInOrder }
    ensures inner_handlers { TakesInnerHandlers }
    ensures unknown_name { RefusesUnknownName }
    ensures name_of_body { RefusesNameOfBody }
    ensures name_of_handler { RefusesNameOfHandler }
    ensures frees_names { FreesNamesOfHandlers }
    ensures in_tasks { TriesNothingInTasks }
    ensures resolved { ResolvesHandlers }
{}
