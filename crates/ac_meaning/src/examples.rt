//! Worked rows.
ghost use Rattle.ac_meaning.specs.Examples.{LoopForbidsAppend, DeadCursorIsRefused, TamperingGoesFirst, StableLetsWrite};
ghost use Rattle.ac_meaning.specs.Examples.{ViewWritesElement, InnerObjectsAreNew, SplicesMove};
ghost use Rattle.ac_meaning.specs.Examples.{RefusedSetsNothing, SumsStayInRange, LoopsHoldTheirGuards, SpentNumberSkipsBlock};
ghost use Rattle.ac_meaning.specs.Examples.{StringsAreKept, ElementsComeAndGo, ElementsMove, ListsGiveAndTake};
ghost use Rattle.ac_meaning.specs.Examples.{VectorLoopsHoldTheirGuards, IndexesAreInRange, CursorsKeepElements, BoundedVectorIsFull};
ghost use Rattle.ac_meaning.specs.Examples.{ElementsHaveIndexes, VectorsTakeCopies};
ghost use Rattle.ac_meaning.specs.KeyedExamples.{MapsKeepArrival, SetsStandAscending, OrderedMapsHaveEnds, SetsAreGuardedWhole, SetsAreJoined};
ghost use Rattle.ac_meaning.specs.KeyedExamples.{SetsMeetThemselves, KeysAreUpdated, KeysTellElements, KeysAreJoined, KeysAreReplaced};
ghost use Rattle.ac_meaning.specs.KeyedExamples.{KeysAreLookedUp};
ghost use Rattle.ac_meaning.specs.KeyedCallExamples.{MapsAreWalked, SetsAreWalked, ElementsAreFound, MapsAreSearched, OrderedSetsHaveEnds};
ghost use Rattle.ac_meaning.specs.KeyedCallExamples.{SetsAreSubtracted, HashedHaveCapacity, MapsLendElements};
ghost use Rattle.ac_meaning.specs.Examples.{MapIsListed, NoNodesAreListed, TreeIsListed, DeepTreeIsListed};
ghost use Rattle.ac_meaning.specs.TreeExamples.{NodesComeAndGo, SubtreesAreCopied, NodesAreAsked, WaysLeadOn, NodesAreChanged};
ghost use Rattle.ac_meaning.specs.TreeExamples.{SubtreesMove, TreesGiveAndTake, DepthsAreCompared, TreeLoopsHoldTheirGuards};
ghost use Rattle.ac_meaning.specs.TreeExamples.{BoundedTreesAreFull, RootsAreNoNodes};
ghost use Rattle.ac_meaning.specs.HolderExamples.{HolderIsBounded, ViewsGuardHolders, HoldersAreCompared, HoldersGiveAndTake};
ghost use Rattle.ac_meaning.specs.HolderExamples.{LimitsAreOfBoth, WritesAreWithinLimits, IntegersHaveEightBytes, EmptyStringsHaveNone};
ghost use Rattle.ac_meaning.specs.HolderExamples.{HoldersMeetThemselves, GuardsAreOfBoth, InnerHoldersAreNew, HoldersHaveNoNodes};
ghost use Rattle.ac_meaning.specs.PlainExamples.{VectorsArePlain, ListsArePlain, MapsArePlain, SetsArePlain, TreesArePlain};
ghost use Rattle.ac_meaning.specs.PlainExamples.{HoldersArePlain, QueuesArePlain, VariablesArePlain};
ghost use Rattle.ac_meaning.specs.MeaningExamples.{RefusalsAreOneLine, UnknownNamesAreRefused, NothingWritesNothing};
ghost use Rattle.ac_meaning.specs.TaskExamples.{QueuesStall, PrioritiesGoFirst, AllTasksStall, OneItemGoesByTurns};
ghost use Rattle.ac_meaning.specs.TaskExamples.{TwoItemsGoAsOrdered, RaisedStepGoesOn, LocalsAreOwn, UsesAreTold, BlocksHaveOrders};
ghost use Rattle.ac_meaning.specs.Propagation.{LoopIsLeft, GoesOnWithout, CopyIsDropped, FirstHandlerTakes};
ghost use Rattle.ac_meaning.specs.Propagation.{EndsTheScript, StalledRaisesNothing, NoFurtherTurn, EndRaises};

/// What small scripts leave of each kind of object, as plain values.
pub fn plain_values()
    ensures vectors_are_plain { VectorsArePlain }
    ensures lists_are_plain { ListsArePlain }
    ensures maps_are_plain { MapsArePlain }
    ensures sets_are_plain { SetsArePlain }
    ensures trees_are_plain { TreesArePlain }
    ensures holders_are_plain { HoldersArePlain }
    ensures queues_are_plain { QueuesArePlain }
    ensures variables_are_plain { VariablesArePlain }
{}

/// What small scripts write, to the byte.
pub fn list_scripts()
    ensures loop_forbids_append { LoopForbidsAppend }
    ensures dead_cursor_is_refused { DeadCursorIsRefused }
    ensures tampering_goes_first { TamperingGoesFirst }
    ensures splices_move { SplicesMove }
    ensures refused_sets_nothing { RefusedSetsNothing }
    ensures sums_stay_in_range { SumsStayInRange }
    ensures strings_are_kept { StringsAreKept }
    ensures loops_hold_their_guards { LoopsHoldTheirGuards }
{}

/// The same of views and inner scopes.
pub fn scope_scripts()
    ensures stable_lets_write { StableLetsWrite }
    ensures view_writes_element { ViewWritesElement }
    ensures inner_objects_are_new { InnerObjectsAreNew }
    ensures spent_number_skips_block { SpentNumberSkipsBlock }
{}

/// The same of each call that scripts have on lists.
pub fn list_calls()
    ensures elements_come_and_go { ElementsComeAndGo }
    ensures elements_move { ElementsMove }
    ensures lists_give_and_take { ListsGiveAndTake }
{}

/// What small scripts with vectors write.
pub fn vector_scripts()
    ensures vector_loops_hold_their_guards { VectorLoopsHoldTheirGuards }
    ensures indexes_are_in_range { IndexesAreInRange }
    ensures cursors_keep_elements { CursorsKeepElements }
    ensures bounded_vector_is_full { BoundedVectorIsFull }
{}

/// The same of each call that scripts have on vectors alone.
pub fn vector_calls()
    ensures elements_have_indexes { ElementsHaveIndexes }
    ensures vectors_take_copies { VectorsTakeCopies }
{}

/// The same of maps and sets.
pub fn map_and_set_scripts()
    ensures maps_keep_arrival { MapsKeepArrival }
    ensures sets_stand_ascending { SetsStandAscending }
    ensures ordered_maps_have_ends { OrderedMapsHaveEnds }
    ensures sets_are_guarded_whole { SetsAreGuardedWhole }
    ensures sets_are_joined { SetsAreJoined }
    ensures sets_meet_themselves { SetsMeetThemselves }
{}

/// The same of the calls that look up, walk and take out.
pub fn keyed_calls()
    ensures maps_are_walked { MapsAreWalked }
    ensures sets_are_walked { SetsAreWalked }
    ensures elements_are_found { ElementsAreFound }
    ensures maps_are_searched { MapsAreSearched }
    ensures ordered_sets_have_ends { OrderedSetsHaveEnds }
    ensures sets_are_subtracted { SetsAreSubtracted }
    ensures hashed_have_capacity { HashedHaveCapacity }
    ensures maps_lend_elements { MapsLendElements }
{}

/// The same of sets of strings with keys.
pub fn keyed_set_scripts()
    ensures keys_are_updated { KeysAreUpdated }
    ensures keys_tell_elements { KeysTellElements }
    ensures keys_are_joined { KeysAreJoined }
    ensures keys_are_replaced { KeysAreReplaced }
    ensures keys_are_looked_up { KeysAreLookedUp }
{}

/// What small scripts with multiway trees write.
pub fn tree_scripts()
    ensures nodes_come_and_go { NodesComeAndGo }
    ensures subtrees_are_copied { SubtreesAreCopied }
    ensures depths_are_compared { DepthsAreCompared }
    ensures tree_loops_hold_their_guards { TreeLoopsHoldTheirGuards }
    ensures bounded_trees_are_full { BoundedTreesAreFull }
    ensures roots_are_no_nodes { RootsAreNoNodes }
{}

/// The same of each call that scripts have on trees.
pub fn tree_calls()
    ensures nodes_are_asked { NodesAreAsked }
    ensures ways_lead_on { WaysLeadOn }
    ensures nodes_are_changed { NodesAreChanged }
    ensures subtrees_move { SubtreesMove }
    ensures trees_give_and_take { TreesGiveAndTake }
{}

/// What small scripts with holders write.
pub fn holder_scripts()
    ensures holder_is_bounded { HolderIsBounded }
    ensures views_guard_holders { ViewsGuardHolders }
    ensures writes_are_within_limits { WritesAreWithinLimits }
    ensures integers_have_eight_bytes { IntegersHaveEightBytes }
    ensures empty_strings_have_none { EmptyStringsHaveNone }
    ensures inner_holders_are_new { InnerHoldersAreNew }
    ensures holders_have_no_nodes { HoldersHaveNoNodes }
{}

/// The same of each call that scripts have on holders.
pub fn holder_calls()
    ensures holders_are_compared { HoldersAreCompared }
    ensures holders_give_and_take { HoldersGiveAndTake }
    ensures limits_are_of_both { LimitsAreOfBoth }
    ensures holders_meet_themselves { HoldersMeetThemselves }
    ensures guards_are_of_both { GuardsAreOfBoth }
{}

/// What small scripts with queues and blocks of tasks write.
pub fn task_scripts()
    ensures queues_stall { QueuesStall }
    ensures priorities_go_first { PrioritiesGoFirst }
    ensures all_tasks_stall { AllTasksStall }
    ensures one_item_goes_by_turns { OneItemGoesByTurns }
    ensures two_items_go_as_ordered { TwoItemsGoAsOrdered }
    ensures raised_step_goes_on { RaisedStepGoesOn }
    ensures locals_are_own { LocalsAreOwn }
    ensures uses_are_told { UsesAreTold }
    ensures blocks_have_orders { BlocksHaveOrders }
{}

/// How maps and trees are listed.
pub fn listings()
    ensures map_is_listed { MapIsListed }
    ensures no_nodes_are_listed { NoNodesAreListed }
    ensures tree_is_listed { TreeIsListed }
    ensures deep_tree_is_listed { DeepTreeIsListed }
{}

/// What small inputs mean.
pub fn meanings()
    ensures refusals_are_one_line { RefusalsAreOneLine }
    ensures unknown_names_are_refused { UnknownNamesAreRefused }
    ensures nothing_writes_nothing { NothingWritesNothing }
{}

/// What statements with handlers write, where exceptions propagate and where they don't.
pub fn propagation()
    ensures loop_is_left { LoopIsLeft }
    ensures goes_on_without { GoesOnWithout }
    ensures copy_is_dropped { CopyIsDropped }
    ensures first_handler_takes { FirstHandlerTakes }
    ensures ends_the_script { EndsTheScript }
    ensures stalled_raises_nothing { StalledRaisesNothing }
    ensures no_further_turn { NoFurtherTurn }
    ensures end_raises { EndRaises }
{}
