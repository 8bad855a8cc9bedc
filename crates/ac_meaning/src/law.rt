//! What holds of every script when it runs.
ghost use Rattle.ac_meaning.specs.Laws.{RunsResolved, ScriptRunsResolved, OrdersTell, RepliesStay, CommandsStay};
ghost use Rattle.ac_meaning.specs.Laws.{EndsStayNormal, NoneRunsBehind};
ghost use Rattle.ac_meaning.specs.Laws.{ObjectsGoOn, NamesStayInScope, RefusalsLeave};
ghost use Rattle.ac_meaning.specs.Stays.{NamesComeAndGo};
ghost use Rattle.ac_meaning.specs.GuardedNames.{ResolvedKeepsGuarded, KeepsGuarded, GuardedStays, DesignatedStays, BlocksGuard};
ghost use Rattle.ac_meaning.specs.GuardedNames.{TurnsKeepNames, UpdatesAreAlone, ElementsStay, ViewsGuardElements};
ghost use Rattle.ac_meaning.specs.Walks.{WalksInOrder};
ghost use Rattle.ac_meaning.specs.FitsScope.{NamesFound, DeclaredFits, HeadsFit, GoesOnFitting};
ghost use Rattle.ac_meaning.specs.HoldsTypes.{TypesFound, DeclaredHolds, HeadsHold, GoesOnHolding};
ghost use Rattle.ac_meaning.specs.AsDeclared.{StatesGoOn, StaysDeclared};
ghost use Rattle.ac_meaning.specs.Suits.{CallsSuit, BlocksSuit, TasksFit, TasksRun};
ghost use Rattle.ac_meaning.specs.ValueTypes.{ValuesFound, ValuesDeclared, ValuesInBlocks, ValuesGoOn, AnswersAreTold, ValuesTaken};
ghost use Rattle.ac_meaning.specs.Plains.{TypesTold};
ghost use Rattle.ac_meaning.specs.ReadsByLetter.{ReadsByLetter};
ghost use Rattle.ac_meaning.specs.HistoryLines.{EntriesHaveLines, BlocksAreCounted};
ghost use Rattle.ac_meaning.specs.Numbers.{NumbersTell, NumbersGoOnDiffering, NextRises, BlocksRise};
ghost use Rattle.ac_meaning.specs.Numbers.{NewObjectsAreUnguarded, GuardsAreOnOneObject};
ghost use Rattle.ac_meaning.specs.UnderGuards.{GuardsComeAndGo, CountsAreTheGuards, PartsUnder};
ghost use Rattle.ac_meaning.specs.UnderGuards.{CommandsKeepCounts, BlocksKeepCounts, UpdatesKeepCounts};

/// Statements run as what they are resolved to, and so does a script.
pub fn resolved_statements()
    ensures each { RunsResolved }
    ensures script { ScriptRunsResolved }
{}

/// What statements come to is told by the orders of the blocks of tasks that begin in them, each of which is counted once: where none
/// begins, no order tells anything.
pub fn blocks_have_orders()
    ensures rise { BlocksRise }
    ensures counted { BlocksAreCounted }
    ensures told { OrdersTell }
{}

/// A call keeps the numbers of its objects and their counts of guards, and takes back no name; and while a guard is held on an
/// object, a call that isn't refused changes neither the names in its rows nor their order.
pub fn objects_stay<T>()
    ensures replies { RepliesStay T }
    ensures commands { CommandsStay }
    ensures numbers { ObjectsGoOn }
    ensures scope { NamesStayInScope }
    ensures names { NamesComeAndGo }
{}

/// The counts of the objects are those of the guards that are held, and each command leaves them so.
pub fn counts_stay()
    ensures guards { GuardsComeAndGo }
    ensures counts { CountsAreTheGuards }
    ensures parts { PartsUnder }
    ensures commands { CommandsKeepCounts }
    ensures blocks { BlocksKeepCounts }
    ensures updates { UpdatesKeepCounts }
{}

/// While a guard is held on an object, no statement changes the names in its rows or their order, and each name in scope goes on to
/// hold what it held: an object with its number, a cursor, a value, or the same element. A key is updated where no other guard is held
/// on its set, whose element may go at the end. So an element that a cursor designates stands, and a holder keeps that it has an
/// element while one is viewed.
pub fn guarded_names_stay()
    ensures resolved { ResolvedKeepsGuarded }
    ensures statements { KeepsGuarded }
    ensures objects { GuardedStays }
    ensures designated { DesignatedStays }
    ensures blocks { BlocksGuard }
    ensures turns { TurnsKeepNames }
    ensures updates { UpdatesAreAlone }
    ensures elements { ElementsStay }
    ensures views { ViewsGuardElements }
{}

/// A walk by Next meets each of the names that a loop goes over, in its order, and one by Previous those of a loop backwards: so do
/// the turns of a loop, whose object keeps its names to the loop's end.
pub fn loops_meet_each_name<V>()
    ensures { WalksInOrder V }
{}

/// What the names in scope hold is what the checks say that they stand for: where a script begins, behind declarations and heads that
/// keep the rules, and after every statement.
pub fn names_fit()
    ensures found { NamesFound }
    ensures declared { DeclaredFits }
    ensures heads { HeadsFit }
    ensures statements { GoesOnFitting }
{}

/// What the names in scope hold is of the types that the checks give them, by kind and types of elements: where a script begins, behind
/// declarations and heads that keep the rules, and after every statement that does.
pub fn types_hold()
    ensures found { TypesFound }
    ensures declared { DeclaredHolds }
    ensures heads { HeadsHold }
    ensures statements { GoesOnHolding }
{}

/// An object stays what it was declared as, from the declarations to a script's end: of its kind with the types of its elements, within
/// its limit, and with a Capacity or without. That of a bounded object is its limit, and another one goes by steps.
pub fn objects_as_declared()
    ensures statements { StatesGoOn }
    ensures script { StaysDeclared }
{}

/// So a call that keeps the rules is on an object, and means one of the operations of that object's kind; a block on an object finds one
/// that takes guards; and each block of tasks fits and runs by its order.
pub fn statements_suit()
    ensures calls { CallsSuit }
    ensures blocks { BlocksSuit }
    ensures fit { TasksFit }
    ensures run { TasksRun }
{}

/// Values have the types that the checks give them: a variable's value, the copy of an update of a key, and an element that a name stands
/// for, which is there as long as the name: where a script begins, behind declarations and heads that keep the rules, and after every
/// statement that does. A call of the table answers what the table says.
pub fn values_hold()
    ensures found { ValuesFound }
    ensures declared { ValuesDeclared }
    ensures heads { ValuesInBlocks }
    ensures answers { AnswersAreTold }
    ensures statements { ValuesGoOn }
{}

/// So what a command that keeps the rules takes as a value is one of the type that it asks, a literal in a task an integer, and what it
/// assigns is of its target's type.
pub fn values_suit()
    ensures { ValuesTaken }
{}

/// A reply reads of a call's arguments what their letters in the table say, and nothing else: where a cursor is asked the cursor, where an
/// integer the integer, where an element or a key the value as one of that type, and an object only where one is asked.
pub fn replies_read_by_letter()
    ensures { ReadsByLetter }
{}

/// A legal history of a block of tasks writes one line for each of its entries, with the number of its step, its task's name and its reply.
pub fn entries_have_lines()
    ensures { EntriesHaveLines }
{}

/// Each object in scope has a number of its own, and no number is given again: so guards and cursors are those of one object.
pub fn numbers_differ()
    ensures tell { NumbersTell }
    ensures statements { NumbersGoOnDiffering }
    ensures next { NextRises }
    ensures guards { NewObjectsAreUnguarded }
    ensures places { GuardsAreOnOneObject }
{}

/// A command that is refused, or would wait, leaves the environment.
pub fn refusals_leave()
    ensures { RefusalsLeave }
{}

/// Where exceptions don't propagate, statements end normally; and behind an exception none runs.
pub fn statements_end()
    ensures normal { EndsStayNormal }
    ensures none_runs { NoneRunsBehind }
{}

/// The type that a plain value tells of a new object is the one that it was declared with.
pub fn types_told()
    ensures { TypesTold }
{}
