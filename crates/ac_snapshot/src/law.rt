//! What holds of states and their texts.
ghost use Rattle.ac_snapshot.specs.TestLaws.{DecidesIntegers, DecidesTexts, DecidesSteps, DecidesKeys, DecidesRows, AscendingDiffer, BehindInParts};
ghost use Rattle.ac_snapshot.specs.RowLaws.{FormsStand, FormsAreRows, FormsAreValues, RowsHaveForm, ListsAsPrinted};
ghost use Rattle.ac_snapshot.specs.ReadingExamples.{ReadsNothing, ReadsBoundedList, ReadsListAndInteger};
ghost use Rattle.ac_snapshot.specs.Writings.{ReadsNumbers, ReadsIntegers, ReadsTexts, ReadsValues, ReadsRows, ReadsEntries};
ghost use Rattle.ac_snapshot.specs.ReadingLaws.{ReadsWritten, RefusesUnended, BeginsWithOne, HasOneReading, HasReading};
ghost use Rattle.ac_snapshot.specs.TextExamples.{WritesListAndInteger, WritesNothing, WritesVector, WritesInteger, WritesString, WritesList, WritesHashedMap};
ghost use Rattle.ac_snapshot.specs.TextExamples.{WritesOrderedMap, WritesKeyedSet, WritesBoundedKeyedSet, WritesTree, WritesEmptyTree, WritesHolder};
ghost use Rattle.ac_snapshot.specs.TextExamples.{WritesQueue, WritesPriorityQueue};
ghost use Rattle.ac_snapshot.specs.ValidityExamples.{TakesStates, TellsNames, TellsNamesApart, TellsIntegers, TellsTexts, TellsTypes, TellsLimits, TellsRoom};
ghost use Rattle.ac_snapshot.specs.ValidityExamples.{TellsCapacities, TellsPeaks, TellsRows, TellsLengths, TellsHolders, TellsKeys, TellsOrders, TellsOutlines};
ghost use Rattle.ac_snapshot.specs.ValidityExamples.{TellsPriorities};

/// Each kind of entry as text, worked out by hand.
pub fn text_examples()
    ensures list_and_integer { WritesListAndInteger }
    ensures nothing { WritesNothing }
    ensures vector { WritesVector }
    ensures integer { WritesInteger }
    ensures string { WritesString }
    ensures list { WritesList }
    ensures hashed_map { WritesHashedMap }
    ensures ordered_map { WritesOrderedMap }
    ensures keyed_set { WritesKeyedSet }
    ensures bounded_keyed_set { WritesBoundedKeyedSet }
    ensures tree { WritesTree }
    ensures empty_tree { WritesEmptyTree }
    ensures holder { WritesHolder }
    ensures queue { WritesQueue }
    ensures priority_queue { WritesPriorityQueue }
{}

/// States that are valid and, for each rule, states that break it alone, worked out by hand.
pub fn validity_examples()
    ensures states { TakesStates }
    ensures names { TellsNames }
    ensures names_apart { TellsNamesApart }
    ensures integers { TellsIntegers }
    ensures texts { TellsTexts }
    ensures types { TellsTypes }
    ensures limits { TellsLimits }
    ensures room { TellsRoom }
    ensures capacities { TellsCapacities }
    ensures peaks { TellsPeaks }
    ensures rows { TellsRows }
    ensures lengths { TellsLengths }
    ensures holders { TellsHolders }
    ensures keys { TellsKeys }
    ensures orders { TellsOrders }
    ensures outlines { TellsOutlines }
    ensures priorities { TellsPriorities }
{}

/// Texts that are read as states, worked out by hand.
pub fn reading_examples()
    ensures nothing { ReadsNothing }
    ensures bounded_list { ReadsBoundedList }
    ensures list_and_integer { ReadsListAndInteger }
{}

/// The tests of values, of Capacities and of rows decide what the types and the model say.
pub fn tests_decide()
    ensures integers { DecidesIntegers }
    ensures texts { DecidesTexts }
    ensures steps { DecidesSteps }
    ensures rows { DecidesRows }
{}

/// The test of keys decides what the model says of a valid map or set.
pub fn keys_decided<V>()
    ensures keys { DecidesKeys V }
    ensures ascending { AscendingDiffer V }
{}

/// When an entry is valid behind others.
pub fn behind_in_parts()
    ensures { BehindInParts }
{}

/// Plain rows and what they stand for in an object, there and back.
pub fn rows_stand()
    ensures forms { FormsStand }
    ensures are_rows { FormsAreRows }
    ensures are_values { FormsAreValues }
    ensures rows { RowsHaveForm }
{}

/// The rows in a state's text are what Print answers.
pub fn lists_as_printed()
    ensures { ListsAsPrinted }
{}

/// The text of a valid state is read as the state, and is refused where it ends within a line.
pub fn states_read()
    ensures written { ReadsWritten }
    ensures unended { RefusesUnended }
{}

/// Values are read as they are written, and as nothing else.
pub fn values_read()
    ensures numbers { ReadsNumbers }
    ensures integers { ReadsIntegers }
    ensures texts { ReadsTexts }
    ensures values { ReadsValues }
    ensures rows { ReadsRows }
    ensures entries { ReadsEntries }
{}

/// A text begins with the line of one valid entry at most, and has one reading.
pub fn one_reading()
    ensures entry { BeginsWithOne }
    ensures some { HasReading }
    ensures state { HasOneReading }
{}
