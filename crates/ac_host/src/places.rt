//! The queues that the tasks of a block share, by their places.
ghost use Rattle.std.specs.Prelude.{◌≡◌, ◌==◌, IfOk, OnOk};
ghost use Rattle.std.specs.List.{list_any};
ghost use Rattle.ac_rules.specs.Resolved.{no_statement};
ghost use Rattle.ac_rules.specs.ResolvedStatements.{resolved_before};
ghost use Rattle.ac_meaning.specs.TaskBlocks.{places_called, queue_places, with_place};

use ac_base::NoMemory;
use ac_rules::{ResolvedStmt, ResolvedStmts, ResolvedTasks};
use std::alloc::Global;

fn has_place(places: &[usize], place: usize) -> bool
    ensures { result ≡ list_any (λ p. p == place) places.now }
{
    places.iter().any(|other| *other == place)
}

/// Puts a place behind others, unless it is one of them.
fn add_place(places: &mut Vec<usize>, place: usize) -> Result<(), NoMemory>
    ensures { OnOk result (places.new.items ≡ with_place places.old.items place) }
{
    if has_place(places, place) {
        return Ok(());
    }
    places.push(place)?;
    Ok(())
}

/// Adds the place of the object that a command calls.
fn add_called(places: &mut Vec<usize>, step: &ResolvedStmt) -> Result<(), NoMemory>
    ensures { OnOk result (places.new.items ≡ places_called (resolved_before step.now no_statement) places.old.items) }
{
    match step {
        ResolvedStmt::Call { object, .. } => add_place(places, *object),
        _ => Ok(()),
    }
}

/// Adds the places of the objects that a task's commands call.
fn add_all_called(places: &mut Vec<usize>, steps: &ResolvedStmts) -> Result<(), NoMemory>
    ensures { OnOk result (places.new.items ≡ places_called steps.now places.old.items) }
{
    for step in steps.items() {
        add_called(places, step)?;
    }
    Ok(())
}

/// The places of the queues that tasks share, each once, in the order of the text.
pub(crate) fn queue_places(alloc: Global, tasks: &ResolvedTasks) -> Result<Vec<usize>, NoMemory>
    ensures { IfOk result (λ made. made.items ≡ queue_places tasks.now) }
{
    let mut places = Vec::new(alloc);
    for task in tasks.items() {
        add_all_called(&mut places, &task.steps)?;
    }
    Ok(places)
}
