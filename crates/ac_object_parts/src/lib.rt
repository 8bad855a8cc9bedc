//! Tests of what no script reaches of a script's objects: numbers that are spent.
//! They stand here so that `ac_objects` isn't proved a second time with its tests.
#![tactic(auto)]

#[cfg(test)]
mod numbers;
