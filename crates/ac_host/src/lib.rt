//! The host, which runs a script's statements and writes the line of each command as soon as it has run.
#![tactic(auto)]

mod end;
mod fitting;
mod handling;
mod host;
mod law;
mod line;
mod named_task;
mod places;
mod prepared;
mod runner;
mod serial;
mod short;
mod task_code;
mod task_lines;
mod tasks;
mod workers;
mod written;

pub use end::HostEnd;
pub use host::Host;
pub use law::statements_begin;
