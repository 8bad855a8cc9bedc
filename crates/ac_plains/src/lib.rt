//! The outermost variables and objects of a script as plain values, and filled from plain values.
#![tactic(auto)]

mod fault;
mod filling;
mod law;
mod nodes;
mod plains;
mod resuming;
mod saving;
mod sound;
mod state_law;
mod telling;

pub use fault::{FillFault, ResumeFault};
pub use law::states_resume;
pub use plains::{plain, plain_at};
pub use resuming::{fill, resume};
pub use saving::append_state;
pub use sound::{plain_is_valid, sound_objects};
pub use state_law::saved_states_valid;
