//! Values, what a container asks of its elements, names, cursors, limits, what guards forbid, the 22
//! reasons of a refusal and which of several is raised, and the two ways in which a call may fail.
#![tactic(auto)]

mod cursor;
mod element;
mod fault;
mod guard;
mod hash;
mod integer_element;
mod key_room;
mod keyed_text;
mod law;
mod limit;
mod name;
mod reason;
mod refusal;
mod steps;
mod text;
mod text_element;
mod value;

pub use cursor::Cursor;
pub use element::{Elem, Hashed, KeyOf, Rank, precedes};
pub use fault::{Fault, NoMemory};
pub use guard::{Class, GuardKind};
pub use key_room::KeyRoom;
pub use keyed_text::KeyedText;
pub use law::{classes_under_guards, examples, first_of_all, growths, steps_in_order, texts};
pub use limit::{GREATEST_LENGTH, Limit};
pub use name::Name;
pub use reason::{Exception, Reason};
pub use refusal::first_reason;
pub use steps::Steps;
pub use text::{Text, TextFault};
pub use value::Value;
