//! What hashed and ordered maps and sets have in common: their calls, over any index that keeps the rows.
#![tactic(auto)]

pub mod algebra;
mod entry;
mod entry_element;
mod filling;
mod index;
mod keyed;
mod keys;
mod mapped;
mod ordered;
mod refilling;
mod searched;
mod set_like;
mod table;

pub use entry::Entry;
pub use index::Index;
pub use keyed::Keyed;
pub use keys::{Keys, OfEntries, OfKeyed};
pub use mapped::Mapped;
pub use ordered::Ordered;
pub use searched::Searched;
pub use set_like::SetLike;
pub use table::Table;
