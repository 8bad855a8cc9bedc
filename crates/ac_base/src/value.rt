use crate::text::Text;

/// A value of an element, a key or a variable.
#[derive(Drop, PartialEq, Eq)]
pub enum Value {
    Int(i64),
    Text(Text),
}
