use crate::token::Token;

/// What stands at the front of a text: how many bytes it has, and its token, unless it is white space or
/// a comment.
#[derive(Drop)]
pub struct Piece {
    pub len: usize,
    pub token: Option<Token>,
}
