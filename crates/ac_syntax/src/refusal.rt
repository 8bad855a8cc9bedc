/// Why a script is refused.
#[derive(Clone, Copy, PartialEq, Eq)]
pub enum RefusalKind {
    Syntax,
    Limit,
    UnknownName,
    WrongType,
    Twice,
}
