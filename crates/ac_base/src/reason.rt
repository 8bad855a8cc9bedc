ghost use Rattle.std.specs.Prelude.{◌≡◌};
ghost use Rattle.ac_base.specs.Reason.{number_of, exception_of, text_of, exception_name};

/// The exceptions that a refusal raises (A.18.1, and 11.1 for the first two).
#[derive(Clone, Copy, PartialEq, Eq)]
pub enum Exception {
    ProgramError,
    ConstraintError,
    CapacityError,
}

impl Exception {
    /// The exception's name in capitals, as output lines write it.
    pub fn name(&self) -> &'static str
        ensures { result.now ≡ exception_name self.now }
    {
        match self {
            Exception::ProgramError => "PROGRAM_ERROR",
            Exception::ConstraintError => "CONSTRAINT_ERROR",
            Exception::CapacityError => "CAPACITY_ERROR",
        }
    }
}

/// Why a call is refused.
#[derive(Clone, Copy, PartialEq, Eq)]
pub enum Reason {
    /// The call would add or remove elements under a guard on cursors (A.18.2(90/5)).
    CursorTampering,
    /// The call would change elements under a guard on elements (A.18.2(94/5)).
    ElementTampering,
    /// A position is needed, and the cursor is No_Element.
    NoElement,
    /// The cursor is of another object.
    ForeignCursor,
    /// The cursor's element is gone.
    DeadCursor,
    IndexRange,
    /// A count is outside 0..1,000,000, or the new length would be above it.
    LengthRange,
    KeyPresent,
    KeyAbsent,
    Empty,
    /// The new length would be above the object's limit.
    CapacityFull,
    /// A keyed element was written back under another key.
    KeyChanged,
    /// The root of a tree stands where an element is needed.
    RootNode,
    BelowItself,
    NotLeaf,
    NotChild,
    SameContainer,
    Duplicate,
    /// A sum is outside the integers.
    Overflow,
    /// The element is above the size that a bounded holder takes.
    TooLarge,
    /// The object has no name left for a new element.
    NamesSpent,
    RootSource,
}

impl Reason {
    /// The reason's number in the table of reasons, from 1.
    pub fn number(&self) -> u8
        ensures { result ≡ number_of self.now }
    {
        match self {
            Reason::CursorTampering => 1,
            Reason::ElementTampering => 2,
            Reason::NoElement => 3,
            Reason::ForeignCursor => 4,
            Reason::DeadCursor => 5,
            Reason::IndexRange => 6,
            Reason::LengthRange => 7,
            Reason::KeyPresent => 8,
            Reason::KeyAbsent => 9,
            Reason::Empty => 10,
            Reason::CapacityFull => 11,
            Reason::KeyChanged => 12,
            Reason::RootNode => 13,
            Reason::BelowItself => 14,
            Reason::NotLeaf => 15,
            Reason::NotChild => 16,
            Reason::SameContainer => 17,
            Reason::Duplicate => 18,
            Reason::Overflow => 19,
            Reason::TooLarge => 20,
            Reason::NamesSpent => 21,
            Reason::RootSource => 22,
        }
    }

    /// The exception that the reason raises.
    pub fn exception(&self) -> Exception
        ensures { result ≡ exception_of self.now }
    {
        match self {
            Reason::CursorTampering
            | Reason::ElementTampering
            | Reason::ForeignCursor
            | Reason::DeadCursor
            | Reason::KeyChanged
            | Reason::RootNode
            | Reason::SameContainer
            | Reason::Duplicate
            | Reason::TooLarge => Exception::ProgramError,
            Reason::CapacityFull => Exception::CapacityError,
            _ => Exception::ConstraintError,
        }
    }

    /// The words that an output line writes for the reason.
    pub fn text(&self) -> &'static str
        ensures { result.now ≡ text_of self.now }
    {
        match self {
            Reason::CursorTampering => "cursor tampering",
            Reason::ElementTampering => "element tampering",
            Reason::NoElement => "no element",
            Reason::ForeignCursor => "foreign cursor",
            Reason::DeadCursor => "dead cursor",
            Reason::IndexRange => "index",
            Reason::LengthRange => "length",
            Reason::KeyPresent => "key present",
            Reason::KeyAbsent => "key absent",
            Reason::Empty => "empty",
            Reason::CapacityFull => "full",
            Reason::KeyChanged => "key changed",
            Reason::RootNode => "root",
            Reason::BelowItself => "below itself",
            Reason::NotLeaf => "not a leaf",
            Reason::NotChild => "not a child",
            Reason::SameContainer => "same container",
            Reason::Duplicate => "duplicate",
            Reason::Overflow => "overflow",
            Reason::TooLarge => "element too large",
            Reason::NamesSpent => "names spent",
            Reason::RootSource => "root source",
        }
    }
}
