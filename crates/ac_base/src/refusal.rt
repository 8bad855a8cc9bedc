//! Which of several reasons a call is refused for.
ghost use Rattle.std.specs.Prelude.{◌≡◌};
ghost use Rattle.ac_base.specs.FirstReason.{step_of, earlier, first_reason};

use crate::reason::Reason;

/// The step in which a call looks for the reason.
#[inline(always)]
fn step_of(reason: Reason) -> u8
    ensures { result ≡ step_of reason }
{
    match reason {
        Reason::CursorTampering | Reason::ElementTampering => 1,
        Reason::NoElement => 2,
        Reason::ForeignCursor => 3,
        Reason::DeadCursor => 4,
        Reason::RootNode | Reason::RootSource => 5,
        Reason::LengthRange => 7,
        Reason::CapacityFull | Reason::TooLarge => 8,
        Reason::NamesSpent => 9,
        _ => 6,
    }
}

/// Of two reasons the one of the earlier step, and the first where both are of one step.
#[inline(always)]
fn earlier(first: Option<Reason>, second: Option<Reason>) -> Option<Reason>
    ensures { result ≡ earlier first second }
{
    match (first, second) {
        (Some(reason), Some(other)) if step_of(other) < step_of(reason) => second,
        (Some(_), _) => first,
        (None, _) => second,
    }
}

/// Among the reasons that were found, the first one of the earliest step.
#[inline(always)]
pub fn first_reason(found: &[Option<Reason>]) -> Option<Reason>
    ensures { result ≡ first_reason found.now }
{
    let mut first = None;
    for reason in found {
        first = earlier(first, *reason);
    }
    first
}
