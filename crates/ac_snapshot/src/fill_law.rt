//! What the calls do that fill an object from an entry.
ghost use Rattle.ac_snapshot.specs.FillLaws.{FillBegins, FillReserves, FillPuts, FillEnds};

/// An object that was just declared is filled from its entry by calls that scripts have too: the
/// Capacity is reserved, and then there is a call for each row. Trees aside.
pub fn objects_fill()
    ensures begins { FillBegins }
    ensures reserves { FillReserves }
    ensures puts { FillPuts }
    ensures ends { FillEnds }
{}
