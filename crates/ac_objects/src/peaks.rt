//! The greatest use of a queue, where a saved state tells it.
ghost use Rattle.std.specs.Prelude.{◌≡◌, IfSome, slice_get};
ghost use Rattle.ac_meaning.specs.Environment.{bound_at, with_bound};
ghost use Rattle.ac_objects.specs.Peaks.{PeakFits, peaked, bound_with_peak, bounds_with_peak};
ghost use Rattle.ac_objects.specs.Standing.{counts_of};
ghost use Rattle.ac_objects.specs.World.{bound_of, state_of, Persists};

use crate::bound::Bound;
use crate::object::Object;
use crate::objects::Objects;

impl Objects {
    /// Sets the greatest use of the queue at the place. Another name has none.
    pub fn restore_peak(&mut self, place: usize, peak: u64)
        requires { PeakFits peak (bound_at (state_of self.old) place) }
        ensures set { state_of self.new ≡ with_bound (state_of self.old) place (peaked peak (bound_at (state_of self.old) place)) }
        ensures persists { Persists self.old self.new }
        ensures counts { counts_of (state_of self.new) ≡ counts_of (state_of self.old) }
    {
        put_peak(&mut self.bounds, place, peak);
    }
}

fn put_peak(bounds: &mut Vec<Bound>, place: usize, peak: u64)
    requires { IfSome (slice_get bounds.old.items place) (λ b. PeakFits peak (bound_of b)) }
    ensures { bounds.new.items ≡ bounds_with_peak place peak bounds.old.items }
{
    match bounds.get_mut(place) {
        None => {}
        Some(bound) => put_peak_in(bound, peak),
    }
}

#[tactic(auto, unfolding(crate::specs::World::memory_of))]
fn put_peak_in(bound: &mut Bound, peak: u64)
    requires { PeakFits peak (bound_of bound.old) }
    ensures { bound.new ≡ bound_with_peak peak bound.old }
{
    if let Bound::Object(Object::Queue(held)) = bound {
        held.queue.restore_peak(peak);
    }
}
