//! Set algebra.
ghost use Rattle.std.specs.Prelude.{◌≡◌};
ghost use Rattle.ac_model.specs.Calls.{Same};
ghost use Rattle.ac_model.specs.Containers.{Grows, slots_of};
ghost use Rattle.ac_model.specs.Forms.{Does};
ghost use Rattle.ac_model.specs.Objects.{plain};
ghost use Rattle.ac_model.specs.Sets as sets;

use super::Table;
use crate::algebra;
use crate::index::Index;
use ac_base::Fault;
use ac_cursor::Class;
use ac_model::allowed;

impl<I: Index> Table<I> {
    /// Union (A.18.7): copies of the source's elements that have no equivalent here, in the source's order.
    pub fn union(&mut self, source: &Table<I>) -> Result<(), Fault>
        ensures changed { Does Same (λ o. sets.union_call I.order o (plain source.now.object)) self.old self.new result }
        ensures slots { Grows result self.old self.new }
    {
        allowed(self.guards.forbids(Class::Cursors))?;
        algebra::union_into(self, source)
    }

    /// Union (A.18.7) of a set with itself.
    pub fn union_self(&mut self) -> Result<(), Fault>
        ensures changed { Does Same sets.union_self_call self.old self.new result }
        ensures same { self.new ≡ self.old }
    {
        allowed(self.guards.forbids(Class::Cursors))
    }

    /// Intersection (A.18.7).
    pub fn intersection(&mut self, source: &Table<I>) -> Result<(), Fault>
        ensures changed { Does Same (λ o. sets.intersection_call I.order o (plain source.now.object)) self.old self.new result }
        ensures slots { slots_of self.new ≡ slots_of self.old }
    {
        allowed(self.guards.forbids(Class::Cursors))?;
        algebra::intersect_into(self, source)
    }

    /// Intersection (A.18.7) of a set with itself.
    pub fn intersection_self(&mut self) -> Result<(), Fault>
        ensures changed { Does Same sets.intersection_self_call self.old self.new result }
        ensures same { self.new ≡ self.old }
    {
        allowed(self.guards.forbids(Class::Cursors))
    }

    /// Difference (A.18.7).
    pub fn difference(&mut self, source: &Table<I>) -> Result<(), Fault>
        ensures changed { Does Same (λ o. sets.difference_call I.order o (plain source.now.object)) self.old self.new result }
        ensures slots { slots_of self.new ≡ slots_of self.old }
    {
        allowed(self.guards.forbids(Class::Cursors))?;
        algebra::difference_into(self, source)
    }

    /// Difference (A.18.7) of a set with itself, which leaves none of its elements.
    pub fn difference_self(&mut self) -> Result<(), Fault>
        ensures changed { Does Same sets.difference_self_call self.old self.new result }
        ensures slots { slots_of self.new ≡ slots_of self.old }
    {
        self.clear()
    }

    /// Symmetric_Difference (A.18.7): there must be room for the length after removals and additions.
    pub fn symmetric_difference(&mut self, source: &Table<I>) -> Result<(), Fault>
        ensures changed { Does Same (λ o. sets.symmetric_difference_call I.order o (plain source.now.object)) self.old self.new result }
        ensures slots { Grows result self.old self.new }
    {
        allowed(self.guards.forbids(Class::Cursors))?;
        algebra::symmetric_into(self, source)
    }

    /// Symmetric_Difference (A.18.7) of a set with itself, which leaves none of its elements.
    pub fn symmetric_difference_self(&mut self) -> Result<(), Fault>
        ensures changed { Does Same sets.symmetric_difference_self_call self.old self.new result }
        ensures slots { slots_of self.new ≡ slots_of self.old }
    {
        self.clear()
    }

    /// Overlap (A.18.7): there is an element that has an equivalent in the other set.
    pub fn overlap(&self, other: &Table<I>) -> bool
        ensures { result ≡ sets.overlap_call I.order (plain self.now.object) (plain other.now.object) }
    {
        algebra::overlap(self, other)
    }

    /// Overlap (A.18.7) of a set with itself: it has an element.
    pub fn overlap_self(&self) -> bool
        ensures { result ≡ sets.overlap_call I.order (plain self.now.object) (plain self.now.object) }
    {
        !self.is_empty()
    }

    /// Is_Subset (A.18.7): each element has an equivalent in the other set.
    pub fn is_subset(&self, other: &Table<I>) -> bool
        ensures { result ≡ sets.is_subset_call I.order (plain self.now.object) (plain other.now.object) }
    {
        algebra::is_subset(self, other)
    }

    /// Is_Subset (A.18.7) of a set of itself, in constant time.
    pub fn is_subset_self(&self) -> bool
        ensures { result ≡ sets.is_subset_call I.order (plain self.now.object) (plain self.now.object) }
    {
        true
    }

    /// Equivalent_Sets (A.18.7): as many elements, and each has an equivalent in the other set.
    pub fn equivalent_sets(&self, other: &Table<I>) -> bool
        ensures { result ≡ sets.equivalent_sets_call I.order (plain self.now.object) (plain other.now.object) }
    {
        algebra::equivalent(self, other)
    }

    /// Equivalent_Sets (A.18.7) of a set with itself, in constant time.
    pub fn equivalent_sets_self(&self) -> bool
        ensures { result ≡ sets.equivalent_sets_call I.order (plain self.now.object) (plain self.now.object) }
    {
        true
    }
}
