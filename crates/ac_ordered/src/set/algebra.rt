//! Set algebra of ordered sets.
ghost use Rattle.std.specs.Prelude.{◌≡◌};
ghost use Rattle.ac_model.specs.Calls.{Same};
ghost use Rattle.ac_model.specs.Containers.{Grows, slots_of};
ghost use Rattle.ac_model.specs.Forms.{Does};
ghost use Rattle.ac_model.specs.Keyed.{ascending};
ghost use Rattle.ac_model.specs.Objects.{plain};
ghost use Rattle.ac_model.specs.Sets as sets;

use super::OrderedSet;
use ac_base::{Fault, KeyOf};

impl<T: KeyOf> OrderedSet<T> {
    /// Union (A.18.7): copies of the source's elements that have no equivalent here, in the source's order.
    pub fn union(&mut self, source: &OrderedSet<T>) -> Result<(), Fault>
        ensures changed { Does Same (λ o. sets.union_call (ascending T.is_less) o (plain source.now.object)) self.old self.new result }
        ensures slots { Grows result self.old self.new }
    {
        self.table.union(&source.table)
    }

    /// Union (A.18.7) of a set with itself.
    pub fn union_self(&mut self) -> Result<(), Fault>
        ensures changed { Does Same sets.union_self_call self.old self.new result }
        ensures same { self.new ≡ self.old }
    {
        self.table.union_self()
    }

    /// Intersection (A.18.7).
    pub fn intersection(&mut self, source: &OrderedSet<T>) -> Result<(), Fault>
        ensures changed { Does Same (λ o. sets.intersection_call (ascending T.is_less) o (plain source.now.object))
            self.old self.new result }
        ensures slots { slots_of self.new ≡ slots_of self.old }
    {
        self.table.intersection(&source.table)
    }

    /// Intersection (A.18.7) of a set with itself.
    pub fn intersection_self(&mut self) -> Result<(), Fault>
        ensures changed { Does Same sets.intersection_self_call self.old self.new result }
        ensures same { self.new ≡ self.old }
    {
        self.table.intersection_self()
    }

    /// Difference (A.18.7).
    pub fn difference(&mut self, source: &OrderedSet<T>) -> Result<(), Fault>
        ensures changed { Does Same (λ o. sets.difference_call (ascending T.is_less) o (plain source.now.object))
            self.old self.new result }
        ensures slots { slots_of self.new ≡ slots_of self.old }
    {
        self.table.difference(&source.table)
    }

    /// Difference (A.18.7) of a set with itself, which leaves none of its elements.
    pub fn difference_self(&mut self) -> Result<(), Fault>
        ensures changed { Does Same sets.difference_self_call self.old self.new result }
        ensures slots { slots_of self.new ≡ slots_of self.old }
    {
        self.table.difference_self()
    }

    /// Symmetric_Difference (A.18.7): there must be room for the length after removals and additions.
    pub fn symmetric_difference(&mut self, source: &OrderedSet<T>) -> Result<(), Fault>
        ensures changed { Does Same (λ o. sets.symmetric_difference_call (ascending T.is_less) o (plain source.now.object))
            self.old self.new result }
        ensures slots { Grows result self.old self.new }
    {
        self.table.symmetric_difference(&source.table)
    }

    /// Symmetric_Difference (A.18.7) of a set with itself, which leaves none of its elements.
    pub fn symmetric_difference_self(&mut self) -> Result<(), Fault>
        ensures changed { Does Same sets.symmetric_difference_self_call self.old self.new result }
        ensures slots { slots_of self.new ≡ slots_of self.old }
    {
        self.table.symmetric_difference_self()
    }

    /// Overlap (A.18.7): there is an element that has an equivalent in the other set.
    pub fn overlap(&self, other: &OrderedSet<T>) -> bool
        ensures { result ≡ sets.overlap_call (ascending T.is_less) (plain self.now.object) (plain other.now.object) }
    {
        self.table.overlap(&other.table)
    }

    /// Overlap (A.18.7) of a set with itself: it has an element.
    pub fn overlap_self(&self) -> bool
        ensures { result ≡ sets.overlap_call (ascending T.is_less) (plain self.now.object) (plain self.now.object) }
    {
        self.table.overlap_self()
    }

    /// Is_Subset (A.18.7): each element has an equivalent in the other set.
    pub fn is_subset(&self, other: &OrderedSet<T>) -> bool
        ensures { result ≡ sets.is_subset_call (ascending T.is_less) (plain self.now.object) (plain other.now.object) }
    {
        self.table.is_subset(&other.table)
    }

    /// Is_Subset (A.18.7) of a set of itself, in constant time.
    pub fn is_subset_self(&self) -> bool
        ensures { result ≡ sets.is_subset_call (ascending T.is_less) (plain self.now.object) (plain self.now.object) }
    {
        self.table.is_subset_self()
    }

    /// Equivalent_Sets (A.18.7): as many elements, and each has an equivalent in the other set.
    pub fn equivalent_sets(&self, other: &OrderedSet<T>) -> bool
        ensures { result ≡ sets.equivalent_sets_call (ascending T.is_less) (plain self.now.object) (plain other.now.object) }
    {
        self.table.equivalent_sets(&other.table)
    }

    /// Equivalent_Sets (A.18.7) of a set with itself, in constant time.
    pub fn equivalent_sets_self(&self) -> bool
        ensures { result ≡ sets.equivalent_sets_call (ascending T.is_less) (plain self.now.object) (plain self.now.object) }
    {
        self.table.equivalent_sets_self()
    }
}
