//! The holder.
ghost use Rattle.std.specs.Prelude.{◌≡◌, None, Some, Ok, false, refl};
ghost use Rattle.ac_base.specs.Limits as limits;
ghost use Rattle.ac_base.specs.Limits.{IsLimit};
ghost use Rattle.ac_model.specs.Calls.{Lends, Looking};
ghost use Rattle.ac_model.specs.Holders as holders;
ghost use Rattle.ac_model.specs.Holders.{IsValidHolder, empty_holder, guards_on};
ghost use Rattle.ac_forms.specs.HolderFields.{with_guards};
ghost use Rattle.ac_forms.specs.HolderForms.{Does, DoesBoth};

use ac_base::{Elem, Fault, Limit, Reason};
use ac_cursor::{Class, GuardKey, GuardKind, Guarded, Guards, Tag, first_reason};
use ac_model::{allowed, reason_if};
use std::alloc::Global;
use std::marker::Model;
use std::mem::swap;

/// One element or none (A.18.18). The limit of a bounded one (A.18.32) is in bytes, as `Elem::size` counts them.
#[derive(Drop)]
pub struct Holder<T: Elem> {
    alloc: Global,
    element: Option<T>,
    guards: Guards,
    limit: Limit,
}

impl<T: Elem> Model for Holder<T> {
    ghost use Rattle.ac_model.specs.Holders.{Holder};
    ghost use Rattle.ac_forms.specs.HolderFields.{holder_of, holder_code, IsHolder};

    ghost Value = { Holder T };

    ghost coded = { holder_code T.code };

    ghost view = { λ h. holder_of h.guards h.limit h.element };

    ghost invariant = { λ h. IsHolder T.size_of (holder_of h.guards h.limit h.element) };
}

impl<T: Elem> Holder<T> {
    /// An empty holder. It takes no memory, and answers as the other containers' `new` do.
    pub fn new(alloc: Global, tag: Tag, limit: Limit) -> Result<Holder<T>, Fault>
        requires { IsLimit limit }
        ensures { result ≡ Ok (empty_holder tag limit) }
    {
        Ok(Holder {
            alloc,
            element: None,
            guards: Guards::new(tag),
            limit,
        })
    }

    /// What holds of every holder, for proofs alone.
    pub fn law(&self)
        ensures valid { IsValidHolder T.size_of self.now }
        ensures limit { IsLimit self.now.limit }
    {
        let _element = &self.element;
    }

    pub fn number(&self) -> u64
        ensures { result ≡ self.now.number }
    {
        self.guards.number()
    }

    pub fn limit(&self) -> Limit
        ensures { result ≡ self.now.limit }
    {
        self.limit
    }

    /// Is_Empty (A.18.18).
    pub fn is_empty(&self) -> bool
        ensures { result ≡ holders.is_empty_call self.now }
    {
        self.element.is_none()
    }

    /// Element (A.18.18).
    pub fn element(&self) -> Result<&T, Fault>
        ensures { Looking Lends (holders.element_call self.now) result }
    {
        match &self.element {
            None => Err(Fault::Raised(Reason::Empty)),
            Some(element) => Ok(element),
        }
    }

    /// "=" (A.18.18): both are empty, or both have equal elements.
    pub fn equal(&self, other: &Holder<T>) -> bool
        ensures { result ≡ holders.equal_call T.is_same self.now other.now }
    {
        match (&self.element, &other.element) {
            (None, None) => true,
            (Some(element), Some(wanted)) => element.same(wanted),
            _ => false,
        }
    }

    /// "=" (A.18.18) of a holder with itself.
    pub fn equal_self(&self) -> bool
        ensures { result ≡ holders.equal_call T.is_same self.now self.now }
    {
        true
    }
}

impl<T: Elem> Holder<T> {
    /// Replace_Element (A.18.18).
    pub fn replace_element(&mut self, e: T) -> Result<(), Fault>
        ensures { Does (λ h. holders.replace_element_call T.size_of h e) self.old self.new result }
    {
        allowed(first_reason(&[self.tampers(), self.refuses(&e)]))?;
        self.element = Some(e);
        Ok(())
    }

    /// A write through a view's name for the element (A.18.18): no tampering check.
    pub fn write(&mut self, e: T) -> Result<(), Fault>
        ensures { Does (λ h. holders.write_call T.size_of h e) self.old self.new result }
    {
        let missing = reason_if(self.is_empty(), Reason::Empty);
        allowed(first_reason(&[missing, self.refuses(&e)]))?;
        self.element = Some(e);
        Ok(())
    }

    /// Clear (A.18.18).
    pub fn clear(&mut self) -> Result<(), Fault>
        ensures { Does holders.clear_call self.old self.new result }
    {
        allowed(self.tampers())?;
        self.element = None;
        Ok(())
    }

    /// Assign (A.18.18): a copy of the source's element, or none.
    pub fn assign(&mut self, source: &Holder<T>) -> Result<(), Fault>
        ensures { Does (λ h. holders.assign_call T.size_of h source.now) self.old self.new result }
    {
        allowed(first_reason(&[self.tampers(), self.refuses_element_of(source)]))?;
        self.element = match &source.element {
            None => None,
            Some(element) => Some(element.copy(self.alloc)?),
        };
        Ok(())
    }

    /// Move (A.18.18): the source's element, or none, and the source is empty then.
    pub fn move_from(&mut self, source: &mut Holder<T>) -> Result<(), Fault>
        ensures { DoesBoth (holders.move_from_call T.size_of) self.old source.old self.new source.new result }
    {
        allowed(self.refuses_move(source))?;
        self.element = source.element.take();
        Ok(())
    }

    /// Swap (A.18.18): each gets what the other has.
    pub fn swap(&mut self, source: &mut Holder<T>) -> Result<(), Fault>
        ensures { DoesBoth (holders.swap_call T.size_of) self.old source.old self.new source.new result }
    {
        allowed(self.refuses_swap(source))?;
        swap(&mut self.element, &mut source.element);
        Ok(())
    }

    /// Assign (A.18.18) of a holder to itself.
    pub fn assign_self(&mut self) -> Result<(), Fault>
        ensures { Does holders.assign_self_call self.old self.new result }
    {
        allowed(self.tampers())
    }

    /// Move (A.18.18) of a holder to itself.
    pub fn move_from_self(&mut self) -> Result<(), Fault>
        ensures { Does holders.move_from_self_call self.old self.new result }
    {
        self.assign_self()
    }

    /// Swap (A.18.18) of a holder with itself.
    pub fn swap_self(&mut self) -> Result<(), Fault>
        ensures { Does holders.swap_self_call self.old self.new result }
    {
        self.assign_self()
    }

    fn tampers(&self) -> Option<Reason>
        ensures { result ≡ holders.tampers self.now }
    {
        self.guards.forbids(Class::Elements)
    }

    fn refuses_move(&self, source: &Holder<T>) -> Option<Reason>
        ensures { result ≡ (holders.move_from_call T.size_of self.now source.now).reason }
    {
        first_reason(&[
            self.tampers(),
            source.tampers(),
            self.refuses_element_of(source),
        ])
    }

    fn refuses_swap(&self, source: &Holder<T>) -> Option<Reason>
        ensures { result ≡ (holders.swap_call T.size_of self.now source.now).reason }
    {
        first_reason(&[
            self.tampers(),
            source.tampers(),
            self.refuses_element_of(source),
            source.refuses_element_of(self),
        ])
    }

    /// Why the element can't be held.
    fn refuses(&self, element: &T) -> Option<Reason>
        ensures { result ≡ holders.fits T.size_of self.now (Some element.now) }
    {
        reason_if(is_past(self.limit, element.size()), Reason::TooLarge)
    }

    /// Why what the source has can't be held.
    fn refuses_element_of(&self, source: &Holder<T>) -> Option<Reason>
        ensures { result ≡ holders.fits T.size_of self.now source.now.element }
    {
        match &source.element {
            None => None,
            Some(element) => self.refuses(element),
        }
    }
}

/// So many bytes are past the limit.
fn is_past(limit: Limit, size: u64) -> bool
    ensures { result ≡ limits.is_past limit size }
{
    match limit {
        Limit::Unbounded => false,
        Limit::Bounded(most) => size > most,
    }
}

impl<T: Elem> Guarded for Holder<T> {
    ghost is_set = { λ _. false };

    ghost guards = { guards_on };

    ghost with_guards = { with_guards };

    ghost guards_given = { λ _ _. refl };

    ghost guards_own = { λ _. refl };

    ghost rest_kept = { λ _ _ _. refl };

    ghost set_kept = { λ _ _. refl };

    fn hold(&mut self, kind: GuardKind) -> GuardKey {
        self.guards.hold(kind)
    }

    fn release(&mut self, key: GuardKey) {
        self.guards.release(key);
    }

    fn held(&self, kind: GuardKind) -> u64 {
        self.guards.held(kind)
    }
}
