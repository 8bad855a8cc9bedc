//! The names in scope: those that declarations make, and those that go at a block's end.
ghost use Rattle.std.specs.Prelude.{◌≡◌, ⊤, ◌++◌, ◌∷◌, [], if◌then◌else◌, ℕ, true, false, is_ok, length, take, None, Some, IfOk, OnErr, Err};
ghost use Rattle.ac_meaning.specs.Environment.{object_at, object_in, with_name, leaving, after_decl, after_decls, nodes, nodes_in};
ghost use Rattle.ac_calls.specs.Holdings.{nodes_of};
ghost use Rattle.ac_meaning.specs.Environment.{declared};
ghost use Rattle.ac_objects.specs.Declarations.{object_declared, spent_at};
ghost use Rattle.ac_objects.specs.Given.{Finds};
ghost use Rattle.ac_objects.specs.Standing.{IsObject, counts_of};
ghost use Rattle.ac_objects.specs.Visited.{TellsCount};
ghost use Rattle.ac_objects.specs.World.{held_of, bound_of, cursor_in, state_of, IsKnown, Persists};

use crate::blocks::DeclareFault;
use crate::bound::Bound;
use crate::new_objects::new_object;
use crate::object::Object;
use crate::objects::Objects;
use crate::visiting::{Visitor, visit};
use ac_base::{Elem, NoMemory, Text, Value};
use ac_calls::{RowObject, ScriptElement};
use ac_cursor::Cursor;
use ac_forms::Holder;
use ac_rules::ResolvedDecl;
use ac_syntax::TypeDef;

/// How many elements have a slot.
#[derive(Drop)]
struct Count;

impl Visitor for Count {
    type Answer = u64;

    ghost asks = { λ count there. ⊤ };

    ghost tells = { λ count there answer. TellsCount there answer };

    fn visit_rows<C: RowObject>(self, object: &C) -> u64 {
        object.live_nodes()
    }

    fn visit_holder<T: ScriptElement>(self, _holder: &Holder<T>) -> u64 {
        0
    }

    fn visit_queue(self) -> u64 {
        0
    }
}

impl Object {
    /// How many elements have a slot.
    fn live_nodes(&self) -> u64
        ensures { result ≡ nodes_of (held_of self.now) }
    {
        visit(self, Count)
    }
}

/// How many elements stand under a name.
fn nodes_in(bound: &Bound) -> u64
    ensures { result ≡ nodes_in (bound_of bound.now) }
{
    match bound {
        Bound::Object(object) => object.live_nodes(),
        _ => 0,
    }
}

impl Objects {
    /// How many names are in scope.
    pub fn names(&self) -> usize
        ensures { result ≡ length self.now.bounds }
    {
        self.bounds.len()
    }

    /// Whether an object stands at the place.
    #[inline(always)]
    pub fn is_object(&self, place: usize) -> bool
        ensures yes { result ≡ true → IsObject (state_of self.now) place }
        ensures no { result ≡ false → object_at (state_of self.now) place ≡ None }
    {
        self.object_at(place).is_some()
    }

    /// The object at the place, if one stands there.
    #[inline(always)]
    pub(crate) fn object_at(&self, place: usize) -> Option<&Object>
        ensures { Finds self.now place result }
    {
        match self.bounds.get(place) {
            Some(bound) => bound.object(),
            None => None,
        }
    }

    /// How many elements the objects in scope have, or NoMemory where 64 bits don't count them.
    pub fn live_nodes(&self) -> Result<u64, NoMemory>
        ensures { IfOk result (λ count. count ≡ nodes (state_of self.now)) }
    {
        let mut count: u64 = 0;
        for bound in &self.bounds {
            count = count.checked_add(nodes_in(bound)).ok_or(NoMemory)?;
        }
        Ok(count)
    }

    /// Makes the names that these declare, and says how many there were before. At a fault nothing of them is in scope.
    pub fn enter_scope(&mut self, decls: &[ResolvedDecl]) -> Result<usize, DeclareFault>
        ensures declared { IfOk result (λ names. (names ≡ length self.old.bounds)
            × ((after_decls decls.now (state_of self.old)).spent ≡ None)
            × (state_of self.new ≡ (after_decls decls.now (state_of self.old)).after)) }
        ensures spent { (line : ℕ) → result ≡ Err (DeclareFault.Spent line) →
            ((after_decls decls.now (state_of self.old)).spent ≡ Some line)
            × (state_of self.new ≡ leaving (length self.old.bounds) (after_decls decls.now (state_of self.old)).after) }
        ensures persists { Persists self.old self.new }
        ensures counts { take (length self.old.bounds) (counts_of (state_of self.new)) ≡ counts_of (state_of self.old) }
        ensures fault { OnErr result (counts_of (state_of self.new) ≡ counts_of (state_of self.old)) }
    {
        let names = self.names();
        match self.declare_all(decls) {
            Ok(()) => Ok(names),
            Err(fault) => {
                self.leave_scope(names);
                Err(fault)
            }
        }
    }

    /// Back to so many names.
    pub fn leave_scope(&mut self, names: usize)
        ensures left { state_of self.new ≡ leaving names (state_of self.old) }
        ensures persists { Persists self.old self.new }
    {
        self.bounds.truncate(names);
    }
}

impl Objects {
    /// Puts one more name in scope, which is no object's.
    pub(crate) fn add(&mut self, bound: Bound) -> Result<(), NoMemory>
        requires no_object { object_in (bound_of bound) ≡ None }
        requires known { IsKnown self.old (cursor_in bound) }
        ensures named { IfOk result (λ _. state_of self.new ≡ with_name (state_of self.old) (bound_of bound)) }
        ensures before { take (length self.old.bounds) self.new.bounds ≡ self.old.bounds }
        ensures persists { Persists self.old self.new }
        ensures fault { OnErr result (self.new ≡ self.old) }
    {
        put_last(&mut self.bounds, bound)
    }

    /// Makes the names that these declare.
    fn declare_all(&mut self, decls: &[ResolvedDecl]) -> Result<(), DeclareFault>
        ensures declared { IfOk result (λ _. after_decls decls.now (state_of self.old) ≡ declared (state_of self.new)) }
        ensures spent { (line : ℕ) → result ≡ Err (DeclareFault.Spent line) →
            after_decls decls.now (state_of self.old) ≡ spent_at line (state_of self.new) }
        ensures before { take (length self.old.bounds) self.new.bounds ≡ self.old.bounds }
        ensures persists { Persists self.old self.new }
    {
        for decl in decls {
            self.declare(decl)?;
        }
        Ok(())
    }

    /// Makes the name of a declaration.
    fn declare(&mut self, decl: &ResolvedDecl) -> Result<(), DeclareFault>
        ensures declared { IfOk result (λ _. after_decl (state_of self.old) decl.now ≡ declared (state_of self.new)) }
        ensures spent { (line : ℕ) → result ≡ Err (DeclareFault.Spent line) →
            after_decl (state_of self.old) decl.now ≡ spent_at line (state_of self.new) }
        ensures before { take (length self.old.bounds) self.new.bounds ≡ self.old.bounds }
        ensures persists { Persists self.old self.new }
    {
        match decl {
            ResolvedDecl::TypeDecl => self.declare_name(Bound::Type),
            ResolvedDecl::Object {
                line,
                def,
                capacity,
            } => self.declare_object(*line, def, *capacity),
            ResolvedDecl::Cursor => self.declare_name(Bound::Cursor(Cursor::NoElement)),
            ResolvedDecl::Integer => self.declare_name(Bound::Value(Value::Int(0))),
            ResolvedDecl::Text => match Text::blank(self.alloc) {
                Ok(empty) => self.declare_name(Bound::Value(Value::Text(empty))),
                Err(_) => Err(DeclareFault::NoMemory),
            },
        }
    }

    /// Makes a name that is no object's.
    fn declare_name(&mut self, bound: Bound) -> Result<(), DeclareFault>
        requires no_object { object_in (bound_of bound) ≡ None }
        requires no_cursor { cursor_in bound ≡ Cursor.NoElement }
        ensures named { IfOk result (λ _. state_of self.new ≡ with_name (state_of self.old) (bound_of bound)) }
        ensures unspent { (line : ℕ) → result ≡ Err (DeclareFault.Spent line) → ⊥ }
        ensures before { take (length self.old.bounds) self.new.bounds ≡ self.old.bounds }
        ensures persists { Persists self.old self.new }
    {
        match self.add(bound) {
            Ok(()) => Ok(()),
            Err(_) => Err(DeclareFault::NoMemory),
        }
    }

    /// Makes an object's name. The object takes the next number.
    fn declare_object(
        &mut self,
        line: u64,
        def: &TypeDef,
        capacity: Option<u64>,
    ) -> Result<(), DeclareFault>
        ensures declared { IfOk result (λ _. object_declared def.now line capacity (state_of self.old) ≡ declared (state_of self.new)) }
        ensures spent { (other : ℕ) → result ≡ Err (DeclareFault.Spent other) →
            object_declared def.now line capacity (state_of self.old) ≡ spent_at other (state_of self.new) }
        ensures before { take (length self.old.bounds) self.new.bounds ≡ self.old.bounds }
        ensures persists { Persists self.old self.new }
    {
        let Some(tag) = self.mint.next() else {
            return Err(DeclareFault::Spent { line });
        };
        let Ok(object) = new_object(self.alloc, def, tag, capacity) else {
            return Err(DeclareFault::NoMemory);
        };
        match put_last(&mut self.bounds, Bound::Object(object)) {
            Ok(()) => Ok(()),
            Err(_) => Err(DeclareFault::NoMemory),
        }
    }
}

/// Puts what a name holds behind what the others hold.
fn put_last(bounds: &mut Vec<Bound>, bound: Bound) -> Result<(), NoMemory>
    ensures { bounds.new.items ≡ if is_ok result then bounds.old.items ++ bound ∷ [] else bounds.old.items }
{
    match bounds.push(bound) {
        Ok(()) => Ok(()),
        Err(_) => Err(NoMemory),
    }
}
