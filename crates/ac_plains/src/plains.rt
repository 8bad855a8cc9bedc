//! The outermost variables and objects as plain values.
ghost use Rattle.std.specs.Prelude.{◌≡◌, ◌++◌, ◌∷◌, [], IfOk, OnOk, map, option_to_list};
ghost use Rattle.ac_calls.specs.PlainRows as rows;
ghost use Rattle.ac_meaning.specs.Environment.{bound_at};
ghost use Rattle.ac_meaning.specs.Plains as plains;
ghost use Rattle.ac_meaning.specs.Plains.{plain_in, plains_of};
ghost use Rattle.ac_objects.specs.World.{bound_of, held_of, state_of};
ghost use Rattle.ac_rules.specs.Faults.{decl_name};

use crate::telling::told_of;
use ac_base::{Elem, NoMemory, Value};
use ac_calls::{Plain, PlainRows, Plains, plain_rows};
use ac_holder_calls::plain_element;
use ac_objects::{Bound, Object, Objects};
use ac_queue_calls::plain_items;
use ac_syntax::{Decl, Decls, Ident};
use std::alloc::Global;

/// The rows of an object of any kind.
#[tactic(auto, unfolding(ac_objects::specs::World::memory_of))]
fn rows_of(object: &Object, alloc: Global) -> Result<PlainRows, NoMemory>
    ensures { IfOk result (λ made. made ≡ rows.plain_rows (held_of object.now)) }
{
    match object {
        Object::Integers(sequence) => plain_rows(sequence, alloc),
        Object::Texts(sequence) => plain_rows(sequence, alloc),
        Object::IntegerSet(set) => plain_rows(set, alloc),
        Object::TextSet(set) => plain_rows(set, alloc),
        Object::KeyedSet(set) => plain_rows(set, alloc),
        Object::IntegersByInteger(map) => plain_rows(map, alloc),
        Object::IntegersByText(map) => plain_rows(map, alloc),
        Object::TextsByInteger(map) => plain_rows(map, alloc),
        Object::TextsByText(map) => plain_rows(map, alloc),
        Object::IntegerTree(tree) => tree.plain_rows(alloc),
        Object::TextTree(tree) => tree.plain_rows(alloc),
        Object::IntegerHolder(holder) => plain_element(holder, alloc),
        Object::TextHolder(holder) => plain_element(holder, alloc),
        Object::Queue(queue) => plain_items(&queue.queue, alloc),
    }
}

fn plain_object(object: &Object, name: &Ident, alloc: Global) -> Result<Plain, NoMemory>
    ensures { IfOk result (λ made. made ≡ plains.plain_object name.now (held_of object.now)) }
{
    let name = name.copy(alloc)?;
    let rows = rows_of(object, alloc)?;
    let told = told_of(object);
    Ok(Plain::Object {
        name,
        def: told.def,
        limit: told.limit,
        capacity: told.capacity,
        peak: told.peak,
        rows,
    })
}

fn plain_value(value: &Value, name: &Ident, alloc: Global) -> Result<Plain, NoMemory>
    ensures { IfOk result (λ made. made ≡ plains.plain_value name.now value.now) }
{
    let name = name.copy(alloc)?;
    match value {
        Value::Int(number) => Ok(Plain::Int {
            name,
            value: *number,
        }),
        Value::Text(text) => {
            let value = text.copy(alloc)?;
            Ok(Plain::Str { name, value })
        }
    }
}

/// What a name holds as a plain value. A type or a cursor is none.
fn plain_bound(bound: &Bound, name: &Ident, alloc: Global) -> Result<Option<Plain>, NoMemory>
    ensures { IfOk result (λ made. made ≡ plain_in name.now (bound_of bound.now)) }
{
    match bound {
        Bound::Type => Ok(None),
        Bound::Object(object) => {
            let made = plain_object(object, name, alloc)?;
            Ok(Some(made))
        }
        Bound::Cursor(_) => Ok(None),
        Bound::Value(value) => {
            let made = plain_value(value, name, alloc)?;
            Ok(Some(made))
        }
        Bound::Element { object: _, at: _ } => Ok(None),
    }
}

/// What the name at this place holds as a plain value. A type or a cursor variable is none, and so is a place that no name has.
pub fn plain_at(objects: &Objects, place: usize, name: &Ident) -> Result<Option<Plain>, NoMemory>
    ensures { IfOk result (λ made. made ≡ plain_in name.now (bound_at (state_of objects.now) place)) }
{
    match objects.bounds().get(place) {
        Some(bound) => plain_bound(bound, name, objects.allocator()),
        None => Ok(None),
    }
}

/// The variables and objects that these declarations made, in order. They are the outermost ones, and no inner scope is entered.
pub fn plain(objects: &Objects, decls: &Decls) -> Result<Plains, NoMemory>
    ensures { IfOk result (λ made. made ≡ plains_of (map decl_name decls.now) (state_of objects.now)) }
{
    let items = decls.items();
    let mut made = Vec::new(objects.allocator());
    for place in 0..items.len() {
        add_at(objects, place, &items[place], &mut made)?;
    }
    Ok(Plains::from_vec(made))
}

/// Adds what the name that is declared at this place holds, if it is a plain value.
fn add_at(
    objects: &Objects,
    place: usize,
    decl: &Decl,
    made: &mut Vec<Plain>,
) -> Result<(), NoMemory>
    ensures { OnOk result (made.new.items
        ≡ made.old.items ++ option_to_list (plain_in (decl_name decl.now) (bound_at (state_of objects.now) place))) }
{
    let plain = plain_at(objects, place, name_of(decl))?;
    add_plain(plain, made)
}

/// Adds a value, if there is one.
fn add_plain(plain: Option<Plain>, plains: &mut Vec<Plain>) -> Result<(), NoMemory>
    ensures { OnOk result (plains.new.items ≡ plains.old.items ++ option_to_list plain) }
{
    match plain {
        Some(plain) => put_last(plain, plains),
        None => Ok(()),
    }
}

fn put_last(plain: Plain, plains: &mut Vec<Plain>) -> Result<(), NoMemory>
    ensures { OnOk result (plains.new.items ≡ plains.old.items ++ plain ∷ []) }
{
    match plains.push(plain) {
        Ok(()) => Ok(()),
        Err(_) => Err(NoMemory),
    }
}

/// The name that a declaration declares.
pub fn name_of(decl: &Decl) -> &Ident
    ensures { result.now ≡ decl_name decl.now }
{
    match decl {
        Decl::TypeDecl { name, .. } => name,
        Decl::Object { name, .. } => name,
        Decl::CursorVar { name, .. } => name,
        Decl::IntVar { name, .. } => name,
        Decl::TextVar { name, .. } => name,
    }
}
