//! What a name that stands for a holder's element is, and what a holder shows.
ghost use Rattle.std.specs.Prelude.{◌≡◌, ◌≤◌, ◌∷◌, [], IfOk, Some, None, length, map, option_to_list};
ghost use Rattle.ac_io.specs.declared.pieces.TheConstants.{MOST_WAITING};
ghost use Rattle.ac_io.specs.Pieces.{Adds};
ghost use Rattle.ac_model.specs.Holders as holders;
ghost use Rattle.ac_syntax.specs.Canonical.{literal_text};
ghost use Rattle.ac_calls.specs.Listings.{bracketed};
ghost use Rattle.ac_calls.specs.HolderReplies.{holder_element, holder_write, holder_listing};
ghost use Rattle.ac_calls.specs.PlainRows.{element_form};
ghost use Rattle.ac_holder_calls.specs.HolderCalls.{ChangesHolder};

use ac_base::{Fault, NoMemory, Reason, Value};
use ac_calls::{PlainRows, ScriptElement, element_row};
use ac_forms::Holder;
use ac_io::{Sink, WriteFault, add};
use ac_model::reason_if;
use std::alloc::Global;

/// Why the element can't be read or viewed.
pub fn refused<T: ScriptElement>(holder: &Holder<T>) -> Option<Reason>
    ensures { result ≡ holders.view_reason holder.now }
{
    reason_if(holder.is_empty(), Reason::Empty)
}

/// A copy of the element.
pub fn value<T: ScriptElement>(holder: &Holder<T>, alloc: Global) -> Result<Value, NoMemory>
    requires { (holder_element T.tools holder.now).reason ≡ None }
    ensures { IfOk result (λ value. (holder_element T.tools holder.now).answer ≡ Some value) }
{
    match holder.element() {
        Ok(element) => element.to_value(alloc),
        Err(_) => unreachable!(),
    }
}

/// Writes a value through a name that stands for the element.
pub fn write<T: ScriptElement>(
    holder: &mut Holder<T>,
    alloc: Global,
    value: Value,
) -> Result<(), Fault>
    ensures { ChangesHolder (holder_write T.tools holder.old value) holder.old holder.new result }
{
    let element = T::from_value(alloc, value)?;
    put(holder, element)
}

fn put<T: ScriptElement>(holder: &mut Holder<T>, element: T) -> Result<(), Fault>
    ensures { ChangesHolder (holders.write_call T.size_of holder.old element) holder.old holder.new result }
{
    holder.write(element)
}

/// Adds the listing to a text that is written in pieces.
pub fn write_listing<T: ScriptElement, K: Sink>(
    holder: &Holder<T>,
    text: &mut Vec<u8>,
    sink: &mut K,
) -> Result<(), WriteFault>
    ensures adds { Adds K.held K.faults K.room K.counts_failures sink.old sink.new
        text.old.items text.new.items (holder_listing T.tools holder.now) result }
    ensures short { length text.old.items ≤ MOST_WAITING → length text.new.items ≤ MOST_WAITING }
{
    match holder.element() {
        Ok(element) => write_one(element, text, sink),
        Err(_) => add(text, b"[]", sink),
    }
}

/// Adds the listing of one element.
fn write_one<T: ScriptElement, K: Sink>(
    element: &T,
    text: &mut Vec<u8>,
    sink: &mut K,
) -> Result<(), WriteFault>
    ensures adds { Adds K.held K.faults K.room K.counts_failures sink.old sink.new
        text.old.items text.new.items (bracketed (λ e. literal_text (T.tools.to_value e)) (element.now ∷ [])) result }
    ensures short { length text.old.items ≤ MOST_WAITING → length text.new.items ≤ MOST_WAITING }
{
    add(text, b"[", sink)?;
    element.add_literal(text, sink)?;
    add(text, b"]", sink)
}

/// The element as a plain row, if there is one.
pub fn plain_element<T: ScriptElement>(
    holder: &Holder<T>,
    alloc: Global,
) -> Result<PlainRows, NoMemory>
    ensures { IfOk result (λ rows. rows ≡ map (element_form T.tools) (option_to_list holder.now.element)) }
{
    match holder.element() {
        Ok(element) => one_row(element, alloc),
        Err(_) => Ok(PlainRows::from_vec(Vec::new(alloc))),
    }
}

fn one_row<T: ScriptElement>(element: &T, alloc: Global) -> Result<PlainRows, NoMemory>
    ensures { IfOk result (λ rows. rows ≡ element_form T.tools element.now ∷ []) }
{
    let row = element_row(element, alloc)?;
    let mut rows = Vec::with_capacity(alloc, 1)?;
    rows.push_reserved(row);
    Ok(PlainRows::from_vec(rows))
}
