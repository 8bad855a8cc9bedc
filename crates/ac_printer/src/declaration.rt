ghost use Rattle.std.specs.Prelude.{◌≡◌, ◌∷◌, [], Some, map, OnOk, if◌then◌else◌};
ghost use Rattle.ac_syntax.specs.Items.{declares};
ghost use Rattle.ac_syntax.specs.Parts.{says, second_parts, type_parts, capacity_parts, variable_parts};
ghost use Rattle.ac_syntax.specs.declared.decl.Decl.TheVariants.{TypeDecl, Object, CursorVar};
ghost use Rattle.ac_printer.specs.Page.{begin_item, put_parts, put_item, put_items};

use crate::page::Page;
use crate::words::{elem_word, kind_word};
use ac_base::NoMemory;
use ac_syntax::{Decl, Decls, ElemKind, Ident, Mark, TypeDef};

/// Writes a word where it is wanted.
pub fn put_word_if(page: &mut Page, is_wanted: bool, word: &str) -> Result<(), NoMemory>
    ensures { OnOk result (page.new ≡ put_parts page.old (if is_wanted then says word.now ∷ [] else [])) }
{
    if is_wanted { page.word(word) } else { Ok(()) }
}

fn put_second(page: &mut Page, second: Option<ElemKind>) -> Result<(), NoMemory>
    ensures { OnOk result (page.new ≡ put_parts page.old (second_parts second)) }
{
    match second {
        None => Ok(()),
        Some(elem) => {
            page.mark(Mark::Comma)?;
            page.word(elem_word(elem))
        }
    }
}

#[tactic(auto, using(crate::proofs::Pages::put_more))]
fn put_type(page: &mut Page, def: TypeDef) -> Result<(), NoMemory>
    ensures { OnOk result (page.new ≡ put_parts page.old (type_parts def)) }
{
    put_word_if(page, def.bounded, "bounded")?;
    page.word(kind_word(def.kind))?;
    page.mark(Mark::Open)?;
    page.word(elem_word(def.first))?;
    put_second(page, def.second)?;
    page.mark(Mark::Close)?;
    put_word_if(page, def.keyed, "keyed")
}

fn put_capacity(page: &mut Page, capacity: Option<u64>) -> Result<(), NoMemory>
    ensures { OnOk result (page.new ≡ put_parts page.old (capacity_parts capacity)) }
{
    match capacity {
        None => Ok(()),
        Some(capacity) => {
            page.mark(Mark::Open)?;
            page.number(capacity)?;
            page.mark(Mark::Close)
        }
    }
}

#[tactic(auto, using(crate::proofs::Pages::put_more), unfolding(ac_syntax::specs::Parts::item_parts))]
fn put_type_declaration(
    page: &mut Page,
    line: u64,
    name: &Ident,
    def: TypeDef,
) -> Result<(), NoMemory>
    ensures { OnOk result (page.new ≡ put_item page.old (declares (TypeDecl line name.now def))) }
{
    page.begin_on(line)?;
    page.word("type")?;
    page.name(name)?;
    page.word("is")?;
    put_type(page, def)?;
    page.mark(Mark::Semicolon)
}

#[tactic(auto, using(crate::proofs::Pages::put_more), unfolding(ac_syntax::specs::Parts::item_parts))]
fn put_object(
    page: &mut Page,
    line: u64,
    name: &Ident,
    of: &Ident,
    capacity: Option<u64>,
) -> Result<(), NoMemory>
    ensures { OnOk result (page.new ≡ put_item page.old (declares (Object line name.now of.now capacity))) }
{
    page.begin_on(line)?;
    page.name(name)?;
    page.mark(Mark::Colon)?;
    page.name(of)?;
    put_capacity(page, capacity)?;
    page.mark(Mark::Semicolon)
}

#[tactic(auto, unfolding(ac_syntax::specs::Parts::item_parts))]
fn put_cursor(page: &mut Page, line: u64, name: &Ident, of: &Ident) -> Result<(), NoMemory>
    ensures { OnOk result (page.new ≡ put_item page.old (declares (CursorVar line name.now of.now))) }
{
    page.begin_on(line)?;
    page.name(name)?;
    page.mark(Mark::Colon)?;
    page.name(of)?;
    page.mark(Mark::Dot)?;
    page.word("cursor")?;
    page.mark(Mark::Semicolon)
}

/// Writes the declaration of a variable whose type is a reserved word.
fn put_variable(page: &mut Page, line: u64, name: &Ident, word: &str) -> Result<(), NoMemory>
    ensures { OnOk result (page.new ≡ put_parts (begin_item page.old (Some line)) (variable_parts name.now word.now)) }
{
    page.begin_on(line)?;
    page.name(name)?;
    page.mark(Mark::Colon)?;
    page.word(word)?;
    page.mark(Mark::Semicolon)
}

#[tactic(auto, unfolding(ac_syntax::specs::Parts::item_parts))]
pub fn put_declaration(page: &mut Page, decl: &Decl) -> Result<(), NoMemory>
    ensures { OnOk result (page.new ≡ put_item page.old (declares decl.now)) }
{
    match decl {
        Decl::TypeDecl { line, name, def } => put_type_declaration(page, *line, name, *def),
        Decl::Object {
            line,
            name,
            of,
            capacity,
        } => put_object(page, *line, name, of, *capacity),
        Decl::CursorVar { line, name, of } => put_cursor(page, *line, name, of),
        Decl::IntVar { line, name } => put_variable(page, *line, name, "integer"),
        Decl::TextVar { line, name } => put_variable(page, *line, name, "string"),
    }
}

pub fn put_declarations(page: &mut Page, decls: &Decls) -> Result<(), NoMemory>
    ensures { OnOk result (page.new ≡ put_items page.old (map declares decls.now)) }
{
    for decl in decls.items() {
        put_declaration(page, decl)?;
    }
    Ok(())
}
