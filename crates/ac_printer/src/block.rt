ghost use Rattle.std.specs.Prelude.{◌≡◌, ◌∷◌, [], codes, OnOk};
ghost use Rattle.ac_syntax.specs.Code.{HandlerCode, loop_at, view_at, stable_at, declare_at, tasks_at, task_at};
ghost use Rattle.ac_syntax.specs.Items.{opens, begins, closes, tries, catches, declared, handlers_end, pragma_items};
ghost use Rattle.ac_syntax.specs.Keywords as keywords;
ghost use Rattle.ac_syntax.specs.Parts.{says, marks, names, place_parts, needed_place, query_parts, keyed_parts, view_parts, closing_parts};
ghost use Rattle.ac_syntax.specs.declared.token.Mark.TheVariants.{Semicolon};
ghost use Rattle.ac_syntax.specs.declared.view_kind.ViewKind.TheVariants.{Reference};
ghost use Rattle.ac_printer.specs.Page.{put_parts, put_item, put_items};

use crate::declaration::{put_declarations, put_word_if};
use crate::page::Page;
use ac_base::{Exception, NoMemory};
use ac_syntax::{Closing, Decls, Ident, Keyword, Mark, ViewKind};

#[tactic(auto, using(crate::proofs::Pages::put_more), unfolding(ac_syntax::specs::Parts::item_parts))]
pub fn put_loop(
    page: &mut Page,
    line: u64,
    name: &Ident,
    elements: bool,
    backward: bool,
    object: &Ident,
) -> Result<(), NoMemory>
    ensures { OnOk result (page.new ≡ put_item page.old (opens (loop_at line name.now elements backward object.now))) }
{
    page.begin_on(line)?;
    page.word("for")?;
    page.name(name)?;
    page.word(if elements { "of" } else { "in" })?;
    put_word_if(page, backward, "reverse")?;
    page.name(object)?;
    page.word("loop")
}

/// Writes a reserved word and a name.
fn put_named(page: &mut Page, word: &str, name: &Ident) -> Result<(), NoMemory>
    ensures { OnOk result (page.new ≡ put_parts page.old (says word.now ∷ names name.now ∷ [])) }
{
    page.word(word)?;
    page.name(name)
}

fn put_place(page: &mut Page, at: &Option<Ident>) -> Result<(), NoMemory>
    ensures { OnOk result (page.new ≡ put_parts page.old (place_parts at.now)) }
{
    match at {
        None => Ok(()),
        Some(cursor) => put_named(page, "at", cursor),
    }
}

fn put_needed_place(page: &mut Page, at: &Option<Ident>) -> Result<(), NoMemory>
    ensures { OnOk result (page.new ≡ put_parts page.old (needed_place at.now)) }
{
    match at {
        None => page.empty_part(),
        Some(cursor) => put_named(page, "at", cursor),
    }
}

/// Writes the words of a query or an update, which may do without a cursor.
#[tactic(auto, using(crate::proofs::Pages::put_more))]
fn put_query(
    page: &mut Page,
    word: &str,
    object: &Ident,
    at: &Option<Ident>,
    name: &Ident,
) -> Result<(), NoMemory>
    ensures { OnOk result (page.new ≡ put_parts page.old (query_parts word.now object.now at.now name.now)) }
{
    put_named(page, word, object)?;
    put_place(page, at)?;
    put_named(page, "as", name)
}

/// Writes the words of an update of a key.
#[tactic(auto, using(crate::proofs::Pages::put_more))]
fn put_keyed(
    page: &mut Page,
    word: &str,
    object: &Ident,
    at: &Option<Ident>,
    name: &Ident,
) -> Result<(), NoMemory>
    ensures { OnOk result (page.new ≡ put_parts page.old (keyed_parts word.now object.now at.now name.now)) }
{
    put_named(page, word, object)?;
    put_needed_place(page, at)?;
    put_named(page, "as", name)
}

fn put_reference(
    page: &mut Page,
    object: &Ident,
    at: &Option<Ident>,
    name: &Ident,
) -> Result<(), NoMemory>
    ensures { OnOk result (page.new ≡ put_parts page.old (view_parts Reference object.now at.now name.now)) }
{
    put_named(page, "reference", name)?;
    put_named(page, "of", object)?;
    put_place(page, at)
}

fn put_view_words(
    page: &mut Page,
    kind: ViewKind,
    object: &Ident,
    at: &Option<Ident>,
    name: &Ident,
) -> Result<(), NoMemory>
    ensures { OnOk result (page.new ≡ put_parts page.old (view_parts kind object.now at.now name.now)) }
{
    match kind {
        ViewKind::Query => put_query(page, "query", object, at, name),
        ViewKind::Update => put_query(page, "update", object, at, name),
        ViewKind::UpdateKey => put_keyed(page, "update_key", object, at, name),
        ViewKind::Reference => put_reference(page, object, at, name),
    }
}

#[tactic(auto, using(crate::proofs::Pages::put_more), unfolding(ac_syntax::specs::Parts::item_parts))]
pub fn put_view(
    page: &mut Page,
    line: u64,
    kind: ViewKind,
    object: &Ident,
    at: &Option<Ident>,
    name: &Ident,
) -> Result<(), NoMemory>
    ensures { OnOk result (page.new ≡ put_item page.old (opens (view_at line kind object.now at.now name.now))) }
{
    page.begin_on(line)?;
    put_view_words(page, kind, object, at, name)?;
    page.word("do")
}

#[tactic(auto, unfolding(ac_syntax::specs::Parts::item_parts))]
pub fn put_stable(page: &mut Page, line: u64, object: &Ident) -> Result<(), NoMemory>
    ensures { OnOk result (page.new ≡ put_item page.old (opens (stable_at line object.now))) }
{
    page.begin_on(line)?;
    put_named(page, "stable", object)?;
    page.word("do")
}

#[tactic(auto, unfolding(ac_syntax::specs::Parts::item_parts))]
fn put_declare_word(page: &mut Page, line: u64) -> Result<(), NoMemory>
    ensures { OnOk result (page.new ≡ put_item page.old (opens (declare_at line []))) }
{
    page.begin_on(line)?;
    page.word("declare")
}

#[tactic(auto, unfolding(ac_syntax::specs::Parts::item_parts))]
fn put_begin_word(page: &mut Page) -> Result<(), NoMemory>
    ensures { OnOk result (page.new ≡ put_item page.old begins) }
{
    page.begin_here()?;
    page.word("begin")
}

/// Writes a block's head with its declarations.
#[tactic(auto, using(crate::proofs::Pages::put_more_items))]
pub fn put_declare(page: &mut Page, line: u64, decls: &Decls) -> Result<(), NoMemory>
    ensures { OnOk result (page.new ≡ put_items page.old (opens (declare_at line []) ∷ declared (declare_at line decls.now))) }
{
    put_declare_word(page, line)?;
    put_declarations(page, decls)?;
    put_begin_word(page)
}

#[tactic(auto, unfolding(ac_syntax::specs::Parts::item_parts))]
pub fn put_tasks_word(page: &mut Page, line: u64) -> Result<(), NoMemory>
    ensures { OnOk result (page.new ≡ put_item page.old (opens (tasks_at line))) }
{
    page.begin_on(line)?;
    page.word("tasks")
}

#[tactic(auto, unfolding(ac_syntax::specs::Parts::item_parts))]
fn put_task_words(page: &mut Page, line: u64, name: &Ident) -> Result<(), NoMemory>
    ensures { OnOk result (page.new ≡ put_item page.old (opens (task_at line name.now []))) }
{
    page.begin_on(line)?;
    put_named(page, "task", name)?;
    page.word("is")
}

/// Writes a task's head with its locals.
#[tactic(auto, using(crate::proofs::Pages::put_more_items))]
pub fn put_task_head(
    page: &mut Page,
    line: u64,
    name: &Ident,
    locals: &Decls,
) -> Result<(), NoMemory>
    ensures { OnOk result (page.new ≡ put_items page.old (opens (task_at line name.now []) ∷ declared (task_at line name.now locals.now))) }
{
    put_task_words(page, line, name)?;
    put_declarations(page, locals)?;
    put_begin_word(page)
}

/// Writes the pragma, where there is one.
#[tactic(auto, unfolding(ac_syntax::specs::Parts::item_parts))]
pub fn put_pragma(page: &mut Page, pragma: Option<u64>) -> Result<(), NoMemory>
    ensures { OnOk result (page.new ≡ put_items page.old (pragma_items pragma)) }
{
    let Some(line) = pragma else {
        return Ok(());
    };
    page.begin_on(line)?;
    page.keyword(Keyword::Pragma)?;
    page.keyword(Keyword::Propagate)?;
    page.mark(Mark::Semicolon)
}

/// Writes the word `begin` of a block with handlers.
#[tactic(auto, unfolding(ac_syntax::specs::Parts::item_parts))]
pub fn put_try(page: &mut Page, line: u64) -> Result<(), NoMemory>
    ensures { OnOk result (page.new ≡ put_item page.old (tries line)) }
{
    page.begin_on(line)?;
    page.word("begin")
}

fn caught_keyword(catches: Option<Exception>) -> Keyword
    ensures { result ≡ keywords.caught_keyword catches }
{
    match catches {
        None => Keyword::Others,
        Some(Exception::ProgramError) => Keyword::ProgramError,
        Some(Exception::ConstraintError) => Keyword::ConstraintError,
        Some(Exception::CapacityError) => Keyword::CapacityError,
    }
}

/// Writes a handler's head.
#[tactic(auto, unfolding(ac_syntax::specs::Parts::item_parts))]
pub fn put_handler_head(
    page: &mut Page,
    line: u64,
    exception: Option<Exception>,
) -> Result<(), NoMemory>
    ensures { OnOk result (page.new ≡ put_item page.old (catches line exception)) }
{
    page.begin_on(line)?;
    page.keyword(Keyword::When)?;
    page.keyword(caught_keyword(exception))?;
    page.mark(Mark::Arrow)
}

/// Writes `end`, a word behind it, and the last mark.
fn put_named_end(page: &mut Page, word: &str) -> Result<(), NoMemory>
    ensures { OnOk result (page.new ≡ put_parts page.old (says (codes "end") ∷ says word.now ∷ marks Semicolon ∷ [])) }
{
    page.word("end")?;
    page.word(word)?;
    page.mark(Mark::Semicolon)
}

fn put_bare_end(page: &mut Page) -> Result<(), NoMemory>
    ensures { OnOk result (page.new ≡ put_parts page.old (says (codes "end") ∷ marks Semicolon ∷ [])) }
{
    page.word("end")?;
    page.mark(Mark::Semicolon)
}

fn put_end_words(page: &mut Page, closing: Closing) -> Result<(), NoMemory>
    ensures { OnOk result (page.new ≡ put_parts page.old (closing_parts closing)) }
{
    match closing {
        Closing::EndLoop => put_named_end(page, "loop"),
        Closing::EndTasks => put_named_end(page, "tasks"),
        Closing::EndTried => page.keyword(Keyword::Exception),
        Closing::End => put_bare_end(page),
        Closing::EndTask => put_bare_end(page),
        Closing::EndHandlers => put_bare_end(page),
        Closing::EndOthers => put_bare_end(page),
    }
}

/// Writes what ends a block, or what is tried in one.
#[tactic(auto, unfolding(ac_syntax::specs::Parts::item_parts))]
pub fn put_end(page: &mut Page, closing: Closing) -> Result<(), NoMemory>
    ensures { OnOk result (page.new ≡ put_item page.old (closes closing)) }
{
    page.begin_here()?;
    put_end_words(page, closing)
}

/// Writes what ends a block with handlers, whatever the last one takes.
pub fn put_handlers_end(page: &mut Page) -> Result<(), NoMemory>
    ensures { (handlers : HandlerCode) → OnOk result (page.new ≡ put_item page.old (closes (handlers_end handlers))) }
{
    put_end(page, Closing::EndHandlers)?;
    Ok(())
}
