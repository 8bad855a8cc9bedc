ghost use Rattle.std.specs.Prelude.{◌≡◌, OnOk};
ghost use Rattle.ac_syntax.specs.Parts.{arg_part, more_args, args_parts, target_parts};
ghost use Rattle.ac_syntax.specs.Code.{call_at, set_at, sum_at};
ghost use Rattle.ac_syntax.specs.Items.{commands};
ghost use Rattle.ac_printer.specs.Page.{put_part, put_parts, put_item};

use crate::page::Page;
use ac_base::NoMemory;
use ac_syntax::{Arg, Args, Ident, Mark};

fn put_argument(page: &mut Page, arg: &Arg) -> Result<(), NoMemory>
    ensures { OnOk result (page.new ≡ put_part page.old (arg_part arg.now)) }
{
    match arg {
        Arg::Lit(literal) => page.literal(literal),
        Arg::NoElement => page.word("no_element"),
        Arg::Var(name) => page.name(name),
    }
}

fn put_more_arguments(page: &mut Page, args: &[Arg]) -> Result<(), NoMemory>
    ensures { OnOk result (page.new ≡ put_parts page.old (more_args args.now)) }
{
    for arg in args {
        page.mark(Mark::Comma)?;
        put_argument(page, arg)?;
    }
    Ok(())
}

#[tactic(auto, using(crate::proofs::Pages::put_more))]
fn put_arguments(page: &mut Page, args: &[Arg]) -> Result<(), NoMemory>
    ensures { OnOk result (page.new ≡ put_parts page.old (args_parts args.now)) }
{
    match args {
        [] => Ok(()),
        [first, rest @ ..] => {
            page.mark(Mark::Open)?;
            put_argument(page, first)?;
            put_more_arguments(page, rest)?;
            page.mark(Mark::Close)
        }
    }
}

fn put_target(page: &mut Page, target: &Option<Ident>) -> Result<(), NoMemory>
    ensures { OnOk result (page.new ≡ put_parts page.old (target_parts target.now)) }
{
    match target {
        None => Ok(()),
        Some(target) => {
            page.name(target)?;
            page.mark(Mark::Assign)
        }
    }
}

#[tactic(auto, using(crate::proofs::Pages::put_more), unfolding(ac_syntax::specs::Parts::item_parts))]
pub fn put_call(
    page: &mut Page,
    line: u64,
    target: &Option<Ident>,
    object: &Ident,
    op: &Ident,
    args: &Args,
) -> Result<(), NoMemory>
    ensures { OnOk result (page.new ≡ put_item page.old (commands (call_at line target.now object.now op.now args.now))) }
{
    page.begin_on(line)?;
    put_target(page, target)?;
    page.name(object)?;
    page.mark(Mark::Dot)?;
    page.name(op)?;
    put_arguments(page, args.items())?;
    page.mark(Mark::Semicolon)
}

#[tactic(auto, unfolding(ac_syntax::specs::Parts::item_parts))]
pub fn put_set(page: &mut Page, line: u64, target: &Ident, from: &Arg) -> Result<(), NoMemory>
    ensures { OnOk result (page.new ≡ put_item page.old (commands (set_at line target.now from.now))) }
{
    page.begin_on(line)?;
    page.name(target)?;
    page.mark(Mark::Assign)?;
    put_argument(page, from)?;
    page.mark(Mark::Semicolon)
}

#[tactic(auto, unfolding(ac_syntax::specs::Parts::item_parts))]
pub fn put_sum(
    page: &mut Page,
    line: u64,
    target: &Ident,
    from: &Ident,
    minus: bool,
    number: u64,
) -> Result<(), NoMemory>
    ensures { OnOk result (page.new ≡ put_item page.old (commands (sum_at line target.now from.now minus number))) }
{
    page.begin_on(line)?;
    page.name(target)?;
    page.mark(Mark::Assign)?;
    page.name(from)?;
    page.mark(if minus { Mark::Minus } else { Mark::Plus })?;
    page.number(number)?;
    page.mark(Mark::Semicolon)
}
