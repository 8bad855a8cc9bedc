ghost use Rattle.std.specs.Prelude.{◌≡◌, ◌∷◌, [], IfOk, length};

use super::*;
use ac_base::{Limit, NoMemory};
use ac_queue::{AnyQueue, Queue};
use std::alloc::Global;
use std::test::Fail;

/// A task without locals, of one step.
fn one_step(alloc: Global, step: TaskStep) -> Result<TaskCode, NoMemory>
    ensures { IfOk result (λ made. made ≡ record { locals = 0; steps = step ∷ [] }) }
{
    let mut steps = Vec::new(alloc);
    steps.push(step)?;
    Ok(TaskCode {
        locals: 0,
        steps: Steplist::from_vec(steps),
    })
}

/// One task puts an item into a queue, the other takes it out.
fn passing_on(alloc: Global, item: i64) -> Result<Book, NoMemory>
    ensures { IfOk result (λ made. length made.code ≡ 2) }
{
    let mut queues = Vec::new(alloc);
    queues.push(AnyQueue::Plain(Queue::new(alloc, Limit::Bounded(1))?))?;
    let mut code = Vec::new(alloc);
    code.push(one_step(
        alloc,
        TaskStep::Enqueue {
            line: 6,
            queue: 0,
            item: TaskArg::Number(item),
        },
    )?)?;
    code.push(one_step(
        alloc,
        TaskStep::Dequeue {
            line: 11,
            queue: 0,
            into: None,
        },
    )?)?;
    Book::prepare(alloc, queues, code)
}

/// A book that goes on as this one.
fn copy_of(book: &Book) -> Result<Book, Fail>
    ensures { IfOk result (λ made. made ≡ book.now) }
{
    match book.copy() {
        Ok(copy) => Ok(copy),
        Err(_) => Err(Fail::from("no memory")),
    }
}

#[test]
fn an_item_is_passed_on(rt: HostRuntime) -> Result<(), Fail> {
    let mut book = passing_on(rt.alloc(), 7).ok().ok_or("no memory")?;
    book.finish();
    assert!(rt; book.history().len() == 2);
    Ok(())
}

#[test]
fn a_copy_goes_on_as_its_original(rt: HostRuntime) -> Result<(), Fail> {
    let mut book = passing_on(rt.alloc(), 7).ok().ok_or("no memory")?;
    assert!(rt; book.turn(0) == Turn::Ran);
    let mut other = copy_of(&book)?;
    assert!(rt; other.turn(1) == Turn::Ran);
    assert!(rt; book.turn(1) == Turn::Ran);
    assert!(rt; other.history() == book.history());
    Ok(())
}

#[test]
fn a_copy_is_finished_and_its_original_waits(rt: HostRuntime) -> Result<(), Fail> {
    let mut book = passing_on(rt.alloc(), 7).ok().ok_or("no memory")?;
    let mut other = copy_of(&book)?;
    other.finish();
    assert!(rt; other.history().len() == 2);
    assert!(rt; book.history().is_empty());
    assert!(rt; book.turn(1) == Turn::Waits);
    book.finish();
    assert!(rt; other.history() == book.history());
    Ok(())
}

#[test]
fn books_begin_alike_where_their_code_is_one(rt: HostRuntime) -> Result<(), Fail> {
    let mut book = passing_on(rt.alloc(), 7).ok().ok_or("no memory")?;
    book.finish();
    assert!(rt; book.same_start(&passing_on(rt.alloc(), 7).ok().ok_or("no memory")?));
    assert!(rt; !book.same_start(&passing_on(rt.alloc(), 8).ok().ok_or("no memory")?));
    Ok(())
}
