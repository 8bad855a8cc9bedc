use super::*;
use ac_base::Limit;
use std::test::Fail;

#[test]
fn a_bounded_queue_has_room_from_the_start(rt: HostRuntime) -> Result<(), Fail> {
    let mut queue = Queue::new(rt.alloc(), Limit::Bounded(1))
        .ok()
        .ok_or("no memory")?;
    assert!(rt; queue.try_enqueue(5) == Enqueued::Took);
    assert!(rt; queue.try_enqueue(6) == Enqueued::WouldWait);
    assert!(rt; queue.try_dequeue() == Dequeued::Got(5));
    Ok(())
}

#[test]
fn an_unbounded_queue_takes_what_was_reserved(rt: HostRuntime) -> Result<(), Fail> {
    let mut queue = Queue::new(rt.alloc(), Limit::Unbounded)
        .ok()
        .ok_or("no memory")?;
    queue.reserve(2).ok().ok_or("no memory")?;
    assert!(rt; queue.try_enqueue(-5) == Enqueued::Took);
    assert!(rt; queue.spare() == 1);
    assert!(rt; queue.copy().ok().ok_or("no memory")?.same(&queue));
    Ok(())
}

#[test]
fn a_priority_queue_gives_the_greatest_first(rt: HostRuntime) -> Result<(), Fail> {
    let mut queue = AnyQueue::Ranked(
        PriorityQueue::new(rt.alloc(), Limit::Bounded(3))
            .ok()
            .ok_or("no memory")?,
    );
    assert!(rt; queue.try_enqueue(150) == Enqueued::Took);
    assert!(rt; queue.try_enqueue(199) == Enqueued::Took);
    let mut other = queue.copy().ok().ok_or("no memory")?;
    assert!(rt; other.high_only(2).is_none());
    assert!(rt; other.high_only(1) == Some(150));
    Ok(())
}

#[test]
fn a_queue_of_either_kind_reserves(rt: HostRuntime) -> Result<(), Fail> {
    let mut queue = AnyQueue::Plain(
        Queue::new(rt.alloc(), Limit::Unbounded)
            .ok()
            .ok_or("no memory")?,
    );
    queue.reserve(1).ok().ok_or("no memory")?;
    assert!(rt; queue.try_enqueue(7) == Enqueued::Took);
    assert!(rt; queue.item(0) == Some(7));
    Ok(())
}

#[test]
fn a_peak_is_restored(rt: HostRuntime) -> Result<(), Fail> {
    let mut queue = Queue::new(rt.alloc(), Limit::Bounded(3))
        .ok()
        .ok_or("no memory")?;
    queue.restore_peak(2);
    assert!(rt; queue.try_enqueue(5) == Enqueued::Took);
    assert!(rt; queue.peak_use() == 2);
    Ok(())
}

#[test]
fn a_queue_of_either_kind_has_its_peak_restored(rt: HostRuntime) -> Result<(), Fail> {
    let mut queue = AnyQueue::Ranked(
        PriorityQueue::new(rt.alloc(), Limit::Unbounded)
            .ok()
            .ok_or("no memory")?,
    );
    queue.restore_peak(7);
    assert!(rt; queue.peak_use() == 7);
    Ok(())
}
