use ac_base::*;
use std::alloc::Global;
use std::process::Abort;
use std::test::Fail;

#[test]
fn reasons_as_in_the_table(rt: HostRuntime) {
    let rows = [
        (
            Reason::CursorTampering,
            1,
            "PROGRAM_ERROR",
            "cursor tampering",
        ),
        (Reason::LengthRange, 7, "CONSTRAINT_ERROR", "length"),
        (Reason::CapacityFull, 11, "CAPACITY_ERROR", "full"),
        (Reason::RootSource, 22, "CONSTRAINT_ERROR", "root source"),
    ];
    for (reason, number, exception, text) in rows {
        assert!(rt; reason.number() == number);
        assert!(rt; reason.exception().name() == exception);
        assert!(rt; reason.text() == text);
    }
}

fn text(alloc: Global, bytes: &[u8]) -> Result<Text, Fail> {
    Ok(Text::new(alloc, bytes).ok().ok_or("no text")?)
}

fn keyed(alloc: Global, bytes: &[u8]) -> Result<KeyedText, Fail> {
    let made = KeyedText::new(alloc, text(alloc, bytes)?);
    Ok(made.ok().ok_or("no memory")?)
}

fn element_as_wanted<T: Elem>(
    rt: &impl Abort,
    alloc: Global,
    element: &T,
    sizes: [u64; 2],
) -> Result<(), Fail> {
    let copied = element.copy(alloc).ok().ok_or("no memory")?;
    let blank = T::blank(alloc).ok().ok_or("no memory")?;
    assert!(rt; element.same(&copied));
    assert!(rt; !element.same(&blank));
    assert!(rt; [element.size(), blank.size()] == sizes);
    Ok(())
}

fn in_order<T: Rank>(rt: &impl Abort, smaller: &T, greater: &T) {
    assert!(rt; precedes(smaller, greater));
    assert!(rt; !precedes(greater, smaller));
}

fn hashed_as_wanted<T: KeyOf>(rt: &impl Abort, element: &T, other: &T, hash: u32, wide: u64) {
    assert!(rt; element.alike(element));
    assert!(rt; !element.alike(other));
    assert!(rt; element.hash() == hash);
    assert!(rt; element.wide_hash() == wide);
    assert!(rt; element.key().alike(element.key()));
    assert!(rt; element.key().hash() == hash);
}

#[test]
fn integers(rt: HostRuntime) -> Result<(), Fail> {
    element_as_wanted(&rt, rt.alloc(), &-7i64, [8, 8])?;
    in_order(&rt, &-7i64, &5);
    hashed_as_wanted(&rt, &0i64, &1, 232_720_647, 217);
    Ok(())
}

#[test]
fn texts_that_are_taken(rt: HostRuntime) -> Result<(), Fail> {
    let alloc = rt.alloc();
    let long = vec![in alloc; b'x'; 1_001]?;
    assert!(rt; Text::new(alloc, b"a\n") == Err(TextFault::BadByte(2)));
    assert!(rt; Text::new(alloc, &long) == Err(TextFault::TooLong));
    assert!(rt; text(alloc, &long[1..])?.bytes().len() == 1_000);
    Ok(())
}

#[test]
fn texts_as_elements(rt: HostRuntime) -> Result<(), Fail> {
    let alloc = rt.alloc();
    let empty = text(alloc, b"")?;
    let letter = text(alloc, b"a")?;
    element_as_wanted(&rt, alloc, &letter, [1, 0])?;
    in_order(&rt, &empty, &letter);
    hashed_as_wanted(&rt, &empty, &letter, 7, 7);
    hashed_as_wanted(&rt, &letter, &empty, 314, 314);
    Ok(())
}

#[test]
fn keyed_texts_are_alike_by_their_keys(rt: HostRuntime) -> Result<(), Fail> {
    let alloc = rt.alloc();
    let first = keyed(alloc, b"a=1")?;
    let second = keyed(alloc, b"a=2")?;
    assert!(rt; first.alike(&second));
    assert!(rt; !first.same(&second));
    Ok(())
}

#[test]
fn a_key_ends_before_the_sign(rt: HostRuntime) -> Result<(), Fail> {
    let first = keyed(rt.alloc(), b"a=1")?;
    assert!(rt; first.key().bytes() == b"a".as_slice());
    let other = keyed(rt.alloc(), b"b")?;
    assert!(rt; other.key().bytes() == other.text().bytes());
    Ok(())
}

#[test]
fn keyed_texts_as_elements(rt: HostRuntime) -> Result<(), Fail> {
    let first = keyed(rt.alloc(), b"a=1")?;
    element_as_wanted(&rt, rt.alloc(), &first, [3, 0])
}

#[test]
fn keyed_texts_in_order(rt: HostRuntime) -> Result<(), Fail> {
    let second = keyed(rt.alloc(), b"a=2")?;
    let other = keyed(rt.alloc(), b"b")?;
    in_order(&rt, &second, &other);
    hashed_as_wanted(&rt, &second, &other, 314, 314);
    Ok(())
}

#[test]
fn the_earliest_step_comes_first(rt: HostRuntime) {
    let found = [
        Some(Reason::DeadCursor),
        None,
        Some(Reason::ElementTampering),
        Some(Reason::CursorTampering),
    ];
    assert!(rt; first_reason(&found) == Some(Reason::ElementTampering));
    assert!(rt; first_reason(&found[..2]) == Some(Reason::DeadCursor));
    assert!(rt; first_reason(&found[1..2]) == None);
}
