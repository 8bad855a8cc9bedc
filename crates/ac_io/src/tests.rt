ghost use Rattle.std.specs.Prelude.{◌<◌};

use super::*;
use std::alloc::{AllocError, Global};
use std::cell::RefCell;
use std::fmt::Display;
use std::io::{self, ErrorKind};
use std::test::Fail;

const LINE: &[u8] = b"3: ok\n";

fn source_of(
    alloc: Global,
    bytes: &[u8],
    piece: usize,
    fails: &[u64],
) -> Result<MemorySource, AllocError>
    requires { 0 < piece }
{
    Ok(MemorySource::new(bytes.to_vec(alloc)?, piece, fails.to_vec(alloc)?))
}

#[test]
fn reads_all_in_pieces(rt: HostRuntime) -> Result<(), Fail> {
    let mut bytewise = source_of(rt.alloc(), LINE, 1, &[])?;
    let line = read_all(rt.alloc(), &mut bytewise, 6)?;
    assert!(rt; line.as_slice() == LINE);
    assert!(rt; bytewise.rest().is_empty());

    let long = vec![in rt.alloc(); 7; 10_000]?;
    let mut at_once = source_of(rt.alloc(), &long, usize::MAX, &[])?;
    let read = read_all(rt.alloc(), &mut at_once, 10_000)?;
    assert!(rt; read.as_slice() == long.as_slice());
    Ok(())
}

#[test]
fn reading_ends_early(rt: HostRuntime) -> Result<(), Fail> {
    let mut long = source_of(rt.alloc(), LINE, 4, &[])?;
    assert!(rt; matches!(read_all(rt.alloc(), &mut long, 5), Err(ReadEnd::TooLong)));

    let mut broken = source_of(rt.alloc(), LINE, 4, &[2])?;
    assert!(rt;
        matches!(
            read_all(rt.alloc(), &mut broken, 6),
            Err(ReadEnd::ReadFault)
        )
    );
    assert!(rt; broken.rest() == b"k\n".as_slice());
    Ok(())
}

#[test]
fn writes_all_or_a_front(rt: HostRuntime) -> Result<(), Fail> {
    let mut bytewise = MemorySink::with_room(rt.alloc(), 6, 1, Vec::new(rt.alloc()))
        .ok()
        .ok_or("no memory")?;
    write_all(&mut bytewise, LINE)?;
    assert!(rt; bytewise.bytes() == LINE);

    let mut broken = MemorySink::with_room(rt.alloc(), 100, 4, vec![in rt.alloc(); 2]?)
        .ok()
        .ok_or("no memory")?;
    assert!(rt; write_all(&mut broken, LINE).is_err());
    assert!(rt; broken.bytes() == b"3: o".as_slice());

    let mut full = MemorySink::with_room(rt.alloc(), 5, 4, Vec::new(rt.alloc()))
        .ok()
        .ok_or("no memory")?;
    assert!(rt; write_all(&mut full, LINE).is_err());
    assert!(rt; full.bytes() == b"3: ok".as_slice());
    Ok(())
}

#[test]
fn writes_to_a_sink_that_grows(rt: HostRuntime) -> Result<(), Fail> {
    let mut sink = GrowSink::new(rt.alloc());
    assert!(rt; sink.bytes().is_empty());
    write_all(&mut sink, LINE)?;
    write_all(&mut sink, LINE)?;
    assert!(rt; sink.bytes() == b"3: ok\n3: ok\n".as_slice());
    Ok(())
}

#[test]
fn writes_in_pieces(rt: HostRuntime) -> Result<(), Fail> {
    let mut sink = MemorySink::with_room(rt.alloc(), 12, 4, Vec::new(rt.alloc()))
        .ok()
        .ok_or("no memory")?;
    let mut text = Vec::new(rt.alloc());
    add(&mut text, LINE, &mut sink)?;
    assert!(rt; sink.bytes().is_empty());
    add_last(&mut text, LINE, &mut sink)?;
    assert!(rt; sink.bytes() == b"3: ok\n3: ok\n".as_slice());
    Ok(())
}

#[test]
fn reads_standard_input(rt: HostRuntime) -> Result<(), Fail> {
    let mut input = StdSource::new(rt.reader());
    assert!(rt; input.next(&mut [0; 8]) != Next::Failed);

    let mut known = StdSource::new(LINE);
    let line = read_all(rt.alloc(), &mut known, 6)?;
    assert!(rt; line.as_slice() == LINE);
    Ok(())
}

#[test]
fn writes_standard_output(rt: HostRuntime) -> Result<(), Fail> {
    let mut output = StdSink::new(rt.stdout());
    write_all(&mut output, LINE)?;
    Ok(())
}

/// A printer that takes two bytes a call, and fails once it has taken so many.
#[derive(Drop)]
struct Pairs {
    taken: RefCell<Vec<u8>>,
    room: usize,
}

impl Print for Pairs {
    fn print<D: Display + Drop>(&self, _value: D) -> io::Result<()> {
        self.write_all(b"")
    }

    fn println<D: Display + Drop>(&self, _value: D) -> io::Result<()> {
        self.write_all(b"")
    }

    fn write_all(&self, _bytes: &[u8]) -> io::Result<()> {
        Err(ErrorKind::Unsupported.into())
    }

    fn write_some(&self, bytes: &[u8]) -> io::Result<usize> {
        let mut taken = self.taken.try_borrow_mut()?;
        if taken.len() >= self.room {
            return Err(ErrorKind::BrokenPipe.into());
        }
        let count = bytes.len().min(2);
        taken.extend_from_slice(&bytes[..count])?;
        Ok(count)
    }
}

#[test]
fn writes_what_a_printer_takes(rt: HostRuntime) -> Result<(), Fail> {
    for (room, is_whole, front) in [(6, true, LINE), (4, false, b"3: o")] {
        let printer = Pairs {
            taken: RefCell::new(Vec::new(rt.alloc())),
            room,
        };
        let mut output = StdSink::new(&printer);
        assert!(rt; write_all(&mut output, LINE).is_ok() == is_whole);
        assert!(rt; printer.taken.try_borrow()?.as_slice() == front);
    }
    Ok(())
}
