//! Sources and sinks, in memory and over readers and writers.

ghost use Rattle.std.specs.Prelude.{◌≤◌};

use std::alloc::Global;
use std::io;
use std::io::{ErrorKind, Read, Write};
use std::test::Fail;
use wbt_io::{
    Failed, MemSink, MemSource, NoMemory, ReadEnd, Sink, Source, StdSink, StdSource, read_all,
    write_all,
};
use wbt_num::MOST_INPUT;

// A reader and writer that fails at each call.
#[derive(Drop)]
struct Broken;

impl Read for Broken {
    fn read(&mut self, _buf: &mut [u8]) -> io::Result<usize> {
        Err(io::Error::from(ErrorKind::BrokenPipe))
    }
}

impl Write for Broken {
    fn write(&mut self, _buf: &[u8]) -> io::Result<usize> {
        Err(io::Error::from(ErrorKind::BrokenPipe))
    }

    fn flush(&mut self) -> io::Result<()> {
        Ok(())
    }
}

// Reads a source of five bytes, whose call of number `fail` fails.
fn read_hello(alloc: Global, piece: usize, fail: u64, most: u64) -> Result<Vec<u8>, ReadEnd>
    requires { 1 ≤ piece }
{
    let Ok(bytes) = b"hello".to_vec(alloc) else {
        return Err(ReadEnd::NoMemory);
    };
    let Ok(fails) = [fail].to_vec(alloc) else {
        return Err(ReadEnd::NoMemory);
    };
    let mut source = MemSource::make(bytes, piece, fails);
    read_all(alloc, &mut source, most)
}

#[test]
fn a_source_is_read_to_its_end(rt: HostRuntime) -> Result<(), Fail> {
    // At one byte a call the sixth call answers 0.
    let bytes = read_hello(rt.alloc(), 1, 7, 5)?;
    assert_eq!(rt; bytes.as_slice(), b"hello".as_slice());
    let bytes = read_hello(rt.alloc(), 100, 3, 5)?;
    assert_eq!(rt; bytes.as_slice(), b"hello".as_slice());
    Ok(())
}

#[test]
fn a_read_ends_at_a_fault_or_past_its_limit(rt: HostRuntime) {
    assert!(rt; matches!(read_hello(rt.alloc(), 2, 2, 5), Err(ReadEnd::ReadFault)));
    assert!(rt; matches!(read_hello(rt.alloc(), 2, 4, 5), Err(ReadEnd::ReadFault)));
    assert!(rt; matches!(read_hello(rt.alloc(), 1, 9, 4), Err(ReadEnd::TooLong)));
    // The fault comes after the byte that is too many.
    assert!(rt; matches!(read_hello(rt.alloc(), 1, 6, 4), Err(ReadEnd::TooLong)));
}

// What came of writing to a sink.
#[derive(Drop)]
struct Written {
    result: Result<(), Failed>,
    faults: u64,
    held: Vec<u8>,
}

// Writes five bytes to a new sink whose call of number `fail` fails.
fn write_hello(alloc: Global, room: usize, piece: usize, fail: u64) -> Result<Written, NoMemory>
    requires { 1 ≤ piece }
{
    let fails = [fail].to_vec(alloc)?;
    let mut sink = MemSink::make(alloc, room, piece, fails)?;
    let result = write_all(&mut sink, b"hello");
    let faults = sink.fault_count();
    let held = sink.into_bytes();
    Ok(Written {
        result,
        faults,
        held,
    })
}

#[test]
fn a_sink_takes_all(rt: HostRuntime) -> Result<(), Fail> {
    let written = write_hello(rt.alloc(), 5, 1, 6)?;
    assert_eq!(rt; written.result, Ok(()));
    assert_eq!(rt; written.faults, 0);
    assert_eq!(rt; written.held.as_slice(), b"hello".as_slice());
    Ok(())
}

#[test]
fn a_sink_that_fails_holds_a_prefix(rt: HostRuntime) -> Result<(), Fail> {
    // The second call fails.
    let written = write_hello(rt.alloc(), 5, 3, 2)?;
    assert_eq!(rt; written.result, Err(Failed));
    assert_eq!(rt; written.faults, 1);
    assert_eq!(rt; written.held.as_slice(), b"hel".as_slice());
    // There is no room for the last byte.
    let written = write_hello(rt.alloc(), 4, 100, 9)?;
    assert_eq!(rt; written.result, Err(Failed));
    assert_eq!(rt; written.faults, 1);
    assert_eq!(rt; written.held.as_slice(), b"hell".as_slice());
    Ok(())
}

#[test]
fn a_full_sink_takes_an_empty_piece(rt: HostRuntime) -> Result<(), Fail> {
    let mut sink = MemSink::make(rt.alloc(), 0, 1, Vec::new(rt.alloc()))?;
    assert_eq!(rt; sink.write(b""), Ok(0));
    assert_eq!(rt; sink.write(b"x"), Err(Failed));
    assert_eq!(rt; sink.bytes(), b"".as_slice());
    Ok(())
}

#[test]
fn a_reader_is_a_source(rt: HostRuntime) -> Result<(), Fail> {
    let mut source = StdSource::make(b"hello".as_slice());
    let bytes = read_all(rt.alloc(), &mut source, 5)?;
    assert_eq!(rt; bytes.as_slice(), b"hello".as_slice());
    assert_eq!(rt; source.fault_count(), 0);
    let mut source = StdSource::make(Broken);
    assert!(rt;
        matches!(
            read_all(rt.alloc(), &mut source, 5),
            Err(ReadEnd::ReadFault)
        )
    );
    assert_eq!(rt; source.fault_count(), 1);
    Ok(())
}

#[test]
fn a_writer_is_a_sink(rt: HostRuntime) -> Result<(), Fail> {
    let mut held = Vec::new(rt.alloc());
    let mut sink = StdSink::make(&mut held);
    assert_eq!(rt; write_all(&mut sink, b"hello"), Ok(()));
    assert_eq!(rt; sink.fault_count(), 0);
    assert_eq!(rt; held.as_slice(), b"hello".as_slice());
    let mut sink = StdSink::make(Broken);
    assert_eq!(rt; write_all(&mut sink, b"hello"), Err(Failed));
    assert_eq!(rt; sink.fault_count(), 1);
    Ok(())
}

#[test]
fn a_writer_that_takes_nothing_is_a_fault(rt: HostRuntime) {
    let mut room = [0u8; 3];
    let mut sink = StdSink::make(room.as_mut_slice());
    assert_eq!(rt; write_all(&mut sink, b"hello"), Err(Failed));
    assert_eq!(rt; sink.fault_count(), 1);
    assert_eq!(rt; room.as_slice(), b"hel".as_slice());
}

#[test]
fn an_input_of_the_most_bytes_is_read(rt: HostRuntime) -> Result<(), Fail> {
    let alloc = rt.alloc();
    let bytes = vec![in alloc; b'x'; MOST_INPUT]?;
    let mut source = MemSource::make(bytes, MOST_INPUT, Vec::new(alloc));
    let read = read_all(alloc, &mut source, MOST_INPUT as u64)?;
    assert_eq!(rt; read.len(), MOST_INPUT);
    Ok(())
}
