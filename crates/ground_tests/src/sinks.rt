//! Sinks, in memory and over what prints.

use io_ports::{FaultKind, MemSink, Numbers, OutSink, Sink, SinkFault};
use loc_base::Bytes;
use std::cell::{Cell, RefCell};
use std::fmt::Display;
use std::io;
use std::test::Fail;

/// What prints at most three bytes a call, and fails after some calls. It keeps what it printed.
#[derive(Drop)]
struct Recorder {
    calls: Cell<u32>,
    printed: RefCell<Bytes>,
}

impl Recorder {
    fn new(rt: &HostRuntime, calls: u32) -> Recorder {
        Recorder {
            calls: Cell::new(calls),
            printed: RefCell::new(Bytes::new(rt.alloc())),
        }
    }

    /// Whether these bytes are what was printed.
    fn has_printed(&self, bytes: &[u8]) -> bool {
        match self.printed.try_borrow() {
            Ok(printed) => printed.as_slice() == bytes,
            Err(_) => false,
        }
    }
}

fn refusal() -> io::Error {
    io::Error::from(io::ErrorKind::BrokenPipe)
}

impl Print for Recorder {
    fn print<D: Display + Drop>(&self, _value: D) -> io::Result<()> {
        Err(refusal())
    }

    fn println<D: Display + Drop>(&self, _value: D) -> io::Result<()> {
        Err(refusal())
    }

    fn write_all(&self, _bytes: &[u8]) -> io::Result<()> {
        Err(refusal())
    }

    fn write_some(&self, bytes: &[u8]) -> io::Result<usize> {
        let calls = self.calls.get();
        if calls == 0 {
            return Err(refusal());
        }
        self.calls.set(calls - 1);
        let count = bytes.len().min(3);
        let Ok(mut printed) = self.printed.try_borrow_mut() else {
            return Err(refusal());
        };
        if printed.append(&bytes[..count]).is_err() {
            return Err(refusal());
        }
        Ok(count)
    }
}

#[test]
fn what_is_put_is_printed(rt: HostRuntime) -> Result<(), Fail> {
    let recorder = Recorder::new(&rt, 9);
    let mut sink = OutSink::new(&recorder);
    sink.put(b"one line\n")?;
    sink.put(b"")?;
    sink.put(b"two")?;
    assert!(rt; recorder.has_printed(b"one line\ntwo"));
    Ok(())
}

#[test]
fn what_is_not_printed_to_its_end_is_a_fault(rt: HostRuntime) -> Result<(), Fail> {
    let recorder = Recorder::new(&rt, 1);
    let mut sink = OutSink::new(&recorder);
    assert!(rt;
        matches!(
            sink.put(b"abcd"),
            Err(SinkFault::Failed(FaultKind::BrokenPipe))
        )
    );
    assert!(rt; recorder.has_printed(b"abc"));
    Ok(())
}

#[test]
fn standard_output_takes_a_piece(rt: HostRuntime) {
    let mut sink = OutSink::new(&rt);
    assert!(rt; sink.put(b"a piece on standard output\n").is_ok());
}

#[test]
fn a_put_that_fails_leaves_a_front(rt: HostRuntime) -> Result<(), Fail> {
    let mut fails = Numbers::new(rt.alloc());
    fails.push(1)?;
    let mut sink = MemSink::new(rt.alloc(), fails);
    sink.put(b"one")?;
    assert!(rt; matches!(sink.put(b"twos"), Err(SinkFault::Failed(FaultKind::Other))));
    sink.put(b"!")?;
    assert!(rt; sink.text().as_slice() == b"onetw!".as_slice());
    assert!(rt; sink.faults() == 1);
    Ok(())
}
