//! The loops over reads and writes that stop on the way.

use io_ports::{FaultKind, LoadErr, read_text, write_piece};
use loc_base::Bytes;
use std::alloc::Global;
use std::io;
use std::io::{Read, Write};
use std::test::Fail;

/// A reader and writer of one byte a call, which fails after some calls.
#[derive(Drop)]
struct Slow {
    calls: u8,
    written: Bytes,
}

impl Slow {
    fn new(alloc: Global, calls: u8) -> Slow {
        Slow {
            calls,
            written: Bytes::new(alloc),
        }
    }

    fn call(&mut self) -> io::Result<()> {
        if self.calls == 0 {
            return Err(io::Error::from(io::ErrorKind::StorageFull));
        }
        self.calls -= 1;
        Ok(())
    }
}

impl Read for Slow {
    fn read(&mut self, buf: &mut [u8]) -> io::Result<usize> {
        self.call()?;
        if buf.is_empty() {
            return Ok(0);
        }
        buf[0] = b'r';
        Ok(1)
    }
}

impl Write for Slow {
    fn write(&mut self, buf: &[u8]) -> io::Result<usize> {
        self.call()?;
        let count = buf.len().min(1);
        self.written
            .append(&buf[..count])
            .map_err(|_| io::Error::from(io::ErrorKind::OutOfMemory))?;
        Ok(count)
    }

    fn flush(&mut self) -> io::Result<()> {
        Ok(())
    }
}

#[test]
fn a_text_longer_than_the_buffer_is_read_whole(rt: HostRuntime) -> Result<(), Fail> {
    let long = vec![in rt.alloc(); b'x'; 600_000]?;
    let mut reader = long.as_slice();
    let text = read_text(rt.alloc(), &mut reader, 600_000)?;
    assert!(rt; text.as_slice() == long.as_slice());
    Ok(())
}

#[test]
fn a_text_over_the_limit_is_too_big(rt: HostRuntime) {
    let mut reader = b"abcd".as_slice();
    assert!(rt; matches!(read_text(rt.alloc(), &mut reader, 3), Err(LoadErr::TooBig)));
}

#[test]
fn a_read_that_fails_on_the_way_is_no_end(rt: HostRuntime) {
    let mut reader = Slow::new(rt.alloc(), 3);
    assert!(rt;
        matches!(
            read_text(rt.alloc(), &mut reader, 100),
            Err(LoadErr::Failed(FaultKind::NoSpace))
        )
    );
    let mut reader = Slow::new(rt.alloc(), 3);
    assert!(rt; matches!(read_text(rt.alloc(), &mut reader, 2), Err(LoadErr::TooBig)));
}

#[test]
fn a_writer_of_single_bytes_takes_all(rt: HostRuntime) {
    let mut writer = Slow::new(rt.alloc(), 4);
    assert!(rt; write_piece(&mut writer, b"abcd").is_ok());
    assert!(rt; writer.written.as_slice() == b"abcd".as_slice());
}

#[test]
fn a_write_that_fails_on_the_way_leaves_a_front(rt: HostRuntime) {
    let mut writer = Slow::new(rt.alloc(), 2);
    assert!(rt; write_piece(&mut writer, b"abcd") == Err(FaultKind::NoSpace));
    assert!(rt; writer.written.as_slice() == b"ab".as_slice());
}

#[test]
fn a_writer_that_takes_nothing_fails(rt: HostRuntime) {
    let mut room = [0u8; 2];
    let mut writer = room.as_mut_slice();
    assert!(rt; write_piece(&mut writer, b"abc") == Err(FaultKind::Other));
    assert!(rt; room == [b'a', b'b']);
}
