//! Words for a person.
use std::{fmt, str};

/// Words of at most 160 bytes, which lie in the value itself; what is longer is cut.
#[derive(Clone, Copy, Debug)]
pub(crate) struct Words {
    bytes: [u8; 160],
    length: usize,
}

impl Words {
    pub(crate) fn new() -> Words {
        Words {
            bytes: [0; 160],
            length: 0,
        }
    }
}

impl fmt::Write for Words {
    fn write_str(&mut self, piece: &str) -> fmt::Result {
        for byte in piece.as_bytes() {
            match self.bytes.get_mut(self.length) {
                Some(place) => *place = *byte,
                None => return Err(fmt::Error),
            }
            self.length = self.length.saturating_add(1);
        }
        Ok(())
    }
}

impl fmt::Display for Words {
    fn fmt<W: fmt::Write>(&self, f: &mut fmt::Formatter<W>) -> fmt::Result {
        let Some(bytes) = self.bytes.get(..self.length) else {
            return Ok(());
        };
        match str::from_utf8(bytes) {
            Ok(text) => f.write_str(text),
            Err(_) => Ok(()),
        }
    }
}
