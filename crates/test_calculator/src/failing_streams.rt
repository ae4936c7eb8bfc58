//! Readers and writers of std that fail once and then go on.

use std::alloc::Global;
use std::io;
use std::io::{Read, Write};

/// Gives its bytes in pieces, and fails at the call of one number and at no other.
#[derive(Drop)]
pub struct FailsOnce<'a> {
    bytes: &'a [u8],
    piece: usize,
    pub calls: usize,
    failing: usize,
}

/// A reader that gives these bytes, so many at once, and fails at this call.
pub fn reader(bytes: &[u8], piece: usize, failing: usize) -> FailsOnce<'_> {
    FailsOnce {
        bytes,
        piece,
        calls: 0,
        failing,
    }
}

impl<'a> Read for FailsOnce<'a> {
    fn read(&mut self, buf: &mut [u8]) -> io::Result<usize> {
        let call = self.calls;
        self.calls = call.saturating_add(1);
        if call == self.failing {
            return Err(io::ErrorKind::Other.into());
        }
        let count = self.piece.min(buf.len()).min(self.bytes.len());
        buf[..count].copy_from_slice(&self.bytes[..count]);
        self.bytes = &self.bytes[count..];
        Ok(count)
    }
}

/// How a call of a writer refuses bytes.
#[derive(Clone, Copy)]
pub enum Refusal {
    /// It fails.
    Error,
    /// It takes none of them.
    NoBytes,
}

/// Takes bytes in pieces and keeps them, and refuses them at the call of one number and at no other.
#[derive(Drop)]
pub struct RefusesOnce {
    pub taken: Vec<u8>,
    piece: usize,
    pub calls: usize,
    failing: usize,
    refusal: Refusal,
}

impl Write for RefusesOnce {
    fn write(&mut self, bytes: &[u8]) -> io::Result<usize> {
        let call = self.calls;
        self.calls = call.saturating_add(1);
        if call == self.failing {
            return match self.refusal {
                Refusal::Error => Err(io::ErrorKind::Other.into()),
                Refusal::NoBytes => Ok(0),
            };
        }
        let count = self.piece.min(bytes.len());
        self.taken.extend_from_slice(&bytes[..count])?;
        Ok(count)
    }

    fn flush(&mut self) -> io::Result<()> {
        Ok(())
    }
}

/// A writer that takes so many bytes at once, and refuses them at this call.
pub fn writer(alloc: Global, piece: usize, failing: usize, refusal: Refusal) -> RefusesOnce {
    RefusesOnce {
        taken: Vec::new(alloc),
        piece,
        calls: 0,
        failing,
        refusal,
    }
}
