//! Readers and writers that are slow, interrupted, narrow or broken.

use std::io::{Error, ErrorKind, Read, Result, Write};

/// A reader of bytes that gives one a turn, and at its end stops as it is told.
#[derive(Drop)]
pub struct Trickle<'a> {
    pub left: &'a [u8],
    pub end: End,
}

/// What a trickle does at its end.
#[derive(Clone, Copy, PartialEq, Eq)]
pub enum End {
    /// It gives nothing more.
    Quiet,
    Fails,
    /// Each further read is interrupted.
    Interrupted,
}

impl<'a> Read for Trickle<'a> {
    fn read(&mut self, buffer: &mut [u8]) -> Result<usize> {
        if buffer.is_empty() {
            return Ok(0);
        }
        match self.left {
            [first, others @ ..] => {
                buffer[0] = *first;
                self.left = others;
                Ok(1)
            }
            [] => match self.end {
                End::Quiet => Ok(0),
                End::Fails => Err(Error::from(ErrorKind::Other)),
                End::Interrupted => Err(Error::from(ErrorKind::Interrupted)),
            },
        }
    }
}

/// A reader that is interrupted so often, and then gives its bytes.
#[derive(Drop)]
pub struct Late<'a> {
    pub interrupts: u32,
    pub left: &'a [u8],
}

impl<'a> Read for Late<'a> {
    fn read(&mut self, buffer: &mut [u8]) -> Result<usize> {
        if 0 < self.interrupts {
            self.interrupts -= 1;
            return Err(Error::from(ErrorKind::Interrupted));
        }
        let count = self.left.len().min(buffer.len());
        let (given, left) = self.left.split_at(count);
        buffer[..count].copy_from_slice(given);
        self.left = left;
        Ok(count)
    }
}

/// A reader that is interrupted so often, and then gives a blank a turn, without end. It counts its turns.
#[derive(Drop)]
pub struct Endless {
    pub interrupts: u32,
    pub turns: u32,
}

impl Read for Endless {
    fn read(&mut self, buffer: &mut [u8]) -> Result<usize> {
        self.turns = self.turns.wrapping_add(1);
        if 0 < self.interrupts {
            self.interrupts -= 1;
            return Err(Error::from(ErrorKind::Interrupted));
        }
        match buffer {
            [first, ..] => {
                *first = b' ';
                Ok(1)
            }
            [] => Ok(0),
        }
    }
}

/// A writer with room for some bytes, which it takes two at a time, and which is interrupted before each such
/// pair. It fails when it is full, or takes nothing more.
#[derive(Drop)]
pub struct Narrow {
    pub taken: Vec<u8>,
    pub room: usize,
    pub fails: bool,
    pub was_interrupted: bool,
}

impl Write for Narrow {
    fn write(&mut self, bytes: &[u8]) -> Result<usize> {
        self.was_interrupted = !self.was_interrupted;
        if self.was_interrupted {
            return Err(Error::from(ErrorKind::Interrupted));
        }
        let left = self.room.saturating_sub(self.taken.len());
        let count = left.min(bytes.len()).min(2);
        if count == 0 && self.fails {
            return Err(Error::from(ErrorKind::Other));
        }
        let (front, _) = bytes.split_at(count);
        match self.taken.extend_from_slice(front) {
            Ok(()) => Ok(count),
            Err(_) => Err(Error::from(ErrorKind::OutOfMemory)),
        }
    }

    fn flush(&mut self) -> Result<()> {
        Ok(())
    }
}
