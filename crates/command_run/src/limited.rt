//! Two writers: one takes few bytes a call, and only up to a limit; the other one takes all and counts its calls.

ghost use Rattle.std.specs.Prelude.{◌≡◌, IfOk};

use std::io;
use std::io::{ErrorKind, Write};

/// What a writer does once it holds as many bytes as its limit allows.
#[derive(Clone, Copy, Debug)]
pub enum Full {
    /// It takes no byte.
    TakesNothing,
    /// It answers that there is no room.
    Fails,
    /// It answers once that a signal came. From then on it takes all.
    Interrupted,
}

/// A writer that takes at most `most` bytes a call, until it holds `limit` bytes.
#[derive(Drop)]
pub struct Limited {
    /// The bytes that it took.
    pub held: Vec<u8>,
    /// The most bytes that it takes a call.
    pub most: usize,
    /// The most bytes that it holds.
    pub limit: usize,
    /// What it does once it holds `limit` bytes.
    pub full: Full,
}

impl Limited {
    /// What a call answers once `limit` bytes are held.
    fn no_more(&mut self) -> io::Result<usize>
        ensures { IfOk result (λ taken. taken ≡ 0) }
    {
        match self.full {
            Full::TakesNothing => Ok(0),
            Full::Fails => Err(io::Error::from(ErrorKind::StorageFull)),
            Full::Interrupted => {
                self.limit = usize::MAX;
                Err(io::Error::from(ErrorKind::Interrupted))
            }
        }
    }
}

impl Write for Limited {
    fn write(&mut self, bytes: &[u8]) -> io::Result<usize> {
        if bytes.is_empty() {
            return Ok(0);
        }
        if self.limit <= self.held.len() {
            return self.no_more();
        }
        let room = self.limit - self.held.len();
        let count = bytes.len().min(self.most).min(room);
        self.held.extend_from_slice(&bytes[..count])?;
        Ok(count)
    }

    fn flush(&mut self) -> io::Result<()> {
        Ok(())
    }
}

/// A writer that takes all, and counts its calls.
#[derive(Drop)]
pub struct Counted {
    /// The bytes that it took.
    pub held: Vec<u8>,
    /// How many calls it had.
    pub writes: u64,
}

impl Write for Counted {
    fn write(&mut self, bytes: &[u8]) -> io::Result<usize> {
        self.held.extend_from_slice(bytes)?;
        self.writes = self.writes.saturating_add(1);
        Ok(bytes.len())
    }

    fn flush(&mut self) -> io::Result<()> {
        Ok(())
    }
}
