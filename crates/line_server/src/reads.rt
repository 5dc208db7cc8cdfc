// Reads that are counted.
ghost use Rattle.std.specs.Prelude.{◌≡◌, ◌+◌, ◌-◌, ◌^◌, ◌<◌};
ghost use Rattle.std.specs.Io.{ReadsAtMost};
ghost use Rattle.std.specs.Io.KnownBytes.{ReadConsumes};

use std::io::{self, Read};
use std::marker::Model;

/// How many reads were made of a reader, those that were interrupted among them. Contracts see it as a number.
///
/// It begins with 0, and is one more after each call of `Reads::read`, which makes one read; nothing else changes it, so
/// no code can tell a number of reads that it has not counted. That such a call makes just one read is in no contract,
/// for those of `Read` count none; it is in the function's one line.
#[derive(Debug, Drop)]
pub struct Reads {
    count: u64,
}

impl Model for Reads {
    ghost use Rattle.std.specs.Prelude.{ℕ};

    ghost Value = { ℕ };

    ghost view = { λ reads. reads.count };
}

impl Reads {
    /// No reads yet.
    pub(crate) fn none() -> Reads
        ensures { result ≡ 0 }
    {
        Reads { count: 0 }
    }

    /// How many there were. Takes no memory.
    pub fn count(&self) -> u64
        ensures { result ≡ self.now }
    {
        self.count
    }

    /// Makes one read of the reader, and counts it.
    ///
    /// # Errors
    ///
    /// Those of the read.
    pub(crate) fn read<R: Read>(&mut self, reader: &mut R, buf: &mut [u8]) -> io::Result<usize>
        requires { self.old < 2 ^ 64 - 1 }
        ensures counted { self.new ≡ self.old + 1 }
        ensures bound { ReadsAtMost result buf.new }
        ensures bytes { ReadConsumes (R.remaining reader.old) (R.remaining reader.new) result buf.new }
    {
        self.count += 1;
        reader.read(buf)
    }
}
