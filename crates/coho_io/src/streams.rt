ghost use Rattle.std.specs.Io.{WritesAtMost};

use crate::interrupted::{TRIES, interrupted, is_interrupted};
use std::io;
use std::io::{ErrorKind, Write};

// Writes the first bytes of a piece, and tries again where a signal broke the write off.
fn write_front<W: Write>(stream: &mut W, piece: &[u8]) -> io::Result<usize>
    ensures { WritesAtMost result piece.now }
{
    for _ in 0..TRIES {
        match stream.write(piece) {
            Err(error) if is_interrupted(&error) => {}
            answer => return answer,
        }
    }
    Err(interrupted())
}

// Hands on what the stream still holds, and tries again where a signal broke that off.
fn flush<W: Write>(stream: &mut W) -> io::Result<()> {
    for _ in 0..TRIES {
        match stream.flush() {
            Err(error) if is_interrupted(&error) => {}
            answer => return answer,
        }
    }
    Err(interrupted())
}

/// Writes a piece whole.
pub fn write_whole<W: Write>(stream: &mut W, piece: &[u8]) -> io::Result<()> {
    let mut rest = piece;
    while !rest.is_empty() {
        match write_front(stream, rest)? {
            0 => return Err(io::Error::from(ErrorKind::WriteZero)),
            count => rest = &rest[count..],
        }
    }
    flush(stream)
}
