// Files, as many bytes of them as a buffer holds.
ghost use Rattle.std.specs.Prelude.{ℕ, ◌<◌, ◌≤◌, length, take, IfOk, OnErr};
ghost use Rattle.std.specs.Io.{ReadsAtMost};
ghost use Rattle.std.specs.Io.KnownBytes.{Consumes, IsAtEnd};

use std::io::Read;
use std::rt::Files;
use std::{fs, io};

// The room of a master or a view, and of a program: one byte more than the longest legal file tells that a file is too long.
pub const NODES_ROOM: usize = 9857;

pub const PROGRAM_ROOM: usize = 6625;

// Reads until the buffer is full or the input ends, and says how many bytes came.
pub fn read_up_to<R: Read>(reader: &mut R, buf: &mut [u8]) -> io::Result<usize>
    ensures count { ReadsAtMost result buf.new }
    ensures bytes { IfOk result (λ n. Consumes (R.remaining reader.old) (R.remaining reader.new) (take n buf.new)) }
    ensures end { IfOk result (λ n. n < length buf.new → IsAtEnd (R.remaining reader.new)) }
    ensures err { OnErr result ((n : ℕ) × (n ≤ length buf.new) × Consumes (R.remaining reader.old) (R.remaining reader.new) (take n buf.new)) }
{
    // Stays: read_exact does not say how many bytes came before the end of the input, nor what an error left of it.
    let mut done = 0;
    while done < buf.len() {
        let n = reader.read(&mut buf[done..])?;
        if n == 0 {
            break;
        }
        done += n;
    }
    Ok(done)
}

// What comes of the file, in the buffer. Fails where the file cannot be opened or read; std opens paths that are text.
pub fn read_file<'a, R: Files>(files: &R, path: &[u8], buf: &'a mut [u8]) -> io::Result<&'a [u8]>
    ensures { IfOk result (λ file. length file.now ≤ length buf.old) }
{
    let path = str::from_utf8(path).map_err(|_| io::Error::from(io::ErrorKind::InvalidInput))?;
    let mut file = fs::open(files, path)?;
    let count = read_up_to(&mut file, buf)?;
    Ok(&buf[..count])
}
