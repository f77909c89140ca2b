// Reads what a reader gives into a buffer: it may come in pieces of any size, as standard input does.
#![tactic(auto)]

ghost use Rattle.std.specs.Prelude.{ℕ, ◌<◌, ◌≤◌, OnErr, IfOk, length, take};
ghost use Rattle.std.specs.Io.KnownBytes.{Consumes, IsAtEnd};
ghost use Rattle.io.specs.Counts.{IsPrefixLen};

use std::io;
use std::io::Read;

// Reads until the buffer is full or the input ends. Returns how many bytes it read, or the failure of the read that failed; what was read
// before that read is at the buffer's start then too.
pub fn read_all<R: Read>(reader: &mut R, buffer: &mut [u8]) -> io::Result<usize>
    ensures fits { IfOk result (λ n. IsPrefixLen n buffer.new) }
    ensures bytes { IfOk result (λ n. Consumes (R.remaining reader.old) (R.remaining reader.new) (take n buffer.new)) }
    ensures end { IfOk result (λ n. n < length buffer.new → IsAtEnd (R.remaining reader.new)) }
    ensures err { OnErr result ((n : ℕ) × (n ≤ length buffer.new) × Consumes (R.remaining reader.old) (R.remaining reader.new) (take n buffer.new)) }
{
    let mut read = 0usize;
    while read < buffer.len() {
        let piece = reader.read(&mut buffer[read..])?;
        if piece == 0 {
            break;
        }
        read += piece;
    }
    Ok(read)
}

#[cfg(test)]
mod tests {
    use super::*;
    use std::test::Fail;

    // A reader that only fails.
    #[derive(Drop)]
    struct Broken;

    impl Read for Broken {
        fn read(&mut self, _buffer: &mut [u8]) -> io::Result<usize> {
            Err(io::ErrorKind::Other.into())
        }
    }

    #[test]
    fn reads_pieces(rt: HostRuntime) -> Result<(), Fail> {
        let first: &[u8] = b"reel";
        let second: &[u8] = b" input";
        let mut reader = first.chain(second);
        let mut buffer = [0u8; 8];
        assert_eq!(rt; read_all(&mut reader, &mut buffer)?, 8);
        assert_eq!(rt; &buffer[..], b"reel inp".as_slice());
        assert_eq!(rt; read_all(&mut reader, &mut buffer)?, 2);
        assert_eq!(rt; &buffer[..2], b"ut".as_slice());
        assert_eq!(rt; read_all(&mut reader, &mut buffer)?, 0);
        Ok(())
    }

    #[test]
    fn fails_where_a_read_fails(rt: HostRuntime) -> Result<(), Fail> {
        let bytes: &[u8] = b"reel";
        let mut reader = bytes.chain(Broken);
        let mut buffer = [0u8; 3];
        assert_eq!(rt; read_all(&mut reader, &mut buffer)?, 3);
        assert!(rt; read_all(&mut reader, &mut buffer).is_err());
        assert_eq!(rt; buffer[0], b'l');
        Ok(())
    }
}
