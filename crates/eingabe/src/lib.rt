// Reading from an input that comes in pieces, for the programs.
#![tactic(auto)]

ghost use Rattle.std.specs.Prelude.{ℕ, ◌<◌, ◌≤◌, length, take, IfOk, OnErr, MatchBool};
ghost use Rattle.std.specs.Io.KnownBytes.{Consumes, IsAtEnd};
ghost use Rattle.std.specs.Io.{ReadsAtMost};

use std::io;
use std::io::Read;

/// Reads until the buffer is full or the input has ended, and returns how many bytes it put at the buffer's start:
/// fewer than fit only where the input has ended. A buffer of length 0 reads nothing. A read that fails, also one that
/// a signal interrupts, gives its error; what had come until then stands at the buffer's start.
pub fn read_full<R: Read>(input: &mut R, buf: &mut [u8]) -> io::Result<usize>
    // `&buf[..n]` is in bounds.
    ensures bound { ReadsAtMost result buf.new }
    // These bytes, and no others, were taken from the input.
    ensures bytes { IfOk result (λ n. Consumes (R.remaining input.old) (R.remaining input.new) (take n buf.new)) }
    ensures end { IfOk result (λ n. n < length buf.new → IsAtEnd (R.remaining input.new)) }
    // So it is at an error, for some number of bytes.
    ensures err { OnErr result ((n : ℕ) × (n ≤ length buf.new) ×
        Consumes (R.remaining input.old) (R.remaining input.new) (take n buf.new)) }
{
    let mut done = 0;
    // No iterator: a read gives any number of bytes.
    while done < buf.len() {
        let n = input.read(&mut buf[done..])?;
        if n == 0 {
            return Ok(done);
        }
        done += n;
    }
    Ok(done)
}

/// Reads until the buffer is full, and returns whether it is: `false` only where the input has ended before. A buffer
/// of length 0 is full. For a read that fails `read_full` says what has come.
pub fn fills<R: Read>(input: &mut R, buf: &mut [u8]) -> io::Result<bool>
    // A buffer that is full has these bytes of the input, and no others were taken from it.
    ensures { IfOk result (λ full. MatchBool full
        (Consumes (R.remaining input.old) (R.remaining input.new) buf.new)
        (IsAtEnd (R.remaining input.new))) }
{
    Ok(read_full(input, buf)? == buf.len())
}

#[cfg(test)]
mod tests {
    use super::*;
    use std::test::Fail;

    // Each read of it fails.
    #[derive(Drop)]
    struct Broken;

    impl Read for Broken {
        fn read(&mut self, _buf: &mut [u8]) -> io::Result<usize> {
            Err(io::Error::from(io::ErrorKind::BrokenPipe))
        }
    }

    #[test]
    fn joins_pieces(rt: HostRuntime) -> Result<(), Fail> {
        let mut input = b"ab".as_slice().chain(b"cde".as_slice());
        let mut buf = [0u8; 4];
        assert_eq!(rt; read_full(&mut input, &mut buf)?, 4);
        assert_eq!(rt; buf, *b"abcd");
        assert_eq!(rt; read_full(&mut input, &mut buf)?, 1);
        assert_eq!(rt; buf[0], b'e');
        assert_eq!(rt; read_full(&mut input, &mut buf)?, 0);
        Ok(())
    }

    #[test]
    fn tells_whether_it_is_full(rt: HostRuntime) -> Result<(), Fail> {
        let mut input = b"ab".as_slice().chain(b"cde".as_slice());
        let mut buf = [0u8; 4];
        assert!(rt; fills(&mut input, &mut buf)?);
        assert_eq!(rt; buf, *b"abcd");
        assert!(rt; !fills(&mut input, &mut buf)?);
        assert!(rt; fills(&mut input, &mut [])?);
        Ok(())
    }

    #[test]
    fn gives_the_error_of_a_later_read(rt: HostRuntime) -> Result<(), Fail> {
        let mut input = b"ab".as_slice().chain(Broken);
        let mut buf = [0u8; 4];
        assert!(rt; read_full(&mut input, &mut buf).is_err());
        assert!(rt; read_full(&mut input, &mut buf).is_err());
        Ok(())
    }
}
