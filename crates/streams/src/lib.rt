// Reading into a slice.
#![tactic(auto)]

ghost use Rattle.std.specs.Prelude.{ℕ, ◌<◌, length, take, IfOk, OnErr};
ghost use Rattle.std.specs.Io.{ReadsAtMost};
ghost use Rattle.std.specs.Io.KnownBytes.{Consumes, IsAtEnd};

use std::io;
use std::io::Read;

// Reads until the buffer is full or the input ends, and answers how many bytes it put at the start of the buffer. These are the bytes that the input
// gave, in order; fewer than the buffer holds are all that there were. Where a read fails, what was read before stands at the start of the buffer. On
// an empty buffer it makes no call.
pub fn read_full<R: Read>(input: &mut R, buffer: &mut [u8]) -> io::Result<usize>
    ensures bound { ReadsAtMost result buffer.new }
    ensures bytes { IfOk result (λ n. Consumes (R.remaining input.old) (R.remaining input.new)
        (take n buffer.new)) }
    ensures end { IfOk result (λ n. n < length buffer.new → IsAtEnd (R.remaining input.new)) }
    ensures err { OnErr result ((n : ℕ) × Consumes (R.remaining input.old) (R.remaining input.new)
        (take n buffer.new)) }
{
    let mut done = 0;
    // no iterator goes on by as many bytes as a read gives
    while done < buffer.len() {
        let count = input.read(&mut buffer[done..])?;
        if count == 0 {
            break;
        }
        done += count;
    }
    Ok(done)
}

#[cfg(test)]
mod tests {
    use super::*;
    use std::io::{Error, ErrorKind};
    use std::test::Fail;

    // Gives as many zeros as it has, one by one, and then fails.
    #[derive(Drop)]
    struct Broken(u8);

    impl Read for Broken {
        fn read(&mut self, buf: &mut [u8]) -> io::Result<usize> {
            if self.0 == 0 {
                return Err(Error::from(ErrorKind::PermissionDenied));
            }
            if buf.is_empty() {
                return Ok(0);
            }
            self.0 -= 1;
            buf[0] = 0;
            Ok(1)
        }
    }

    #[test]
    fn fills_over_many_reads(rt: HostRuntime) -> Result<(), Fail> {
        let mut input = b"ab".as_slice().chain(b"cde".as_slice());
        let mut buffer = [0u8; 4];
        assert_eq!(rt; read_full(&mut input, &mut buffer)?, 4);
        assert_eq!(rt; buffer, *b"abcd");
        assert_eq!(rt; read_full(&mut input, &mut buffer)?, 1);
        assert_eq!(rt; buffer, *b"ebcd");
        assert_eq!(rt; read_full(&mut input, &mut buffer)?, 0);
        Ok(())
    }

    #[test]
    fn tells_a_failed_read(rt: HostRuntime) -> Result<(), Fail> {
        let mut input = Broken(3);
        let mut buffer = [1u8; 4];
        let failed = read_full(&mut input, &mut buffer);
        assert!(rt; failed.is_err_and(|e| e.kind() == ErrorKind::PermissionDenied));
        assert_eq!(rt; buffer, [0, 0, 0, 1]);
        assert_eq!(rt; read_full(&mut Broken(4), &mut buffer)?, 4);
        Ok(())
    }
}
