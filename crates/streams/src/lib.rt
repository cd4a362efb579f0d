// Standard input and output for programs: a read that fails is told from the end of the input, and what fails is said on standard error.
#![tactic(auto)]

ghost use Rattle.std.specs.Prelude.{◌≡◌, ◌≤◌, ◌<◌, true, length, take, IfOk, IfSome, Some};
ghost use Rattle.std.specs.Io.KnownBytes.{Appends, Consumes, IsAtEnd};
ghost use Rattle.streams.specs.Inputs.{Taken};

use std::io;
use std::io::{Read, Write};

// The system's words for a failure are at most so long; a longer text is cut.
const WORDS: usize = 256;

// A line of who failed, and the system's words for it, without their number.
fn write_failure<E: Write>(errors: &mut E, who: &[u8], error: io::Error) -> io::Result<()> {
    let mut text = [0u8; WORDS];
    let mut rest: &mut [u8] = &mut text;
    // What does not fit is left out.
    let _ = write!(rest, "{error}");
    let len = WORDS.saturating_sub(rest.len());
    let shown = str::from_utf8(&text[..len]).unwrap_or("");
    let words = shown
        .split_once(" (os error ")
        .map_or(shown, |(words, _)| words);
    errors.write_all(who)?;
    errors.write_all(b": ")?;
    errors.write_all(words.as_bytes())?;
    errors.write_all(b"\n")
}

// Says who failed where errors are told, and how. Nobody is left to hear where that fails.
pub fn tell<E: Write>(errors: &mut E, who: &[u8], error: io::Error) {
    let _ = write_failure(errors, who, error);
}

// Fills the buffer from the reader as far as that goes. The first read that fails ends it.
pub fn fill<R: Read>(input: &mut R, buf: &mut [u8]) -> io::Result<usize>
    ensures within { IfOk result (λ n. n ≤ length buf.new) }
    ensures bytes { IfOk result (λ n. Consumes (R.remaining input.old) (R.remaining input.new) (take n buf.new)) }
    ensures end { IfOk result (λ n. n < length buf.new → IsAtEnd (R.remaining input.new)) }
{
    let mut done = 0;
    while done < buf.len() {
        let more = input.read(&mut buf[done..])?;
        if more == 0 {
            return Ok(done);
        }
        done += more;
    }
    Ok(done)
}

// Fills the buffer from the reader as far as that goes: so many bytes stand at its front, and it is full or the input has ended. Where a
// read fails there is no whole input, and standard error has a line: who reads, and the error.
pub fn read_full<E: Write, R: Read>(
    errors: &mut E,
    input: &mut R,
    buf: &mut [u8],
    who: &[u8],
) -> Option<usize>
    ensures within { IfSome result (λ n. n ≤ length buf.new) }
    ensures taken { Taken result (R.remaining input.old) (R.remaining input.new) buf.new }
{
    match fill(input, buf) {
        Ok(n) => Some(n),
        Err(error) => {
            tell(errors, who, error);
            None
        }
    }
}

// The same for a program that reads once. What came before a failed read is no input, so its length is then 0.
pub fn read_input<E: Write, R: Read>(
    errors: &mut E,
    input: &mut R,
    buf: &mut [u8],
    who: &[u8],
) -> usize
    ensures within { result ≤ length buf.new }
    ensures taken { 0 < result → Taken (Some result) (R.remaining input.old) (R.remaining input.new) buf.new }
{
    read_full(errors, input, buf, who).unwrap_or(0)
}

// Writes all of it, and answers whether it could. Where not, standard error has a line: who writes, and the error.
pub fn write_all<E: Write, W: Write>(errors: &mut E, output: &mut W, buf: &[u8], who: &[u8]) -> bool
    ensures { result ≡ true → Appends (W.contents output.old) (W.contents output.new) buf.now }
{
    match output.write_all(buf) {
        Ok(()) => true,
        Err(error) => {
            tell(errors, who, error);
            false
        }
    }
}

#[cfg(test)]
mod tests {
    use super::*;
    use std::io::ErrorKind;

    // Gives so many bytes, one a read, and then fails.
    #[derive(Drop)]
    struct Broken {
        left: u8,
    }

    impl Read for Broken {
        fn read(&mut self, buf: &mut [u8]) -> io::Result<usize> {
            if self.left == 0 {
                return Err(io::Error::from(ErrorKind::Other));
            }
            if buf.is_empty() {
                return Ok(0);
            }
            self.left -= 1;
            buf[0] = self.left;
            Ok(1)
        }
    }

    #[test]
    fn failed_read_is_no_input(rt: HostRuntime) {
        for (left, want) in [(0, 0), (3, 0), (4, 4), (5, 4)] {
            let mut buf = [0u8; 4];
            let read = read_input(
                &mut rt.stderr(),
                &mut Broken { left },
                &mut buf,
                b"test: a reader",
            );
            assert_eq!(rt; read, want, "with {left} bytes");
        }
    }

    #[test]
    fn end_of_input_is_told_from_failure(rt: HostRuntime) {
        let mut buf = [0u8; 4];
        let mut input: &[u8] = b"abcdef";
        assert!(rt;
            matches!(
                read_full(&mut rt.stderr(), &mut input, &mut buf, b"test: bytes"),
                Some(4)
            )
        );
        assert!(rt;
            matches!(
                read_full(&mut rt.stderr(), &mut input, &mut buf, b"test: bytes"),
                Some(2)
            )
        );
        assert_eq!(rt; buf, *b"efcd");
        assert!(rt;
            matches!(
                read_full(
                    &mut rt.stderr(),
                    &mut Broken { left: 2 },
                    &mut buf,
                    b"test: a reader"
                ),
                None
            )
        );
    }

    #[test]
    fn failure_is_told_in_the_systems_words(rt: HostRuntime) {
        let mut line = [0u8; 64];
        let mut errors: &mut [u8] = &mut line;
        tell(
            &mut errors,
            b"test: a reader",
            io::Error::from_raw_os_error(5),
        );
        assert!(rt; line.starts_with(b"test: a reader: Input/output error\n"));
    }

    #[test]
    fn failed_write_is_told(rt: HostRuntime) {
        let mut room = [0u8; 4];
        let mut output: &mut [u8] = &mut room;
        assert!(rt; write_all(&mut rt.stderr(), &mut output, b"abc", b"test: a writer"));
        assert!(rt; !write_all(&mut rt.stderr(), &mut output, b"def", b"test: a writer"));
    }
}
