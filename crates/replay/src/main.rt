// Answers cases from standard input, a line for each.
//
// A case is a letter and parts, each part a four-byte length (high byte first) and its bytes. R: signature, rule. G: signature,
// group. F: signature, rule, then four bytes of room. S: signature, group, then four bytes of position.
// A part keeps its first 65,536 bytes; the others are read and dropped. A room above that is taken as 65,536. Input that ends
// inside a case, or an unknown letter, ends the run with the line `bad case`. A read that fails is answered like input that ends inside a
// case, and told on standard error; a write that fails ends the run and is told there.
#![tactic(auto)]

ghost use Rattle.std.specs.Prelude.{◌≤◌, length};
ghost use Rattle.replay.specs.Parts.{Within};

use flatten::entry::flatten;
use reading::{check_group, check_rule};
use records::refusal::Refusal;
use scope::infer::{owners, scope};
use std::io;
use std::io::{Read, Write};

const PART: usize = 65536;

// More cases than any input has: a loop ends by a number that falls.
const CASES: u64 = 1_000_000_000_000;

// Why a run ends before its input does.
#[derive(Clone, Copy, Debug)]
enum Stop {
    // Input that ends inside a case, or an unknown letter.
    BadCase,
    // A read failed.
    Unread(io::Error),
    // A write failed.
    Unwritten(io::Error),
}

// What a case asks.
#[derive(Clone, Copy)]
enum Question {
    CheckRule,
    CheckGroup,
    Flatten,
    FindScope,
}

// The buffers of a case: its two parts, and what `flatten` writes into.
#[derive(Drop)]
struct Buffers {
    first: [u8; PART],
    second: [u8; PART],
    out: [u8; PART],
}

// Fills a buffer.
fn read_whole<R: Read>(input: &mut R, buf: &mut [u8]) -> Result<(), Stop> {
    let size = buf.len();
    let n = streams::fill(input, buf).map_err(Stop::Unread)?;
    if n < size {
        return Err(Stop::BadCase);
    }
    Ok(())
}

// A four-byte number.
fn read_four<R: Read>(input: &mut R) -> Result<usize, Stop> {
    let mut bytes = [0u8; 4];
    read_whole(input, &mut bytes)?;
    Ok(u32::from_be_bytes(bytes) as usize)
}

// The letter of the next case, or that the input has ended.
fn read_letter<R: Read>(input: &mut R) -> Result<Option<u8>, Stop> {
    let mut letter = [0u8; 1];
    let n = streams::fill(input, &mut letter).map_err(Stop::Unread)?;
    if n == 0 {
        return Ok(None);
    }
    Ok(Some(letter[0]))
}

// Reads and drops so many bytes.
fn drop_bytes<R: Read>(input: &mut R, count: usize) -> Result<(), Stop> {
    let count = count as u64;
    let mut rest = input.take(count);
    let dropped = io::copy(&mut rest, &mut io::sink()).map_err(Stop::Unread)?;
    if dropped < count {
        return Err(Stop::BadCase);
    }
    Ok(())
}

// A part that fills a buffer, and the rest of it dropped.
fn read_long<R: Read>(input: &mut R, buf: &mut [u8], size: usize) -> Result<usize, Stop>
    requires { length buf.old ≤ size }
    ensures { Within result (length buf.new) }
{
    let kept = buf.len();
    read_whole(input, buf)?;
    drop_bytes(input, size - kept)?;
    Ok(kept)
}

// A part into a buffer; its length, as far as it is kept.
fn read_part<R: Read>(input: &mut R, buf: &mut [u8]) -> Result<usize, Stop>
    ensures { Within result (length buf.new) }
{
    let size = read_four(input)?;
    if buf.len() <= size {
        return read_long(input, buf, size);
    }
    read_whole(input, &mut buf[..size])?;
    Ok(size)
}

fn print_refused<W: Write>(output: &mut W, refusal: Refusal) -> io::Result<()> {
    writeln!(output, "refused {}", refusal.number())
}

fn print_found<W: Write>(output: &mut W, found: Result<(), Refusal>) -> io::Result<()> {
    match found {
        Ok(()) => writeln!(output, "ok"),
        Err(refusal) => print_refused(output, refusal),
    }
}

// The last hexadecimal digit, lower-case.
fn digit(x: u8) -> u8 {
    let d = x % 16;
    if d < 10 { b'0' + d } else { b'a' - 10 + d }
}

fn print_hex<W: Write>(output: &mut W, s: &[u8]) -> io::Result<()> {
    for byte in s {
        output.write_all(&[digit(*byte / 16), digit(*byte)])?;
    }
    Ok(())
}

fn print_scope<W: Write>(
    output: &mut W,
    sig: &[u8],
    group: &[u8],
    position: usize,
) -> io::Result<()> {
    match scope(sig, group, position) {
        Ok(None) => writeln!(output, "global"),
        Ok(Some(own)) => {
            write!(output, "model {} owners ", own.model.0)?;
            print_hex(output, owners(sig, group, position))?;
            writeln!(output)
        }
        Err(refusal) => print_refused(output, refusal),
    }
}

// What a buffer is filled with.
fn pattern(i: usize) -> u8 {
    (i % 251) as u8
}

fn fill(out: &mut [u8]) {
    for (i, byte) in out.iter_mut().enumerate() {
        *byte = pattern(i);
    }
}

// Whether a filled buffer is as it was from a place on.
fn kept(out: &[u8], from: usize) -> bool {
    for i in from..out.len() {
        if out[i] != pattern(i) {
            return false;
        }
    }
    true
}

fn print_kept<W: Write>(output: &mut W, out: &[u8], from: usize) -> io::Result<()> {
    if kept(out, from) {
        writeln!(output, " kept")
    } else {
        writeln!(output, " changed")
    }
}

fn print_group<W: Write>(
    output: &mut W,
    sig: &[u8],
    rule: &[u8],
    out: &mut [u8],
) -> io::Result<()> {
    fill(out);
    match flatten(sig, rule, out) {
        Ok(n) => {
            write!(output, "ok ")?;
            print_hex(output, &out[..n])?;
            print_kept(output, out, n)
        }
        Err(refusal) => {
            write!(output, "refused {}", refusal.number())?;
            print_kept(output, out, 0)
        }
    }
}

// Into the front of a buffer, as much as is asked for and there.
fn print_flattened<W: Write>(
    output: &mut W,
    sig: &[u8],
    rule: &[u8],
    out: &mut [u8],
    room: usize,
) -> io::Result<()> {
    let room = room.min(out.len());
    print_group(output, sig, rule, &mut out[..room])
}

// What a letter asks.
fn asked(letter: u8) -> Option<Question> {
    match letter {
        b'R' => Some(Question::CheckRule),
        b'G' => Some(Question::CheckGroup),
        b'F' => Some(Question::Flatten),
        b'S' => Some(Question::FindScope),
        _ => None,
    }
}

// What is asked of a signature and a record.
fn respond<R: Read, W: Write>(
    input: &mut R,
    output: &mut W,
    question: Question,
    sig: &[u8],
    s: &[u8],
    out: &mut [u8],
) -> Result<(), Stop> {
    let printed = match question {
        Question::CheckRule => print_found(output, check_rule(sig, s)),
        Question::CheckGroup => print_found(output, check_group(sig, s)),
        Question::Flatten => print_flattened(output, sig, s, out, read_four(input)?),
        Question::FindScope => print_scope(output, sig, s, read_four(input)?),
    };
    printed.map_err(Stop::Unwritten)
}

// One case behind its letter.
fn answer<R: Read, W: Write>(
    input: &mut R,
    output: &mut W,
    letter: u8,
    buffers: &mut Buffers,
) -> Result<(), Stop> {
    let Some(question) = asked(letter) else {
        return Err(Stop::BadCase);
    };
    let m = read_part(input, &mut buffers.first)?;
    let n = read_part(input, &mut buffers.second)?;
    respond(
        input,
        output,
        question,
        &buffers.first[..m],
        &buffers.second[..n],
        &mut buffers.out,
    )
}

// Each case of the input, whose line is out before the next case is waited for.
fn answer_all<R: Read, W: Write>(
    input: &mut R,
    output: &mut W,
    buffers: &mut Buffers,
) -> Result<(), Stop> {
    for _ in 0..CASES {
        let Some(letter) = read_letter(input)? else {
            return Ok(());
        };
        answer(input, output, letter, buffers)?;
        output.flush().map_err(Stop::Unwritten)?;
    }
    Ok(())
}

fn print_bad_case<W: Write>(output: &mut W) -> io::Result<()> {
    writeln!(output, "bad case")?;
    output.flush()
}

// What is said of a run that ended before its input: of a failure on standard error, and of a case that was not whole in its place.
fn end_run<E: Write, W: Write>(errors: &mut E, output: &mut W, stop: Stop) {
    if let Stop::Unread(error) = stop {
        streams::tell(errors, b"replay: standard input", error);
    }
    let printed = match stop {
        Stop::Unwritten(error) => Err(error),
        Stop::BadCase | Stop::Unread(_) => print_bad_case(output),
    };
    if let Err(error) = printed {
        streams::tell(errors, b"replay: standard output", error);
    }
}

fn main(rt: HostRuntime) {
    let mut buffers = Buffers {
        first: [0; PART],
        second: [0; PART],
        out: [0; PART],
    };
    let mut output = rt.stdout();
    if let Err(stop) = answer_all(&mut rt.stdin(), &mut output, &mut buffers) {
        end_run(&mut rt.stderr(), &mut output, stop);
    }
}
