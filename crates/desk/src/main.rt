// Reads a two-byte signature length (high byte first), the signature and the rule from standard input; prints the group, or
// `refused`, a space, the number and a newline. A read that fails is answered like missing bytes, and told on standard error; a write
// that fails is told there.
#![tactic(auto)]

ghost use Rattle.std.specs.Prelude.{◌≡◌, ◌≤◌, ℕ, List, ◌++◌, length, true, IfSome};
ghost use Rattle.std.specs.Io.KnownBytes.{Appends};
ghost use Rattle.definition.specs.Desk.{desk_of};

use answers::desk::desk;
use flatten::entry::ANSWER;
use std::io::{Read, Write};

// Enough of any input: the length, the longest signature it can tell of, and a rule of one byte too many. A longer input's answer
// is that of its first so many bytes: the signature's refusal, else 1 (`enough` in crates/answers/proofs/Enough.antt).
const INPUT: usize = 98306;

// Prints the answer to an input, and answers whether it could. Where the input fills a buffer, that is the answer to every input that begins so.
fn print_answer<E: Write, W: Write>(errors: &mut E, output: &mut W, input: &[u8]) -> bool
    ensures answer { result ≡ true → Appends (W.contents output.old) (W.contents output.new) (desk_of input.now) }
    ensures front { result ≡ true → 98306 ≤ length input.now →
        (rest : List ℕ) → Appends (W.contents output.old) (W.contents output.new) (desk_of (input.now ++ rest)) }
{
    let mut out = [0u8; ANSWER];
    let n = desk(input, &mut out);
    streams::write_all(errors, output, &out[..n], b"desk: standard output")
}

// Answers all that the reader has, and whether neither a read nor the writing failed. Where a read failed, what came before it is no input.
fn answer<E: Write, R: Read, W: Write>(errors: &mut E, input: &mut R, output: &mut W) -> bool
    ensures { result ≡ true → IfSome (R.remaining input.old) (λ xs. Appends (W.contents output.old) (W.contents output.new) (desk_of xs)) }
{
    let mut buf = [0u8; INPUT];
    match streams::read_full(errors, input, &mut buf, b"desk: standard input") {
        Some(n) => print_answer(errors, output, &buf[..n]),
        None => {
            print_answer(errors, output, &[]);
            false
        }
    }
}

fn main(rt: HostRuntime) {
    answer(&mut rt.stderr(), &mut rt.stdin(), &mut rt.stdout());
}
