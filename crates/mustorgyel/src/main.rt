// The program: a net file on standard input, its answer on standard output (RULES 7).
#![tactic(auto)]

ghost use Rattle.std.specs.Prelude.{◌≡◌, ◌≤◌, length, take};
ghost use Rattle.reply.specs.Said.{most_text};
ghost use Rattle.mustorgyel.specs.Printed.{most_read, Answers, PrintsAll};

use std::io::{Read, Write};

// The bytes that are taken in (RULES 7.2). They decide the answer, whatever comes after them.
const INPUT: usize = 16384;

// 64 bytes a line: the count, each entry, the source's load.
const TEXT: usize = 262272;

// The placement file that goes with an answer. It is not printed.
const FILE: usize = 36872;

// The answer for an input, of which a buffer holds the first bytes: all of them, or as many as it has places.
fn answer_input(buffer: &[u8], count: usize, out: &mut [u8]) -> usize
    requires count_in_bounds { count ≤ length buffer.now }
    requires most_read_in_bounds { most_read ≤ length buffer.now }
    requires most_text_in_bounds { most_text ≤ length out.old }
    ensures answers { Answers buffer.now count (take result out.new) }
    ensures upper_bound { (result ≤ length out.new) × (result ≡ length (take result out.new)) }
{
    let mut file = [0u8; FILE];
    let reply = solve_reply::solve(&buffer[..count], out, &mut file);
    reply.text
}

// Why a run did not print its answer.
#[derive(Clone, Copy)]
enum Fault {
    Unread,
    Unwritten,
}

impl Fault {
    // What is said of it on standard error.
    fn line(self) -> &'static str {
        match self {
            Fault::Unread => "mustorgyel: standard input could not be read to its end",
            Fault::Unwritten => "mustorgyel: standard output could not be written",
        }
    }
}

// Reads an input to its end, or as far as it decides, and prints its answer.
fn answer_all<R: Read, W: Write>(reader: &mut R, output: &mut W) -> Result<(), Fault>
    ensures { PrintsAll (R.remaining reader.old) (W.contents output.old) (W.contents output.new) result }
{
    let mut buffer = [0u8; INPUT];
    let count = input::read(reader, &mut buffer).map_err(|_| Fault::Unread)?;
    let mut text = [0u8; TEXT];
    let bytes = answer_input(&buffer, count, &mut text);
    output
        .write_all(&text[..bytes])
        .map_err(|_| Fault::Unwritten)
}

// Its status is 0 in any case. Without an answer nothing, or not all of it, stands on standard output, and a line on standard error; the
// launcher makes a status of that (RULES 7.8).
fn main(rt: HostRuntime) {
    if let Err(fault) = answer_all(&mut rt.stdin(), &mut rt.stdout()) {
        // What cannot be said on standard error can be said nowhere.
        let _ = rt.eprintln(fault.line());
    }
}
