// The desk: a verb and its files, by descriptors, and what it says on standard output (RULES 11). The launcher opens the files.
#![tactic(auto)]

ghost use Rattle.std.specs.Prelude.{◌≤◌, length};
ghost use Rattle.input.specs.Input.{count_of};
ghost use Rattle.whole.specs.Whole.{Fits};

use replies::Verb;
use reply::{Reply, Status};
use shelf::Stopped;
use std::fs::OpenOptions;
use std::io::Write;
use std::rt::Env;
use std::{fs, io};

// The descriptors that are written to, by the names that the system gives them: the status, and what `-o` names.
const STATUS: &str = "/dev/fd/3";

const KEPT: &str = "/dev/fd/7";

// The bytes of a file that are taken in: they decide, whatever comes after them (RULES 11.3).
const NET: usize = 16384;

const PLACEMENT: usize = 65536;

// Room for every text and for every placement file.
const TEXT: usize = 262272;

const FILE: usize = 36872;

// What is said of a file that could not be read, or written.
const NO_NET: &str = "mustorgyel: the net file could not be read to its end";

const NO_FIRST_NET: &str = "mustorgyel: the first net file could not be read to its end";

const NO_SECOND_NET: &str = "mustorgyel: the second net file could not be read to its end";

const NO_PLACEMENT: &str = "mustorgyel: the placement file could not be read to its end";

const NO_OUTPUT: &str = "mustorgyel: standard output could not be written";

// A file, by its place in the order typed.
#[derive(Clone, Copy, PartialEq)]
enum Place {
    First,
    Second,
    Third,
}

impl Place {
    // The place that a word stands for.
    fn named(word: &[u8]) -> Option<Self> {
        match word {
            b"1" => Some(Place::First),
            b"2" => Some(Place::Second),
            b"3" => Some(Place::Third),
            _ => None,
        }
    }

    // The descriptor of a file, by the name that the system gives it.
    fn descriptor(self) -> &'static str {
        match self {
            Place::First => "/dev/fd/4",
            Place::Second => "/dev/fd/5",
            Place::Third => "/dev/fd/6",
        }
    }
}

// What stands behind a verb: `-o`, and which file is standard input, where one is.
#[derive(Clone, Copy)]
struct Words {
    keep: bool,
    dash: Option<Place>,
}

impl Words {
    fn new(more: &[u8], last: &[u8]) -> Self {
        match more {
            b"-o" => Words {
                keep: true,
                dash: Place::named(last),
            },
            _ => Words {
                keep: matches!(last, b"-o"),
                dash: Place::named(more),
            },
        }
    }
}

// A file is opened anew at its descriptor, and read from its first byte. Standard input is read from where it is, as nobody else may
// open what it stands for, or see its bytes twice.
fn read(rt: &HostRuntime, words: Words, place: Place, buffer: &mut [u8]) -> io::Result<usize>
    ensures { count_of result ≤ length buffer.new }
{
    if words.dash == Some(place) {
        return input::read(&mut rt.stdin(), buffer);
    }
    let mut file = fs::open(rt, place.descriptor())?;
    input::read(&mut file, buffer)
}

// Bytes behind all that was written to a descriptor before.
fn write(rt: &HostRuntime, descriptor: &str, bytes: &[u8]) -> io::Result<()> {
    let mut file = OpenOptions::new().append(true).open(rt, descriptor)?;
    file.write_all(bytes)
}

// One character, after all else was written. Without it the launcher says that there is no answer.
fn end(rt: &HostRuntime, status: Status) {
    let _ = write(rt, STATUS, &[status.byte()]);
}

// The file where it is asked for, the text, the status.
fn hand_over(
    rt: &HostRuntime,
    text: &[u8],
    file: &[u8],
    reply: Reply,
    keep: bool,
) -> Result<(), &'static str>
    requires { Fits text.now file.now reply }
{
    if keep {
        write(rt, KEPT, &file[..reply.file]).map_err(
            |_| "mustorgyel: the placement file could not be written",
        )?;
    }
    rt.write_all(&text[..reply.text]).map_err(|_| NO_OUTPUT)?;
    end(rt, reply.status);
    Ok(())
}

// Each verb has its buffers in a frame of its own, so that none stands on another's.
#[inline(never)]
fn solve(rt: &HostRuntime, words: Words) -> Result<(), &'static str> {
    let mut net = [0u8; NET];
    let count = read(rt, words, Place::First, &mut net).map_err(|_| NO_NET)?;
    let mut text = [0u8; TEXT];
    let mut file = [0u8; FILE];
    let reply = whole::solve(&net, count, &mut text, &mut file);
    hand_over(rt, &text, &file, reply, words.keep)
}

// A verb that takes a net file and a placement file.
#[inline(never)]
fn on_two(rt: &HostRuntime, verb: Verb, words: Words) -> Result<(), &'static str> {
    let mut net = [0u8; NET];
    let count = read(rt, words, Place::First, &mut net).map_err(|_| NO_NET)?;
    let mut placement = [0u8; PLACEMENT];
    let count2 = read(rt, words, Place::Second, &mut placement).map_err(|_| NO_PLACEMENT)?;
    let mut text = [0u8; TEXT];
    let mut file = [0u8; FILE];
    let reply = whole::on_files(verb, &net, count, &placement, count2, &mut text, &mut file);
    hand_over(rt, &text, &file, reply, words.keep)
}

#[inline(never)]
fn carry(rt: &HostRuntime, words: Words) -> Result<(), &'static str> {
    let mut old = [0u8; NET];
    let count = read(rt, words, Place::First, &mut old).map_err(|_| NO_FIRST_NET)?;
    let mut new = [0u8; NET];
    let count2 = read(rt, words, Place::Second, &mut new).map_err(|_| NO_SECOND_NET)?;
    let mut placement = [0u8; PLACEMENT];
    let count3 = read(rt, words, Place::Third, &mut placement).map_err(|_| NO_PLACEMENT)?;
    let mut text = [0u8; TEXT];
    let mut file = [0u8; FILE];
    let reply = whole::carry(
        &old, count, &new, count2, &placement, count3, &mut text, &mut file,
    );
    hand_over(rt, &text, &file, reply, words.keep)
}

// What is said of an audit that was stopped.
fn line(stopped: Stopped) -> &'static str {
    match stopped {
        Stopped::NoOutput => NO_OUTPUT,
        Stopped::NoNames => "mustorgyel: the names could not be read to their end",
        Stopped::LongName => {
            "mustorgyel: a name has more than 4,095 bytes; is there a 0 byte after each?"
        }
        Stopped::TooMany => "mustorgyel: more records than can be counted",
    }
}

#[inline(never)]
fn audit(rt: &HostRuntime, total: &[u8]) -> Result<(), &'static str> {
    let status = shelf::audit(
        rt,
        &mut rt.stdin(),
        &mut rt.stdout(),
        &mut rt.stderr(),
        total,
    )
    .map_err(line)?;
    end(rt, status);
    Ok(())
}

fn run(rt: &HostRuntime, verb: &[u8], more: &[u8], last: &[u8]) -> Result<(), &'static str> {
    let words = Words::new(more, last);
    let unkept = Words {
        keep: false,
        ..words
    };
    match verb {
        b"solve" => solve(rt, words),
        b"check" => on_two(rt, Verb::Check, unkept),
        b"loads" => on_two(rt, Verb::Loads, unkept),
        b"finish" => on_two(rt, Verb::Finish, words),
        b"carry" => carry(rt, words),
        b"audit" => audit(rt, more),
        _ => Err("mustorgyel: no such verb"),
    }
}

// A word that is missing, or longer than any that the launcher gives, is none.
fn main(rt: HostRuntime) {
    let mut verb = [0u8; 8];
    let letters = rt.arg(1, &mut verb).unwrap_or(0);
    let mut more = [0u8; 16];
    let letters2 = rt.arg(2, &mut more).unwrap_or(0);
    let mut last = [0u8; 16];
    let letters3 = rt.arg(3, &mut last).unwrap_or(0);
    let run = run(&rt, &verb[..letters], &more[..letters2], &last[..letters3]);
    if let Err(line) = run {
        // What cannot be said on standard error can be said nowhere.
        let _ = rt.eprintln(line);
    }
}
