// The audit of a shelf: names of net files come in, a line goes out for each, and at the end the tally (RULES 11.10 to 11.13).
// No record stops the rest. Nothing is kept of a record but its count.
#![tactic(auto)]

ghost use Rattle.std.specs.Prelude.{◌≤◌, length};
ghost use Rattle.audit_line.specs.Lines.{most_line};
ghost use Rattle.whole.specs.Whole.{NetHeld};

use audit_line::{Audited, Missing};
use names::{NameReader, NoFile, NoName};
use reply::Status;
use std::io::{Read, Write};
use std::rt::Files;
use tally::{Found, Tally};

// A proved loop has to end. No shelf has so many records.
const MOST_RECORDS: u64 = 4294967296;

// A name, and room for one byte that is too many.
const NAME: usize = names::MOST_NAME + 1;

// A name in its longest form, four characters a byte, and what is said of it.
const LINE: usize = 4 * NAME + 128;

// The name of a placement file.
const PATH: usize = NAME + 8;

// The bytes of a file that are taken in: they decide, whatever comes after them (RULES 11.3).
const NET: usize = 16384;

const PLACEMENT: usize = 65536;

// Why an audit ends without a tally.
#[derive(Clone, Copy)]
pub enum Stopped {
    NoOutput,
    NoNames,
    LongName,
    TooMany,
}

impl From<NoName> for Stopped {
    fn from(why: NoName) -> Stopped {
        match why {
            NoName::Failed => Stopped::NoNames,
            NoName::TooLong => Stopped::LongName,
        }
    }
}

// A line for a file that is not there or cannot be read.
fn missing(which: Missing, out: &mut [u8]) -> Audited
    requires { most_line ≤ length out.old }
    ensures { result.bytes ≤ length out.new }
{
    Audited {
        bytes: audit_line::missing_line(which, out),
        found: Found::Unread,
    }
}

// A net file that was read, and the placement file beside it.
fn look_beside<F: Files>(
    files: &F,
    name: &[u8],
    net: &[u8],
    count: usize,
    out: &mut [u8],
) -> Audited
    requires { (length name.now ≤ 4096) × NetHeld net.now count × (most_line ≤ length out.old) }
    ensures { result.bytes ≤ length out.new }
{
    let mut path = [0u8; PATH];
    let size = names::beside(name, &mut path);
    let mut placement = [0u8; PLACEMENT];
    match names::read_file(files, &path[..size], &mut placement) {
        Ok(count2) => whole::audit(net, count, &placement, count2, out),
        Err(NoFile::Missing) => missing(Missing::NoPlacement, out),
        Err(NoFile::Unreadable) => missing(Missing::PlacementUnreadable, out),
    }
}

// What is said of a record.
fn look<F: Files>(files: &F, name: &[u8], out: &mut [u8]) -> Audited
    requires { (length name.now ≤ 4096) × (most_line ≤ length out.old) }
    ensures { result.bytes ≤ length out.new }
{
    let mut net = [0u8; NET];
    match names::read_file(files, name, &mut net) {
        Ok(count) => look_beside(files, name, &net, count, out),
        Err(NoFile::Missing) => missing(Missing::NoNet, out),
        Err(NoFile::Unreadable) => missing(Missing::NetUnreadable, out),
    }
}

// A record's line, written as soon as it is known: an output that takes no more ends the audit there.
fn record<F: Files, O: Write>(files: &F, output: &mut O, name: &[u8]) -> Result<Found, Stopped>
    requires { length name.now ≤ 4096 }
{
    let mut line = [0u8; LINE];
    let at = names::put_name(&mut line, name);
    let audited = look(files, name, &mut line[at..]);
    write(output, &line[..at + audited.bytes])?;
    Ok(audited.found)
}

fn write<O: Write>(output: &mut O, line: &[u8]) -> Result<(), Stopped> {
    output.write_all(line).map_err(|_| Stopped::NoOutput)
}

// What was found of the next record, or none after the last.
fn next<F: Files, N: Read, O: Write>(
    files: &F,
    listed: &mut N,
    output: &mut O,
    names: &mut NameReader,
) -> Result<Option<Found>, Stopped> {
    let mut name = [0u8; NAME];
    let Some(size) = names.next(listed, &mut name)? else {
        return Ok(None);
    };
    record(files, output, &name[..size]).map(Some)
}

// The line of a terminal is written over, now and then. What cannot be shown there is not shown.
fn show_progress<P: Write>(progress: &mut P, done: u64, total: &[u8]) {
    if total.is_empty() || done % 16 != 0 {
        return;
    }
    let _ = write!(progress, "\r{done} of ");
    let _ = progress.write_all(total);
    let _ = progress.write_all(b" records");
}

fn put_tally<O: Write>(output: &mut O, tally: Tally) -> Result<Status, Stopped> {
    let mut line = [0u8; 192];
    let size = tally.line(&mut line);
    write(output, &line[..size])?;
    Ok(tally.status())
}

// Every name that is listed, its files among the files, its line on the output. What total says goes into the progress that is shown;
// where it is empty none is.
pub fn audit<F: Files, N: Read, O: Write, P: Write>(
    files: &F,
    listed: &mut N,
    output: &mut O,
    progress: &mut P,
    total: &[u8],
) -> Result<Status, Stopped> {
    let mut names = NameReader::new();
    let mut tally = Tally::default();
    while tally.records < MOST_RECORDS {
        let Some(found) = next(files, listed, output, &mut names)? else {
            return put_tally(output, tally);
        };
        tally.count(found);
        show_progress(progress, tally.records, total);
    }
    Err(Stopped::TooMany)
}
