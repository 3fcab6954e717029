// The names of a shelf's net files: as they come in, a 0 byte after each; as they are printed; and the files that they name.
#![tactic(auto)]

ghost use Rattle.std.specs.Prelude.{Ok, ◌+◌, ◌*◌, ◌≤◌, length, ◌≡◌};
ghost use Rattle.names.specs.Names.{size_of, bytes_of};

use std::fs::OpenOptions;
use std::io::{Error, ErrorKind, Read, Write};
use std::rt::Files;
use std::{fs, io, str};

// The most bytes that a path may have.
pub const MOST_NAME: usize = 4095;

// Bytes that are read at a time.
const CHUNK: usize = 65536;

// Who stands in for the library, by the names that the system gives to descriptors: where a path is written to, where the answer comes
// from, and the link, in the folder that is open there.
const ASKED: &str = "/dev/fd/8";

const ANSWERED: &str = "/dev/fd/9";

const LINK: &str = "/dev/fd/10/link";

// Why there is no next name.
#[derive(Clone, Copy)]
pub enum NoName {
    Failed,
    TooLong,
}

impl From<Error> for NoName {
    fn from(_error: Error) -> NoName {
        NoName::Failed
    }
}

// The names of a reader. What was read and is not taken yet stands in the chunk, from `start` up to `end`.
#[derive(Drop)]
pub struct NameReader {
    chunk: [u8; CHUNK],
    start: usize,
    end: usize,
    ghost within: { end ≤ 65536 },
}

impl NameReader {
    pub fn new() -> NameReader {
        NameReader {
            chunk: [0; CHUNK],
            start: 0,
            end: 0,
        }
    }

    // The next name of a reader into the first places of a buffer, with its size; none after the last.
    pub fn next<R: Read>(
        &mut self,
        reader: &mut R,
        name: &mut [u8],
    ) -> Result<Option<usize>, NoName>
        ensures { size_of result ≤ length name.new }
    {
        for n in 0..name.len() {
            match self.next_byte(reader)? {
                Some(0) => return Ok(Some(n)),
                Some(byte) => name[n] = byte,
                None => return Ok(ended(n)),
            }
        }
        Err(NoName::TooLong)
    }

    fn next_byte<R: Read>(&mut self, reader: &mut R) -> io::Result<Option<u8>> {
        if self.start >= self.end {
            self.end = reader.read(&mut self.chunk)?;
            self.start = 0;
            if self.end == 0 {
                return Ok(None);
            }
        }
        let byte = self.chunk[self.start];
        self.start += 1;
        Ok(Some(byte))
    }
}

// After the last 0 there is nothing, or a name that lacks its own.
fn ended(n: usize) -> Option<usize>
    ensures { size_of (Ok result) ≤ n }
{
    if n == 0 { None } else { Some(n) }
}

// A plain byte stands for itself. Of all others, and of the backslash, the number is written in three octal digits, so that a line is a line.
fn put_byte(out: &mut [u8], at: usize, b: u8) -> usize
    requires { at + 4 ≤ length out.old }
    ensures { result ≤ at + 4 }
{
    if b.is_ascii_control() || b == b'\\' {
        let octal = [b'\\', b'0' + b / 64, b'0' + b / 8 % 8, b'0' + b % 8];
        return answer::put(out, at, &octal);
    }
    answer::put(out, at, &[b])
}

pub fn put_name(out: &mut [u8], name: &[u8]) -> usize
    requires { 4 * length name.now ≤ length out.old }
    ensures { result ≤ 4 * length name.now }
{
    let mut at = 0;
    for b in name {
        at = put_byte(out, at, *b);
    }
    at
}

// Why the bytes of a name's file are not there.
#[derive(Clone, Copy)]
pub enum NoFile {
    Missing,
    Unreadable,
}

// The first bytes of the file of a name. The library opens only what is text: for other names somebody stands in, where there is anybody.
pub fn read_file<F: Files>(files: &F, path: &[u8], buffer: &mut [u8]) -> Result<usize, NoFile>
    ensures { bytes_of result ≤ length buffer.new }
{
    match str::from_utf8(path) {
        Ok(path) => read_named(files, path, buffer),
        Err(_) => read_linked(files, path, buffer),
    }
}

fn read_named<F: Files>(files: &F, path: &str, buffer: &mut [u8]) -> Result<usize, NoFile>
    ensures { bytes_of result ≤ length buffer.new }
{
    let mut file = fs::open(files, path).map_err(not_opened)?;
    input::read(&mut file, buffer).map_err(|_| NoFile::Unreadable)
}

// A file by the link that was laid to it. A link to nothing is a file that is missing.
fn read_linked<F: Files>(files: &F, path: &[u8], buffer: &mut [u8]) -> Result<usize, NoFile>
    ensures { bytes_of result ≤ length buffer.new }
{
    match lay_link(files, path) {
        Ok(true) => read_named(files, LINK, buffer),
        Ok(false) | Err(_) => Err(NoFile::Unreadable),
    }
}

fn lay_link<F: Files>(files: &F, path: &[u8]) -> io::Result<bool> {
    ask(files, path)?;
    is_laid(files)
}

// A path and a 0 byte ask for a link to it.
fn ask<F: Files>(files: &F, path: &[u8]) -> io::Result<()> {
    let mut asked = OpenOptions::new().append(true).open(files, ASKED)?;
    asked.write_all(path)?;
    asked.write_all(&[0])
}

// The answer is one byte. No more is read: each answer belongs to one question.
fn is_laid<F: Files>(files: &F) -> io::Result<bool> {
    let mut answered = fs::open(files, ANSWERED)?;
    let mut answer = [0u8; 1];
    let count = answered.read(&mut answer)?;
    Ok(count == 1 && answer[0] == b'1')
}

fn not_opened(error: Error) -> NoFile {
    if error.kind() == ErrorKind::NotFound {
        return NoFile::Missing;
    }
    NoFile::Unreadable
}

// The name of the placement file beside a net file: `.place` in the place of `.net`, or behind a name that ends otherwise.
pub fn beside(name: &[u8], path: &mut [u8]) -> usize
    requires { length name.now + 6 ≤ length path.old }
    ensures { result ≤ length name.now + 6 }
{
    let stem = name.strip_suffix(b".net").unwrap_or(name);
    let after = answer::put(path, 0, stem);
    answer::put(path, after, b".place")
}
