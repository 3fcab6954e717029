// The lines that are printed (RULES 7 and 11).
#![tactic(auto)]

ghost use Rattle.std.specs.Prelude.{◌≡◌, ◌+◌, ◌*◌, ◌≤◌, ◌<◌, [], length, take};
ghost use Rattle.answer.specs.Text.{Laid, end, digits, said, count_line, pair_line, entry_line, refused_line, refused_by, IsLine, Continues, entry_lines, place_line, place_lines, loads_text, answer_text, counted_text};

use rules::{Entry, LentPlacement, Refusal};

// A line of text: the first `bytes` places of `text`, the last of them the line's end. The other places hold 0.
#[derive(Drop)]
pub struct Line {
    pub text: [u8; 64],
    pub bytes: usize,
}

impl Line {
    fn empty() -> Line
        ensures { IsLine [] result }
    {
        Line {
            text: [0; 64],
            bytes: 0,
        }
    }

    // A word and its number, behind what stands there.
    fn say(&mut self, word: &[u8], n: u64)
        requires { self.old.bytes + length (said word.now n) ≤ 64 }
        ensures bytes { self.new.bytes ≡ self.old.bytes + length (said word.now n) }
        ensures text { Continues self.old (said word.now n) self.new }
    {
        self.bytes = say(&mut self.text, self.bytes, word, n);
    }

    // The line's end.
    fn end(&mut self)
        requires { self.old.bytes < 64 }
        ensures { Continues self.old end self.new }
    {
        self.bytes = put(&mut self.text, self.bytes, b"\n");
    }

    pub fn as_bytes(&self) -> &[u8]
        requires { self.now.bytes ≤ length self.now.text }
        ensures { result.now ≡ take self.now.bytes self.now.text }
    {
        &self.text[..self.bytes]
    }
}

// Lays some bytes from the place at on, and answers the place after them.
#[tactic(auto, using(crate::proofs::Laying::copied))]
pub fn put(out: &mut [u8], at: usize, bytes: &[u8]) -> usize
    requires { at + length bytes.now ≤ length out.old }
    ensures { Laid out.old at bytes.now out.new result }
{
    let after = at + bytes.len();
    out[at..after].copy_from_slice(bytes);
    after
}

#[tactic(auto, using(crate::proofs::Digits::as_digits))]
fn put_number(out: &mut [u8], at: usize, n: u64) -> usize
    requires { at + length (digits n) ≤ length out.old }
    ensures { Laid out.old at (digits n) out.new result }
{
    let mut text = [0u8; 20];
    let count = io::decimal(n, &mut text);
    put(out, at, &text[..count])
}

// A word and its number.
#[tactic(auto, unfolding(crate::specs::Text::said))]
pub fn say(out: &mut [u8], at: usize, word: &[u8], n: u64) -> usize
    requires { at + length (said word.now n) ≤ length out.old }
    ensures { Laid out.old at (said word.now n) out.new result }
{
    let after = put(out, at, word);
    put_number(out, after, n)
}

// A word and its number: `least N`, `legal N`, `source drives L`.
#[tactic(auto, unfolding(crate::specs::Text::count_line), using(crate::proofs::Digits::said_in_64))]
pub fn count_line(word: &[u8], n: u64) -> Line
    requires { length word.now ≤ 43 }
    ensures { IsLine (count_line word.now n) result }
{
    let mut line = Line::empty();
    line.say(word, n);
    line.end();
    line
}

// Two words, each with its number: `wire W offset O`, `refused N place P`, `legal N least M`.
#[tactic(auto, unfolding(crate::specs::Text::pair_line), using(crate::proofs::Digits::said_in_64))]
pub fn pair_line(first: &[u8], n: u64, second: &[u8], m: u64) -> Line
    requires { length first.now + length second.now ≤ 23 }
    ensures { IsLine (pair_line first.now n second.now m) result }
{
    let mut line = Line::empty();
    line.say(first, n);
    line.say(second, m);
    line.end();
    line
}

// `wire W offset O drives L`: an entry and its load.
#[tactic(auto, unfolding(crate::specs::Text::entry_line), using(crate::proofs::Digits::said_in_16, crate::proofs::Digits::said_in_32, crate::proofs::Digits::said_in_64))]
pub fn entry_line(entry: Entry, load: u64) -> Line
    ensures { IsLine (entry_line entry.wire entry.offset load) result }
{
    let mut line = Line::empty();
    line.say(b"wire ", u64::from(entry.wire));
    line.say(b" offset ", u64::from(entry.offset));
    line.say(b" drives ", load);
    line.end();
    line
}

// `wire W offset O`: an entry alone.
fn place_line(entry: Entry) -> Line
    ensures { IsLine (place_line entry.wire entry.offset) result }
{
    pair_line(
        b"wire ",
        u64::from(entry.wire),
        b" offset ",
        u64::from(entry.offset),
    )
}

// `refused N place P`.
#[tactic(auto, unfolding(crate::specs::Text::refused_line))]
pub fn refused_line(why: Refusal) -> Line
    ensures { IsLine (refused_line why) result }
{
    pair_line(
        b"refused ",
        u64::from(why.number()),
        b" place ",
        why.place(),
    )
}

// Lays a line from the place at on, and answers the place after it.
pub fn put_line(out: &mut [u8], at: usize, line: Line) -> usize
    requires { (line.bytes ≤ length line.text) × (at + line.bytes ≤ length out.old) }
    ensures { Laid out.old at (take line.bytes line.text) out.new result }
{
    put(out, at, line.as_bytes())
}

// Lays one line an entry.
#[tactic(auto, unfolding(crate::specs::Text::entry_lines))]
fn put_entries(out: &mut [u8], at: usize, placement: &LentPlacement, loads: &[u64]) -> usize
    requires offsets_len { (length placement.now.offsets.now ≡ length placement.now.wires.now) × (length loads.now ≡ length placement.now.wires.now) }
    requires wires_in_bounds { at + 64 * length placement.now.wires.now ≤ length out.old }
    ensures laid { Laid out.old at (entry_lines placement.now.wires.now placement.now.offsets.now loads.now) out.new result }
    ensures upper_bound { result ≤ at + 64 * length placement.now.wires.now }
{
    let mut next = at;
    for k in 0..placement.wires.len() {
        next = put_line(out, next, entry_line(placement.entry(k), loads[k]));
    }
    next
}

// Lays one line an entry, without its load.
#[tactic(auto, unfolding(crate::specs::Text::place_lines))]
fn put_places(out: &mut [u8], at: usize, placement: &LentPlacement) -> usize
    requires offsets_len { length placement.now.offsets.now ≡ length placement.now.wires.now }
    requires wires_in_bounds { at + 64 * length placement.now.wires.now ≤ length out.old }
    ensures laid { Laid out.old at (place_lines placement.now.wires.now placement.now.offsets.now) out.new result }
    ensures upper_bound { result ≤ at + 64 * length placement.now.wires.now }
{
    let mut next = at;
    for k in 0..placement.wires.len() {
        next = put_line(out, next, place_line(placement.entry(k)));
    }
    next
}

// Lays the loads: one line an entry, and the source's.
pub fn put_loads(
    out: &mut [u8],
    at: usize,
    placement: &LentPlacement,
    loads: &[u64],
    source: u64,
) -> usize
    requires offsets_len { (length placement.now.offsets.now ≡ length placement.now.wires.now) × (length loads.now ≡ length placement.now.wires.now) }
    requires wires_in_bounds { at + 64 * (length placement.now.wires.now + 1) ≤ length out.old }
    ensures laid { Laid out.old at (loads_text placement.now.wires.now placement.now.offsets.now loads.now source) out.new result }
    ensures upper_bound { result ≤ at + 64 * (length placement.now.wires.now + 1) }
{
    let after = put_entries(out, at, placement, loads);
    put_line(out, after, count_line(b"source drives ", source))
}

// Lays the whole answer of a net: the count, and the loads.
pub fn put_answer(out: &mut [u8], placement: &LentPlacement, loads: &[u64], source: u64) -> usize
    requires offsets_len { (length placement.now.offsets.now ≡ length placement.now.wires.now) × (length loads.now ≡ length placement.now.wires.now) }
    requires wires_in_bounds { 64 * (length placement.now.wires.now + 2) ≤ length out.old }
    ensures laid { Laid out.old 0 (answer_text placement.now.wires.now placement.now.offsets.now loads.now source) out.new result }
    ensures upper_bound { result ≤ 64 * (length placement.now.wires.now + 2) }
{
    let after = put_line(out, 0, count_line(b"least ", placement.wires.len() as u64));
    put_loads(out, after, placement, loads, source)
}

// Lays a word with the number of some entries, and the entries: `carried N`, `added N`.
pub fn put_counted(out: &mut [u8], word: &[u8], placement: &LentPlacement) -> usize
    requires word_len_bound { (length word.now ≤ 43) × (length placement.now.offsets.now ≡ length placement.now.wires.now) }
    requires wires_in_bounds { 64 * (length placement.now.wires.now + 1) ≤ length out.old }
    ensures laid { Laid out.old 0 (counted_text word.now placement.now.wires.now placement.now.offsets.now) out.new result }
    ensures upper_bound { result ≤ 64 * (length placement.now.wires.now + 1) }
{
    let after = put_line(out, 0, count_line(word, placement.wires.len() as u64));
    put_places(out, after, placement)
}

// Lays a refusal, with a word before it that says which file is at fault.
pub fn put_refusal(out: &mut [u8], word: &[u8], why: Refusal) -> usize
    requires { length word.now + 64 ≤ length out.old }
    ensures laid { Laid out.old 0 (refused_by word.now why) out.new result }
    ensures upper_bound { result ≤ length word.now + 64 }
{
    let after = put(out, 0, word);
    put_line(out, after, refused_line(why))
}
