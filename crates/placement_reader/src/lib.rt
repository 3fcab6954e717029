// A placement file, read into two lent columns: RULES 6.8.
#![tactic(auto)]

ghost use Rattle.std.specs.Prelude.{◌≡◌, map, ◌<◌, ◌≤◌, length};
ghost use Rattle.std.proofs.lemmas.List.Edits.{sets};
ghost use Rattle.field.specs.Listed.{listed};
ghost use Rattle.placement_file.specs.File.{allowed, count_in, entry_in, owed, count_judged, start_of, entry_at, entry_judged, end_judged, body_judged, file_judged, wire, offset, placement_of, ReadAs};

use field::{COUNT_TAG, END_TAG, ENTRY_TAG, Field, Value};
use placement_file::{ENTRIES, Entries};
use rules::{Entry, Refusal};

// The number in a count's field; 0 in another.
fn count_in(f: Field) -> u16
    ensures { result ≡ count_in (Ok f) }
{
    match f.value {
        Value::Count(n) => n,
        _ => 0,
    }
}

// The entry in an entry's field; one of zeros in another.
fn entry_in(f: Field) -> Entry
    ensures { result ≡ entry_in (Ok f) }
{
    match f.value {
        Value::Entry(e) => e,
        _ => Entry { wire: 0, offset: 0 },
    }
}

// The number of entries that the front of a file says.
#[tactic(auto, unfolding(placement_file::specs::File::count_judged, placement_file::specs::File::owed))]
fn read_count(s: &[u8]) -> Result<usize, Refusal>
    ensures { result ≡ allowed (count_judged s.now) (owed s.now) }
{
    let n = count_in(field_reader::read_due(s, 0, COUNT_TAG)?) as usize;
    if ENTRIES < n {
        return Err(Refusal::OutOfRange(0));
    }
    Ok(n)
}

// The byte where entry i begins, and where the end does after i entries.
fn start_of(i: usize) -> usize
    requires { i ≤ ENTRIES }
    ensures { result ≡ start_of i }
{
    5 + 9 * i
}

// Entry i of a file.
#[tactic(auto, unfolding(placement_file::specs::File::entry_judged, placement_file::specs::File::entry_at))]
fn read_entry(s: &[u8], i: usize) -> Result<Entry, Refusal>
    requires { i < ENTRIES }
    ensures { result ≡ allowed (entry_judged s.now i) (entry_at s.now i) }
{
    let at = start_of(i);
    let e = entry_in(field_reader::read_due(s, at, ENTRY_TAG)?);
    if !placement::entry_in_range(e) {
        return Err(Refusal::OutOfRange(at));
    }
    Ok(e)
}

// The end, and no byte after it.
#[tactic(auto, unfolding(placement_file::specs::File::end_judged))]
fn judge_end(s: &[u8], at: usize) -> Result<(), Refusal>
    requires { at ≤ 36869 }
    ensures { result ≡ end_judged s.now at }
{
    field_reader::read_due(s, at, END_TAG)?;
    let next = at + 3;
    if next < s.len() {
        return Err(Refusal::BytesAfterEnd(next));
    }
    Ok(())
}

// The n entries and the end.
#[tactic(auto, unfolding(placement_file::specs::File::body_judged), using(placement_file::proofs::Judging::in_turn))]
fn judge_body(s: &[u8], n: usize) -> Result<(), Refusal>
    requires { n ≤ ENTRIES }
    ensures { result ≡ body_judged s.now n }
{
    for i in 0..n {
        read_entry(s, i)?;
    }
    judge_end(s, start_of(n))
}

// The whole file; where it is sound, the number of its entries.
#[tactic(auto, unfolding(placement_file::specs::File::file_judged), using(placement_file::proofs::Judging::few))]
fn judge_file(s: &[u8]) -> Result<usize, Refusal>
    ensures { result ≡ allowed (file_judged s.now) (owed s.now) }
{
    let n = read_count(s)?;
    judge_body(s, n)?;
    Ok(n)
}

// Fills the columns with the first count entries of a file, which have been judged: each is there.
#[tactic(auto, using(crate::proofs::Filling::filling))]
fn fill(s: &[u8], count: usize, wires: &mut [u16], offsets: &mut [u32])
    requires in_bounds { (count ≤ ENTRIES) × (count ≤ length wires.old) × (count ≤ length offsets.old) }
    requires sound { body_judged s.now count ≡ Ok tt }
    ensures { (wires.new ≡ sets wires.old 0 (map wire (listed (entry_at s.now) count 0))) × (offsets.new ≡ sets offsets.old 0 (map offset (listed (entry_at s.now) count 0))) }
{
    for i in 0..count {
        let e = read_entry(s, i).unwrap();
        wires[i] = e.wire;
        offsets[i] = e.offset;
    }
}

// Reads a placement file into the columns. The whole file is judged, in the order of RULES 5.1 and 5.3, before anything is written.
#[tactic(auto, unfolding(placement_file::specs::File::placement_of), using(crate::proofs::Judging::reading))]
pub fn read_placement(s: &[u8], wires: &mut [u16], offsets: &mut [u32]) -> Result<usize, Refusal>
    ensures { ReadAs (placement_of s.now) wires.old offsets.old wires.new offsets.new result }
{
    let n = judge_file(s)?;
    if wires.len().min(offsets.len()) < n {
        return Err(Refusal::NoRoom(n as u64));
    }
    fill(s, n, wires, offsets);
    Ok(n)
}

// Reads a placement file into columns that have room for any.
pub fn read(s: &[u8], entries: &mut Entries) -> Result<usize, Refusal>
    ensures { ReadAs (placement_of s.now) entries.old.wires entries.old.offsets entries.new.wires entries.new.offsets result }
{
    read_placement(s, &mut entries.wires, &mut entries.offsets)
}
