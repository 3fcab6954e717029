// A field of a file, written: RULES 6.23.
#![tactic(auto)]

ghost use Rattle.std.specs.Prelude.{◌≡◌, [], ◌∷◌, ◌++◌, ◌+◌, ◌-◌, ◌<◌, ◌≤◌, length};
ghost use Rattle.std.proofs.lemmas.List.Edits.{sets};
ghost use Rattle.field.specs.Format.{bytes_in, bytes_of, wrote, laid};

use field::{
    BRANCH_SIZE, BRANCH_TAG, COUNT_SIZE, COUNT_TAG, END_SIZE, END_TAG, ENTRY_SIZE, ENTRY_TAG,
    HEADER, LIMITS_SIZE, LIMITS_TAG, SINK_SIZE, SINK_TAG, Value,
};
use rules::{Limits, Refusal};

// The header of a field that takes so many bytes.
fn put_head(out: &mut [u8], tag: u8, size: usize)
    requires { (3 ≤ length out.old) × (3 ≤ size) × (size < 256) }
    ensures { out.new ≡ sets out.old 0 (tag ∷ 0 ∷ (size - 3) ∷ []) }
{
    out[..HEADER].copy_from_slice(&[tag, 0, (size - HEADER) as u8]);
}

// A number in two bytes, and in four, high byte first: RULES 3.3.
fn put2(out: &mut [u8], k: usize, x: u16)
    requires { k + 2 ≤ length out.old }
    ensures { out.new ≡ sets out.old k (bytes_in 2 x) }
{
    out[k..k + 2].copy_from_slice(&x.to_be_bytes());
}

fn put4(out: &mut [u8], k: usize, x: u32)
    requires { k + 4 ≤ length out.old }
    ensures { out.new ≡ sets out.old k (bytes_in 4 x) }
{
    out[k..k + 4].copy_from_slice(&x.to_be_bytes());
}

// A header, and the two numbers that branches, sinks and entries begin with.
fn put_pair(out: &mut [u8], tag: u8, size: usize, x: u16, y: u32)
    requires { (9 ≤ length out.old) × (3 ≤ size) × (size < 256) }
    ensures { out.new ≡ sets out.old 0 (tag ∷ 0 ∷ (size - 3) ∷ bytes_in 2 x ++ bytes_in 4 y) }
{
    put_head(out, tag, size);
    put2(out, 3, x);
    put4(out, 5, y);
}

fn put_limits(out: &mut [u8], l: Limits)
    requires { 12 ≤ length out.old }
    ensures { out.new ≡ sets out.old 0 (bytes_of (Value.Limits l)) }
{
    put_head(out, LIMITS_TAG, LIMITS_SIZE);
    put4(out, 3, l.limit);
    put4(out, 7, l.pin);
    out[11] = l.repeater;
}

fn put_sink(out: &mut [u8], parent: u16, wire: u32, pin: u32, polarity: u8)
    requires { 14 ≤ length out.old }
    ensures { out.new ≡ sets out.old 0 (bytes_of (Value.Sink parent wire pin polarity)) }
{
    put_pair(out, SINK_TAG, SINK_SIZE, parent, wire);
    put4(out, 9, pin);
    out[13] = polarity;
}

fn put_count(out: &mut [u8], n: u16)
    requires { 5 ≤ length out.old }
    ensures { out.new ≡ sets out.old 0 (bytes_of (Value.Count n)) }
{
    put_head(out, COUNT_TAG, COUNT_SIZE);
    put2(out, 3, n);
}

fn put(out: &mut [u8], v: Value)
    requires { length (bytes_of v) ≤ length out.old }
    ensures { out.new ≡ sets out.old 0 (bytes_of v) }
{
    match v {
        Value::Limits(l) => put_limits(out, l),
        Value::Branch { parent, wire } => put_pair(out, BRANCH_TAG, BRANCH_SIZE, parent, wire),
        Value::Sink {
            parent,
            wire,
            pin,
            polarity,
        } => put_sink(out, parent, wire, pin, polarity),
        Value::Count(n) => put_count(out, n),
        Value::Entry(e) => put_pair(out, ENTRY_TAG, ENTRY_SIZE, e.wire, e.offset),
        Value::End => put_head(out, END_TAG, END_SIZE),
    }
}

// The bytes that a field takes in a file.
pub fn size(v: Value) -> usize
    ensures { result ≡ length (bytes_of v) }
{
    match v {
        Value::Limits(_) => LIMITS_SIZE,
        Value::Branch { .. } => BRANCH_SIZE,
        Value::Sink { .. } => SINK_SIZE,
        Value::Count(_) => COUNT_SIZE,
        Value::Entry(_) => ENTRY_SIZE,
        Value::End => END_SIZE,
    }
}

// Writes a field at the front of what is lent, or nothing where it does not fit.
pub fn write_field(out: &mut [u8], v: Value) -> Result<usize, Refusal>
    ensures { (result ≡ wrote (bytes_of v) out.old) × (out.new ≡ laid (bytes_of v) out.old) }
{
    let n = size(v);
    if out.len() < n {
        return Err(Refusal::NoRoom(n as u64));
    }
    put(out, v);
    Ok(n)
}
