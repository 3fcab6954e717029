// A field of a file, read: RULES 6.22.
#![tactic(auto)]

ghost use Rattle.std.specs.Prelude.{◌≡◌, ◌+◌, ◌<◌, ◌≤◌, length, get_or, drop};
ghost use Rattle.field.specs.Format.{number_at, length_of, value_in, field_in, field_at, due_in, due_at};

use field::{
    BRANCH_SIZE, BRANCH_TAG, COUNT_SIZE, COUNT_TAG, END_SIZE, END_TAG, ENTRY_SIZE, ENTRY_TAG,
    Field, HEADER, LIMITS_SIZE, LIMITS_TAG, NoField, SINK_SIZE, SINK_TAG, Value,
};
use rules::{Entry, Limits, Refusal};

// The number in two bytes, and in four, high byte first: RULES 3.3.
fn read2(s: &[u8], k: usize) -> u16
    requires { k + 2 ≤ length s.now }
    ensures { result ≡ number_at 2 s.now k }
{
    u16::from_be_bytes([s[k], s[k + 1]])
}

fn read4(s: &[u8], k: usize) -> u32
    requires { k + 4 ≤ length s.now }
    ensures { result ≡ number_at 4 s.now k }
{
    u32::from_be_bytes([s[k], s[k + 1], s[k + 2], s[k + 3]])
}

// The length that goes with a tag; 65,536, which no two bytes hold, with any other.
fn length_of(tag: u8) -> usize
    ensures { result ≡ length_of tag }
{
    match tag {
        LIMITS_TAG => LIMITS_SIZE - HEADER,
        BRANCH_TAG => BRANCH_SIZE - HEADER,
        SINK_TAG => SINK_SIZE - HEADER,
        COUNT_TAG => COUNT_SIZE - HEADER,
        ENTRY_TAG => ENTRY_SIZE - HEADER,
        END_TAG => END_SIZE - HEADER,
        _ => 65536,
    }
}

// The values in a whole field.
fn value_in(f: &[u8], tag: u8) -> Value
    requires { 3 + length_of tag ≤ length f.now }
    ensures { result ≡ value_in tag f.now }
{
    match tag {
        LIMITS_TAG => Value::Limits(Limits {
            limit: read4(f, 3),
            pin: read4(f, 7),
            repeater: f[11],
        }),
        BRANCH_TAG => Value::Branch {
            parent: read2(f, 3),
            wire: read4(f, 5),
        },
        SINK_TAG => Value::Sink {
            parent: read2(f, 3),
            wire: read4(f, 5),
            pin: read4(f, 9),
            polarity: f[13],
        },
        COUNT_TAG => Value::Count(read2(f, 3)),
        ENTRY_TAG => Value::Entry(Entry {
            wire: read2(f, 3),
            offset: read4(f, 5),
        }),
        _ => Value::End,
    }
}

// The field of this tag at the front of the bytes from the place at on. Callers name the tag as a constant, so the compiler leaves one arm of each table.
#[tactic(auto, using(field::proofs::Reading::not_due, field::proofs::Reading::cut, field::proofs::Reading::got))]
fn field_of(f: &[u8], at: usize, tag: u8) -> Result<Field, NoField>
    requires { (3 ≤ length f.now) × (get_or f.now 0 0 ≡ tag) }
    ensures { result ≡ field_in at f.now }
{
    let body = length_of(tag);
    if usize::from(read2(f, 1)) != body {
        return Err(NoField::Refused(Refusal::NotDue(at)));
    }
    if f.len() < HEADER + body {
        return Err(NoField::Cut { tag, place: at });
    }
    Ok(Field {
        at,
        value: value_in(f, tag),
    })
}

// The field at the front of the bytes from the place at on.
#[tactic(auto, using(field::proofs::Reading::short))]
fn field_in(f: &[u8], at: usize) -> Result<Field, NoField>
    ensures { result ≡ field_in at f.now }
{
    if f.len() < HEADER {
        return Err(NoField::Refused(Refusal::FileEnds(at)));
    }
    match f[0] {
        LIMITS_TAG => field_of(f, at, LIMITS_TAG),
        BRANCH_TAG => field_of(f, at, BRANCH_TAG),
        SINK_TAG => field_of(f, at, SINK_TAG),
        COUNT_TAG => field_of(f, at, COUNT_TAG),
        ENTRY_TAG => field_of(f, at, ENTRY_TAG),
        END_TAG => field_of(f, at, END_TAG),
        _ => Err(NoField::Refused(Refusal::NotDue(at))),
    }
}

// The bytes from a place on: none where the file ends before it.
fn rest(s: &[u8], at: usize) -> &[u8]
    ensures { result.now ≡ drop at s.now }
{
    &s[at.min(s.len())..]
}

// The field at a place of a file, or why there is none, in the order of RULES 5.1.
pub fn read_field(s: &[u8], at: usize) -> Result<Field, NoField>
    ensures { result ≡ field_at s.now at }
{
    field_in(rest(s, at), at)
}

// The field of this tag at the front of the bytes from the place at on, where no other is due.
#[tactic(auto, using(field::proofs::Due::this_due, field::proofs::Due::other_due, field::proofs::Reading::short))]
fn due_in(f: &[u8], at: usize, tag: u8) -> Result<Field, Refusal>
    ensures { result ≡ due_in tag (field_in at f.now) }
{
    if f.len() < HEADER {
        return Err(Refusal::FileEnds(at));
    }
    if f[0] != tag {
        return Err(Refusal::NotDue(at));
    }
    field_of(f, at, tag).map_err(NoField::when_due)
}

// The field at a place of a file where this tag is due, or the refusal: 2 comes before a cut body's 1.
pub fn read_due(s: &[u8], at: usize, tag: u8) -> Result<Field, Refusal>
    ensures { result ≡ due_at tag s.now at }
{
    due_in(rest(s, at), at, tag)
}
