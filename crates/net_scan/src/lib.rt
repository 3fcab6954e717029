// Judges the bytes of a net file, field by field: RULES 5.1 to 5.3. The nodes go into columns of the reader's own, which no column is that a caller
// lends: so nothing lent changes before all is judged.
#![tactic(auto)]

ghost use Rattle.std.specs.Prelude.{◌≡◌, ◌+◌, ◌<◌, ◌^◌};
ghost use Rattle.field.specs.Format.{cut_at, due_at};
ghost use Rattle.net_file.specs.NetFile.{front_value, front_of, node_due, taken_value, taken_at, net_from, net_of, kept_in, blank};
ghost use Rattle.net_scan.specs.Kept.{JudgedFile};

use field::{
    BRANCH_SIZE, BRANCH_TAG, END_SIZE, END_TAG, Field, LIMITS_SIZE, LIMITS_TAG, NoField, SINK_SIZE,
    SINK_TAG, Value,
};
use net_file::{Columns, NetRead, Taken};
use rules::{Limits, Node, PLACES, Refusal};

// A body that is cut: 1 where the tag is due, else 2.
fn cut(due: bool, place: usize) -> Refusal
    ensures { result ≡ cut_at due place }
{
    if due {
        Refusal::FileEnds(place)
    } else {
        Refusal::NotDue(place)
    }
}

// The limits in their field: 2 for another, then 3.
fn front_of(f: Field) -> Result<Limits, Refusal>
    ensures { result ≡ front_value f.at f.value }
{
    let Value::Limits(limits) = f.value else {
        return Err(Refusal::NotDue(f.at));
    };
    if !net::limits_in_range(limits) {
        return Err(Refusal::OutOfRange(f.at));
    }
    Ok(limits)
}

// The limits at the front of a file.
fn read_front(s: &[u8]) -> Result<Limits, Refusal>
    ensures { result ≡ front_of (due_at 1 s.now 0) }
{
    front_of(field_reader::read_due(s, 0, LIMITS_TAG)?)
}

// At a later place a branch point, a sink or the end is due: RULES 5.2.
fn node_due(tag: u8) -> bool
    ensures { result ≡ node_due tag }
{
    matches!(tag, BRANCH_TAG | SINK_TAG | END_TAG)
}

// The node in its field, none in the end, and 2 for another.
fn taken_of(f: Field) -> Result<Option<Taken>, Refusal>
    requires { f.at + 14 < 2 ^ 64 }
    ensures { result ≡ taken_value f.at f.value }
{
    if let Value::Branch { parent, wire } = f.value {
        return Ok(Some(Taken {
            node: Node {
                parent,
                wire,
                kind: 0,
                pin: 0,
                polarity: 0,
            },
            next: f.at + BRANCH_SIZE,
        }));
    }
    if let Value::Sink {
        parent,
        wire,
        pin,
        polarity,
    } = f.value
    {
        return Ok(Some(Taken {
            node: Node {
                parent,
                wire,
                kind: 1,
                pin,
                polarity,
            },
            next: f.at + SINK_SIZE,
        }));
    }
    let Value::End = f.value else {
        return Err(Refusal::NotDue(f.at));
    };
    Ok(None)
}

// The node at a later place of a file, or none at the end.
fn take_node(s: &[u8], at: usize) -> Result<Option<Taken>, Refusal>
    ensures { result ≡ taken_at s.now at }
{
    match field_reader::read_field(s, at) {
        Ok(f) => taken_of(f),
        Err(NoField::Cut { tag, place }) => Err(cut(node_due(tag), place)),
        Err(NoField::Refused(r)) => Err(r),
    }
}

// The fields after the limits, judged one by one over the kinds of the nodes so far and the children that each has. Behind the end: 6, then 5.
fn judge_fields(s: &[u8], limits: Limits, columns: &mut Columns) -> Result<NetRead, Refusal>
    requires { kept_in columns.old ≡ blank }
    ensures { JudgedFile s.now (net_from s.now limits) (kept_in columns.new) result }
{
    let mut counts = [0; PLACES];
    let mut at = LIMITS_SIZE;
    let mut i: usize = 1;
    while let Some(taken) = take_node(s, at)? {
        net::admit(limits, taken.node, i, &columns.kind, &counts, at)?;
        net::tally(&mut counts, usize::from(taken.node.parent));
        columns.put(i, taken.node);
        i += 1;
        at = taken.next;
    }
    let next = at + END_SIZE;
    if next < s.len() {
        return Err(Refusal::BytesAfterEnd(next));
    }
    net::all_childed(&columns.kind, &counts, i)?;
    Ok(NetRead { limits, places: i })
}

// A whole file. Where it is a net, its nodes stand in the columns from place 1 on.
pub fn judge_file(s: &[u8], columns: &mut Columns) -> Result<NetRead, Refusal>
    requires { kept_in columns.old ≡ blank }
    ensures { JudgedFile s.now (net_of s.now) (kept_in columns.new) result }
{
    let limits = read_front(s)?;
    judge_fields(s, limits, columns)
}
