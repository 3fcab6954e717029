// A net's file, written into a lent buffer: RULES 6.7.
#![tactic(auto)]

ghost use Rattle.std.specs.Prelude.{◌≡◌, ◌≤◌, length};
ghost use Rattle.std.proofs.lemmas.List.Edits.{sets};
ghost use Rattle.rules.specs.Net.{net_of};
ghost use Rattle.net.specs.Counted.{Level};
ghost use Rattle.net_file.specs.NetFile.{field_of, net_bytes, WroteNet};

use field::{END_SIZE, LIMITS_SIZE, Value};
use rules::{LentNet, Node, Refusal};

// The field of a node.
fn value_of(d: Node) -> Value
    ensures { result ≡ field_of d }
{
    if d.kind == 1 {
        Value::Sink {
            parent: d.parent,
            wire: d.wire,
            pin: d.pin,
            polarity: d.polarity,
        }
    } else {
        Value::Branch {
            parent: d.parent,
            wire: d.wire,
        }
    }
}

// The bytes of a file with these nodes.
fn net_size(net: &LentNet) -> usize
    requires { Level (net_of net.now) }
    ensures { result ≡ length (net_bytes (net_of net.now)) }
{
    let mut size = LIMITS_SIZE + END_SIZE;
    for i in 1..net.parent.len() {
        size += field_writer::size(value_of(net.node(i)));
    }
    size
}

// Each field goes to the rest of the buffer, right behind its predecessor (RULES 3.14). There is room for each.
fn put_fields(net: &LentNet, out: &mut [u8])
    requires { Level (net_of net.now) × (length (net_bytes (net_of net.now)) ≤ length out.old) }
    ensures { out.new ≡ sets out.old 0 (net_bytes (net_of net.now)) }
{
    let mut at = field_writer::write_field(out, Value::Limits(net.limits)).unwrap();
    for i in 1..net.parent.len() {
        at += field_writer::write_field(&mut out[at..], value_of(net.node(i))).unwrap();
    }
    field_writer::write_field(&mut out[at..], Value::End).unwrap();
}

// Writes a net's file. The columns are judged, and the room, in the order of RULES 5.9, before anything is written.
pub fn write_net(net: &LentNet, out: &mut [u8]) -> Result<usize, Refusal>
    ensures { WroteNet (net_of net.now) out.old out.new result }
{
    net::judge(net)?;
    let size = net_size(net);
    if out.len() < size {
        return Err(Refusal::NoRoom(size as u64));
    }
    put_fields(net, out);
    Ok(size)
}
