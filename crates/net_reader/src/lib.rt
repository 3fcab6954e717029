// A net file, read into lent columns: RULES 6.6.
#![tactic(auto)]

ghost use Rattle.std.specs.Prelude.{◌≡◌, ◌≤◌, length};
ghost use Rattle.std.proofs.lemmas.List.Edits.{sets};
ghost use Rattle.rules.specs.Net.{net, unlimited};
ghost use Rattle.net_file.specs.NetFile.{kept_in, ReadNet};

use net_file::{Columns, NetRead};
use rules::Refusal;

// The first places of a lent column, filled from one of our own.
fn fill<T: Copy>(lent: &mut [T], own: &[T])
    requires { length own.now ≤ length lent.old }
    ensures { lent.new ≡ sets lent.old 0 own.now }
{
    lent[..own.len()].copy_from_slice(own);
}

// Reads a net file into five lent columns. All of it is judged, and then the room, before anything is filled.
pub fn read_net(
    s: &[u8],
    parent: &mut [u16],
    wire: &mut [u32],
    kind: &mut [u8],
    pin: &mut [u32],
    polarity: &mut [u8],
) -> Result<NetRead, Refusal>
    ensures { ReadNet s.now (net unlimited parent.old wire.old kind.old pin.old polarity.old) (net unlimited parent.new wire.new kind.new pin.new polarity.new) result }
{
    let mut own = Columns::blank();
    let read = net_scan::judge_file(s, &mut own)?;
    let room = parent
        .len()
        .min(wire.len())
        .min(kind.len())
        .min(pin.len())
        .min(polarity.len());
    if room < read.places {
        return Err(Refusal::NoRoom(read.places as u64));
    }
    let net = own.lent(read.limits, read.places);
    fill(parent, net.parent);
    fill(wire, net.wire);
    fill(kind, net.kind);
    fill(pin, net.pin);
    fill(polarity, net.polarity);
    Ok(read)
}

// Reads a net file into columns that have room for any net.
pub fn read(s: &[u8], columns: &mut Columns) -> Result<NetRead, Refusal>
    ensures { ReadNet s.now (kept_in columns.old) (kept_in columns.new) result }
{
    read_net(
        s,
        &mut columns.parent,
        &mut columns.wire,
        &mut columns.kind,
        &mut columns.pin,
        &mut columns.polarity,
    )
}
