// The readers and the writers of the two files.
ghost use Rattle.rules.specs.Net.{net_at, unlimited, net};
ghost use Rattle.proved_calls.specs.Answers.{limits_of};
ghost use Rattle.proved_calls.specs.Files.{ReadsNet, WritesNet, ReadsPlacement, WritesPlacement};

use crate::{limits_of, tell};
use rules::{LentNet, LentPlacement};

// A refusal leaves the limits as they stood.
#[unsafe(no_mangle)]
pub extern "C" fn proved_read_net(
    s: &[u8],
    limit: &mut u32,
    cb: &mut u32,
    repeater: &mut u8,
    parent: &mut [u16],
    wire: &mut [u32],
    kind: &mut [u8],
    pin: &mut [u32],
    polarity: &mut [u8],
    place: &mut u64,
) -> u32
    ensures { ReadsNet s.now (net unlimited parent.old wire.old kind.old pin.old polarity.old) (net unlimited parent.new wire.new kind.new pin.new polarity.new) (limits_of limit.old cb.old repeater.old) (limits_of limit.new cb.new repeater.new) result place.new }
{
    let said = net_reader::read_net(s, parent, wire, kind, pin, polarity);
    if let Ok(read) = said {
        *limit = read.limits.limit;
        *cb = read.limits.pin;
        *repeater = read.limits.repeater;
    }
    tell(said.map(|read| read.places), place)
}

#[unsafe(no_mangle)]
pub extern "C" fn proved_write_net(
    limit: u32,
    cb: u32,
    repeater: u8,
    parent: &[u16],
    wire: &[u32],
    kind: &[u8],
    pin: &[u32],
    polarity: &[u8],
    out: &mut [u8],
    place: &mut u64,
) -> u32
    ensures { WritesNet (net_at (limits_of limit cb repeater) parent.entry wire.entry kind.entry pin.entry polarity.entry) out.old out.new result place.new }
{
    let net = LentNet {
        limits: limits_of(limit, cb, repeater),
        parent,
        wire,
        kind,
        pin,
        polarity,
    };
    tell(net_writer::write_net(&net, out), place)
}

#[unsafe(no_mangle)]
pub extern "C" fn proved_read_placement(
    s: &[u8],
    wires: &mut [u16],
    offsets: &mut [u32],
    place: &mut u64,
) -> u32
    ensures { ReadsPlacement s.now wires.old offsets.old wires.new offsets.new result place.new }
{
    tell(placement_reader::read_placement(s, wires, offsets), place)
}

#[unsafe(no_mangle)]
pub extern "C" fn proved_write_placement(
    wires: &[u16],
    offsets: &[u32],
    out: &mut [u8],
    place: &mut u64,
) -> u32
    ensures { WritesPlacement wires.now offsets.now out.old out.new result place.new }
{
    let placement = LentPlacement { wires, offsets };
    tell(placement_writer::write_placement(&placement, out), place)
}
