// The call that finishes a half-buffered net.
ghost use Rattle.rules.specs.Net.{net_at};
ghost use Rattle.proved_calls.specs.Answers.{limits_of};
ghost use Rattle.proved_calls.specs.Finishes.{Finishes};

use crate::{limits_of, tell};
use rules::{LentNet, LentPlacement};

#[unsafe(no_mangle)]
pub extern "C" fn proved_finish(
    limit: u32,
    cb: u32,
    repeater: u8,
    parent: &[u16],
    wire: &[u32],
    kind: &[u8],
    pin: &[u32],
    polarity: &[u8],
    given: &[u16],
    given_offsets: &[u32],
    wires: &mut [u16],
    offsets: &mut [u32],
    place: &mut u64,
) -> u32
    ensures { Finishes (net_at (limits_of limit cb repeater) parent.entry wire.entry kind.entry pin.entry polarity.entry) given.now given_offsets.now wires.old offsets.old wires.new offsets.new result place.new }
{
    let net = LentNet {
        limits: limits_of(limit, cb, repeater),
        parent,
        wire,
        kind,
        pin,
        polarity,
    };
    let given = LentPlacement {
        wires: given,
        offsets: given_offsets,
    };
    tell(finish::finish(&net, &given, wires, offsets), place)
}
