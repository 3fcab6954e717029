// The solver.
ghost use Rattle.rules.specs.Net.{net_at};
ghost use Rattle.proved_calls.specs.Answers.{limits_of};
ghost use Rattle.proved_calls.specs.Solves.{Solves};

use crate::{limits_of, tell};
use rules::LentNet;

#[unsafe(no_mangle)]
pub extern "C" fn proved_solve(
    limit: u32,
    cb: u32,
    repeater: u8,
    parent: &[u16],
    wire: &[u32],
    kind: &[u8],
    pin: &[u32],
    polarity: &[u8],
    wires: &mut [u16],
    offsets: &mut [u32],
    place: &mut u64,
) -> u32
    ensures { Solves (net_at (limits_of limit cb repeater) parent.entry wire.entry kind.entry pin.entry polarity.entry) wires.old offsets.old wires.new offsets.new result place.new }
{
    let net = LentNet {
        limits: limits_of(limit, cb, repeater),
        parent,
        wire,
        kind,
        pin,
        polarity,
    };
    tell(solver::solve(&net, wires, offsets), place)
}
