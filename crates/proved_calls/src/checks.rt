// The checker and the list of loads.
ghost use Rattle.rules.specs.Net.{net_at};
ghost use Rattle.proved_calls.specs.Answers.{limits_of};
ghost use Rattle.proved_calls.specs.Checks.{Checks, Lists};

use crate::{limits_of, tell};
use rules::{LentNet, LentPlacement};

// A refusal leaves the source's load as it stood.
#[unsafe(no_mangle)]
pub extern "C" fn proved_check(
    limit: u32,
    cb: u32,
    repeater: u8,
    parent: &[u16],
    wire: &[u32],
    kind: &[u8],
    pin: &[u32],
    polarity: &[u8],
    wires: &[u16],
    offsets: &[u32],
    source: &mut u64,
    place: &mut u64,
) -> u32
    ensures { Checks (net_at (limits_of limit cb repeater) parent.entry wire.entry kind.entry pin.entry polarity.entry) wires.now offsets.now source.old source.new result place.new }
{
    let net = LentNet {
        limits: limits_of(limit, cb, repeater),
        parent,
        wire,
        kind,
        pin,
        polarity,
    };
    let said = checker::check(&net, &LentPlacement { wires, offsets });
    if let Ok(weighed) = said {
        *source = weighed.source;
    }
    tell(said.map(|weighed| weighed.count), place)
}

// A refusal leaves the source's load as it stood.
#[unsafe(no_mangle)]
pub extern "C" fn proved_list_drives(
    limit: u32,
    cb: u32,
    repeater: u8,
    parent: &[u16],
    wire: &[u32],
    kind: &[u8],
    pin: &[u32],
    polarity: &[u8],
    wires: &[u16],
    offsets: &[u32],
    out: &mut [u64],
    source: &mut u64,
    place: &mut u64,
) -> u32
    ensures { Lists (net_at (limits_of limit cb repeater) parent.entry wire.entry kind.entry pin.entry polarity.entry) wires.now offsets.now out.old out.new source.old source.new result place.new }
{
    let net = LentNet {
        limits: limits_of(limit, cb, repeater),
        parent,
        wire,
        kind,
        pin,
        polarity,
    };
    let said = listing::list_drives(&net, &LentPlacement { wires, offsets }, out);
    if let Ok(weighed) = said {
        *source = weighed.source;
    }
    tell(said.map(|weighed| weighed.count), place)
}
