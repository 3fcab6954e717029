// The carry.
ghost use Rattle.std.specs.Prelude.{◌≡◌, get_or};
ghost use Rattle.rules.specs.Net.{net_at};
ghost use Rattle.proved_calls.specs.Carries.{limits_at, Carries};

use crate::{limits_of, tell};
use carry::NotCarried;
use rules::LentNet;

// The limits of both nets, C_U and C_b of the one and then of the other, and their repeaters; then which net was refused, and the place.
#[unsafe(no_mangle)]
pub extern "C" fn proved_carry(
    limits: &[u32; 4],
    repeaters: &[u8; 2],
    parent: &[u16],
    wire: &[u32],
    kind: &[u8],
    pin: &[u32],
    polarity: &[u8],
    parent2: &[u16],
    wire2: &[u32],
    kind2: &[u8],
    pin2: &[u32],
    polarity2: &[u8],
    wires: &[u16],
    offsets: &mut [u32],
    told: &mut [u64; 2],
) -> u32
    ensures { Carries (net_at (limits_at limits.now repeaters.now 0) parent.entry wire.entry kind.entry pin.entry polarity.entry) (net_at (limits_at limits.now repeaters.now 1) parent2.entry wire2.entry kind2.entry pin2.entry polarity2.entry) wires.now offsets.old offsets.new (get_or told.new 0 0) result (get_or told.new 1 0) }
{
    let first = LentNet {
        limits: limits_of(limits[0], limits[1], repeaters[0]),
        parent,
        wire,
        kind,
        pin,
        polarity,
    };
    let second = LentNet {
        limits: limits_of(limits[2], limits[3], repeaters[1]),
        parent: parent2,
        wire: wire2,
        kind: kind2,
        pin: pin2,
        polarity: polarity2,
    };
    let (which, said) = match carry::carry(&first, &second, wires, offsets) {
        Ok(count) => (0, Ok(count)),
        Err(NotCarried::FirstNet(refusal)) => (1, Err(refusal)),
        Err(NotCarried::SecondNet(refusal)) => (2, Err(refusal)),
        Err(NotCarried::Carry(refusal)) => (0, Err(refusal)),
    };
    told[0] = which;
    tell(said, &mut told[1])
}
