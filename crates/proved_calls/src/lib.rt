// The proved calls over numbers and slices alone, so that the tests and the benches can make them from C.
// Each answers the number of RULES 4.3 and leaves the place, or on success what the call answers, in `place`.
#![tactic(auto)]

mod carries;
mod checks;
mod files;
mod finishes;
mod solves;

ghost use Rattle.std.specs.Prelude.{◌≡◌};
ghost use Rattle.rules.specs.Net.{net_at};
ghost use Rattle.rules.specs.Refusal.{judged_number};
ghost use Rattle.proved_calls.specs.Answers.{limits_of, count_or_place, Judges};

use rules::{LentNet, Limits, Refusal};

// The limits that C gives as three numbers.
fn limits_of(limit: u32, pin: u32, repeater: u8) -> Limits
    ensures { result ≡ limits_of limit pin repeater }
{
    Limits {
        limit,
        pin,
        repeater,
    }
}

// Leaves the count, or the refusal's place, and answers the refusal's number, or 0.
fn tell(said: Result<usize, Refusal>, place: &mut u64) -> u32
    ensures told { result ≡ judged_number said }
    ensures left { place.new ≡ count_or_place said }
{
    match said {
        Ok(count) => {
            *place = count as u64;
            0
        }
        Err(refusal) => {
            *place = refusal.place();
            refusal.number()
        }
    }
}

#[unsafe(no_mangle)]
pub extern "C" fn proved_judge(
    limit: u32,
    cb: u32,
    repeater: u8,
    parent: &[u16],
    wire: &[u32],
    kind: &[u8],
    pin: &[u32],
    polarity: &[u8],
    place: &mut u64,
) -> u32
    ensures { Judges (net_at (limits_of limit cb repeater) parent.entry wire.entry kind.entry pin.entry polarity.entry) result place.new }
{
    let net = LentNet {
        limits: limits_of(limit, cb, repeater),
        parent,
        wire,
        kind,
        pin,
        polarity,
    };
    tell(net::judge(&net).map(|()| 0), place)
}
