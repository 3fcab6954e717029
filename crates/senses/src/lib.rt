// The senses of a net's sinks, by the inverters from the source to each: 12.
#![tactic(auto)]

ghost use Rattle.std.specs.Prelude.{◌≡◌, ℕ, ◌+◌, ◌<◌, false, List, eqb, position};
ghost use Rattle.rules.specs.Net.{net_of, places, polarity};
ghost use Rattle.rules.specs.Legal.{inverters};
ghost use Rattle.rules.specs.Checked.{one_sense};
ghost use Rattle.load.specs.Tables.{Clear};
ghost use Rattle.load.specs.Asks.{offsets_at};
ghost use Rattle.senses.specs.Parity.{is_odd, Counted, Turned};

use load::Standing;
use rules::{PLACES, Refusal};

// Whether the entries on each wire are odd in number.
fn count_turns(on: &Standing, odd: &mut [bool; PLACES])
    requires { Clear false odd.old }
    ensures { Counted (offsets_at on.now.placement) 0 odd.new }
{
    for wire in on.placement.wires {
        let i = *wire as usize;
        odd[i] = !odd[i];
    }
}

// Whether the inverters from the source to each node are odd, each node after its parent, from those on each wire.
fn turns(on: &Standing, odd: &mut [bool; PLACES])
    requires inverters { on.now.net.limits.repeater ≡ 1 }
    requires counted { Counted (offsets_at on.now.placement) 0 odd.old }
    ensures { Turned (net_of on.now.net) (offsets_at on.now.placement) (places (net_of on.now.net)) odd.new }
{
    let net = &on.net;
    odd[0] = false;
    for i in 1..net.parent.len() {
        odd[i] = odd[i] != odd[net.parent[i] as usize];
    }
}

// The lowest-numbered sink, if there is one.
fn first_sink(kind: &[u8]) -> Option<usize>
    ensures { result ≡ position (λ k. eqb k 1) kind.now }
{
    kind.iter().position(|k| *k == 1)
}

// Whether the inverters down to a node and its polarity make an odd sum.
fn sense(on: &Standing, odd: &[bool; PLACES], i: usize) -> bool
    requires { i < places (net_of on.now.net) }
    ensures { (offs : ℕ → List ℕ) → Turned (net_of on.now.net) offs (places (net_of on.now.net)) odd.now → result ≡ is_odd (inverters (net_of on.now.net) offs i + polarity (net_of on.now.net) i) }
{
    odd[i] != (on.net.polarity[i] == 1)
}

// 12: each sink's inverters and polarity against those of the lowest-numbered sink.
fn one_sense(on: &Standing, odd: &[bool; PLACES]) -> Result<(), Refusal>
    requires { Turned (net_of on.now.net) (offsets_at on.now.placement) (places (net_of on.now.net)) odd.now }
    ensures { result ≡ one_sense (net_of on.now.net) (offsets_at on.now.placement) }
{
    let net = &on.net;
    let Some(lowest) = first_sink(net.kind) else {
        return Ok(());
    };
    let expected = sense(on, odd, lowest);
    for i in 1..net.kind.len() {
        if net.kind[i] == 1 {
            let own = sense(on, odd, i);
            if own != expected {
                return Err(Refusal::WrongParity(i));
            }
        }
    }
    Ok(())
}

// 12, over a table of the inverters down to each node. Buffers invert nothing, and every polarity is 0 beside them.
pub fn judge(on: &Standing) -> Result<(), Refusal>
    ensures { result ≡ one_sense (net_of on.now.net) (offsets_at on.now.placement) }
{
    if on.net.limits.repeater == 0 {
        return Ok(());
    }
    let mut odd = [false; PLACES];
    count_turns(on, &mut odd);
    turns(on, &mut odd);
    one_sense(on, &odd)
}
