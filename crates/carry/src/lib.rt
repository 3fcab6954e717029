// A placement taken to a net that eases its own.
#![tactic(auto)]

ghost use Rattle.std.specs.Prelude.{◌≡◌, length};
ghost use Rattle.rules.specs.Net.{Net, net_of};
ghost use Rattle.rules.specs.Load.{entries};
ghost use Rattle.rules.specs.Sound.{SoundNet};
ghost use Rattle.net.specs.Counted.{Level};
ghost use Rattle.rules.specs.Ease.{carried, limits_ease, node_eases, nodes_ease, ease_judged};
ghost use Rattle.carry.specs.Carry.{offsets_of, CarriedIs, OnWires};

use rules::{LentNet, LentPlacement, Limits, Node, Refusal};

// Why nothing is carried: a refusal of the first net, of the second, or of what is asked of both and of the placement.
#[derive(Clone, Copy)]
pub enum NotCarried {
    FirstNet(Refusal),
    SecondNet(Refusal),
    Carry(Refusal),
}

// The second limits: C_U no lower, C_b no higher, the type the same.
fn limits_ease(a: Limits, b: Limits) -> bool
    ensures { result ≡ limits_ease a b }
{
    (a.limit <= b.limit) & ((b.pin <= a.pin) & (b.repeater == a.repeater))
}

// The second node: wire and pin no higher, all else equal.
fn node_eases(a: Node, b: Node) -> bool
    ensures { result ≡ node_eases a b }
{
    let end = (b.kind == a.kind) & ((b.pin <= a.pin) & (b.polarity == a.polarity));
    (b.parent == a.parent) & ((b.wire <= a.wire) & end)
}

// The nodes from 1 up: the lowest that does not ease is refused.
fn nodes_ease(first: &LentNet, second: &LentNet) -> Result<(), Refusal>
    requires level { Level (net_of first.now) × Level (net_of second.now) }
    requires even { length second.now.parent.now ≡ length first.now.parent.now }
    ensures { result ≡ nodes_ease (net_of first.now) (net_of second.now) }
{
    for i in 1..first.parent.len() {
        if !node_eases(first.node(i), second.node(i)) {
            return Err(Refusal::NotEased(i));
        }
    }
    Ok(())
}

// Each offset becomes the smaller of itself and the new wire.
fn cut_to(wire: &[u32], wires: &[u16], offsets: &mut [u32])
    requires { OnWires wire.now wires.now offsets.old }
    ensures { (m : Net) → m.wires ≡ wire.now → offsets.new ≡ offsets_of (carried m (entries wires.now offsets.old)) }
{
    for (k, on) in wires.iter().enumerate() {
        offsets[k] = offsets[k].min(wire[*on as usize]);
    }
}

// 13: the limits and the size first, then the nodes.
#[tactic(auto, unfolding(rules::specs::Ease::ease_judged))]
fn judge_ease(first: &LentNet, second: &LentNet) -> Result<(), Refusal>
    requires sound { SoundNet (net_of first.now) × SoundNet (net_of second.now) }
    ensures { result ≡ ease_judged (net_of first.now) (net_of second.now) }
{
    if !limits_ease(first.limits, second.limits) || second.parent.len() != first.parent.len() {
        return Err(Refusal::NotEased(0));
    }
    nodes_ease(first, second)
}

// Takes a placement of the first net to the second (RULES 6.14): both nets' refusals, 13, the checker's on the first net; then the offsets are cut.
pub fn carry(
    first: &LentNet,
    second: &LentNet,
    wires: &[u16],
    offsets: &mut [u32],
) -> Result<usize, NotCarried>
    ensures { CarriedIs (net_of first.now) (net_of second.now) wires.now offsets.old result offsets.new }
{
    net::judge(first).map_err(NotCarried::FirstNet)?;
    net::judge(second).map_err(NotCarried::SecondNet)?;
    judge_ease(first, second).map_err(NotCarried::Carry)?;
    checker::check(first, &LentPlacement { wires, offsets }).map_err(NotCarried::Carry)?;
    cut_to(second.wire, wires, offsets);
    Ok(wires.len())
}
