// What the walk down decides at one wire: which of its node's polarities and surpluses, and how many inverters, meet what it is asked.
#![tactic(auto)]

ghost use Rattle.std.specs.Prelude.{◌+◌, ◌≤◌};
ghost use Rattle.rules.specs.Figures.{most_wire};
ghost use Rattle.states.specs.States.{model_of, st, Small};
ghost use Rattle.surplus.specs.Choice.{Meets, Aim};
ghost use Rattle.cuts.specs.Tries.{OneOk, PickOk, TurnOk};

use states::{Cell, State};

// What a wire has to meet, and how many inverters stand at its upper end besides.
#[derive(Clone, Copy)]
pub struct Target {
    pub count: u64,
    pub load: u64,
    pub extra: u64,
}

// A wire's inverters by spacing: how many they are, and the surplus and the load of the node below them.
#[derive(Clone, Copy)]
pub struct Stand {
    pub surplus: u64,
    pub load: u64,
    pub count: u64,
}

// Over the node at the wire's own polarity, or at the other one below an odd number of inverters.
#[derive(Clone, Copy)]
pub enum Turned {
    Same(Stand),
    Other(Stand),
}

// One candidate: over a node that has the count n and the load h with a surplus of x.
fn candidate(c: Cell, odd: u64, w: u64, n: u64, x: u64, h: u64, goal: Target) -> Option<Stand>
    requires { (w + h ≤ 11000000) × (odd ≤ 1) × (n ≤ 1000000000000) }
    ensures { OneOk (model_of c) odd (w + h) n x h goal.count goal.load result }
{
    let count = c.req(odd, w + h);
    if goal.count < n + count {
        return None;
    }
    if goal.load < c.top(w + h, count) {
        return None;
    }
    Some(Stand {
        surplus: x,
        load: h,
        count,
    })
}

// The first of a node's two candidates that meets the target: on a tie the surplus stands on the wire and not below the node.
fn pick(c: Cell, odd: u64, w: u64, node: Option<State>, goal: Target) -> Option<Stand>
    requires { (w ≤ most_wire) × (odd ≤ 1) × Small 500000000000 node }
    ensures { PickOk (model_of c) odd w (st node) goal.count goal.load result }
{
    let s = node?;
    if let Some(first) = candidate(c, odd, w, s.count, 0, s.load, goal) {
        return Some(first);
    }
    candidate(c, odd, w, s.count + 1, 1, s.more, goal)
}

// The same over both of a node's polarities.
pub fn choose(c: Cell, w: u64, same: Option<State>, other: Option<State>, goal: Target) -> Turned
    requires w_le_most_wire { (w ≤ most_wire) × Small 500000000000 same × Small 500000000000 other }
    requires meets { Meets (model_of c) w (st same) (st other) goal.count goal.load }
    ensures { TurnOk (model_of c) w (st same) (st other) goal.count goal.load result }
{
    if let Some(s) = pick(c, 0, w, same, goal) {
        return Turned::Same(s);
    }
    let Some(s) = pick(c, 1, w, other, goal) else {
        unreachable!()
    };
    Turned::Other(s)
}

// The target of a wire that is worth m, a and b and takes s of the surplus. Two more hand up the pin only where the wire hands up more without them.
pub fn aim(c: Cell, s: usize, m: u64, a: u64, b: u64) -> Target
    requires { (s ≤ 2) × (m ≤ 600000000000) }
    ensures { Aim (model_of c) s m a b result.count result.load result.extra }
{
    let plain = Target {
        count: m,
        load: a,
        extra: 0,
    };
    match s {
        0 => plain,
        1 => Target {
            count: m + 1,
            load: b,
            ..plain
        },
        _ if a <= c.pin => plain,
        _ => Target { extra: 2, ..plain },
    }
}
