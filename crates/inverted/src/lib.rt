// The solver of inverters: up the tree to the least count, which the source's polarities have, then 8, then 9, then down again to a placement with that count.
#![tactic(auto)]

ghost use Rattle.std.specs.Prelude.{◌≡◌, ◌≤◌, Ok};
ghost use Rattle.rules.specs.Net.{net_of};
ghost use Rattle.rules.specs.Sound.{SoundNet};
ghost use Rattle.states.specs.States.{model_of, limits_of, st};
ghost use Rattle.surplus.specs.Tables.{WiresJoined, NodesClosed};
ghost use Rattle.columns.specs.Columns.{room_in};
ghost use Rattle.solution.specs.Answer.{Outcome};
ghost use Rattle.inverted.specs.Source.{Picks, Rooted};

use rows::{PLACES, ROWS};
use rules::{LentNet, Refusal};
use states::{Cell, State};
use tables::Tables;

// The polarity with the lower count, plus on a tie.
fn lighter(plus: Option<State>, minus: Option<State>) -> usize
    ensures { Picks (st plus) (st minus) result }
{
    match (plus, minus) {
        (Some(p), Some(q)) => usize::from(q.count < p.count),
        (Some(_), None) => 0,
        (None, _) => 1,
    }
}

// A placement with the least count m, from the source's polarity p. Answers the count.
fn place(
    c: Cell,
    net: &LentNet,
    rows: &mut [u32; ROWS],
    tables: &Tables,
    p: usize,
    m: u64,
    wires: &mut [u16],
    offsets: &mut [u32],
) -> usize
    requires sound { (limits_of c ≡ net.now.limits) × (c.repeater ≡ 1) × SoundNet (net_of net.now) }
    requires wires_joined { WiresJoined (model_of c) (net_of net.now) tables.now.chains.links tables.now.chains.slots 1 × NodesClosed (model_of c) (net_of net.now) tables.now.near 0 }
    requires rooted { Rooted (model_of c) (net_of net.now) p m × (m ≤ room_in wires.old offsets.old) }
    ensures { Outcome (net_of net.now) wires.old offsets.old wires.new offsets.new (Ok result) }
{
    let mut senses = [0; PLACES];
    let mut parts = [0; PLACES];
    senses[0] = p as u8;
    let e = tables.surplus(p, 0);
    walk::hand_on(c, rows, &tables.chains, p, 0, e, &mut parts);
    walk::descend(
        c,
        net,
        rows,
        tables,
        &mut senses,
        &mut parts,
        wires,
        offsets,
    );
    m as usize
}

// From the filled tables on: 8, then 9, then the placement.
fn decide(
    c: Cell,
    net: &LentNet,
    rows: &mut [u32; ROWS],
    tables: &Tables,
    wires: &mut [u16],
    offsets: &mut [u32],
) -> Result<usize, Refusal>
    requires sound { (limits_of c ≡ net.now.limits) × (c.repeater ≡ 1) × SoundNet (net_of net.now) }
    requires wires_joined { WiresJoined (model_of c) (net_of net.now) tables.now.chains.links tables.now.chains.slots 1 × NodesClosed (model_of c) (net_of net.now) tables.now.near 0 }
    ensures { Outcome (net_of net.now) wires.old offsets.old wires.new offsets.new result }
{
    let h = tables.chains.head(0);
    let plus = tables.side(0, h, 0);
    let minus = tables.side(1, h, 0);
    let Some(root) = State::merge(plus, minus) else {
        return Err(Refusal::NoLegalPlacement);
    };
    if columns::room(wires.len(), offsets.len()) < root.count {
        return Err(Refusal::NoRoom(root.count));
    }
    let p = lighter(plus, minus);
    Ok(place(c, net, rows, tables, p, root.count, wires, offsets))
}

// A least placement of a net that is sound, of inverters.
pub fn solve(net: &LentNet, wires: &mut [u16], offsets: &mut [u32]) -> Result<usize, Refusal>
    requires { SoundNet (net_of net.now) × (net.now.limits.repeater ≡ 1) }
    ensures { Outcome (net_of net.now) wires.old offsets.old wires.new offsets.new result }
{
    let c = Cell::of(net.limits);
    let mut rows = [0; ROWS];
    let mut tables = Tables::blank();
    tables::fill(c, net, &mut rows, &mut tables);
    decide(c, net, &mut rows, &tables, wires, offsets)
}
