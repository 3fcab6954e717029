// The way down: each wire's inverters and its node's polarity, in rising order of the wires. A node's surplus is dealt out to its wires when it is reached, and a wire's
// entries are written there and then.
#![tactic(auto)]

ghost use Rattle.std.specs.Prelude.{◌≡◌, ℕ, ◌+◌, ◌-◌, ◌*◌, ◌<◌, ◌≤◌, length, replicate};
ghost use Rattle.std.proofs.lemmas.List.Edits.{sets};
ghost use Rattle.rules.specs.Figures.{most_places, most_wire};
ghost use Rattle.rules.specs.Net.{Net, net_of};
ghost use Rattle.rules.specs.Sound.{SoundNet};
ghost use Rattle.states.specs.States.{model_of, st, Small};
ghost use Rattle.surplus.specs.Choice.{Owes};
ghost use Rattle.surplus.specs.Choice;
ghost use Rattle.surplus.specs.Tables.{head_at, near_of, WiresJoined, NodesClosed};
ghost use Rattle.surplus.specs.Descent.{Cutting, Targeted, Decided, Begun, Written};
ghost use Rattle.surplus.specs.Asks.{Asked};
ghost use Rattle.walk.specs.Steps.{StaysIf, Handed};

use columns::Run;
use cuts::{Target, Turned};
use rows::{Chains, PLACES, ROWS};
use rules::LentNet;
use states::{Cell, State};
use tables::Tables;

// What is settled of a wire: its node's polarity and surplus, the load under its inverters, how many stand by spacing and how many at its upper end.
#[derive(Clone, Copy)]
pub struct Cut {
    pub sense: usize,
    pub left: usize,
    pub below: u64,
    pub spaced: u64,
    pub topped: u64,
}

// The surplus of node i where its load is taken with x more: one more than its least surplus where that lowers the load.
fn owed(tables: &Tables, q: usize, i: usize, x: u64) -> usize
    requires { (q ≤ 1) × (i < most_places) × (1 ≤ (near_of tables.now.near q i).over) }
    ensures { Owes x (near_of tables.now.near q i).load (near_of tables.now.near q i).more ((near_of tables.now.near q i).over - 1) result }
{
    let closed = tables.near[i * 2 + q];
    tables.surplus(q, i) + usize::from(x != 0 && closed.more < closed.load)
}

// Whether a wire of size w meets the count m and the load l without inverters, over a node's state.
fn stays(node: Option<State>, w: u64, m: u64, l: u64) -> bool
    requires { (w ≤ most_wire) × Small 500000000000 node }
    ensures { StaysIf result (st node) w m l }
{
    match node {
        Some(s) => s.count <= m && w + s.load <= l,
        None => false,
    }
}

// The cut of wire i, of size w under a point of polarity p, that has to meet the goal. Its node's wires have the slot h.
fn cut_over(c: Cell, w: u64, tables: &Tables, p: usize, h: usize, i: usize, goal: Target) -> Cut
    requires wire_bound { w ≤ most_wire }
    requires by_index { (n : Net) × (s : ℕ) × Targeted (model_of c) n w tables.now.chains.slots tables.now.near p s h i goal.count goal.load goal.extra }
    ensures { (n : Net) (s : ℕ) (t : Targeted (model_of c) n w tables.now.chains.slots tables.now.near p s h i goal.count goal.load goal.extra) → Decided (model_of c) n p s i t.parts result.sense result.left result.below result.spaced result.topped }
{
    let same = tables.side(p, h, i);
    let other = tables.side(1 - p, h, i);
    let (q, stand) = match cuts::choose(c, w, same, other, goal) {
        Turned::Same(stand) => (p, stand),
        Turned::Other(stand) => (1 - p, stand),
    };
    Cut {
        sense: q,
        left: owed(tables, q, i, stand.surplus),
        below: stand.load,
        spaced: stand.count,
        topped: goal.extra,
    }
}

// The cut of wire i, of size w under a point of polarity p, that takes s of the surplus there.
fn cut_wire(c: Cell, w: u64, tables: &Tables, p: usize, s: usize, i: usize) -> Cut
    requires wire_bound { w ≤ most_wire }
    requires cutting { (n : Net) × Cutting (model_of c) n w tables.now.chains.links tables.now.chains.slots tables.now.near p s i }
    ensures { (n : Net) (t : Cutting (model_of c) n w tables.now.chains.links tables.now.chains.slots tables.now.near p s i) → Decided (model_of c) n p s i t.parts result.sense result.left result.below result.spaced result.topped }
{
    let chains = &tables.chains;
    let h = chains.head(i);
    let own = chains.slots[i * 2 + p];
    let load = own.load as u64;
    let m = own.count - chains.slots[chains.next(i) * 2 + p].count;
    if s == 0 && stays(tables.side(p, h, i), w, m, load) {
        return Cut {
            sense: p,
            left: owed(tables, p, i, 0),
            below: 0,
            spaced: 0,
            topped: 0,
        };
    }
    let goal = cuts::aim(c, s, m, load, own.more as u64);
    cut_over(c, w, tables, p, h, i, goal)
}

// The entries of wire i, of size w, as it is cut. Answers the place after them.
fn write_wire(
    c: Cell,
    wires: &mut [u16],
    offsets: &mut [u32],
    at: usize,
    i: usize,
    w: u64,
    cut: Cut,
) -> usize
    requires i_bound { (i < most_places) × (w ≤ most_wire) }
    requires in_bounds { (at + (cut.spaced + cut.topped) ≤ length wires.old) × (at + (cut.spaced + cut.topped) ≤ length offsets.old) }
    ensures { (result ≡ at + (cut.spaced + cut.topped)) × (wires.new ≡ sets wires.old at (replicate (cut.spaced + cut.topped) i)) × (offsets.new ≡ sets offsets.old at (Choice.offsets (model_of c) w cut.below cut.spaced cut.topped)) }
{
    let spaced = Run {
        wire: i as u16,
        size: w,
        lowest: w.min(c.limit.saturating_sub(cut.below)),
        span: c.span,
        count: cut.spaced as usize,
    };
    let topped = Run {
        lowest: w,
        span: 0,
        count: cut.topped as usize,
        ..spaced
    };
    columns::write_spaced(wires, offsets, at, spaced);
    columns::write_spaced(wires, offsets, at + spaced.count, topped);
    at + spaced.count + topped.count
}

// Node i's surplus e dealt out to its wires, at its polarity p.
pub fn hand_on(
    c: Cell,
    rows: &mut [u32; ROWS],
    chains: &Chains,
    p: usize,
    i: usize,
    e: usize,
    parts: &mut [u8; PLACES],
)
    requires p_bound { (p ≤ 1) × (i < most_places) }
    requires asked { (e ≡ 0 → ⊥) → Asked (model_of c) chains.now.links chains.now.slots parts.old p (head_at chains.now.links i) }
    ensures { Handed (model_of c) chains.now.links chains.now.slots parts.old p i e parts.new }
{
    if e != 0 {
        deal::deal(c, rows, chains, p, chains.head(i), e, parts);
    }
}

// All of them, from the source's polarity, which stands at place 0 of `senses`, and from its surplus, which is dealt out already.
pub fn descend(
    c: Cell,
    net: &LentNet,
    rows: &mut [u32; ROWS],
    tables: &Tables,
    senses: &mut [u8; PLACES],
    parts: &mut [u8; PLACES],
    wires: &mut [u16],
    offsets: &mut [u32],
)
    requires sound { (c.repeater ≡ 1) × SoundNet (net_of net.now) }
    requires wires_joined { WiresJoined (model_of c) (net_of net.now) tables.now.chains.links tables.now.chains.slots 1 × NodesClosed (model_of c) (net_of net.now) tables.now.near 0 }
    requires by_index { (N : ℕ) × Begun (model_of c) (net_of net.now) senses.old parts.old N wires.old offsets.old }
    ensures { (N : ℕ) → Begun (model_of c) (net_of net.now) senses.old parts.old N wires.old offsets.old → Written (model_of c) (net_of net.now) senses.old N wires.old offsets.old wires.new offsets.new }
{
    let mut at = 0;
    for i in 1..net.parent.len() {
        let w = net.wire[i] as u64;
        let p = senses[net.parent[i] as usize] as usize;
        let cut = cut_wire(c, w, tables, p, parts[i] as usize, i);
        at = write_wire(c, wires, offsets, at, i, w, cut);
        senses[i] = cut.sense as u8;
        hand_on(c, rows, &tables.chains, cut.sense, i, cut.left, parts);
    }
}
