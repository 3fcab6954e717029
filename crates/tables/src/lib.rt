// The way up: each node closed, and each wire hung before the wires after it under its parent, by one pass from the last node to the source.
#![tactic(auto)]

ghost use Rattle.std.specs.Prelude.{◌≡◌, suc, ◌+◌, ◌-◌, ◌*◌, ◌<◌, ◌≤◌, length, set};
ghost use Rattle.rules.specs.Figures.{most_places, most_wire};
ghost use Rattle.rules.specs.Tree.{Hanging};
ghost use Rattle.rules.specs.Net.{Net, net_of, places};
ghost use Rattle.rules.specs.Sound.{SoundNet};
ghost use Rattle.frontier.specs.Cell as model;
ghost use Rattle.frontier.specs.Frontier;
ghost use Rattle.states.specs.States.{model_of, st, Small};
ghost use Rattle.surplus.specs.Tables.{head_at, near_of, state_of, count_at, SlotSmall, Hung, WiresJoined, NodesClosed, Filled};
ghost use Rattle.surplus.specs.Asks.{AskedClose, AsksClose};
ghost use Rattle.tables.specs.Turns.{SideIs, Hangs};

use rows::{Chains, ROWS, SIDES};
use rules::{LentNet, Node};
use states::{Cell, Sides, State};
use surplus::{Closed, Slot};

// What the way up keeps of a net: of each wire and of each node, at both polarities.
#[derive(Drop)]
pub struct Tables {
    pub chains: Chains,
    pub near: [Closed; SIDES],
}

impl Tables {
    // Nothing is joined or closed yet. The slot 0 is that of no wire, so it counts 0.
    pub fn blank() -> Tables
        ensures { (τ : model.Cell) (n : Net) → SoundNet n → Filled τ n result.chains.links result.chains.slots result.near (places n) }
    {
        let mut tables = Tables {
            chains: Chains {
                links: [0; SIDES],
                slots: [Slot::BLANK; SIDES],
            },
            near: [Closed::NONE; SIDES],
        };
        tables.chains.slots[0].count = 1;
        tables.chains.slots[1].count = 1;
        tables
    }

    // What is kept of node i, at one polarity, over the slot h of its wires.
    pub fn side(&self, p: usize, h: usize, i: usize) -> Option<State>
        requires { (p ≤ 1) × (h < most_places) × (i < most_places) × (count_at self.now.chains.slots p h ≤ 100000000001) }
        ensures { st result ≡ state_of (count_at self.now.chains.slots p h) (near_of self.now.near p i) }
    {
        let count = self.chains.slots[h * 2 + p].count;
        let closed = self.near[i * 2 + p];
        if count == 0 || closed.over == 0 {
            return None;
        }
        Some(State {
            count: (count - 1) + (closed.over as u64 - 1),
            load: closed.load as u64,
            more: closed.more as u64,
        })
    }

    // The least surplus of node i, which has a state.
    pub fn surplus(&self, p: usize, i: usize) -> usize
        requires { (p ≤ 1) × (i < most_places) × (1 ≤ (near_of self.now.near p i).over) }
        ensures { (result ≡ (near_of self.now.near p i).over - 1) × (result < 4294967295) }
    {
        self.near[i * 2 + p].over as usize - 1
    }
}

// A sink's state: its pin, where that fits, at its own polarity.
fn leaf(c: Cell, d: Node, q: u8) -> Closed
    ensures { Frontier.leaf (model_of c) d.pin d.polarity q ≡ state_of 1 result }
{
    if d.polarity == q && d.pin as u64 <= c.limit {
        return Closed {
            load: d.pin,
            more: d.pin,
            over: 1,
        };
    }
    Closed::NONE
}

// A node's state at the polarity q, by its kind; k is the slot of its wires.
fn close_side(c: Cell, d: Node, rows: &mut [u32; ROWS], chains: &Chains, q: u8, k: usize) -> Closed
    requires q_bound { (q ≤ 1) × (k < most_places) }
    requires asked_close { AskedClose (model_of c) chains.now.links chains.now.slots q k }
    ensures { (f : Hanging) → AsksClose (model_of c) chains.now.links chains.now.slots q k f → SideIs (model_of c) d.kind d.pin d.polarity q f result }
{
    if d.kind == 0 {
        return rows::close(c, rows, chains, q as usize, k);
    }
    leaf(c, d, q)
}

// Node i closed, at both polarities.
fn close_node(
    c: Cell,
    net: &LentNet,
    rows: &mut [u32; ROWS],
    chains: &Chains,
    near: &mut [Closed; SIDES],
    i: usize,
)
    requires sound { SoundNet (net_of net.now) × (i < length net.now.parent.now) }
    requires wires_joined { WiresJoined (model_of c) (net_of net.now) chains.now.links chains.now.slots (suc i) × NodesClosed (model_of c) (net_of net.now) near.old (suc i) }
    ensures { NodesClosed (model_of c) (net_of net.now) near.new i }
{
    let k = chains.head(i);
    let d = net.node(i);
    near[i * 2] = close_side(c, d, rows, chains, 0, k);
    near[i * 2 + 1] = close_side(c, d, rows, chains, 1, k);
}

// Wire i, of the state s, before the wires of the slot `from`, at one polarity.
fn hang(chains: &mut Chains, p: usize, from: usize, i: usize, s: Option<State>)
    requires p_bound { (p ≤ 1) × (from < most_places) × (i < most_places) }
    requires small { Small 1000000000000 s × SlotSmall chains.old.slots p from }
    ensures hung { Hung p from i (st s) chains.old.slots chains.new.slots }
    ensures links_kept { chains.new.links ≡ chains.old.links }
{
    let to = i * 2 + p;
    let Some(s) = s else {
        chains.slots[to].count = 0;
        return;
    };
    let own = Slot {
        load: s.load as u32,
        more: s.more as u32,
        ..Slot::BLANK
    };
    let after = chains.slots[from * 2 + p];
    if after.count == 0 {
        chains.slots[to] = own;
        return;
    }
    chains.slots[to] = Slot {
        count: s.count + after.count,
        all_load: own.load + after.all_load,
        all_more: (own.load + after.all_more).min(own.more + after.all_load),
        ..own
    };
}

// Wire i is the first under v now, before the one that was.
fn link(links: &mut [u16; SIDES], v: usize, i: usize)
    requires { (v < most_places) × (i < most_places) }
    ensures { links.new ≡ set (set links.old (i * 2) (head_at links.old v)) (v * 2 + 1) i }
{
    links[i * 2] = links[v * 2 + 1];
    links[v * 2 + 1] = i as u16;
}

// Wire i, of size w, under v: what it is worth over its node, hung before the wires after it.
fn hang_wire(c: Cell, w: u64, tables: &mut Tables, v: usize, i: usize)
    requires wire_bound { w ≤ most_wire }
    requires hangs { (n : Net) × Hangs (model_of c) n w tables.old.chains.links tables.old.chains.slots tables.old.near v i }
    ensures joined { (n : Net) → Hangs (model_of c) n w tables.old.chains.links tables.old.chains.slots tables.old.near v i → WiresJoined (model_of c) n tables.new.chains.links tables.new.chains.slots i }
    ensures near_kept { tables.new.near ≡ tables.old.near }
{
    let h = tables.chains.head(i);
    let s = Sides {
        plus: tables.side(0, h, i),
        minus: tables.side(1, h, i),
    };
    let worth = c.lift(w, s);
    let k = tables.chains.head(v);
    hang(&mut tables.chains, 0, k, i, worth.plus);
    hang(&mut tables.chains, 1, k, i, worth.minus);
    link(&mut tables.chains.links, v, i);
}

// One turn of the pass: node i closed, and the wire above it joined.
fn push(c: Cell, net: &LentNet, rows: &mut [u32; ROWS], tables: &mut Tables, i: usize)
    requires sound { (c.repeater ≡ 1) × SoundNet (net_of net.now) }
    requires le_i { (1 ≤ i) × (i < length net.now.parent.now) × Filled (model_of c) (net_of net.now) tables.old.chains.links tables.old.chains.slots tables.old.near (suc i) }
    ensures { Filled (model_of c) (net_of net.now) tables.new.chains.links tables.new.chains.slots tables.new.near i }
{
    close_node(c, net, rows, &tables.chains, &mut tables.near, i);
    hang_wire(c, net.wire[i] as u64, tables, net.parent[i] as usize, i);
}

// The whole pass, the source's own state last.
pub fn fill(c: Cell, net: &LentNet, rows: &mut [u32; ROWS], tables: &mut Tables)
    requires sound { (c.repeater ≡ 1) × SoundNet (net_of net.now) }
    requires filled { Filled (model_of c) (net_of net.now) tables.old.chains.links tables.old.chains.slots tables.old.near (length net.now.parent.now) }
    ensures { WiresJoined (model_of c) (net_of net.now) tables.new.chains.links tables.new.chains.slots 1 × NodesClosed (model_of c) (net_of net.now) tables.new.near 0 }
{
    for i in (1..net.parent.len()).rev() {
        push(c, net, rows, tables, i);
    }
    close_node(c, net, rows, &tables.chains, &mut tables.near, 0);
}
