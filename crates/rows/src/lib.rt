// A node's state out of the slot of its wires: by the slot's two loads where the first of them fits, and else by the row of the wires. The rows of an overfull node, of all
// its wires and of each tail of them, are made in one scratch table.
#![tactic(auto)]

ghost use Rattle.std.specs.Prelude.{◌≡◌, ℕ, ◌+◌, ◌*◌, ◌<◌, ◌≤◌, min, length, MatchOption};
ghost use Rattle.rules.specs.Figures.{most_places, most_children};
ghost use Rattle.rules.specs.Tree.{Hanging};
ghost use Rattle.states.specs.States.{model_of};
ghost use Rattle.surplus.specs.Rows.{load_at, mixed, Mixed, FirstFit};
ghost use Rattle.surplus.specs.Tables.{next_at, head_at, lo_at, hi_at};
ghost use Rattle.surplus.specs.Asks.{Runs, Running, Rows, CloseIs, ClosedIs, AsksClose, AskedClose};

use states::Cell;
use surplus::{Closed, Slot};

// The places of a table over nodes, and of one that has two for each.
pub const PLACES: usize = 1025;

pub const SIDES: usize = 2 * PLACES;

// The most children of a node, and the loads of their rows: that of m wires stands at the square of m.
const CHILDREN: usize = 8;

pub const ROWS: usize = (CHILDREN + 1) * (CHILDREN + 1);

// What is kept of the wires under each node. They are a chain, by two links for each place: a wire's next one and a node's first, 0 for none. A slot is of a wire at one
// polarity.
#[derive(Drop)]
pub struct Chains {
    pub links: [u16; SIDES],
    pub slots: [Slot; SIDES],
}

impl Chains {
    // The wire after wire j.
    pub fn next(&self, j: usize) -> usize
        requires { j < most_places }
        ensures { result ≡ next_at self.now.links j }
    {
        self.links[j * 2] as usize
    }

    // The first wire under node v.
    pub fn head(&self, v: usize) -> usize
        requires { v < most_places }
        ensures { result ≡ head_at self.now.links v }
    {
        self.links[v * 2 + 1] as usize
    }

    // What wire j hands up with 0, 1 or 2 of a surplus.
    pub fn loads(&self, c: Cell, p: usize, j: usize) -> Loads
        requires { (p ≤ 1) × (j < most_places) }
        ensures { (result.least ≡ lo_at self.now.slots p j) × (result.one ≡ hi_at self.now.slots p j) × (result.two ≡ min (lo_at self.now.slots p j) c.pin) }
    {
        let own = self.slots[j * 2 + p];
        let least = own.load as u64;
        Loads {
            least,
            one: own.more as u64,
            two: least.min(c.pin),
        }
    }
}

// What a wire hands up with 0, 1 or 2 of a surplus.
#[derive(Clone, Copy)]
pub struct Loads {
    pub least: u64,
    pub one: u64,
    pub two: u64,
}

// The load for a surplus of e in the row of m wires: it no longer falls past twice as many.
pub fn load_at(rows: &[u32; ROWS], m: usize, e: usize) -> u64
    requires { m ≤ most_children }
    ensures { result ≡ load_at rows.now (m * m) (m * 2) e }
{
    rows[m * m + e.min(m * 2)] as u64
}

// One load of the row with one wire more than m, which takes 0, 1 or 2 of the surplus e.
fn mixed_at(rows: &[u32; ROWS], m: usize, e: usize, l: Loads) -> u64
    requires m_bound { m ≤ most_children }
    requires loads_bound { (l.least ≤ 1000000) × (l.one ≤ 1000000) × (l.two ≤ 1000000) }
    requires by_index { (k : ℕ) → load_at rows.now (m * m) (m * 2) k ≤ 2000000000 }
    ensures { result ≡ mixed (load_at rows.now (m * m) (m * 2)) l.least l.one l.two e }
{
    let x = l.least + load_at(rows, m, e);
    if e == 0 {
        return x;
    }
    let y = l.one + load_at(rows, m, e - 1);
    if e == 1 {
        return x.min(y);
    }
    let z = l.two + load_at(rows, m, e - 2);
    x.min(y.min(z))
}

// The row of m + 1 wires, out of that of the m wires after the first of them, whose loads are l.
fn mix(rows: &mut [u32; ROWS], m: usize, l: Loads)
    requires m_bound { m < most_children }
    requires loads_bound { (l.least ≤ 1000000) × (l.one ≤ 1000000) × (l.two ≤ 1000000) }
    requires by_index { (k : ℕ) → load_at rows.old (m * m) (m * 2) k ≤ 2000000000 }
    ensures { Mixed rows.old rows.new (m * m) (m * 2) ((m + 1) * (m + 1)) l.least l.one l.two }
{
    let to = (m + 1) * (m + 1);
    for e in 0..m * 2 + 3 {
        rows[to + e] = mixed_at(rows, m, e, l) as u32;
    }
}

// The rows of the wires from k on under a point, and of those after each: that of m wires at the square of m. Answers how many there are.
pub fn spread(c: Cell, rows: &mut [u32; ROWS], chains: &Chains, p: usize, k: usize) -> usize
    requires p_bound { p ≤ 1 }
    requires running { Running (model_of c) chains.now.links chains.now.slots p k }
    ensures { (f : Hanging) → Runs (model_of c) chains.now.links chains.now.slots p k f → Rows (model_of c) rows.new p result f }
{
    if k == 0 {
        rows[0] = 0;
        return 0;
    }
    let m = spread(c, rows, chains, p, chains.next(k));
    mix(rows, m, chains.loads(c, p, k));
    m + 1
}

// The least surplus at which a load of the row of m wires fits.
fn first_fit(rows: &[u32; ROWS], m: usize, limit: u64) -> Option<usize>
    requires { m ≤ most_children }
    ensures { MatchOption result (FirstFit rows.now (m * m) (m * 2) limit (m * 2 + 1)) (λ e. (e ≤ m * 2) × FirstFit rows.now (m * m) (m * 2) limit e) }
{
    for e in 0..m * 2 + 1 {
        if load_at(rows, m, e) <= limit {
            return Some(e);
        }
    }
    None
}

// What is kept of a node, off the row of its m wires.
fn close_row(c: Cell, rows: &[u32; ROWS], m: usize) -> Closed
    requires { m ≤ most_children }
    ensures { CloseIs (model_of c) rows.now m result.load result.more result.over }
{
    let Some(e) = first_fit(rows, m, c.limit) else {
        return Closed::NONE;
    };
    let load = load_at(rows, m, e);
    let more = load.min(load_at(rows, m, e + 1));
    Closed {
        load: load as u32,
        more: more as u32,
        over: (e + 1) as u32,
    }
}

// A node's state out of the slot k of its wires. Where their least loads fit it takes no surplus, and needs no row.
pub fn close(c: Cell, rows: &mut [u32; ROWS], chains: &Chains, p: usize, k: usize) -> Closed
    requires p_bound { (p ≤ 1) × (k < most_places) }
    requires asked_close { AskedClose (model_of c) chains.now.links chains.now.slots p k }
    ensures { (f : Hanging) → AsksClose (model_of c) chains.now.links chains.now.slots p k f → ClosedIs (model_of c) p f result.load result.more result.over }
{
    let slot = chains.slots[k * 2 + p];
    if slot.count == 0 {
        return Closed::NONE;
    }
    if slot.all_load as u64 <= c.limit {
        return Closed {
            load: slot.all_load,
            more: slot.all_load.min(slot.all_more),
            over: 1,
        };
    }
    let m = spread(c, rows, chains, p, k);
    close_row(c, rows, m)
}
