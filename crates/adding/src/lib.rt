// The entries that are added to the given ones, counted and written wire after wire beside them.
#![tactic(auto)]

ghost use Rattle.std.specs.Prelude.{◌≡◌, [], ◌+◌, ◌-◌, ◌≤◌, ◌<◌, length};
ghost use Rattle.rules.specs.Figures.{most_wire, most_places};
ghost use Rattle.rules.specs.Load.{offsets_on};
ghost use Rattle.frontier.specs.Frontier;
ghost use Rattle.frontier.specs.Spaced.{spread};
ghost use Rattle.columns.specs.Columns.{Holds};
ghost use Rattle.states.specs.States.{model_of};
ghost use Rattle.relief.specs.Pieces.{most_piece, added_from};
ghost use Rattle.relief.specs.Runs;
ghost use Rattle.adding.specs.Walks.{added, IsReady, IsWire, begun, BeginsIn, CountsIn, Stores, WroteIn, WroteAllIn, Room};

use buffers::Tables;
use columns::Run;
use rules::LentPlacement;
use states::Cell;

// A half-buffered net after the way up: its limits, the sizes of its wires, the tables, and the given entries.
#[derive(Clone, Copy)]
pub struct Half<'a> {
    pub cell: Cell,
    pub wire: &'a [u32],
    pub tables: &'a Tables,
    pub given: &'a LentPlacement<'a>,
}

// A wire: its number and size, what lies below it, and how many buffers stand at its upper end for its parent's sake.
#[derive(Clone, Copy)]
pub struct Wire {
    pub number: u16,
    pub size: u64,
    pub below: u64,
    pub top: usize,
}

// Where the walk through a wire's given entries has come to: the next entry, the place in the list of added ones, and the piece above: where it begins and what hangs
// there.
#[derive(Clone, Copy)]
pub struct Walked {
    pub next: usize,
    pub to: usize,
    pub at: u64,
    pub load: u64,
}

impl Wire {
    // Wire i, by the sizes and the tables.
    pub fn at(wire: &[u32], tables: &Tables, i: usize) -> Wire
        requires { (i < most_places) × (i < length wire.now) }
        ensures { IsWire wire.now tables.now.below tables.now.on i result }
    {
        Wire {
            number: i as u16,
            size: u64::from(wire[i]),
            below: u64::from(tables.below[i]),
            top: usize::from(tables.on[i]),
        }
    }

    // At its lower end, before entry `next` and the place `to`.
    pub fn begin(self, next: usize, to: usize) -> Walked
        ensures { result ≡ begun self next to }
    {
        Walked {
            next: next,
            to: to,
            at: 0,
            load: self.below,
        }
    }
}

// How many buffers a piece of wire takes, v its size and what hangs below it.
pub fn takes(c: Cell, v: u64) -> usize
    requires { v ≤ most_piece }
    ensures { (result ≡ Frontier.ceil (model_of c) v) × (result ≤ most_piece) }
{
    c.ceil(v) as usize
}

// The entries of the piece of wire i that the walk has come to, up to w. Answers the place after them.
fn write_piece(c: Cell, wires: &mut [u16], offs: &mut [u32], i: u16, w: u64, walk: Walked) -> usize
    requires fits { (walk.at ≤ w) × (w ≤ most_wire) × (walk.load ≤ c.limit) }
    requires room { Room (spread (model_of c) w walk.at walk.load (Frontier.ceil (model_of c) ((w - walk.at) + walk.load))) walk.to wires.old offs.old }
    ensures { (result ≡ walk.to + Frontier.ceil (model_of c) ((w - walk.at) + walk.load)) × Stores (spread (model_of c) w walk.at walk.load (Frontier.ceil (model_of c) ((w - walk.at) + walk.load))) i walk.to wires.old offs.old wires.new offs.new }
{
    let count = takes(c, (w - walk.at) + walk.load);
    if count == 0 {
        return walk.to;
    }
    let run = Run {
        wire: i,
        size: w,
        lowest: w.min(walk.at + (c.limit - walk.load)),
        span: c.span,
        count: count,
    };
    columns::write_spaced(wires, offs, walk.to, run);
    walk.to + count
}

// The entries of wire x from where the walk has come to, with nothing given above, and those at its upper end. Answers the place after them.
pub fn write_above(c: Cell, x: Wire, wires: &mut [u16], offs: &mut [u32], walk: Walked) -> usize
    requires fits { (walk.at ≤ x.size) × (x.size ≤ most_wire) × (walk.load ≤ c.limit) }
    requires room { Room (added_from (model_of c) x.size x.top walk.at walk.load []) walk.to wires.old offs.old }
    ensures { (result ≡ walk.to + length (added_from (model_of c) x.size x.top walk.at walk.load [])) × Stores (added_from (model_of c) x.size x.top walk.at walk.load []) x.number walk.to wires.old offs.old wires.new offs.new }
{
    let next = write_piece(c, wires, offs, x.number, x.size, walk);
    let run = Run {
        wire: x.number,
        size: x.size,
        lowest: x.size,
        span: 0,
        count: x.top,
    };
    columns::write_spaced(wires, offs, next, run);
    next + x.top
}

impl Half<'_> {
    // Passes the given entries of wire x from entry `from` on, and counts what is added below and between them.
    fn count_given(&self, x: Wire, from: usize, to: usize) -> Walked
        requires { BeginsIn self.now from x × (to ≤ 100000000000000) }
        ensures { CountsIn self.now from x to result }
    {
        let mut walk = x.begin(from, to);
        while walk.next < self.given.wires.len() && self.given.wires[walk.next] == x.number {
            let o = u64::from(self.given.offsets[walk.next]);
            walk.to += takes(self.cell, (o - walk.at) + walk.load);
            walk.at = o;
            walk.load = self.cell.pin;
            walk.next += 1;
        }
        walk
    }

    // Passes the given entries of wire x from entry `from` on, and writes what is added below and between them.
    fn write_given(
        &self,
        x: Wire,
        wires: &mut [u16],
        offs: &mut [u32],
        from: usize,
        to: usize,
    ) -> Walked
        requires begins { BeginsIn self.now from x }
        requires room { Room (added_from (model_of self.now.cell) x.size x.top 0 x.below (offsets_on (Runs.from self.now.given.now.wires.now self.now.given.now.offsets.now from) x.number)) to wires.old offs.old }
        ensures { WroteIn self.now from x to result wires.old offs.old wires.new offs.new }
    {
        let mut walk = x.begin(from, to);
        while walk.next < self.given.wires.len() && self.given.wires[walk.next] == x.number {
            let o = u64::from(self.given.offsets[walk.next]);
            walk.to = write_piece(self.cell, wires, offs, x.number, o, walk);
            walk.at = o;
            walk.load = self.cell.pin;
            walk.next += 1;
        }
        walk
    }

    // All that is added to wire x, whose given entries stand from entry `from` on.
    fn write_wire(
        &self,
        x: Wire,
        wires: &mut [u16],
        offs: &mut [u32],
        from: usize,
        to: usize,
    ) -> Walked
        requires begins { BeginsIn self.now from x }
        requires room { Room (added_from (model_of self.now.cell) x.size x.top 0 x.below (offsets_on (Runs.from self.now.given.now.wires.now self.now.given.now.offsets.now from) x.number)) to wires.old offs.old }
        ensures { WroteAllIn self.now from x to result wires.old offs.old wires.new offs.new }
    {
        let mut walk = self.write_given(x, wires, offs, from, to);
        walk.to = write_above(self.cell, x, wires, offs, walk);
        walk
    }

    // How many entries are added.
    pub fn count_all(&self) -> u64
        requires { IsReady self.now }
        ensures { result ≡ length (added self.now) }
    {
        let mut next = 0;
        let mut to = 0;
        for i in 1..self.wire.len() {
            let x = Wire::at(self.wire, self.tables, i);
            let walk = self.count_given(x, next, to);
            to = walk.to + takes(self.cell, (x.size - walk.at) + walk.load) + x.top;
            next = walk.next;
        }
        to as u64
    }

    // All m entries that are added, in list order, into the first places of the lent columns.
    pub fn write_all(&self, wires: &mut [u16], offs: &mut [u32], m: usize)
        requires ready { IsReady self.now }
        requires m_value { (m ≡ length (added self.now)) × (m ≤ length wires.old) × (m ≤ length offs.old) }
        ensures { Holds (added self.now) wires.old offs.old wires.new offs.new }
    {
        let mut i = 1;
        let mut next = 0;
        let mut to = 0;
        while to < m {
            let x = Wire::at(self.wire, self.tables, i);
            let walk = self.write_wire(x, wires, offs, next, to);
            to = walk.to;
            next = walk.next;
            i += 1;
        }
    }
}
