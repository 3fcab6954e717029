// What lies below a node, what a wire hands up, and what each entry drives, over a lent net and placement.
#![tactic(auto)]

ghost use Rattle.std.specs.Prelude.{◌≡◌, ℕ, ◌+◌, ◌≤◌, ◌<◌, false, List, [], eqb, length, get_or};
ghost use Rattle.std.proofs.Props.{props};
ghost use Rattle.rules.specs.Choose.{pick};
ghost use Rattle.rules.specs.Net.{Net, net_of};
ghost use Rattle.rules.specs.Load.{load_below, handed_up, driven, source_drives, offsets_on};
ghost use Rattle.load.specs.Next.{Parents, Searched, NoneFrom, Passed, NextIs};
ghost use Rattle.load.specs.Tables.{Clear, ClearTables, Spans, Parts, TablesOf};
ghost use Rattle.load.specs.Props.{InOrder-prop, Span-prop};
ghost use Rattle.load.specs.Asks.{offsets_at, Placed, Stacked, AsksNode, AsksWire, AskedNode, AskedWire};

use rules::{LentNet, LentPlacement, PLACES};

// A placement that stands on a net: the net is sound, and each entry is on a wire of it, in order.
#[derive(Clone, Copy)]
pub struct Standing<'a> {
    pub net: LentNet<'a>,
    pub placement: LentPlacement<'a>,
    pub ghost placed: { Placed (net_of net) placement.wires.now placement.offsets.now } by { Prim.hlevel (props, InOrder-prop) },
}

// The tables that the loads are told from. Of a wire: what it hands up by itself, and whether it asks no further down.
// Of a node: how far past it, less one, its first child is, and how far its last.
#[derive(Drop)]
pub struct Tables {
    pub own: [u32; PLACES],
    pub shut: [bool; PLACES],
    pub gap: [u16; PLACES],
    pub reach: [u16; PLACES],
}

impl Tables {
    // Before they are filled.
    pub fn clear() -> Tables
        ensures { ClearTables result }
    {
        Tables {
            own: [0; PLACES],
            shut: [false; PLACES],
            gap: [0; PLACES],
            reach: [0; PLACES],
        }
    }
}

// What a legal placement comes to: how many entries it has, and what the source drives.
#[derive(Clone, Copy)]
pub struct Weighed {
    pub count: usize,
    pub source: u64,
}

// How many nodes the search for a child looks at in one go.
const RUN: usize = 16;

// Whether one of the nodes from `from` up to `to` is a child. The loop goes to its end, so that many are compared at once.
fn any_child(parent: &[u16], node: u16, from: usize, to: usize) -> bool
    requires { (from ≤ to) × (to ≤ length parent.now) }
    ensures { result ≡ false → NoneFrom parent.now node from to }
{
    let mut found = false;
    for p in &parent[from..to] {
        found |= *p == node;
    }
    found
}

// Passes over whole runs of nodes past `after` that hold no child.
fn pass_runs(parent: &[u16], node: u16, after: usize) -> usize
    requires { after < length parent.now }
    ensures { Passed parent.now node after result }
{
    let mut j = after + 1;
    while RUN <= parent.len() - j {
        let end = j + RUN;
        if any_child(parent, node, j, end) {
            return j;
        }
        j = end;
    }
    j
}

// The lowest-numbered child of a node past another. Children often stand side by side, so the very next node is looked at first.
pub fn next_child(parent: &[u16], node: usize, after: usize) -> Option<usize>
    requires { Searched parent.now node after }
    ensures { NextIs parent.now node after result }
{
    let wanted = node as u16;
    let next = after + 1;
    if next == parent.len() {
        return None;
    }
    if parent[next] == wanted {
        return Some(next);
    }
    for j in pass_runs(parent, wanted, after)..parent.len() {
        if parent[j] == wanted {
            return Some(j);
        }
    }
    None
}

// How far the first child is past the node, less one: kept where a child has been seen.
fn first_gap(reach: u16, gap: u16, apart: u16) -> u16
    ensures { result ≡ pick (eqb reach 0) apart gap }
{
    if reach == 0 { apart } else { gap }
}

// How far past each node its last child is, and how far the nodes reach that are before its first: one pass over the parents.
fn span_children(parent: &[u16], gap: &mut [u16; PLACES], reach: &mut [u16; PLACES])
    requires parents { Parents parent.now }
    requires clear { Clear 0 gap.old × Clear 0 reach.old }
    ensures { Spans parent.now gap.new reach.new }
{
    for i in 1..parent.len() {
        let p = parent[i] as usize;
        let past = (i - p) as u16;
        gap[p] = first_gap(reach[p], gap[p], past - 1);
        reach[p] = past;
    }
}

// What a wire without entries hands up by itself: its size, and the pin of a sink.
fn bare(size: u32, kind: u8, pin: u32) -> u32
    requires { size + pin < 4294967296 }
    ensures { result ≡ pick (eqb kind 1) (size + pin) size }
{
    if kind == 1 {
        return size + pin;
    }
    size
}

// The parts of all wires while there are no entries: only those above a sink ask no further down.
fn bare_parts(on: &Standing, own: &mut [u32; PLACES], shut: &mut [bool; PLACES])
    requires clear { Clear 0 own.old × Clear false shut.old }
    ensures { Parts (net_of on.now.net) (offsets_on []) own.new shut.new }
{
    let net = &on.net;
    for i in 0..net.wire.len() {
        let kind = net.kind[i];
        own[i] = bare(net.wire[i], kind, net.pin[i]);
        shut[i] = kind == 1;
    }
}

// The entries, each in its turn: above its topmost one a wire hands up "w - om + C_b", and asks no further down.
fn cut_parts(on: &Standing, own: &mut [u32; PLACES], shut: &mut [bool; PLACES])
    requires parts { Parts (net_of on.now.net) (offsets_on []) own.old shut.old }
    ensures { Parts (net_of on.now.net) (offsets_at on.now.placement) own.new shut.new }
{
    let net = &on.net;
    for k in 0..on.placement.wires.len() {
        let entry = on.placement.entry(k);
        let i = entry.wire as usize;
        own[i] = net.wire[i] - entry.offset + net.limits.pin;
        shut[i] = true;
    }
}

// The four tables of a placement that stands, all clear before. The caller lends them, so that no call copies them.
pub fn make_tables(on: &Standing, tables: &mut Tables)
    requires clear { ClearTables tables.old }
    ensures { TablesOf (net_of on.now.net) (offsets_at on.now.placement) tables.new }
{
    span_children(on.net.parent, &mut tables.gap, &mut tables.reach);
    bare_parts(on, &mut tables.own, &mut tables.shut);
    cut_parts(on, &mut tables.own, &mut tables.shut);
}

// What lies below a branch point or the source: the sum of what the wires below it hand up.
// The tables spare the search before its first child and past its last.
#[cycle(handed_up_load_below)]
pub fn load_below(parent: &[u16], tables: &Tables, node: usize) -> u64
    requires { AskedNode parent.now tables.now node }
    ensures { (n : Net) (offs : ℕ → List ℕ) → AsksNode n offs parent.now tables.now node → result ≡ load_below n offs node }
{
    let mut sum: u64 = 0;
    let mut after = node + tables.gap[node] as usize;
    let last = node + tables.reach[node] as usize;
    while after < last {
        let Some(j) = next_child(parent, node, after) else {
            return sum;
        };
        sum += handed_up(parent, tables, j);
        after = j;
    }
    sum
}

// What a wire hands up: its own part, and where it has no entries what lies below its lower node.
#[cycle(handed_up_load_below)]
pub fn handed_up(parent: &[u16], tables: &Tables, i: usize) -> u64
    requires { AskedWire parent.now tables.now i }
    ensures { (n : Net) (offs : ℕ → List ℕ) → AsksWire n offs parent.now tables.now i → result ≡ handed_up n offs i }
{
    let part = tables.own[i] as u64;
    if tables.shut[i] {
        return part;
    }
    part + load_below(parent, tables, i)
}

// Whether an entry stands above another on its wire.
fn stacked(wires: &[u16], k: usize) -> bool
    requires { k < length wires.now }
    ensures { Stacked wires.now k result }
{
    0 < k && wires[k - 1] == wires[k]
}

// A placement that stands, and the tables that its loads are told from.
#[derive(Clone, Copy)]
pub struct Loads<'a, 't> {
    pub on: Standing<'a>,
    pub tables: &'t Tables,
    ghost told: { TablesOf (net_of on.net) (offsets_at on.placement) tables.now } by { Prim.hlevel (props, Span-prop) },
}

impl<'a, 't> Loads<'a, 't> {
    // The loads of a placement, by tables that were made of it.
    pub fn of(on: &Standing<'a>, tables: &'t Tables) -> Loads<'a, 't>
        requires told { TablesOf (net_of on.now.net) (offsets_at on.now.placement) tables.now }
        ensures { result.on ≡ on.now }
    {
        Loads { on: *on, tables }
    }

    // What entry k drives: the lowest on its wire its offset and what lies below the node, each next its offset less the one before and C_b.
    pub fn drives(&self, k: usize) -> u64
        requires { k < length self.now.on.placement.wires.now }
        ensures { result ≡ get_or (driven (net_of self.now.on.net) (offsets_at self.now.on.placement)) k 0 }
    {
        let net = &self.on.net;
        let placement = &self.on.placement;
        let i = placement.wires[k] as usize;
        let offset = placement.offsets[k] as u64;
        if stacked(placement.wires, k) {
            let before = placement.offsets[k - 1] as u64;
            return offset - before + net.limits.pin as u64;
        }
        if net.kind[i] == 1 {
            let sink = net.pin[i] as u64;
            return offset + sink;
        }
        offset + load_below(net.parent, self.tables, i)
    }

    // What the source drives.
    pub fn source(&self) -> u64
        ensures { result ≡ source_drives (net_of self.now.on.net) (offsets_at self.now.on.placement) }
    {
        load_below(self.on.net.parent, self.tables, 0)
    }
}
