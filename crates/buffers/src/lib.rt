// A least completion of a net of buffers, by one pass from the last node up: an overfull node gets buffers atop its heaviest wires, a long wire takes its own as far
// apart as they may be.
#![tactic(auto)]

ghost use Rattle.std.specs.Prelude.{◌≡◌, List, ℕ, None, suc, ◌+◌, ◌-◌, ◌*◌, ◌<◌, ◌≤◌, length, get_or, replicate};
ghost use Rattle.rules.specs.Figures.{most_wire, most_places};
ghost use Rattle.rules.specs.Net.{net_of, places};
ghost use Rattle.rules.specs.Sound.{SoundNet};
ghost use Rattle.states.specs.States.{model_of};
ghost use Rattle.relief.specs.Pieces;
ghost use Rattle.relief.specs.Pieces.{most_piece, bare};
ghost use Rattle.buffers.specs.Chain.{Chain, Chained, Heaviest};
ghost use Rattle.buffers.specs.Easing.{Loaded, Eased};
ghost use Rattle.buffers.specs.Going.{lead_from, leads_in, Led, tables, Going, Tried, AtNode, AtWire};

use rules::{LentNet, Refusal};
use states::Cell;

// The places of a table over nodes.
pub const PLACES: usize = 1025;

// What lies below each node; what each wire hands up, and how many buffers stand atop it for its parent's sake, none or one; and links that chain each node's wires,
// by index, since there is no heap: a link past the table ends a chain.
#[derive(Drop)]
pub struct Tables {
    pub below: [u32; PLACES],
    pub tops: [u32; PLACES],
    pub on: [u8; PLACES],
    pub links: [u16; PLACES],
}

// The lead of wire i, the offset of its topmost given buffer. There may be none past some wire.
fn lead_at(leads: &[Option<u32>], i: usize) -> Option<u32>
    ensures { result ≡ get_or leads.now i None }
{
    if i < leads.len() { leads[i] } else { None }
}

// The uppermost piece of a wire of size w over the load h, by the wire's lead: its size and what hangs below it. To what is above it a given buffer is a pin.
fn piece(c: Cell, w: u64, lead: Option<u32>, h: u64) -> u64
    requires { (w ≤ most_wire) × (h ≤ c.limit) × (lead_from lead ≤ suc w) }
    ensures { (result ≡ Pieces.piece (model_of c) w (lead_from lead) h) × (result ≤ most_piece) }
{
    match lead {
        None => w + h,
        Some(o) => w - u64::from(o) + c.pin,
    }
}

// What the wire hands up with as few buffers as serve.
fn hand(c: Cell, w: u64, lead: Option<u32>, h: u64) -> u64
    requires { (w ≤ most_wire) × (h ≤ c.limit) × (lead_from lead ≤ suc w) }
    ensures { (result ≡ bare (model_of c) w (lead_from lead) h) × (result ≤ c.limit) }
{
    let v = piece(c, w, lead, h);
    if v <= c.limit {
        return v;
    }
    v - c.ceil(v) * c.span
}

impl Tables {
    // Before the way up: no wire is joined to its parent.
    pub fn blank() -> Tables
        ensures { result ≡ tables (replicate most_places 0) (replicate most_places 0) (replicate most_places 0) (replicate most_places most_places) }
    {
        Tables {
            below: [0; PLACES],
            tops: [0; PLACES],
            on: [0; PLACES],
            links: [1025; PLACES],
        }
    }

    // The heaviest wire of a chain that hands up more than the pin.
    fn heaviest(&self, first: usize, pin: u32) -> Option<usize>
        requires { Chained self.now.links self.now.tops first }
        ensures { (js : List ℕ) → Chain (length self.now.tops) self.now.links first js → Heaviest self.now.tops pin js result }
    {
        let mut best = None;
        let mut most = pin;
        let mut j = first;
        while j < self.tops.len() {
            let top = self.tops[j];
            if most < top {
                most = top;
                best = Some(j);
            }
            j = self.links[j] as usize;
        }
        best
    }

    // Buffers atop the heaviest wires of a chain until its load fits, or none is heavier than the pin. Answers the load.
    fn relieve(&mut self, c: Cell, first: usize, load: u64) -> u64
        requires { Loaded (model_of c) self.old.links self.old.tops self.old.on first load }
        ensures eased { (js : List ℕ) → Chain (length self.old.tops) self.old.links first js → Eased (model_of c) self.old.tops self.old.on self.new.tops self.new.on js result }
        ensures others { (self.new.below ≡ self.old.below) × (self.new.links ≡ self.old.links) }
    {
        let pin = c.pin as u32;
        let mut h = load;
        while c.limit < h {
            let Some(j) = self.heaviest(first, pin) else {
                return h;
            };
            h -= u64::from(self.tops[j] - pin);
            self.tops[j] = pin;
            self.on[j] = 1;
        }
        h
    }

    // Node i gets its load, with its wires topped where they must be: 8 where it cannot be brought within the limit.
    fn ease_node(&mut self, c: Cell, net: &LentNet, i: usize) -> Result<(), Refusal>
        requires { (L : ℕ → ℕ) × AtNode (model_of c) (net_of net.now) L self.old i }
        ensures { (L : ℕ → ℕ) → AtNode (model_of c) (net_of net.now) L self.old i → Tried (model_of c) (net_of net.now) L self.new (suc i) i result }
    {
        if net.kind[i] == 1 {
            let pin = net.pin[i];
            if c.limit < u64::from(pin) {
                return Err(Refusal::NoLegalPlacement);
            }
            self.below[i] = pin;
            return Ok(());
        }
        let sum = u64::from(self.below[i]);
        if sum <= c.limit {
            return Ok(());
        }
        let first = self.links[i] as usize;
        let load = self.relieve(c, first, sum);
        if c.limit < load {
            return Err(Refusal::NoLegalPlacement);
        }
        self.below[i] = load as u32;
        Ok(())
    }

    // Wire i is joined to its parent.
    fn push_wire(&mut self, c: Cell, net: &LentNet, leads: &[Option<u32>], i: usize)
        requires { AtWire (model_of c) (net_of net.now) leads.now self.old i }
        ensures { Going (model_of c) (net_of net.now) (leads_in leads.now) self.new i i }
    {
        let p = net.parent[i] as usize;
        let w = u64::from(net.wire[i]);
        let h = u64::from(self.below[i]);
        let top = hand(c, w, lead_at(leads, i), h) as u32;
        self.below[p] += top;
        self.tops[i] = top;
        self.links[i] = self.links[p];
        self.links[p] = i as u16;
    }

    // From the last node to the source: 8 where a node cannot be brought within the limit.
    pub fn ascend(&mut self, c: Cell, net: &LentNet, leads: &[Option<u32>]) -> Result<(), Refusal>
        requires sound { SoundNet (net_of net.now) × Led (net_of net.now) leads.now }
        requires blank { Going (model_of c) (net_of net.now) (leads_in leads.now) self.old (places (net_of net.now)) (places (net_of net.now)) }
        ensures { Tried (model_of c) (net_of net.now) (leads_in leads.now) self.new 1 0 result }
    {
        // A copy of the slices, which the compiler need not read again after each write to the tables.
        let net = *net;
        for i in (1..net.parent.len()).rev() {
            self.ease_node(c, &net, i)?;
            self.push_wire(c, &net, leads, i);
        }
        self.ease_node(c, &net, 0)
    }
}
