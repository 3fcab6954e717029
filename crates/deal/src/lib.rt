// A node's surplus dealt out to its wires once, along their chain.
#![tactic(auto)]

ghost use Rattle.std.specs.Prelude.{ℕ, ◌≡◌, ◌*◌, ◌<◌, ◌≤◌, min};
ghost use Rattle.rules.specs.Figures.{most_places, most_children};
ghost use Rattle.rules.specs.Tree.{Hanging};
ghost use Rattle.frontier.specs.Cell as model;
ghost use Rattle.states.specs.States.{model_of};
ghost use Rattle.surplus.specs.Rows.{load_at};
ghost use Rattle.surplus.specs.Dealt.{f3, Shared};
ghost use Rattle.surplus.specs.Asks.{Gains, Asks, Asked, Out, AsksMore, AskedMore};

use rows::{Chains, Loads, PLACES, ROWS};
use states::Cell;

// Whether wire j gains by a surplus of 1 more than the wires after it, which have the slot `next`.
fn gains(chains: &Chains, p: usize, j: usize, next: usize) -> bool
    requires { (p ≤ 1) × (j < most_places) × (next < most_places) }
    ensures { Gains chains.now.slots p j next result }
{
    let own = chains.slots[j * 2 + p];
    let rest = chains.slots[next * 2 + p];
    let without = own.load as u64 + rest.all_more as u64;
    let with = own.more as u64 + rest.all_load as u64;
    with < without
}

// Deals a surplus of 1 out to the wires from k on under a point: the first that gains by it takes it.
fn deal_one(chains: &Chains, p: usize, k: usize, parts: &mut [u8; PLACES])
    requires { (p ≤ 1) × ((τ : model.Cell) × Asked τ chains.now.links chains.now.slots parts.old p k) }
    ensures { (τ : model.Cell) (f : Hanging) → Asks τ chains.now.links chains.now.slots parts.old p k f → Out τ parts.old parts.new p 1 f }
{
    let mut j = k;
    while j != 0 {
        let next = chains.next(j);
        if gains(chains, p, j, next) {
            parts[j] = 1;
            return;
        }
        j = next;
    }
}

// Which of three is least, the first on a tie.
fn least_of(x: u64, y: u64, z: u64) -> usize
    ensures { (result ≤ 2) × (f3 result x y z ≡ min x (min y z)) }
{
    if z < x.min(y) {
        return 2;
    }
    usize::from(y < x)
}

// How much of the surplus e a wire takes that hands up l; the m wires after it have their row.
fn share(rows: &[u32; ROWS], m: usize, e: usize, l: Loads) -> usize
    requires m_bound { m ≤ most_children }
    requires loads_bound { (l.least ≤ 1000000) × (l.one ≤ 1000000) × (l.two ≤ 1000000) }
    requires by_index { (k : ℕ) → load_at rows.now (m * m) (m * 2) k ≤ 2000000000 }
    ensures { Shared (load_at rows.now (m * m) (m * 2)) e l.least l.one l.two result }
{
    if e == 0 {
        return 0;
    }
    let x = l.least + rows::load_at(rows, m, e);
    let y = l.one + rows::load_at(rows, m, e - 1);
    if e == 1 {
        return usize::from(y < x);
    }
    let z = l.two + rows::load_at(rows, m, e - 2);
    least_of(x, y, z)
}

// Deals a surplus of e out to the n wires from k on under a point; the row of the last m of them stands at the square of m.
fn deal_more(
    c: Cell,
    rows: &[u32; ROWS],
    chains: &Chains,
    p: usize,
    k: usize,
    n: usize,
    e: usize,
    parts: &mut [u8; PLACES],
)
    requires p_bound { (p ≤ 1) × (n ≤ most_children) }
    requires asked_more { AskedMore (model_of c) rows.now chains.now.links chains.now.slots parts.old p k n }
    ensures { (f : Hanging) → AsksMore (model_of c) rows.now chains.now.links chains.now.slots parts.old p k n f → Out (model_of c) parts.old parts.new p e f }
{
    let mut left = e;
    let mut j = k;
    for m in (0..n).rev() {
        let s = share(rows, m, left, chains.loads(c, p, j));
        parts[j] = s as u8;
        left -= s;
        j = chains.next(j);
    }
}

// Deals a surplus of e, of at least 1, out to the wires from k on under a point. A surplus of 1 needs no rows.
pub fn deal(
    c: Cell,
    rows: &mut [u32; ROWS],
    chains: &Chains,
    p: usize,
    k: usize,
    e: usize,
    parts: &mut [u8; PLACES],
)
    requires p_bound { p ≤ 1 }
    requires asked { Asked (model_of c) chains.now.links chains.now.slots parts.old p k }
    ensures { (f : Hanging) → Asks (model_of c) chains.now.links chains.now.slots parts.old p k f → Out (model_of c) parts.old parts.new p e f }
{
    if e == 1 {
        deal_one(chains, p, k, parts);
        return;
    }
    let n = rows::spread(c, rows, chains, p, k);
    deal_more(c, rows, chains, p, k, n, e, parts);
}
