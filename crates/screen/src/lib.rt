// Passes a net that is plainly sound. No node stops a pass, so that many are looked at together. A no decides nothing: the judge then goes
// node by node, and names the fault.
#![tactic(auto)]

ghost use Rattle.std.specs.Prelude.{◌≡◌, ◌≤◌, length, get_or};
ghost use Rattle.rules.specs.Net.{net_of};
ghost use Rattle.screen.specs.Screened.{Level, Every, node_fits, count_fits, Passed};

use rules::{CHILDREN, LentNet, MOST_PIN, MOST_WIRE, PLACES};

// The nodes from 1 up: in their ranges, and each under a lower one.
fn nodes_fit(net: &LentNet) -> bool
    requires { Level (net_of net.now) }
    ensures { Every (node_fits (net_of net.now)) 1 (length net.now.parent.now) result }
{
    let mut fine = true;
    for i in 1..net.parent.len() {
        let k = net.kind[i];
        let q = net.polarity[i];
        let end = (net.pin[i] <= MOST_PIN * (k as u32)) & (q <= k) & (q <= net.limits.repeater);
        let here = (net.wire[i] <= MOST_WIRE) & (k <= 1) & end & (net.parent[i] < i as u16);
        fine = here & fine;
    }
    fine
}

// The children of each node: none under a sink, one to eight elsewhere.
fn counts_fit(kinds: &[u8], counts: &[u16; PLACES]) -> bool
    requires { length kinds.now ≤ 1025 }
    ensures { Every (λ v. count_fits (get_or kinds.now v 0) (get_or counts.now v 0)) 0 (length kinds.now) result }
{
    let mut fine = true;
    for (v, kind) in kinds.iter().enumerate() {
        let c = counts[v];
        fine = (c <= CHILDREN as u16) & ((*kind == 0) == (0 < c)) & fine;
    }
    fine
}

// Parents are known to be lower before they are counted, and no node has more children than there are nodes: 16 bits hold any count.
pub fn passes(net: &LentNet) -> bool
    requires { Level (net_of net.now) }
    ensures { Passed (net_of net.now) result }
{
    if !nodes_fit(net) {
        return false;
    }
    let mut counts = [0u16; PLACES];
    for i in 1..net.parent.len() {
        let p = net.parent[i] as usize;
        counts[p] += 1;
    }
    counts_fit(net.kind, &counts)
}
