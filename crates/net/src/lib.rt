// The judge of a net's columns: the call that every other call makes first.
#![tactic(auto)]

ghost use Rattle.std.specs.Prelude.{MatchResult, ◌≡◌, ◌+◌, ◌<◌, ◌≤◌, length, get_or, set};
ghost use Rattle.rules.specs.Net.{net_of};
ghost use Rattle.rules.specs.Judge.{columns_fit, limits_in_range, end_in_range, node_in_range, parent_fits, admitted, has_child, childed_by, judged};
ghost use Rattle.net.specs.Counted.{node_clear, Level, Tallied, NodesJudged, tree_judged};

use rules::{
    CHILDREN, JudgedNet, LentNet, Limits, MOST_LIMIT, MOST_PIN, MOST_WIRE, Node, PLACES, Refusal,
};

// 7: the columns are equal, not empty, and at most 1,025 long.
fn columns_fit(net: &LentNet) -> bool
    ensures { result ≡ columns_fit (net_of net.now) }
{
    let places = net.parent.len();
    let some = (0 < places) & (places <= PLACES);
    let ends = (net.kind.len() == places)
        & ((net.pin.len() == places) & ((net.polarity.len() == places) & some));
    (net.wire.len() == places) & ends
}

// The limits are in their ranges. The pin is doubled in 64 bits: it has no upper end of its own.
pub fn limits_in_range(l: Limits) -> bool
    ensures { result ≡ limits_in_range l }
{
    let twice = 2 * (l.pin as u64);
    (0 < l.limit) & ((l.limit <= MOST_LIMIT) & ((twice < l.limit as u64) & (l.repeater <= 1)))
}

// Node 0's five places hold 0.
fn source_clear(d: Node) -> bool
    ensures { result ≡ node_clear d }
{
    let end = (d.kind == 0) & ((d.pin == 0) & (d.polarity == 0));
    (d.parent == 0) & ((d.wire == 0) & end)
}

// A node's values are in their ranges.
fn node_in_range(l: Limits, d: Node) -> bool
    ensures { result ≡ node_in_range l d }
{
    (d.wire <= MOST_WIRE) & end_in_range(l, d)
}

fn end_in_range(l: Limits, d: Node) -> bool
    ensures { result ≡ end_in_range l d }
{
    if d.kind == 1 {
        return (d.pin <= MOST_PIN) & (d.polarity <= l.repeater);
    }
    (d.kind == 0) & ((d.pin == 0) & (d.polarity == 0))
}

// The parent p of node i is lower, no sink, and has room for a child; and i is no node past the last.
fn parent_fits(i: usize, p: usize, kinds: &[u8], counts: &[u8; PLACES]) -> bool
    requires { i ≤ length kinds.now }
    ensures { result ≡ parent_fits i p (get_or kinds.now p 0) (get_or counts.now p 0) }
{
    if PLACES <= i {
        return false;
    }
    if i <= p {
        return false;
    }
    (kinds[p] == 0) & (counts[p] < CHILDREN)
}

// Node i, over the kinds of the nodes before it and the children that each has so far: 3 before 4. A refusal is at `place`.
pub fn admit(
    l: Limits,
    d: Node,
    i: usize,
    kinds: &[u8],
    counts: &[u8; PLACES],
    place: usize,
) -> Result<(), Refusal>
    requires { i ≤ length kinds.now }
    ensures { result ≡ admitted l d i (get_or kinds.now d.parent 0) (get_or counts.now d.parent 0) place }
{
    if !node_in_range(l, d) {
        return Err(Refusal::OutOfRange(place));
    }
    if !parent_fits(i, d.parent as usize, kinds, counts) {
        return Err(Refusal::WrongParent(place));
    }
    Ok(())
}

// One child more of node p.
pub fn tally(counts: &mut [u8; PLACES], p: usize)
    requires { (p < 1025) × (get_or counts.old p 0 < 8) }
    ensures { counts.new ≡ set counts.old p (get_or counts.old p 0 + 1) }
{
    counts[p] += 1;
}

// Node i of the kind k with c children: a branch point or the source needs one.
fn has_child(i: usize, k: u8, c: u8) -> Result<(), Refusal>
    ensures { result ≡ has_child i k c }
{
    if (k == 0) & (c == 0) {
        return Err(Refusal::Childless(i));
    }
    Ok(())
}

// The nodes 0 to n - 1: the lowest childless one is refused.
pub fn all_childed(kinds: &[u8], counts: &[u8; PLACES], n: usize) -> Result<(), Refusal>
    requires { (n ≤ length kinds.now) × (n ≤ 1025) }
    ensures { result ≡ childed_by (λ j. get_or kinds.now j 0) (λ j. get_or counts.now j 0) n }
{
    for i in 0..n {
        has_child(i, kinds[i], counts[i])?;
    }
    Ok(())
}

// The nodes from 1 up, each admitted over those before it. Where all are, `counts` holds the children of each.
fn judge_nodes(net: &LentNet, counts: &mut [u8; PLACES]) -> Result<(), Refusal>
    requires { Level (net_of net.now) × Tallied (net_of net.now) counts.old 1 }
    ensures { NodesJudged (net_of net.now) counts.new result }
{
    for i in 1..net.parent.len() {
        let d = net.node(i);
        admit(net.limits, d, i, net.kind, counts, i)?;
        tally(counts, d.parent as usize);
    }
    Ok(())
}

// The nodes one by one, then the childless: the first refusal.
fn judge_in_order(net: &LentNet) -> Result<(), Refusal>
    requires { Level (net_of net.now) }
    ensures { result ≡ tree_judged (net_of net.now) }
{
    let mut counts = [0; PLACES];
    judge_nodes(net, &mut counts)?;
    all_childed(net.kind, &counts, net.parent.len())
}

// A net's columns: the first refusal in the order of RULES 5.4, or that they are sound.
pub fn judge(net: &LentNet) -> Result<(), Refusal>
    ensures { result ≡ judged (net_of net.now) }
{
    if !columns_fit(net) {
        return Err(Refusal::WrongColumns);
    }
    if !limits_in_range(net.limits) {
        return Err(Refusal::OutOfRange(0));
    }
    if !source_clear(net.node(0)) {
        return Err(Refusal::OutOfRange(0));
    }
    if screen::passes(net) {
        return Ok(());
    }
    judge_in_order(net)
}

// The same net, known to be sound, or the first refusal.
pub fn judged<'a>(net: &LentNet<'a>) -> Result<JudgedNet<'a>, Refusal>
    ensures { MatchResult result (λ (s : JudgedNet). (s.net ≡ net.now) × (judged (net_of net.now) ≡ Ok tt)) (λ (r : Refusal). judged (net_of net.now) ≡ Err r) }
{
    judge(net)?;
    Ok(JudgedNet { net: *net })
}
