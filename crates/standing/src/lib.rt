// Whether a placement stands on a net: the net's own refusals, then 7 for the placement's columns, then 10 for its entries.
#![tactic(auto)]

ghost use Rattle.std.specs.Prelude.{◌≡◌};
ghost use Rattle.rules.specs.Choose.{both};
ghost use Rattle.rules.specs.Net.{Net, net_of};
ghost use Rattle.rules.specs.Checked.{on_its_wire, not_lower};
ghost use Rattle.standing.specs.Stands.{stood, begun, StandsIs, HasWires};

use load::Standing;
use rules::{ENTRIES, Entry, LentNet, LentPlacement, Refusal};

// Whether an entry stands on a wire, and not before another: the tests of 10.
fn entry_stands(wire: &[u32], before: Entry, entry: Entry) -> bool
    ensures { (n : Net) → HasWires n wire.now → result ≡ both (on_its_wire n entry) (not_lower before entry) }
{
    let on = entry.wire as usize;
    0 < on && on < wire.len() && entry.offset <= wire[on] && before <= entry
}

// 7 and 10: the columns of a placement fit, and each entry stands on a wire and not before the one before it.
pub fn entries_stand(wire: &[u32], placement: &LentPlacement) -> Result<(), Refusal>
    ensures { (n : Net) → HasWires n wire.now → result ≡ stood n placement.now.wires.now placement.now.offsets.now }
{
    let count = placement.wires.len();
    if placement.offsets.len() != count || ENTRIES < count {
        return Err(Refusal::WrongColumns);
    }
    let mut before = Entry { wire: 0, offset: 0 };
    for k in 0..count {
        let entry = placement.entry(k);
        if !entry_stands(wire, before, entry) {
            return Err(Refusal::Misplaced(k));
        }
        before = entry;
    }
    Ok(())
}

// What every call on a placement begins with: the net's refusals, then 7 and 10.
pub fn judge(net: &LentNet, placement: &LentPlacement) -> Result<(), Refusal>
    ensures { result ≡ begun (net_of net.now) placement.now.wires.now placement.now.offsets.now }
{
    net::judge(net)?;
    entries_stand(net.wire, placement)
}

// The same, for calls that go on from there: the net and the placement, known to stand.
pub fn stands<'a>(net: &LentNet<'a>, placement: &LentPlacement<'a>) -> Result<Standing<'a>, Refusal>
    ensures { StandsIs net.now placement.now result }
{
    judge(net, placement)?;
    Ok(Standing {
        net: *net,
        placement: *placement,
    })
}
