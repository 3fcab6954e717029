// The checker: judges anybody's placement on a net.
#![tactic(auto)]

ghost use Rattle.std.specs.Prelude.{◌≡◌};
ghost use Rattle.rules.specs.Net.{net_of};
ghost use Rattle.rules.specs.Load.{driven};
ghost use Rattle.rules.specs.Checked.{within_limit};
ghost use Rattle.load.specs.Asks.{offsets_at};
ghost use Rattle.checker.specs.Verdict.{settled, weighed, verdict};

pub use load::Weighed;
use load::{Loads, Standing, Tables};
use rules::{LentNet, LentPlacement, Refusal};

// 11 for the entries.
fn entries_within_limit(loads: &Loads) -> Result<(), Refusal>
    ensures { result ≡ within_limit loads.now.on.net.limits.limit 0 (driven (net_of loads.now.on.net) (offsets_at loads.now.on.placement)) }
{
    let most = loads.on.net.limits.limit as u64;
    for entry in 0..loads.on.placement.wires.len() {
        if most < loads.drives(entry) {
            return Err(Refusal::Overloaded(entry));
        }
    }
    Ok(())
}

// 11 for the source, and then 12.
fn settle(loads: &Loads) -> Result<Weighed, Refusal>
    ensures { result ≡ settled (net_of loads.now.on.net) loads.now.on.placement.wires.now loads.now.on.placement.offsets.now }
{
    let count = loads.on.placement.wires.len();
    let source = loads.source();
    if (loads.on.net.limits.limit as u64) < source {
        return Err(Refusal::Overloaded(count));
    }
    senses::judge(&loads.on)?;
    Ok(Weighed { count, source })
}

// 11 and 12.
fn weigh(on: &Standing) -> Result<Weighed, Refusal>
    ensures { result ≡ weighed (net_of on.now.net) on.now.placement.wires.now on.now.placement.offsets.now }
{
    let mut tables = Tables::clear();
    load::make_tables(on, &mut tables);
    let loads = Loads::of(on, &tables);
    entries_within_limit(&loads)?;
    settle(&loads)
}

// Judges a placement on a net, whoever made it (RULES 6.12): the net's refusals, 7, 10, 11, 12, or how many entries it has and what the source drives.
pub fn check(net: &LentNet, placement: &LentPlacement) -> Result<Weighed, Refusal>
    ensures { result ≡ verdict (net_of net.now) placement.now.wires.now placement.now.offsets.now }
{
    let on = standing::stands(net, placement)?;
    weigh(&on)
}
