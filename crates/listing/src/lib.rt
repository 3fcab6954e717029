// The list of loads: what each entry of a placement drives, and the source.
#![tactic(auto)]

ghost use Rattle.std.specs.Prelude.{◌≡◌, ◌≤◌, length};
ghost use Rattle.std.proofs.lemmas.List.Edits.{sets};
ghost use Rattle.rules.specs.Net.{net_of};
ghost use Rattle.rules.specs.Load.{driven, source_drives};
ghost use Rattle.load.specs.Asks.{offsets_at};
ghost use Rattle.listing.specs.Listing.{ListedIs};

pub use load::Weighed;
use load::{Loads, Standing, Tables};
use rules::{LentNet, LentPlacement, Refusal};

// What each entry drives, in list order, into a column that has room.
fn fill_drives(loads: &Loads, out: &mut [u64])
    requires { length loads.now.on.placement.wires.now ≤ length out.old }
    ensures { out.new ≡ sets out.old 0 (driven (net_of loads.now.on.net) (offsets_at loads.now.on.placement)) }
{
    for k in 0..loads.on.placement.wires.len() {
        out[k] = loads.drives(k);
    }
}

// What each entry drives into a column that has room, and the source's load.
fn list_loads(on: &Standing, out: &mut [u64]) -> u64
    requires { length on.now.placement.wires.now ≤ length out.old }
    ensures value { result ≡ source_drives (net_of on.now.net) (offsets_at on.now.placement) }
    ensures out_after { out.new ≡ sets out.old 0 (driven (net_of on.now.net) (offsets_at on.now.placement)) }
{
    let mut tables = Tables::clear();
    load::make_tables(on, &mut tables);
    let loads = Loads::of(on, &tables);
    fill_drives(&loads, out);
    loads.source()
}

// Lists what each entry drives, in list order, and the source (RULES 6.13): the net's refusals, 7, 10, 9. An overloaded placement is listed too.
pub fn list_drives(
    net: &LentNet,
    placement: &LentPlacement,
    out: &mut [u64],
) -> Result<Weighed, Refusal>
    ensures { ListedIs (net_of net.now) placement.now.wires.now placement.now.offsets.now out.old result out.new }
{
    let on = standing::stands(net, placement)?;
    let count = placement.wires.len();
    if out.len() < count {
        return Err(Refusal::NoRoom(count as u64));
    }
    let source = list_loads(&on, out);
    Ok(Weighed { count, source })
}
