// The one call that the router makes: is this placement file legal on this net file? Crate `router_c` gives it to C.
#![tactic(auto)]

ghost use Rattle.std.specs.Prelude.{◌≡◌};
ghost use Rattle.rules.specs.Refusal.{judged_number};
ghost use Rattle.router.specs.Routed.{routed};

use load::Weighed;
use net_file::Columns;
use placement_file::Entries;
use rules::Refusal;

// What a legal placement comes to, else the first refusal: the net file's, the placement file's, the placement's (RULES 6.21).
fn check_files(net: &[u8], placement: &[u8]) -> Result<Weighed, Refusal>
    ensures { judged_number result ≡ routed net.now placement.now }
{
    let mut columns = Columns::blank();
    let read = net_reader::read(net, &mut columns)?;
    let mut entries = Entries::blank();
    let count = placement_reader::read(placement, &mut entries)?;
    checker::check(
        &columns.lent(read.limits, read.places),
        &entries.lent(count),
    )
}

// 0 for a net and a legal placement of it, else the refusal's number.
pub fn mustorgyel_check(net: &[u8], placement: &[u8]) -> u32
    ensures { result ≡ routed net.now placement.now }
{
    match check_files(net, placement) {
        Ok(_) => 0,
        Err(refusal) => refusal.number(),
    }
}
