// Each verb's reply for its files, of which buffers hold the first bytes: all of them, or as many as there are places.
#![tactic(auto)]

ghost use Rattle.std.specs.Prelude.{◌≤◌, length};
ghost use Rattle.reply.specs.Said.{most_text, most_file};
ghost use Rattle.audit_line.specs.Lines.{most_line};
ghost use Rattle.whole.specs.Whole.{NetHeld, PlacementHeld, SolvesWhole, SaysWhole, CarriesWhole, AuditsWhole, Fits};

use audit_line::Audited;
use replies::Verb;
use reply::Reply;

pub fn solve(net: &[u8], count: usize, out: &mut [u8], file: &mut [u8]) -> Reply
    requires net_held { NetHeld net.now count }
    requires most_text_in_bounds { (most_text ≤ length out.old) × (most_file ≤ length file.old) }
    ensures { SolvesWhole net.now count out.new file.new result × Fits out.new file.new result }
{
    solve_reply::solve(&net[..count], out, file)
}

pub fn on_files(
    verb: Verb,
    net: &[u8],
    count: usize,
    placement: &[u8],
    count2: usize,
    out: &mut [u8],
    file: &mut [u8],
) -> Reply
    requires net_held { NetHeld net.now count × PlacementHeld placement.now count2 }
    requires most_text_in_bounds { (most_text ≤ length out.old) × (most_file ≤ length file.old) }
    ensures { SaysWhole verb net.now count placement.now count2 out.new file.new result × Fits out.new file.new result }
{
    replies::on_files(verb, &net[..count], &placement[..count2], out, file)
}

pub fn carry(
    first: &[u8],
    count: usize,
    second: &[u8],
    count2: usize,
    placement: &[u8],
    count3: usize,
    out: &mut [u8],
    file: &mut [u8],
) -> Reply
    requires net_held { NetHeld first.now count × NetHeld second.now count2 × PlacementHeld placement.now count3 }
    requires most_text_in_bounds { (most_text ≤ length out.old) × (most_file ≤ length file.old) }
    ensures { CarriesWhole first.now count second.now count2 placement.now count3 out.new file.new result × Fits out.new file.new result }
{
    replies::carry_files(
        &first[..count],
        &second[..count2],
        &placement[..count3],
        out,
        file,
    )
}

pub fn audit(net: &[u8], count: usize, placement: &[u8], count2: usize, out: &mut [u8]) -> Audited
    requires { NetHeld net.now count × PlacementHeld placement.now count2 × (most_line ≤ length out.old) }
    ensures { AuditsWhole net.now count placement.now count2 out.new result × (result.bytes ≤ length out.new) }
{
    audit_reply::audit(&net[..count], &placement[..count2], out)
}
