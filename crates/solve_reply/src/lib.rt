// What the verb `solve` says of the bytes of a net file: the text, the placement file, the status (RULES 7, 10).
#![tactic(auto)]

ghost use Rattle.std.specs.Prelude.{◌≤◌, length};
ghost use Rattle.rules.specs.Net.{net_of};
ghost use Rattle.reply.specs.Said.{Conveys, Shows, most_text, most_file};
ghost use Rattle.solve_reply.specs.Solves.{told, Given, Solves, Says};

use net_file::Columns;
use placement_file::Entries;
use reply::{Reply, Status};
use rules::{LentNet, LentPlacement, Refusal};

// The most entries of a placement.
const ENTRIES: usize = 4096;

// The answer for a placement that the solver gave.
fn tell(net: &LentNet, placement: &LentPlacement, out: &mut [u8]) -> usize
    requires given { Given (net_of net.now) placement.now.wires.now placement.now.offsets.now }
    requires most_text_in_bounds { most_text ≤ length out.old }
    ensures { Shows (told (net_of net.now) placement.now.wires.now placement.now.offsets.now) out.new result }
{
    let mut loads = [0u64; ENTRIES];
    // A legal placement is never refused.
    let listed = listing::list_drives(net, placement, &mut loads).unwrap();
    answer::put_answer(out, placement, &loads[..listed.count], listed.source)
}

// The answer for the bytes of a net file, or why there is none: the file's refusal, or the solver's.
fn answer(s: &[u8], out: &mut [u8], file: &mut [u8]) -> Result<Reply, Refusal>
    requires { (most_text ≤ length out.old) × (most_file ≤ length file.old) }
    ensures { Says (Solves s.now) out.new file.new result }
{
    let mut columns = Columns::blank();
    let read = net_reader::read(s, &mut columns)?;
    let net = columns.lent(read.limits, read.places);
    let mut entries = Entries::blank();
    let count = solver::solve(&net, &mut entries.wires, &mut entries.offsets)?;
    let placement = entries.lent(count);
    let text = tell(&net, &placement, out);
    let size = reply::write_file(&placement, file);
    Ok(Reply {
        text,
        file: size,
        status: Status::Answered,
    })
}

// What is said of the bytes of a net file.
pub fn solve(s: &[u8], out: &mut [u8], file: &mut [u8]) -> Reply
    requires { (most_text ≤ length out.old) × (most_file ≤ length file.old) }
    ensures { Conveys (Solves s.now) out.new file.new result }
{
    match answer(s, out, file) {
        Ok(reply) => reply,
        Err(why) => reply::refuse(out, b"", why),
    }
}
