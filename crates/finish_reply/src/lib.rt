// The verb `finish`: the fewest entries that, added to the given ones, make the whole legal, and the whole placement for a file (RULES 11).
#![tactic(auto)]

ghost use Rattle.std.specs.Prelude.{◌≤◌, length};
ghost use Rattle.rules.specs.Net.{net_of};
ghost use Rattle.reply.specs.Said.{Conveys, most_text, most_file};
ghost use Rattle.finish_reply.specs.Finishes.{Finishes};
ghost use Rattle.finish_reply.specs.Steps.{Completed, ShowsWhole, Tells};

use placement_file::Entries;
use reply::{Reply, Status};
use rules::{LentNet, LentPlacement};

// The most entries of a placement's file.
const ENTRIES: usize = 4096;

// The file of given and added entries together. No file holds more than 4,096: then there is none.
fn write_whole(given: &LentPlacement, added: &LentPlacement, file: &mut [u8]) -> usize
    requires { Completed given.now.wires.now given.now.offsets.now added.now.wires.now added.now.offsets.now × (most_file ≤ length file.old) }
    ensures { ShowsWhole given.now.wires.now given.now.offsets.now added.now.wires.now added.now.offsets.now file.new result }
{
    let total = given.wires.len() + added.wires.len();
    if ENTRIES < total {
        return 0;
    }
    let mut whole = Entries::blank();
    joining::join(given, added, &mut whole.wires, &mut whole.offsets);
    reply::write_file(&whole.lent(total), file)
}

// The answer for entries that were added.
fn tell(given: &LentPlacement, added: &LentPlacement, out: &mut [u8], file: &mut [u8]) -> Reply
    requires { Completed given.now.wires.now given.now.offsets.now added.now.wires.now added.now.offsets.now × (most_text ≤ length out.old) × (most_file ≤ length file.old) }
    ensures { Tells given.now.wires.now given.now.offsets.now added.now.wires.now added.now.offsets.now out.new file.new result }
{
    let text = answer::put_counted(out, b"added ", added);
    let size = write_whole(given, added, file);
    Reply {
        text,
        file: size,
        status: Status::Answered,
    }
}

// The text and the file for a net and the given entries.
pub fn finish(net: &LentNet, given: &LentPlacement, out: &mut [u8], file: &mut [u8]) -> Reply
    requires { (most_text ≤ length out.old) × (most_file ≤ length file.old) }
    ensures { Conveys (Finishes (net_of net.now) given.now.wires.now given.now.offsets.now) out.new file.new result }
{
    let mut added = Entries::blank();
    match finish::finish(net, given, &mut added.wires, &mut added.offsets) {
        Ok(count) => tell(given, &added.lent(count), out, file),
        Err(why) => reply::refuse(out, b"", why),
    }
}
