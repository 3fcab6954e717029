// What the verbs of the desk say for the bytes of their files (RULES 11.3 to 11.9).
#![tactic(auto)]

ghost use Rattle.std.specs.Prelude.{◌≤◌, List, length};
ghost use Rattle.reply.specs.Said.{Conveys, Replies, most_text, most_file};
ghost use Rattle.replies.specs.Replies.{of_fault, SaysOr, SaysFiles, CarriesFiles};

use net_file::Columns;
use placement_file::{ENTRIES, Entries};
use reply::Reply;
use rules::Refusal;

// A verb that takes a net file and a placement file.
#[derive(Clone, Copy)]
pub enum Verb {
    Check,
    Loads,
    Finish,
}

// Which file is at fault, and why.
#[derive(Clone, Copy)]
enum Fault {
    Net(Refusal),
    FirstNet(Refusal),
    SecondNet(Refusal),
    Placement(Refusal),
}

// The line of a fault, after the word that says which file it is in.
fn refuse(out: &mut [u8], fault: Fault) -> Reply
    requires { most_text ≤ length out.old }
    ensures { (file : List _) → Replies (of_fault fault) out.new file result }
{
    match fault {
        Fault::Net(why) => reply::refuse(out, b"net ", why),
        Fault::FirstNet(why) => reply::refuse(out, b"first net ", why),
        Fault::SecondNet(why) => reply::refuse(out, b"second net ", why),
        Fault::Placement(why) => reply::refuse(out, b"placement ", why),
    }
}

// The reply for a net file and a placement file, or which of them is at fault.
fn answer(
    verb: Verb,
    net: &[u8],
    placement: &[u8],
    out: &mut [u8],
    file: &mut [u8],
) -> Result<Reply, Fault>
    requires { (most_text ≤ length out.old) × (most_file ≤ length file.old) }
    ensures { SaysOr (SaysFiles verb net.now placement.now) out.new file.new result }
{
    let mut columns = Columns::blank();
    let read = net_reader::read(net, &mut columns).map_err(Fault::Net)?;
    let net = columns.lent(read.limits, read.places);
    let mut entries = Entries::blank();
    let count = placement_reader::read(placement, &mut entries).map_err(Fault::Placement)?;
    let placement = entries.lent(count);
    Ok(match verb {
        Verb::Check => check_reply::check(&net, &placement, out),
        Verb::Loads => check_reply::list(&net, &placement, out),
        Verb::Finish => finish_reply::finish(&net, &placement, out, file),
    })
}

// The bytes of a net file and of a placement file.
pub fn on_files(verb: Verb, net: &[u8], placement: &[u8], out: &mut [u8], file: &mut [u8]) -> Reply
    requires { (most_text ≤ length out.old) × (most_file ≤ length file.old) }
    ensures { Conveys (SaysFiles verb net.now placement.now) out.new file.new result }
{
    match answer(verb, net, placement, out, file) {
        Ok(reply) => reply,
        Err(fault) => refuse(out, fault),
    }
}

// The reply for a placement file that is taken from a first net file to a second, or which of them is at fault.
fn answer_carry(
    first: &[u8],
    second: &[u8],
    placement: &[u8],
    out: &mut [u8],
    file: &mut [u8],
) -> Result<Reply, Fault>
    requires { (most_text ≤ length out.old) × (most_file ≤ length file.old) }
    ensures { SaysOr (CarriesFiles first.now second.now placement.now) out.new file.new result }
{
    let mut columns = Columns::blank();
    let read = net_reader::read(first, &mut columns).map_err(Fault::FirstNet)?;
    let mut columns2 = Columns::blank();
    let read2 = net_reader::read(second, &mut columns2).map_err(Fault::SecondNet)?;
    // two arrays of its own, as the offsets alone are lent to be written: taken out of `Entries` they would be copied
    let mut wires = [0u16; ENTRIES];
    let mut offsets = [0u32; ENTRIES];
    let count = placement_reader::read_placement(placement, &mut wires, &mut offsets).map_err(
        Fault::Placement,
    )?;
    Ok(carry_reply::carry(
        &columns.lent(read.limits, read.places),
        &columns2.lent(read2.limits, read2.places),
        &wires[..count],
        &mut offsets[..count],
        out,
        file,
    ))
}

// The bytes of two net files and of a placement file.
pub fn carry_files(
    first: &[u8],
    second: &[u8],
    placement: &[u8],
    out: &mut [u8],
    file: &mut [u8],
) -> Reply
    requires { (most_text ≤ length out.old) × (most_file ≤ length file.old) }
    ensures { Conveys (CarriesFiles first.now second.now placement.now) out.new file.new result }
{
    match answer_carry(first, second, placement, out, file) {
        Ok(reply) => reply,
        Err(fault) => refuse(out, fault),
    }
}
