// An audit's line of a record after its name, by the bytes of its two files (RULES 11).
#![tactic(auto)]

ghost use Rattle.std.specs.Prelude.{◌≤◌, length};
ghost use Rattle.rules.specs.Net.{net_of};
ghost use Rattle.rules.specs.Legal.{Least};
ghost use Rattle.audit_line.specs.Lines.{most_line};
ghost use Rattle.audit_reply.specs.Audits.{AuditSays, Reached, Refuses, Weighs};

use audit_line::Audited;
use net_file::Columns;
use placement_file::Entries;
use rules::{LentNet, Refusal};

// What is refused of a record, and why: its net file, its placement file, or its placement on its net.
#[derive(Clone, Copy)]
enum Fault {
    Net(Refusal),
    Placement(Refusal),
    Checked(Refusal),
}

// The entries of a legal placement, and the fewest that its net can have.
#[derive(Clone, Copy)]
struct Counts {
    count: usize,
    least: usize,
}

// The least count of a net that has a legal placement of at most 4,096 entries.
fn least_count(net: &LentNet) -> usize
    requires { Reached (net_of net.now) }
    ensures { Least (net_of net.now) result }
{
    let mut entries = Entries::blank();
    // Neither 8 nor 9: there is a legal placement, and room for it.
    solver::solve(net, &mut entries.wires, &mut entries.offsets).unwrap()
}

// Both counts, by the bytes of a net file and of a placement file, or what is refused.
fn weigh(net: &[u8], placement: &[u8]) -> Result<Counts, Fault>
    ensures { Weighs net.now placement.now result }
{
    let mut columns = Columns::blank();
    let read = net_reader::read(net, &mut columns).map_err(Fault::Net)?;
    let net = columns.lent(read.limits, read.places);
    let mut entries = Entries::blank();
    let count = placement_reader::read(placement, &mut entries).map_err(Fault::Placement)?;
    let legal = checker::check(&net, &entries.lent(count)).map_err(Fault::Checked)?;
    Ok(Counts {
        count: legal.count,
        least: least_count(&net),
    })
}

// The line of what is refused, after the word that says where it is.
fn refuse(out: &mut [u8], fault: Fault) -> Audited
    requires { most_line ≤ length out.old }
    ensures { Refuses fault out.new result }
{
    match fault {
        Fault::Net(why) => audit_line::refuse(out, b": net ", why),
        Fault::Placement(why) => audit_line::refuse(out, b": placement ", why),
        Fault::Checked(why) => audit_line::refuse(out, b": ", why),
    }
}

// The line of a record, by the bytes of its net file and of its placement file.
pub fn audit(net: &[u8], placement: &[u8], out: &mut [u8]) -> Audited
    requires { most_line ≤ length out.old }
    ensures { AuditSays net.now placement.now out.new result }
{
    match weigh(net, placement) {
        Ok(counts) => audit_line::tell_legal(counts.count as u64, counts.least as u64, out),
        Err(fault) => refuse(out, fault),
    }
}
