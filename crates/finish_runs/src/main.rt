// Finishes the half-buffered nets of standard input: pairs of a net file and the placement file of its given entries, one file after the
// other with nothing between. For each pair it prints `added N` and the added entries, one a line, or the refusal: `net refused ..` or
// `placement refused ..` where that file is at fault, else `refused ..`. A file's place is counted from that file's first byte.
// Where a file ends its reader says: the bytes after it begin the next. A file that is refused before its end takes all the rest with it,
// so its line is the last; after a childless point (5) the next pair is read. A net with nothing after it has an empty placement file.
#![tactic(auto)]

ghost use Rattle.std.specs.Prelude.{◌≡◌, ◌<◌, ◌≤◌, IfOk, length};

use net_file::Columns;
use placement_file::Entries;
use rules::{LentPlacement, Refusal};
use std::io;

// Room for two of the longest pairs and many short ones. An input that fills it may have been cut, so it gets no answer.
const INPUT: usize = 131072;

// Which of a pair's two files is refused, or that both are well and the finish is not.
enum Refused {
    Net(Refusal),
    Placement(Refusal),
    Finish(Refusal),
}

fn print_refused(rt: &impl Print, refused: Refused) -> io::Result<()> {
    let (file, why) = match refused {
        Refused::Net(why) => ("net ", why),
        Refused::Placement(why) => ("placement ", why),
        Refused::Finish(why) => ("", why),
    };
    let line = answer::refused_line(why);
    rt.print(file)?;
    rt.write_all(line.as_bytes())
}

fn print_added(rt: &impl Print, added: &LentPlacement) -> io::Result<()>
    requires { length added.now.offsets.now ≡ length added.now.wires.now }
{
    let count = added.wires.len();
    println!(rt; "added {count}")?;
    for (wire, offset) in added.wires.iter().zip(added.offsets) {
        println!(rt; "wire {wire} offset {offset}")?;
    }
    Ok(())
}

// A net file and the placement file of its given entries. It answers how many entries it added.
fn finish_pair(net: &[u8], placement: &[u8], added: &mut Entries) -> Result<usize, Refused>
    ensures { IfOk result (λ count. count ≤ 4096) }
{
    let mut columns = Columns::blank();
    let read = net_reader::read(net, &mut columns).map_err(Refused::Net)?;
    let mut given = Entries::blank();
    let count = placement_reader::read(placement, &mut given).map_err(Refused::Placement)?;
    finish::finish(
        &columns.lent(read.limits, read.places),
        &given.lent(count),
        &mut added.wires,
        &mut added.offsets,
    )
    .map_err(Refused::Finish)
}

fn print_pair(rt: &impl Print, net: &[u8], placement: &[u8]) -> io::Result<()> {
    let mut added = Entries::blank();
    match finish_pair(net, placement, &mut added) {
        Ok(count) => {
            let added = LentPlacement {
                wires: &added.wires[..count],
                offsets: &added.offsets[..count],
            };
            print_added(rt, &added)
        }
        Err(refused) => print_refused(rt, refused),
    }
}

// Of so many bytes those of the first file, by what its reader answers to them all: up to the first byte after it, and else all.
// That byte is not the first and lies among them, as the readers' contracts have it; a test is shorter than its proof.
fn first_file<T>(read: &Result<T, Refusal>, bytes: usize) -> usize
    ensures { (result ≤ bytes) × (0 < bytes → 0 < result) }
{
    match read {
        Err(Refusal::BytesAfterEnd(next)) if 0 < *next && *next < bytes => *next,
        _ => bytes,
    }
}

// The bytes of the net file that s begins with.
fn net_bytes(s: &[u8]) -> usize
    ensures { (result ≤ length s.now) × (0 < length s.now → 0 < result) }
{
    first_file(&net_reader::read(s, &mut Columns::blank()), s.len())
}

// The bytes of the placement file that s begins with.
fn placement_bytes(s: &[u8]) -> usize
    ensures { result ≤ length s.now }
{
    first_file(&placement_reader::read(s, &mut Entries::blank()), s.len())
}

fn print_all(rt: &impl Print, s: &[u8]) -> io::Result<()> {
    let mut rest = s;
    while !rest.is_empty() {
        let (net, after) = rest.split_at(net_bytes(rest));
        let (placement, more) = after.split_at(placement_bytes(after));
        print_pair(rt, net, placement)?;
        rest = more;
    }
    Ok(())
}

fn main(rt: HostRuntime) -> io::Result<()> {
    let mut input = [0u8; INPUT];
    let Ok(count) = input::read(&mut rt.stdin(), &mut input) else {
        return rt.eprintln("the input could not be read to its end");
    };
    if count == INPUT {
        return rt.eprintln("the input is longer than 131071 bytes");
    }
    print_all(&rt, &input[..count])
}
