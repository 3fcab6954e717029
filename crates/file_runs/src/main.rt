// Reads the stored files of standard input and prints a line for each: `read` and what the reader answers, or `refused` with number and
// place. What was read is written back, and a file that comes back otherwise is told on a line that no expected output has.
// A stored file stands after a byte that says what it is (1 a net file, else a placement file) and its length in four bytes, high byte first.
// None has more than 65,535 bytes.
#![tactic(auto)]

use net_file::Columns;
use placement_file::Entries;
use rules::Refusal;
use std::io;
use std::io::Read;

// A file that was read: how many places of the columns it fills, and whether it is written as the bytes that it was read from.
#[derive(Clone, Copy)]
struct Filled {
    places: usize,
    same: bool,
}

fn read_net(s: &[u8]) -> Result<Filled, Refusal> {
    let mut columns = Columns::blank();
    let read = net_reader::read(s, &mut columns)?;
    let net = columns.lent(read.limits, read.places);
    let mut out = [0u8; 16384];
    let wrote = net_writer::write_net(&net, &mut out);
    Ok(Filled {
        places: read.places,
        same: wrote == Ok(s.len()) && out.starts_with(s),
    })
}

fn read_placement(s: &[u8]) -> Result<Filled, Refusal> {
    let mut entries = Entries::blank();
    let count = placement_reader::read(s, &mut entries)?;
    let mut out = [0u8; 36872];
    let wrote = placement_writer::write_placement(&entries.lent(count), &mut out);
    Ok(Filled {
        places: count,
        same: wrote == Ok(s.len()) && out.starts_with(s),
    })
}

// The line of a file.
fn tell(rt: &impl Print, read: Result<Filled, Refusal>) -> io::Result<()> {
    match read {
        Ok(Filled { places, same: true }) => println!(rt; "read {places}"),
        Ok(_) => rt.println("not the same bytes"),
        Err(why) => rt.write_all(answer::refused_line(why).as_bytes()),
    }
}

// The next file of the input, and whether there was one. Where the input ends before the file does, the places behind its end stay 0.
fn next_file<R: Read>(rt: &impl Print, reader: &mut R) -> io::Result<bool> {
    let mut head = [0u8; 5];
    if !matches!(input::read(reader, &mut head), Ok(5)) {
        return Ok(false);
    }
    let size = usize::from(u16::from_be_bytes([head[3], head[4]]));
    let mut room = [0u8; 65535];
    let file = &mut room[..size];
    let _ = input::read(reader, file);
    let read = if head[0] == 1 {
        read_net(file)
    } else {
        read_placement(file)
    };
    tell(rt, read)?;
    Ok(true)
}

// A proved loop has to end, and nothing says that the input does: the turns are more than any set has.
fn main(rt: HostRuntime) -> io::Result<()> {
    let mut reader = rt.stdin();
    for _ in 0..100000u32 {
        if !next_file(&rt, &mut reader)? {
            break;
        }
    }
    Ok(())
}
