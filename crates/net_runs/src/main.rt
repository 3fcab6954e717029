// Judges the nets of standard input and prints a line for each: `sound`, or the refusal's number and place.
// The input is a count of two bytes and so many nets: the limits (4, 4 and 1 bytes), then the five columns,
// each a length of two bytes and its values in the column's own width. Numbers have the high byte first.
#![tactic(auto)]

use rules::{LentNet, Limits, Refusal};
use std::io;
use std::io::Read;

fn main(rt: HostRuntime) -> io::Result<()> {
    let mut reader = rt.stdin();
    let nets = read2(&mut reader);
    for _ in 0..nets {
        judge_next(&rt, &mut reader)?;
    }
    Ok(())
}

// The next net of the input. A column has room for one place more than a net may have.
fn judge_next<R: Read>(rt: &impl Print, reader: &mut R) -> io::Result<()> {
    let limits = Limits {
        limit: read4(reader),
        pin: read4(reader),
        repeater: read1(reader),
    };
    let mut parent = [0u16; 1026];
    let mut wire = [0u32; 1026];
    let mut kind = [0u8; 1026];
    let mut pin = [0u32; 1026];
    let mut polarity = [0u8; 1026];
    let net = LentNet {
        limits,
        parent: read_column(reader, &mut parent, read2),
        wire: read_column(reader, &mut wire, read4),
        kind: read_column(reader, &mut kind, read1),
        pin: read_column(reader, &mut pin, read4),
        polarity: read_column(reader, &mut polarity, read1),
    };
    tell(rt, net::judge(&net))
}

fn tell(rt: &impl Print, judged: Result<(), Refusal>) -> io::Result<()> {
    match judged {
        Ok(()) => rt.println("sound"),
        Err(why) => rt.write_all(answer::refused_line(why).as_bytes()),
    }
}

// A column of the input: its length, and so many values that `next` reads. What the room does not hold is left.
fn read_column<'a, R: Read, T: Copy, F: Fn(&mut R) -> T>(
    reader: &mut R,
    room: &'a mut [T],
    next: F,
) -> &'a [T]
    requires { F.IsAlwaysCallable next }
{
    let length = usize::from(read2(reader)).min(room.len());
    let column = &mut room[..length];
    for value in column.iter_mut() {
        *value = next(reader);
    }
    column
}

// The next byte of the input, and 0 past its end. Each byte is asked for by itself: where an input ends and then goes on, as a terminal's
// does, the end takes the place of one byte alone.
fn read1<R: Read>(reader: &mut R) -> u8 {
    let mut byte = [0u8; 1];
    let _ = input::read(reader, &mut byte);
    byte[0]
}

fn read2<R: Read>(reader: &mut R) -> u16 {
    u16::from_be_bytes([read1(reader), read1(reader)])
}

fn read4<R: Read>(reader: &mut R) -> u32 {
    u32::from_be_bytes([read1(reader), read1(reader), read1(reader), read1(reader)])
}
