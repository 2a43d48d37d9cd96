// Writes the listing of each record on standard input, or the line of its refusal. A record stands after a two-byte count of its bytes, little-endian; the
// count is no part of it, so that damaged records can be among them. A count that reaches past the input ends the program.
#![tactic(auto)]

ghost use Rattle.std.specs.Prelude.{◌≡◌, length};
ghost use Rattle.std.specs.Iterator.{at_most};

use std::io;

// The records of a stream, up to a count that reaches past its end.
#[derive(Drop)]
struct Records<'a> {
    rest: &'a [u8],
}

impl<'a> Iterator for Records<'a> {
    type Item = &'a [u8];

    ghost remaining = { λ s. at_most (length s.rest.now) };

    fn next(&mut self) -> Option<&'a [u8]> {
        let (count, rest) = self.rest.split_first_chunk()?;
        let size = usize::from(u16::from_le_bytes(*count));
        let (record, rest) = rest.split_at_checked(size)?;
        self.rest = rest;
        Some(record)
    }
}

// The listing of one record, or the line of its refusal.
fn show(rt: &impl Print, record: &[u8]) -> io::Result<()> {
    let mut text = [0; listing::ROOM];
    let size = listing::put_output(record, &mut text);
    rt.write_all(&text[..size])
}

fn main(rt: HostRuntime) -> io::Result<()> {
    let mut stream = [0; 65536];
    let n = reading::read_full(&mut rt.stdin(), &mut stream)?;
    let records = Records { rest: &stream[..n] };
    for record in records {
        show(&rt, record)?;
    }
    Ok(())
}
