// Reads a record from standard input and writes its listing, or the line of its refusal, to standard output.
#![tactic(auto)]

use std::io;

fn main(rt: HostRuntime) -> io::Result<()> {
    // One byte more than a record may have, so that a longer one is refused.
    let mut bytes = [0; 1031];
    let n = reading::read_full(&mut rt.stdin(), &mut bytes)?;
    let mut text = [0; listing::ROOM];
    let size = listing::put_output(&bytes[..n], &mut text);
    rt.write_all(&text[..size])
}
