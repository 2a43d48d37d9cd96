// A channel read from the bytes of a record, and the writer of bytes.
#![tactic(auto)]

mod writing;

ghost use Rattle.std.specs.Prelude.{◌≡◌, ◌+◌, ◌*◌, ◌≤◌, ◌<◌, length};
ghost use Rattle.grid.specs.Refusals.{if_accepted, number_of};
ghost use Rattle.record.specs.Record.{word as Record·word, record_refused, record_read, columns, row, top_row, bottom_row, laid};
ghost use Rattle.record.specs.Counts.{Counts};

use grid::Refusal;
pub use writing::Writer;

// The two-byte number at place i.
fn word(s: &[u8], i: usize) -> u16
    requires { i + 1 < length s.now }
    ensures { result ≡ Record·word s.now i }
{
    u16::from_le_bytes([s[i], s[i + 1]])
}

// Whether a record is refused, and why.
fn refusal(s: &[u8]) -> Result<(), Refusal>
    ensures { number_of result ≡ record_refused s.now }
{
    let size = s.len();
    if size < 4 {
        return Err(Refusal::RecordLength);
    }
    if 1030 < size {
        return Err(Refusal::RecordLength);
    }
    if usize::from(word(s, 0)) != size - 2 {
        return Err(Refusal::RecordLength);
    }
    if word(s, 2) != 1 {
        return Err(Refusal::RecordKind);
    }
    if size - 4 < 2 {
        return Err(Refusal::RecordBody);
    }
    if size - 4 != 2 + 4 * usize::from(word(s, 4)) {
        return Err(Refusal::RecordBody);
    }
    Ok(())
}

// The numbers of a row, from place at on.
fn read_row(s: &[u8], at: usize, out: &mut [u16])
    requires { at + 2 * length out.old ≤ length s.now }
    ensures { out.new ≡ row s.now at (length out.old) }
{
    for (i, net) in out.iter_mut().enumerate() {
        *net = word(s, at + 2 * i);
    }
}

// The rows of a channel, into the first elements of two arrays; how many columns it has. A refused record leaves them as they are.
pub fn read(bytes: &[u8], top: &mut [u16; 256], bottom: &mut [u16; 256]) -> Result<usize, Refusal>
    ensures answer { result ≡ record_read bytes.now }
    ensures number { number_of result ≡ record_refused bytes.now }
    ensures top { top.new ≡ if_accepted (number_of result) (laid (top_row bytes.now) top.old) top.old }
    ensures bottom { bottom.new ≡ if_accepted (number_of result) (laid (bottom_row bytes.now) bottom.old) bottom.old }
    ensures columns { columns result ≡ if_accepted (number_of result) (Record·word bytes.now 4) 0 }
    ensures counts { Counts (columns result) top.new × Counts (columns result) bottom.new }
{
    refusal(bytes)?;
    let n = usize::from(word(bytes, 4));
    read_row(bytes, 6, &mut top[..n]);
    read_row(bytes, 6 + 2 * n, &mut bottom[..n]);
    Ok(n)
}
