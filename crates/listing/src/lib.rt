// The listing of a record: the text of its channel's drawing; the line of a refusal; what `knee` writes.
#![tactic(auto)]

ghost use Rattle.std.specs.Prelude.{◌≡◌, ◌++◌, ◌+◌, ◌*◌, ◌≤◌, length};
ghost use Rattle.grid.specs.Channel.{rows_refused};
ghost use Rattle.grid.specs.Refusals.{if_accepted, number_of};
ghost use Rattle.record.specs.Record.{laid};
ghost use Rattle.record.specs.Counts.{Counts};
ghost use Rattle.listing.specs.Digits.{decimal};
ghost use Rattle.listing.specs.Text.{cells, column_at, line_at, lines, header, drawing_text, refusal};
ghost use Rattle.listing.specs.Listing.{length_of, channel_text, refused, text_of, listed, output};
ghost use Rattle.record.specs.Writing.{Room, Puts};
ghost use Rattle.listing.specs.Working.{Lists};

use grid::Refusal;
use record::Writer;

// The bytes of the text that a call is lent: the longest listing fits.
pub const ROOM: usize = 131072;

// A number of two digits.
fn put_pair(text: &mut Writer, n: usize)
    requires n_at_least { 10 ≤ n }
    requires n_bound { n ≤ 99 }
    requires room { Room text.old (decimal n) }
    ensures { Puts text.old (decimal n) text.new }
{
    text.put_bytes(&[b'0' + (n / 10) as u8, b'0' + (n % 10) as u8]);
}

// A number of three digits or more.
fn put_large(text: &mut Writer, n: usize)
    requires n_at_least { 100 ≤ n }
    requires room { Room text.old (decimal n) }
    ensures { Puts text.old (decimal n) text.new }
{
    if n < 1000 {
        put_pair(text, n / 10);
    } else {
        put_large(text, n / 10);
    }
    text.put_byte(b'0' + (n % 10) as u8);
}

// A number in decimal. One digit or two, as nearly all numbers of a drawing have, are put at once.
fn put_number(text: &mut Writer, n: usize)
    requires { Room text.old (decimal n) }
    ensures { Puts text.old (decimal n) text.new }
{
    if n < 10 {
        text.put_byte(b'0' + n as u8);
    } else if n < 100 {
        put_pair(text, n);
    } else {
        put_large(text, n);
    }
}

// A word and a number.
fn put_figure(text: &mut Writer, word: &[u8], n: usize)
    requires { Room text.old (word.now ++ decimal n) }
    ensures { Puts text.old (word.now ++ decimal n) text.new }
{
    text.put_bytes(word);
    put_number(text, n);
}

// Entries, each after a space.
fn put_cells(text: &mut Writer, entries: &[u16])
    requires { Room text.old (cells entries.now 0 (length entries.now)) }
    ensures { Puts text.old (cells entries.now 0 (length entries.now)) text.new }
{
    for &entry in entries {
        text.put_byte(b' ');
        put_number(text, usize::from(entry));
    }
}

// The entries of a column on t tracks: vertical, bar, horizontal.
fn put_column(text: &mut Writer, column: &[u16], t: usize)
    requires length { length column.now ≡ 2 * t + 1 }
    requires room { Room text.old (column_at column.now t 0) }
    ensures { Puts text.old (column_at column.now t 0) text.new }
{
    let (vertical, horizontal) = column.split_at(t + 1);
    put_cells(text, vertical);
    text.put_bytes(b" |");
    put_cells(text, horizontal);
}

// The line of column c.
fn put_line(text: &mut Writer, c: usize, column: &[u16], t: usize)
    requires length { length column.now ≡ 2 * t + 1 }
    requires room { Room text.old (line_at column.now t c 0) }
    ensures { Puts text.old (line_at column.now t c 0) text.new }
{
    put_number(text, c);
    text.put_byte(b':');
    put_column(text, column, t);
    text.put_byte(b'\n');
}

// The lines of w columns.
fn put_lines(text: &mut Writer, layout: &[u16], t: usize, w: usize)
    requires t_in_bounds { w * (2 * t + 1) ≤ length layout.now }
    requires t_bound { t ≤ 127 }
    requires room { Room text.old (lines layout.now t w) }
    ensures { Puts text.old (lines layout.now t w) text.new }
{
    let each = 2 * t + 1;
    for c in 0..w {
        let start = c * each;
        put_line(text, c + 1, &layout[start..start + each], t);
    }
}

// The first line.
fn put_header(text: &mut Writer, d: usize, t: usize, w: usize)
    requires { Room text.old (header d t w) }
    ensures { Puts text.old (header d t w) text.new }
{
    put_figure(text, b"density ", d);
    put_figure(text, b" tracks ", t);
    put_figure(text, b" width ", w);
    text.put_bytes(b"\n");
}

// The listing of a drawing of w columns and t tracks, at the front of the text; how many bytes it has.
fn put_listing(text: &mut [u8], layout: &[u16], d: usize, t: usize, w: usize) -> usize
    requires t_in_bounds { w * (2 * t + 1) ≤ length layout.now }
    requires t_bound { t ≤ 127 }
    requires room { length (drawing_text d t w layout.now) ≤ length text.old }
    ensures length { result ≡ length (drawing_text d t w layout.now) }
    ensures text { text.new ≡ laid (drawing_text d t w layout.now) text.old }
{
    let mut out = Writer::new(text);
    put_header(&mut out, d, t, w);
    put_lines(&mut out, layout, t, w);
    out.written()
}

// The listing of a channel of at most 64 columns. An empty layout is long enough for it: 64 columns are drawn on at most 127 tracks and in at most 127
// columns.
fn list_channel(top: &[u16], bottom: &[u16], text: &mut [u8]) -> Result<usize, Refusal>
    requires { length text.old ≡ 131072 }
    ensures { Lists (rows_refused top.now bottom.now 64)
        (channel_text top.now bottom.now) text.old result text.new }
{
    let mut layout = [0u16; 32385];
    let drawn = router::route_within(top, bottom, 64, &mut layout)?;
    Ok(put_listing(text, &layout, drawn.density, drawn.tracks, drawn.width))
}

// The listing of a record, at the front of the text; how many bytes it has. What stands behind it stays. A refused record leaves the text as it is.
pub fn list(bytes: &[u8], text: &mut [u8; ROOM]) -> Result<usize, Refusal>
    ensures answer { result ≡ listed bytes.now }
    ensures number { number_of result ≡ refused bytes.now }
    ensures length { length_of result ≡ if_accepted (number_of result) (length (text_of bytes.now)) 0 }
    ensures text { text.new ≡ if_accepted (number_of result) (laid (text_of bytes.now) text.old) text.old }
    ensures counts { Counts (length_of result) text.new }
{
    let mut top = [0u16; 256];
    let mut bottom = [0u16; 256];
    let n = record::read(bytes, &mut top, &mut bottom)?;
    list_channel(&top[..n], &bottom[..n], text)
}

// The line of a refusal, as `refused 7`, at the front of the text; how many bytes it has. What stands behind it stays.
pub fn put_refusal_line(number: u16, text: &mut [u8; ROOM]) -> usize
    ensures length { result ≡ length (refusal number) }
    ensures text { text.new ≡ laid (refusal number) text.old }
    ensures counts { Counts result text.new }
{
    let mut out = Writer::new(text);
    put_figure(&mut out, b"refused ", usize::from(number));
    out.put_byte(b'\n');
    out.written()
}

// What `knee` writes: the listing of a record, or the line of its refusal, at the front of the text; how many bytes it has. What stands behind it stays.
pub fn put_output(bytes: &[u8], text: &mut [u8; ROOM]) -> usize
    ensures length { result ≡ length (output bytes.now) }
    ensures text { text.new ≡ laid (output bytes.now) text.old }
    ensures counts { Counts result text.new }
{
    match list(bytes, text) {
        Ok(size) => size,
        Err(reason) => put_refusal_line(u16::from(reason), text),
    }
}
