// The channel and its grid: the row check, the facts of each net, the density, one column of a layout.
#![tactic(auto)]

mod families;
mod gaps;
mod refusals;
mod scan;
mod spans;

ghost use Rattle.std.specs.Prelude.{ℕ, ◌≡◌, min, List};
ghost use Rattle.grid.specs.Channel.{over, rows_refused, density as density_of, pins as pins_of};
ghost use Rattle.grid.specs.Nets.{first_column, last_column, table, zero_table};
ghost use Rattle.grid.specs.Places.{no_row};
ghost use Rattle.grid.specs.Refusals.{if_accepted, number_of};
ghost use Rattle.grid.specs.Answers.{size_of, no_size, rows_of, table_or, count_density, refused_within, accepted_size, row_check, facts_check, density_count};
ghost use Rattle.grid.specs.Working.{Filled, sizes_refused};
ghost use Rattle.grid.specs.View.{no_part, column_part, column_view};

pub use refusals::{Refusal, number_of};

// The families of channels, each with a sweep of its own: each net has two pins; the largest has three, and none of these has its first two pins in one
// column; or neither.
#[derive(Clone, Copy, Debug, PartialEq, Eq)]
pub enum Family {
    TwoPin,
    ThreePin,
    ManyPin,
}

// Of accepted rows: the number of columns, the density, and the family.
#[derive(Clone, Copy)]
pub struct Size {
    pub columns: usize,
    pub density: usize,
    pub family: Family,
}

// What the row check finds of the nets: the size, and tables of each net's first column, last column and pin count, at its number.
#[derive(Clone, Copy)]
pub struct NetFacts {
    pub size: Size,
    pub first: [u16; 257],
    pub last: [u16; 257],
    pub pins: [u16; 257],
}

// A part of a layout: from which entry on, and how many entries.
#[repr(C)]
#[derive(Clone, Copy)]
pub struct Part {
    pub offset: usize,
    pub length: usize,
}

// The vertical wires of a column, five segments: the bottom net's edges below row low, nothing up to row start, the middle net's up to row stop, nothing up
// to row high, the top net's above.
#[derive(Clone, Copy)]
pub struct Segments {
    pub bottom: u16,
    pub low: u16,
    pub start: u16,
    pub middle: u16,
    pub stop: u16,
    pub high: u16,
    pub top: u16,
}

// A table of a figure of each net, at its number, with zeros for all of them.
pub fn zeros() -> [u16; 257]
    ensures { result ≡ zero_table }
{
    [0u16; 257]
}

// 256 places for the numbers of a row, with zeros in all of them.
pub fn no_row() -> [u16; 256]
    ensures { result ≡ no_row }
{
    [0u16; 256]
}

// How many columns a channel has whose rows stand in 256 places: at most these.
pub fn columns_held(columns: usize) -> usize
    ensures { result ≡ min columns 256 }
{
    columns.min(256)
}

// Refusals of the rows but the last: lengths that differ, too many columns, a number over 256.
fn check_sizes(top: &[u16], bottom: &[u16], most: usize) -> Result<(), Refusal>
    ensures { number_of result ≡ sizes_refused top.now bottom.now (min most 256) }
{
    if top.len() != bottom.len() {
        return Err(Refusal::RowLengths);
    }
    if most.min(256) < top.len() {
        return Err(Refusal::TooManyColumns);
    }
    if scan::has_over(top) | scan::has_over(bottom) {
        return Err(Refusal::NetNumber);
    }
    Ok(())
}

// The row check, with three tables of zeros for its work. Of accepted rows they hold the facts of each net after it.
fn checked(
    top: &[u16],
    bottom: &[u16],
    most: usize,
    first: &mut [u16],
    last: &mut [u16],
    pins: &mut [u16],
) -> Result<Size, Refusal>
    requires { (first.old ≡ zero_table) × (last.old ≡ zero_table) × (pins.old ≡ zero_table) }
    ensures answer { result ≡ row_check top.now bottom.now most }
    ensures tables { refused_within top.now bottom.now most ≡ 0
        → Filled top.now bottom.now first.new last.new pins.new }
{
    check_sizes(top, bottom, most)?;
    spans::fill(top, bottom, first, last, pins);
    let tests = scan::tests(pins);
    if tests.single {
        return Err(Refusal::SinglePin);
    }
    Ok(Size {
        columns: top.len(),
        density: gaps::largest_count(top, bottom, first, last),
        family: families::family_of(top, bottom, first, pins, tests.three, tests.four),
    })
}

// The row check. `most` is the largest number of columns; over 256 it stands for 256.
pub fn check_rows(top: &[u16], bottom: &[u16], most: usize) -> Result<Size, Refusal>
    ensures answer { result ≡ row_check top.now bottom.now most }
    ensures number { number_of result ≡ refused_within top.now bottom.now most }
    ensures figures { size_of result ≡ if_accepted (number_of result) (accepted_size top.now bottom.now) no_size }
{
    let mut first = zeros();
    let mut last = zeros();
    let mut pins = zeros();
    checked(top, bottom, most, &mut first, &mut last, &mut pins)
}

// The row check alone. It counts no density and finds no family.
pub fn rows_refusal(top: &[u16], bottom: &[u16], most: usize) -> Result<(), Refusal>
    ensures { number_of result ≡ refused_within top.now bottom.now most }
{
    check_sizes(top, bottom, most)?;
    let mut pins = zeros();
    spans::count_pins(top, bottom, &mut pins);
    let tests = scan::tests(&pins);
    if tests.single {
        Err(Refusal::SinglePin)
    } else {
        Ok(())
    }
}

// The row check, and the first column, last column and pin count of each net of accepted rows.
pub fn net_facts(top: &[u16], bottom: &[u16], most: usize) -> Result<NetFacts, Refusal>
    ensures answer { result ≡ facts_check top.now bottom.now most }
    ensures rows { rows_of result ≡ row_check top.now bottom.now most }
    ensures first { (old : List ℕ) → table_or (λ f. f.first) old result
        ≡ if_accepted (number_of result) (table (first_column top.now bottom.now)) old }
    ensures last { (old : List ℕ) → table_or (λ f. f.last) old result
        ≡ if_accepted (number_of result) (table (last_column top.now bottom.now)) old }
    ensures pins { (old : List ℕ) → table_or (λ f. f.pins) old result
        ≡ if_accepted (number_of result) (table (pins_of top.now bottom.now)) old }
    ensures number { number_of result ≡ refused_within top.now bottom.now most }
    ensures figures { size_of (rows_of result) ≡ if_accepted (number_of result) (accepted_size top.now bottom.now) no_size }
{
    let mut first = zeros();
    let mut last = zeros();
    let mut pins = zeros();
    let size = checked(top, bottom, most, &mut first, &mut last, &mut pins)?;
    Ok(NetFacts {
        size,
        first,
        last,
        pins,
    })
}

// Whether a slice has a number over 256.
pub fn has_over(numbers: &[u16]) -> bool
    ensures { result ≡ over numbers.now }
{
    scan::has_over(numbers)
}

// The density of a channel.
pub fn density(top: &[u16], bottom: &[u16]) -> Result<usize, Refusal>
    ensures answer { result ≡ density_count top.now bottom.now }
    ensures number { number_of result ≡ rows_refused top.now bottom.now 256 }
    ensures figure { count_density result ≡ if_accepted (number_of result) (density_of top.now bottom.now) 0 }
{
    let size = check_rows(top, bottom, 256)?;
    Ok(size.density)
}

// The empty part.
fn no_part() -> Part
    ensures { result ≡ no_part }
{
    Part {
        offset: 0,
        length: 0,
    }
}

// Where column c (from 1) lies in a layout of len entries with w columns and t tracks; the empty part where there is none.
pub fn column_part(len: usize, w: usize, t: usize, c: usize) -> Part
    ensures { result ≡ column_part len w t c }
{
    if 511 < w {
        return no_part();
    }
    if 511 < t {
        return no_part();
    }
    let size = 2 * t + 1;
    if len != w * size {
        return no_part();
    }
    if c < 1 {
        return no_part();
    }
    if w < c {
        return no_part();
    }
    Part {
        offset: (c - 1) * size,
        length: size,
    }
}

// Column c (from 1) of a layout of w columns and t tracks: its 2t + 1 entries, or nothing.
pub fn column(layout: &[u16], w: usize, t: usize, c: usize) -> &[u16]
    ensures { result.now ≡ column_view layout.now w t c }
{
    let p = column_part(layout.len(), w, t, c);
    let start = p.offset;
    let end = start + p.length;
    &layout[start..end]
}
