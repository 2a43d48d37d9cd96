// The net report: a lent table of net records is filled with the first column, last column and pin count of each net, and, on a drawing that the checker
// passes, with its wire length.
#![tactic(auto)]

mod lengths;

ghost use Rattle.std.specs.Prelude.{◌≡◌, ◌≤◌, length};
ghost use Rattle.grid.specs.Channel.{rows_refused};
ghost use Rattle.grid.specs.Working.{ByNet};
ghost use Rattle.report.specs.Report.{up_to, length_in, fault_of, fault_with, refused, reported, table_after, blank_table};
ghost use Rattle.report.specs.Report.{table_after, blank_table};
ghost use Rattle.report.specs.Working.{in_tables, drawing_reported, Countable};

use checker::Fault;
use grid::{NetFacts, Refusal};

// Columns are counted from 1; an unused number has zeros. The length is counted in a drawing, and 0 without one. As a length needs 32 bits, all four have
// them, so that a record has no padding.
#[derive(Clone, Copy)]
pub struct NetRecord {
    pub first: u32,
    pub last: u32,
    pub pins: u32,
    pub length: u32,
}

// The drawing that lengths are counted in: none, or the layout, of so many columns and tracks.
#[derive(Clone, Copy)]
pub enum Drawing {
    Absent,
    Given(usize, usize),
}

// An answer, and the table of 256 records that the call leaves.
#[derive(Clone, Copy)]
pub struct Reply {
    pub answer: Result<(), Fault>,
    pub table: [NetRecord; 256],
}

// A table of zeros.
fn blank() -> [NetRecord; 256]
    ensures { result ≡ blank_table }
{
    let none = NetRecord {
        first: 0,
        last: 0,
        pins: 0,
        length: 0,
    };
    [none; 256]
}

// The record of a net, from the tables of the nets' facts and lengths.
fn record_of(facts: &NetFacts, lengths: &[u32; 257], net: usize) -> NetRecord
    requires { net ≤ 256 }
    ensures { result ≡ in_tables facts.now.first facts.now.last facts.now.pins lengths.now net }
{
    NetRecord {
        first: u32::from(facts.first[net]),
        last: u32::from(facts.last[net]),
        pins: u32::from(facts.pins[net]),
        length: lengths[net],
    }
}

// Writes the records of the nets 1 to 256, from those tables.
fn put_records(records: &mut [NetRecord], facts: &NetFacts, lengths: &[u32; 257])
    requires { length records.old ≡ 256 }
    ensures { records.new ≡ up_to (in_tables facts.now.first facts.now.last facts.now.pins lengths.now) 256 }
{
    for (k, record) in records.iter_mut().enumerate() {
        *record = record_of(facts, lengths, k + 1);
    }
}

// Checks the drawing of accepted rows, if there is one.
fn check_drawing(top: &[u16], bottom: &[u16], drawing: Drawing, layout: &[u16]) -> Result<(), Fault>
    requires { rows_refused top.now bottom.now 256 ≡ 0 }
    ensures { result ≡ drawing_reported top.now bottom.now drawing layout.now }
{
    match drawing {
        Drawing::Absent => Ok(()),
        Drawing::Given(w, t) => checker::check(top, bottom, w, t, layout),
    }
}

// The lengths of the nets, at their numbers, in a drawing that the checker passes; zeros without one.
fn lengths_in(drawing: Drawing, layout: &[u16]) -> [u32; 257]
    requires { Countable drawing layout.now }
    ensures { ByNet (length_in drawing layout.now) result }
{
    match drawing {
        Drawing::Absent => lengths::none(),
        Drawing::Given(_, _) => lengths::counted(layout),
    }
}

// The net report, with the lengths of a drawing or without one; without one the layout is not read. A refused call does not touch the table.
pub fn report(
    top: &[u16],
    bottom: &[u16],
    drawing: Drawing,
    layout: &[u16],
    table: &mut [NetRecord],
) -> Result<(), Fault>
    ensures answer { result ≡ reported top.now bottom.now drawing layout.now (length table.old) }
    ensures fault { fault_of result ≡ fault_with top.now bottom.now drawing layout.now
        (refused top.now bottom.now drawing layout.now (length table.old)) }
    ensures table { table.new ≡ table_after top.now bottom.now drawing layout.now table.old }
{
    let facts = grid::net_facts(top, bottom, 256)?;
    if table.len() < 256 {
        return Err(Fault::from(Refusal::TableTooShort));
    }
    check_drawing(top, bottom, drawing, layout)?;
    let lengths = lengths_in(drawing, layout);
    put_records(&mut table[..256], &facts, &lengths);
    Ok(())
}

// The net report into a table of its own, zeros on refusal: the call over a slice of records, for programs, which hold no table.
pub fn table_of(top: &[u16], bottom: &[u16], drawing: Drawing, layout: &[u16]) -> Reply
    ensures answer { result.answer ≡ reported top.now bottom.now drawing layout.now 256 }
    ensures fault { fault_of result.answer ≡ fault_with top.now bottom.now drawing layout.now
        (refused top.now bottom.now drawing layout.now 256) }
    ensures table { result.table ≡ table_after top.now bottom.now drawing layout.now blank_table }
{
    let mut table = blank();
    let answer = report(top, bottom, drawing, layout, &mut table);
    Reply { answer, table }
}
