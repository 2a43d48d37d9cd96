// The calls for other languages: the libraries' answers as numbers. A slice passes as a pointer and a length in elements.
#![tactic(auto)]

pub mod boards;
pub mod sweeps;

ghost use Rattle.std.specs.Prelude.{◌≡◌, [], ◌++◌, ◌+◌, ◌*◌, ◌/◌, ◌≤◌, length, drop};
ghost use Rattle.grid.specs.Answers.{density_count};
ghost use Rattle.grid.specs.View.{column_part};
ghost use Rattle.router.specs.Answers.{need, answer, written};
ghost use Rattle.checker.specs.Check.{checked};
ghost use Rattle.export.specs.Export.{density_of, need_of, route_of, told_by, checked_of, list_of, canonical_of, widest_of, report_of, flat, figures_after};
ghost use Rattle.report.specs.declared.Drawing.TheVariants.{Absent, Given};
ghost use Rattle.report.specs.Report.{refused, reported};
ghost use Rattle.grid.specs.Refusals.{if_accepted};
ghost use Rattle.record.specs.Record.{laid};
ghost use Rattle.listing.specs.Listing.{listed, refused as list_refused, text_of};
ghost use Rattle.canonical.specs.Canonical.{answer as canonical_answer, bytes_after};
ghost use Rattle.widest.specs.Widest.{answer as widest_answer, top_after, bottom_after};

use checker::{Fault, Told};
use grid::Part;
use report::{Drawing, NetRecord};
use router::Figures;

const NO_FIGURES: Figures = Figures {
    density: 0,
    tracks: 0,
    width: 0,
};

const NO_RECORD: NetRecord = NetRecord {
    first: 0,
    last: 0,
    pins: 0,
    length: 0,
};

#[repr(C)]
#[derive(Clone, Copy)]
pub struct DensityResult {
    pub number: u16,
    pub density: usize,
}

#[repr(C)]
#[derive(Clone, Copy)]
pub struct NeedResult {
    pub number: u16,
    pub length: usize,
}

#[repr(C)]
#[derive(Clone, Copy)]
pub struct RouteResult {
    pub number: u16,
    pub density: usize,
    pub tracks: usize,
    pub width: usize,
}

#[repr(C)]
#[derive(Clone, Copy)]
pub struct CheckResult {
    pub number: u16,
    pub place: usize,
    pub column: usize,
    pub row: usize,
}

#[repr(C)]
#[derive(Clone, Copy)]
pub struct ListResult {
    pub number: u16,
    pub length: usize,
}

#[repr(C)]
#[derive(Clone, Copy)]
pub struct CanonicalResult {
    pub number: u16,
    pub length: usize,
}

#[repr(C)]
#[derive(Clone, Copy)]
pub struct WidestResult {
    pub number: u16,
    pub added: usize,
}

impl From<Told> for CheckResult {
    ghost from_gives = { λ t r. r ≡ told_by t };

    fn from(told: Told) -> CheckResult {
        CheckResult {
            number: told.number,
            place: told.place,
            column: told.column,
            row: told.row,
        }
    }
}

// The density of a channel.
#[unsafe(no_mangle)]
pub extern "C" fn gaxwethi_density(top: &[u16], bottom: &[u16]) -> DensityResult
    ensures { result ≡ density_of (density_count top.now bottom.now) }
{
    let density = grid::density(top, bottom);
    DensityResult {
        number: grid::number_of(&density),
        density: density.unwrap_or(0),
    }
}

// The slice length that a routing call needs.
#[unsafe(no_mangle)]
pub extern "C" fn gaxwethi_need(top: &[u16], bottom: &[u16]) -> NeedResult
    ensures { result ≡ need_of (need top.now bottom.now) }
{
    let entries = router::need(top, bottom);
    NeedResult {
        number: grid::number_of(&entries),
        length: entries.unwrap_or(0),
    }
}

// Routes a channel into a layout.
#[unsafe(no_mangle)]
pub extern "C" fn gaxwethi_route(top: &[u16], bottom: &[u16], layout: &mut [u16]) -> RouteResult
    ensures answer { result ≡ route_of (answer top.now bottom.now 256 (length layout.old)) }
    ensures drawing { layout.new ≡ written top.now bottom.now 256 layout.old }
{
    let answer = router::route(top, bottom, layout);
    let figures = answer.unwrap_or(NO_FIGURES);
    RouteResult {
        number: grid::number_of(&answer),
        density: figures.density,
        tracks: figures.tracks,
        width: figures.width,
    }
}

// Checks a drawing of w columns and t tracks.
#[unsafe(no_mangle)]
pub extern "C" fn gaxwethi_check(
    top: &[u16],
    bottom: &[u16],
    w: usize,
    t: usize,
    layout: &[u16],
) -> CheckResult
    ensures { result ≡ checked_of (checked top.now bottom.now w t layout.now) }
{
    CheckResult::from(Told::from(checker::check(top, bottom, w, t, layout)))
}

// Where column c (from 1) lies in a layout of len entries with w columns and t tracks: from which entry on, and how many entries.
#[unsafe(no_mangle)]
pub extern "C" fn gaxwethi_column(len: usize, w: usize, t: usize, c: usize) -> Part
    ensures { result ≡ column_part len w t c }
{
    grid::column_part(len, w, t, c)
}

// Writes the numbers of records, four for each.
fn put_nets(figures: &mut [u32], nets: &[NetRecord])
    requires { 4 * length nets.now ≤ length figures.old }
    ensures { figures.new ≡ flat nets.now ++ drop (4 * length nets.now) figures.old }
{
    for (k, net) in nets.iter().enumerate() {
        let at = 4 * k;
        figures[at..at + 4].copy_from_slice(&[net.first, net.last, net.pins, net.length]);
    }
}

// The net report, with or without a drawing, four numbers for each record.
fn report_numbers(
    top: &[u16],
    bottom: &[u16],
    drawing: Drawing,
    layout: &[u16],
    figures: &mut [u32],
) -> Result<(), Fault>
    ensures answer { result ≡ reported top.now bottom.now drawing layout.now (length figures.old / 4) }
    ensures figures { figures.new
        ≡ figures_after top.now bottom.now drawing layout.now figures.old }
{
    let mut records = [NO_RECORD; 256];
    let size = (figures.len() / 4).min(256);
    report::report(top, bottom, drawing, layout, &mut records[..size])?;
    put_nets(figures, &records);
    Ok(())
}

// The net report without a drawing: the lengths are 0.
#[unsafe(no_mangle)]
pub extern "C" fn gaxwethi_report(top: &[u16], bottom: &[u16], figures: &mut [u32]) -> u16
    ensures answer { result ≡ refused top.now bottom.now Absent [] (length figures.old / 4) }
    ensures figures { figures.new ≡ figures_after top.now bottom.now Absent [] figures.old }
{
    let answer = report_numbers(top, bottom, Drawing::Absent, &top[..0], figures);
    Told::from(answer).number
}

// The net report on a drawing of w columns and t tracks.
#[unsafe(no_mangle)]
pub extern "C" fn gaxwethi_report_drawing(
    top: &[u16],
    bottom: &[u16],
    w: usize,
    t: usize,
    layout: &[u16],
    figures: &mut [u32],
) -> CheckResult
    ensures answer { result
        ≡ report_of (reported top.now bottom.now (Given w t) layout.now (length figures.old / 4)) }
    ensures figures { figures.new
        ≡ figures_after top.now bottom.now (Given w t) layout.now figures.old }
{
    let answer = report_numbers(top, bottom, Drawing::Given(w, t), layout, figures);
    CheckResult::from(Told::from(answer))
}

// The listing of a record, at the front of the text; what stands behind it stays. A refused record leaves the text as it is.
#[unsafe(no_mangle)]
pub extern "C" fn gaxwethi_list(record: &[u8], text: &mut [u8; 131072]) -> ListResult
    ensures answer { result ≡ list_of (listed «record».now) }
    ensures text { text.new
        ≡ if_accepted (list_refused «record».now) (laid (text_of «record».now) text.old) text.old }
{
    let size = listing::list(record, text);
    ListResult {
        number: grid::number_of(&size),
        length: size.unwrap_or(0),
    }
}

// Writes a channel as a record with its nets renumbered in the order of their first pin, at the front of the bytes; what stands behind it stays. A refused
// call leaves the bytes as they are.
#[unsafe(no_mangle)]
pub extern "C" fn gaxwethi_canonical(
    top: &[u16],
    bottom: &[u16],
    bytes: &mut [u8],
) -> CanonicalResult
    ensures answer { result ≡ canonical_of (canonical_answer top.now bottom.now (length bytes.old)) }
    ensures bytes { bytes.new ≡ bytes_after top.now bottom.now bytes.old }
{
    let size = canonical::write(top, bottom, bytes);
    CanonicalResult {
        number: grid::number_of(&size),
        length: size.unwrap_or(0),
    }
}

// Writes a channel of two-pin nets for which the router adds the most columns into two rows of n entries each; how many it adds. A refused call leaves the
// rows as they are.
#[unsafe(no_mangle)]
pub extern "C" fn gaxwethi_widest(top: &mut [u16], bottom: &mut [u16]) -> WidestResult
    ensures answer { result ≡ widest_of (widest_answer (length top.old) (length bottom.old)) }
    ensures top { top.new ≡ top_after top.old bottom.old }
    ensures bottom { bottom.new ≡ bottom_after top.old bottom.old }
{
    let added = widest::write(top, bottom);
    WidestResult {
        number: grid::number_of(&added),
        added: added.unwrap_or(0),
    }
}
