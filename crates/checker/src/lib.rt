// The checker: whether a drawing is a solution of a channel. It rests on the rules of the grid alone.
#![tactic(auto)]

mod counting;
mod ends;
mod entries;
mod meeting;
mod points;

ghost use Rattle.std.specs.Prelude.{◌≡◌, ◌+◌, ◌*◌, ◌≤◌, length};
ghost use Rattle.checker.specs.Check.{told_of, fault_at, number_of, place_of, fault_column, fault_row, refused, place, column, row, checked};
ghost use Rattle.checker.specs.Working.{fault_of_end, entries_checked, drawing_checked, PinTable};

use ends::Loose;
use grid::Refusal;

// A refusal, and its place: of an entry or a pin the lowest entry position, from 0, of pieces and loose ends the lowest net number, else 0. Of a loose end also
// the column and row of that net's first, counted from 1, else 0.
#[derive(Clone, Copy, Debug, PartialEq, Eq)]
pub struct Fault {
    pub refusal: Refusal,
    pub place: usize,
    pub column: usize,
    pub row: usize,
}

// What is told of an answer: number, place, column and row of a refusal, zeros for a drawing that passes.
#[derive(Clone, Copy, Debug, PartialEq, Eq)]
pub struct Told {
    pub number: u16,
    pub place: usize,
    pub column: usize,
    pub row: usize,
}

const NOTHING_TOLD: Told = Told {
    number: 0,
    place: 0,
    column: 0,
    row: 0,
};

impl From<Result<(), Fault>> for Told {
    ghost from_gives = { λ c t. t ≡ told_of c };

    fn from(answer: Result<(), Fault>) -> Told {
        match answer {
            Ok(()) => NOTHING_TOLD,
            Err(fault) => Told {
                number: u16::from(fault.refusal),
                place: fault.place,
                column: fault.column,
                row: fault.row,
            },
        }
    }
}

impl From<Refusal> for Fault {
    ghost from_gives = { λ r f. f ≡ fault_at r 0 };

    fn from(refusal: Refusal) -> Fault {
        fault_at(refusal, 0)
    }
}

impl From<Loose> for Fault {
    ghost from_gives = { λ e f. f ≡ fault_of_end e };

    fn from(end: Loose) -> Fault {
        Fault {
            refusal: Refusal::LooseEnd,
            place: usize::from(end.net),
            column: end.column,
            row: end.row,
        }
    }
}

// A refusal that is no loose end.
fn fault_at(refusal: Refusal, place: usize) -> Fault
    ensures { result ≡ fault_at refusal place }
{
    Fault {
        refusal,
        place,
        column: 0,
        row: 0,
    }
}

// Checks the entries, the pieces and the ends of a drawing of the right size, with the table of pin counts of accepted rows.
fn check_entries(
    top: &[u16],
    bottom: &[u16],
    w: usize,
    t: usize,
    layout: &[u16],
    pins: &[u16; 257],
) -> Result<(), Fault>
    requires pin_table { PinTable top.now bottom.now pins.now }
    requires layout_len { length layout.now ≡ w * (2 * t + 1) }
    requires w_bound { w ≤ 511 }
    requires t_bound { t ≤ 511 }
    ensures { result ≡ entries_checked top.now bottom.now w t layout.now }
{
    if let Some(p) = entries::find_strange(top, bottom, layout, pins) {
        return Err(fault_at(Refusal::Entry, p));
    }
    if let Some(p) = entries::find_pin(top, bottom, w, t, layout) {
        let refusal = entries::pin_fault(top, bottom, t, layout, p);
        return Err(fault_at(refusal, p));
    }
    if let Some(p) = entries::find_last(w, t, layout) {
        return Err(fault_at(Refusal::LastColumn, p));
    }
    let nets = counting::faulty_nets(layout, w, t);
    if let Some(n) = nets.split {
        return Err(fault_at(Refusal::Pieces, n));
    }
    if let Some(end) = nets.loose {
        return Err(Fault::from(end));
    }
    Ok(())
}

// Checks a drawing, with the table of pin counts of accepted rows.
fn check_drawing(
    top: &[u16],
    bottom: &[u16],
    w: usize,
    t: usize,
    layout: &[u16],
    pins: &[u16; 257],
) -> Result<(), Fault>
    requires { PinTable top.now bottom.now pins.now }
    ensures { result ≡ drawing_checked top.now bottom.now w t layout.now }
{
    if w < top.len() {
        return Err(Fault::from(Refusal::Width));
    }
    if 511 < w {
        return Err(Fault::from(Refusal::Width));
    }
    if 511 < t {
        return Err(Fault::from(Refusal::Tracks));
    }
    if layout.len() != w * (2 * t + 1) {
        return Err(Fault::from(Refusal::DrawingLength));
    }
    check_entries(top, bottom, w, t, layout, pins)
}

// Checks a drawing of w columns and t tracks against the rows of a channel.
pub fn check(top: &[u16], bottom: &[u16], w: usize, t: usize, layout: &[u16]) -> Result<(), Fault>
    ensures answer { result ≡ checked top.now bottom.now w t layout.now }
    ensures number { number_of result ≡ refused top.now bottom.now w t layout.now }
    ensures place { place_of result ≡ place top.now bottom.now w t layout.now (number_of result) }
    ensures column { fault_column result ≡ column top.now bottom.now w t layout.now (number_of result) }
    ensures row { fault_row result ≡ row top.now bottom.now w t layout.now (number_of result) }
{
    let facts = grid::net_facts(top, bottom, 256)?;
    check_drawing(top, bottom, w, t, layout, &facts.pins)
}
