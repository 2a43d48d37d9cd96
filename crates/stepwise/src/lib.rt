// A sweep that its caller drives, for channels of two-pin nets: columns are drawn some at a time, and nets may be placed late. The caller holds the state,
// three numbers and the arrays of the sweep, and lends it to each call, part by part, as C passes it. Every call ends on any state; what it promises, it
// promises of a state that the call before left.
#![tactic(auto)]

mod columns;
mod rows;

ghost use Rattle.std.specs.Prelude.{◌≡◌, List, ◌≢◌, ℕ, ◌≤◌, length};
ghost use Rattle.grid.specs.Refusals.{number_of};
ghost use Rattle.stepwise.specs.Sweep.{state_of, Stands, start_refused, started, Starts, Steps, PlacesLate, KeptIfRefused};
ghost use Rattle.stepwise.specs.Working.{two_pin_facts};

use grid::{Family, NetFacts, Refusal};
use router::steps;

// What the call that begins a sweep answers: the tracks, and the slice length that each step needs.
#[derive(Clone, Copy)]
pub struct Started {
    pub tracks: usize,
    pub length: usize,
}

// What a step answers: the columns drawn so far, and whether all are drawn.
#[derive(Clone, Copy)]
pub struct Stepped {
    pub drawn: usize,
    pub finished: bool,
}

// The facts of the nets of rows that this sweep takes: each net has two pins.
fn two_pin_facts(top: &[u16], bottom: &[u16]) -> Result<NetFacts, Refusal>
    ensures { result ≡ two_pin_facts top.now bottom.now }
{
    let facts = grid::net_facts(top, bottom, 256)?;
    match facts.size.family {
        Family::TwoPin => Ok(facts),
        Family::ThreePin | Family::ManyPin => Err(Refusal::SinglePin),
    }
}

// Begins a sweep. The state is that of the channel with no column drawn, or of the channel without columns where the rows are refused.
pub fn start(
    top: &[u16],
    bottom: &[u16],
    columns: &mut usize,
    tracks: &mut usize,
    drawn: &mut usize,
    upper: &mut [u16; 256],
    lower: &mut [u16; 256],
    first: &mut [u16; 257],
    last: &mut [u16; 257],
    strands: &mut [u16; 512],
    free: &mut [u64; 8],
    low: &mut [u16; 257],
    high: &mut [u16; 257],
    many: &mut [u16; 257],
    extended: &mut [u64; 8],
) -> Result<Started, Refusal>
    ensures answer { result ≡ started top.now bottom.now }
    ensures number { number_of result ≡ start_refused top.now bottom.now }
    ensures state { Starts top.now bottom.now (state_of columns.new tracks.new drawn.new
        upper.new lower.new first.new last.new strands.new free.new low.new
        high.new many.new extended.new) }
{
    let answer = two_pin_facts(top, bottom);
    // of refused rows the channel without columns
    let mut n = 0;
    let mut t = 0;
    let mut firsts = grid::zeros();
    let mut lasts = grid::zeros();
    if let Ok(facts) = &answer {
        n = top.len();
        t = facts.size.density;
        firsts = facts.first;
        lasts = facts.last;
    }
    *columns = n;
    *tracks = t;
    *drawn = 0;
    *upper = rows::padded(&top[..n]);
    *lower = rows::padded(&bottom[..n]);
    *first = firsts;
    *last = lasts;
    steps::begin(t, strands, free, low, high, many, extended);
    answer?;
    Ok(Started {
        tracks: t,
        length: steps::formula(n, t),
    })
}

// Draws up to k columns more. A slice that is too short is refused.
pub fn step(
    columns: usize,
    tracks: usize,
    drawn: &mut usize,
    upper: &[u16; 256],
    lower: &[u16; 256],
    first: &[u16; 257],
    last: &[u16; 257],
    strands: &mut [u16; 512],
    free: &mut [u64; 8],
    low: &mut [u16; 257],
    high: &mut [u16; 257],
    many: &mut [u16; 257],
    extended: &mut [u64; 8],
    layout: &mut [u16],
    k: usize,
) -> Result<Stepped, Refusal>
    ensures channel { (top bottom : List ℕ) (t c : ℕ) → Stands top bottom t c (state_of columns tracks drawn.old upper.now
        lower.now first.now last.now strands.old free.old low.old high.old
        many.old extended.old)
        → Steps top bottom t c k layout.old layout.new result (state_of columns tracks drawn.new upper.now
        lower.now first.now last.now strands.new free.new low.new high.new
        many.new extended.new) }
    ensures refused { KeptIfRefused (number_of result) (state_of columns tracks drawn.old upper.now
        lower.now first.now last.now strands.old free.old low.old high.old
        many.old extended.old) (state_of columns tracks drawn.new upper.now
        lower.now first.now last.now strands.new free.new low.new high.new
        many.new extended.new) }
    ensures slice { number_of result ≢ 0 → layout.new ≡ layout.old }
{
    if layout.len() < steps::formula(columns, tracks) {
        return Err(Refusal::LayoutTooShort);
    }
    let e = columns::draw(
        upper, lower, first, last, strands, free, low, high, many, extended, columns, tracks,
        *drawn, k, layout,
    );
    *drawn = e;
    Ok(Stepped {
        drawn: e,
        finished: !columns::has_next(extended, columns, e),
    })
}

// Places a late net of two pins: columns from 1, side 0 for the top and 1 for the bottom.
pub fn place(
    columns: usize,
    tracks: usize,
    drawn: usize,
    upper: &mut [u16; 256],
    lower: &mut [u16; 256],
    first: &mut [u16; 257],
    last: &mut [u16; 257],
    net: u16,
    column1: usize,
    side1: u16,
    column2: usize,
    side2: u16,
) -> Result<(), Refusal>
    ensures channel { (top bottom strands free low high many extended : List ℕ) (t c : ℕ) → Stands top bottom t c (state_of columns tracks drawn
        upper.old lower.old first.old last.old strands free low high many extended)
        → PlacesLate top bottom t c net column1 side1 column2 side2 (number_of result) (state_of columns tracks drawn
        upper.new lower.new first.new last.new strands free low high many extended) }
    ensures refused { (strands free low high many extended : List ℕ) → KeptIfRefused (number_of result) (state_of columns tracks drawn
        upper.old lower.old first.old last.old strands free low high many extended) (state_of columns tracks drawn
        upper.new lower.new first.new last.new strands free low high many extended) }
{
    let n = grid::columns_held(columns);
    let mut top = *upper;
    let mut bottom = *lower;
    placing::place_net(
        &mut top[..n],
        &mut bottom[..n],
        drawn,
        net,
        column1,
        side1,
        column2,
        side2,
    )?;
    let Ok(facts) = grid::net_facts(&top[..n], &bottom[..n], 256) else {
        // Only of a state that no call left: the net is placed, and the tables have no nets.
        *upper = top;
        *lower = bottom;
        *first = grid::zeros();
        *last = grid::zeros();
        return Ok(());
    };
    if tracks < facts.size.density {
        return Err(Refusal::OverTracks);
    }
    let firsts = facts.first;
    let lasts = facts.last;
    *upper = top;
    *lower = bottom;
    *first = firsts;
    *last = lasts;
    Ok(())
}
