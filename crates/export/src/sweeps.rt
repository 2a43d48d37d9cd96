// The calls of a sweep that its caller drives.
ghost use Rattle.std.specs.Prelude.{◌≡◌, ◌≢◌, List, ℕ, length};
ghost use Rattle.stepwise.specs.Sweep.{state_of, Stands, start_refused, started, stepped, Starts, Steps, PlacesLate, KeptIfRefused};
ghost use Rattle.export.specs.Export.{start_of, step_of, stepped_by};

use stepwise::{Started, Stepped};

// What the call that begins a sweep answers: the number of its refusal, 0 for none, the tracks, and the slice length that each step needs.
#[repr(C)]
#[derive(Clone, Copy)]
pub struct StartResult {
    pub number: u16,
    pub tracks: usize,
    pub length: usize,
}

// What a step answers: the number of its refusal, 0 for none, the columns drawn so far, and whether all are drawn.
#[repr(C)]
#[derive(Clone, Copy)]
pub struct StepResult {
    pub number: u16,
    pub drawn: usize,
    pub finished: bool,
}

const NO_START: Started = Started {
    tracks: 0,
    length: 0,
};

const NO_STEP: Stepped = Stepped {
    drawn: 0,
    finished: false,
};

// Begins a sweep that the caller drives. The state, which the caller holds, is lent to each call of the sweep: three numbers, and arrays that pass as pointers.
#[unsafe(no_mangle)]
pub extern "C" fn gaxwethi_sweep_start(
    top: &[u16],
    bottom: &[u16],
    columns: &mut usize,
    tracks: &mut usize,
    drawn: &mut usize,
    upper: &mut [u16; 256],
    lower: &mut [u16; 256],
    first: &mut [u16; 257],
    last: &mut [u16; 257],
    strands: &mut [u16; 512],
    free: &mut [u64; 8],
    low: &mut [u16; 257],
    high: &mut [u16; 257],
    many: &mut [u16; 257],
    extended: &mut [u64; 8],
) -> StartResult
    ensures answer { result ≡ start_of (started top.now bottom.now) }
    ensures number { result.number ≡ start_refused top.now bottom.now }
    ensures state { Starts top.now bottom.now (state_of columns.new tracks.new drawn.new
        upper.new lower.new first.new last.new strands.new free.new low.new
        high.new many.new extended.new) }
{
    let answer = stepwise::start(
        top, bottom, columns, tracks, drawn, upper, lower, first, last, strands, free, low, high,
        many, extended,
    );
    let started = answer.unwrap_or(NO_START);
    StartResult {
        number: grid::number_of(&answer),
        tracks: started.tracks,
        length: started.length,
    }
}

// Draws up to k columns more of such a sweep.
#[unsafe(no_mangle)]
pub extern "C" fn gaxwethi_sweep_step(
    columns: usize,
    tracks: usize,
    drawn: &mut usize,
    upper: &[u16; 256],
    lower: &[u16; 256],
    first: &[u16; 257],
    last: &[u16; 257],
    strands: &mut [u16; 512],
    free: &mut [u64; 8],
    low: &mut [u16; 257],
    high: &mut [u16; 257],
    many: &mut [u16; 257],
    extended: &mut [u64; 8],
    layout: &mut [u16],
    k: usize,
) -> StepResult
    ensures channel { (top bottom : List ℕ) (t c : ℕ) → Stands top bottom t c (state_of columns tracks drawn.old upper.now
        lower.now first.now last.now strands.old free.old low.old high.old
        many.old extended.old)
        → (result ≡ step_of (stepped top bottom t c k (length layout.old)))
        × Steps top bottom t c k layout.old layout.new (stepped_by result) (state_of columns tracks drawn.new upper.now
        lower.now first.now last.now strands.new free.new low.new high.new
        many.new extended.new) }
    ensures refused { KeptIfRefused result.number (state_of columns tracks drawn.old upper.now
        lower.now first.now last.now strands.old free.old low.old high.old
        many.old extended.old) (state_of columns tracks drawn.new upper.now
        lower.now first.now last.now strands.new free.new low.new high.new
        many.new extended.new) }
    ensures slice { result.number ≢ 0 → layout.new ≡ layout.old }
{
    let answer = stepwise::step(
        columns, tracks, drawn, upper, lower, first, last, strands, free, low, high, many,
        extended, layout, k,
    );
    let stepped = answer.unwrap_or(NO_STEP);
    StepResult {
        number: grid::number_of(&answer),
        drawn: stepped.drawn,
        finished: stepped.finished,
    }
}

// Places a late net in the channel of such a sweep.
#[unsafe(no_mangle)]
pub extern "C" fn gaxwethi_sweep_place(
    columns: usize,
    tracks: usize,
    drawn: usize,
    upper: &mut [u16; 256],
    lower: &mut [u16; 256],
    first: &mut [u16; 257],
    last: &mut [u16; 257],
    net: u16,
    column1: usize,
    side1: u16,
    column2: usize,
    side2: u16,
) -> u16
    ensures channel { (top bottom strands free low high many extended : List ℕ) (t c : ℕ) → Stands top bottom t c (state_of columns tracks drawn
        upper.old lower.old first.old last.old strands free low high many extended)
        → PlacesLate top bottom t c net column1 side1 column2 side2 result (state_of columns tracks drawn
        upper.new lower.new first.new last.new strands free low high many extended) }
    ensures refused { (strands free low high many extended : List ℕ) → KeptIfRefused result (state_of columns tracks drawn
        upper.old lower.old first.old last.old strands free low high many extended) (state_of columns tracks drawn
        upper.new lower.new first.new last.new strands free low high many extended) }
{
    grid::number_of(&stepwise::place(
        columns, tracks, drawn, upper, lower, first, last, net, column1, side1, column2, side2,
    ))
}
