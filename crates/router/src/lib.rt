// The router: rows and a lent slice in, a drawing out, on d, 3d/2 or 2d - 1 tracks by the channel's family.
#![tactic(auto)]

mod added;
mod choose;
mod columns;
mod index;
mod lent;
mod moves;
mod nets;
mod pins;
pub mod steps;
mod writer;

ghost use Rattle.std.specs.Prelude.{◌≡◌, true, ◌+◌, ◌*◌, ◌/◌, ◌-◌, ◌≤◌, ltb, length, drop, ◌++◌};
ghost use Rattle.grid.specs.Channel.{pick, tracks_of, rows_refused};
ghost use Rattle.grid.specs.Refusals.{if_accepted, number_of};
ghost use Rattle.router.specs.Promise.{Solves};
ghost use Rattle.sweep.specs.Drawing.{width};
ghost use Rattle.sweep.specs.Drawing.{layout as layout_of};
ghost use Rattle.router.specs.Answers.{figures_of, no_figures, entries_of};
ghost use Rattle.router.specs.Answers.{formula_length, slice_length, need as need_of, refused, figures as figures_by, answer, written};
ghost use Rattle.router.specs.Working.{EachFits, blank, no_nets};
ghost use Rattle.router.specs.Lent.{Planned};

use crate::lent::{Marks, Mates, Plan, Strands, Sweep, Tracks};
use grid::{Family, Refusal};

// The figures of a drawn channel.
#[derive(Clone, Copy)]
pub struct Figures {
    pub density: usize,
    pub tracks: usize,
    pub width: usize,
}

// A table with no track taken, and one with no net.
pub(crate) fn no_tracks() -> [u16; 512]
    ensures { result ≡ blank }
{
    [0u16; 512]
}

pub(crate) fn no_nets() -> [u16; 257]
    ensures { result ≡ no_nets }
{
    [0u16; 257]
}

// Sweeps over a channel and draws it; in a dry run nothing is drawn. The answer is the width.
fn sweep_channel(
    top: &[u16],
    bottom: &[u16],
    plan: &Plan,
    layout: &mut [u16],
    drawing: bool,
) -> usize
    requires planned { Planned top.now bottom.now plan.now }
    requires each_fits { EachFits plan.now.t top.now bottom.now }
    requires narrow { width plan.now.t top.now bottom.now ≤ length top.now + plan.now.t / 2 }
    requires long_enough { drawing ≡ true → width plan.now.t top.now bottom.now * (2 * plan.now.t + 1) ≤ length layout.old }
    ensures width { result ≡ width plan.now.t top.now bottom.now }
    ensures drawing { layout.new ≡ pick drawing (layout_of plan.now.t top.now bottom.now
        ++ drop (result * (2 * plan.now.t + 1)) layout.old) layout.old }
{
    let n = top.len();
    let mut nets = no_tracks();
    let mut free = index::all_free(plan.t);
    let mut low = no_nets();
    let mut high = no_nets();
    let mut many = no_nets();
    let mut extended = sets::empty();
    let mut wide = sets::empty();
    let mut mates = no_nets();
    let mut lone = sets::empty();
    let tracks = Tracks {
        nets: &mut nets,
        free: &mut free,
    };
    let sweep = &mut Sweep {
        plan: *plan,
        strands: Strands {
            tracks,
            low: &mut low,
            high: &mut high,
            many: &mut many,
        },
        marks: Marks {
            extended: &mut extended,
            wide: &mut wide,
        },
        mates: Mates {
            mates: &mut mates,
            lone: &mut lone,
        },
    };
    sweep.columns(top, bottom, layout, drawing, 0, n);
    if drawing {
        return sweep.strands.finish(layout, &sweep.marks, plan.t, n);
    }
    let k = sweep.marks.columns_to_add();
    n + k
}

// The tracks of a channel of density d.
fn tracks_of(family: Family, d: usize) -> usize
    requires { d ≤ 256 }
    ensures { result ≡ tracks_of family d }
{
    match family {
        Family::TwoPin => d,
        Family::ThreePin => 3 * d / 2,
        Family::ManyPin => (2 * d).saturating_sub(1),
    }
}

// Document 01's slice length for n columns on t tracks.
pub(crate) fn formula_length(n: usize, t: usize) -> usize
    requires { (n ≤ 256) × (t ≤ 511) }
    ensures { result ≡ formula_length n t }
{
    (n + t / 2) * (2 * t + 1)
}

// The slice length that the drawing of a channel takes, by a dry run.
fn slice_length(top: &[u16], bottom: &[u16], plan: &Plan) -> usize
    requires planned { Planned top.now bottom.now plan.now }
    requires each_fits { EachFits plan.now.t top.now bottom.now }
    requires narrow { width plan.now.t top.now bottom.now ≤ length top.now + plan.now.t / 2 }
    ensures { result ≡ width plan.now.t top.now bottom.now * (2 * plan.now.t + 1) }
{
    let mut nothing = [0u16; 1];
    let w = sweep_channel(top, bottom, plan, &mut nothing, false);
    w * (2 * plan.t + 1)
}

// Whether a slice of `lent` entries is too short for the drawing. One of the formula's length never is, and costs no dry run.
fn is_short(lent: usize, top: &[u16], bottom: &[u16], plan: &Plan) -> bool
    requires planned { Planned top.now bottom.now plan.now }
    requires each_fits { EachFits plan.now.t top.now bottom.now }
    requires narrow { width plan.now.t top.now bottom.now ≤ length top.now + plan.now.t / 2 }
    ensures { result ≡ ltb lent (width plan.now.t top.now bottom.now * (2 * plan.now.t + 1)) }
{
    let enough = formula_length(top.len(), plan.t);
    if enough <= lent {
        return false;
    }
    let needed = slice_length(top, bottom, plan);
    lent < needed
}

// The slice length that a routing call needs for a channel.
pub fn need(top: &[u16], bottom: &[u16]) -> Result<usize, Refusal>
    ensures answer { result ≡ need_of top.now bottom.now }
    ensures number { number_of result ≡ rows_refused top.now bottom.now 256 }
    ensures entries { entries_of result ≡ if_accepted (number_of result) (slice_length top.now bottom.now) 0 }
{
    let facts = grid::net_facts(top, bottom, 256)?;
    let t = tracks_of(facts.size.family, facts.size.density);
    let plan = Plan {
        first: &facts.first,
        last: &facts.last,
        t,
        family: facts.size.family,
    };
    Ok(slice_length(top, bottom, &plan))
}

// Routes a channel: its drawing goes to the front of the layout, and what stands behind it stays. A refused call leaves the layout as it is. `most` is
// the largest number of columns; over 256 it stands for 256.
pub fn route_within(
    top: &[u16],
    bottom: &[u16],
    most: usize,
    layout: &mut [u16],
) -> Result<Figures, Refusal>
    ensures answer { result ≡ answer top.now bottom.now most (length layout.old) }
    ensures drawing { layout.new ≡ written top.now bottom.now most layout.old }
    ensures solution { number_of result ≡ 0 → Solves top.now bottom.now layout.new (figures_of result) }
    ensures number { number_of result ≡ refused top.now bottom.now most (length layout.old) }
    ensures figures { figures_of result ≡ if_accepted (number_of result) (figures_by top.now bottom.now) no_figures }
{
    let facts = grid::net_facts(top, bottom, most)?;
    let t = tracks_of(facts.size.family, facts.size.density);
    let plan = Plan {
        first: &facts.first,
        last: &facts.last,
        t,
        family: facts.size.family,
    };
    if is_short(layout.len(), top, bottom, &plan) {
        return Err(Refusal::LayoutTooShort);
    }
    let w = sweep_channel(top, bottom, &plan, layout, true);
    let figures = Figures {
        density: facts.size.density,
        tracks: t,
        width: w,
    };
    Ok(figures)
}

// Routes a channel of up to 256 columns.
pub fn route(top: &[u16], bottom: &[u16], layout: &mut [u16]) -> Result<Figures, Refusal>
    ensures answer { result ≡ answer top.now bottom.now 256 (length layout.old) }
    ensures drawing { layout.new ≡ written top.now bottom.now 256 layout.old }
    ensures solution { number_of result ≡ 0 → Solves top.now bottom.now layout.new (figures_of result) }
    ensures number { number_of result ≡ refused top.now bottom.now 256 (length layout.old) }
    ensures figures { figures_of result ≡ if_accepted (number_of result) (figures_by top.now bottom.now) no_figures }
{
    route_within(top, bottom, 256, layout)
}
