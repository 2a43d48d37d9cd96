// What a sweep works in: arrays that are lent by whoever holds them.
use grid::Family;

// What the sweep of a channel goes by: each net's first and last column, the tracks and the family.
#[derive(Clone, Copy)]
pub(crate) struct Plan<'a> {
    pub(crate) first: &'a [u16; 257],
    pub(crate) last: &'a [u16; 257],
    pub(crate) t: usize,
    pub(crate) family: Family,
}

// The net on each track in a gap, 0 for none, and the set of the free tracks.
#[derive(Drop)]
pub(crate) struct Tracks<'a> {
    pub(crate) nets: &'a mut [u16; 512],
    pub(crate) free: &'a mut [u64; 8],
}

// The tracks in a gap, and each net's lowest and highest strand on them and how many it has.
#[derive(Drop)]
pub(crate) struct Strands<'a> {
    pub(crate) tracks: Tracks<'a>,
    pub(crate) low: &'a mut [u16; 257],
    pub(crate) high: &'a mut [u16; 257],
    pub(crate) many: &'a mut [u16; 257],
}

// The sets of the extended and of the wide nets.
#[derive(Drop)]
pub(crate) struct Marks<'a> {
    pub(crate) extended: &'a mut [u64; 8],
    pub(crate) wide: &'a mut [u64; 8],
}

// The nets' mates, and the set of the unpaired double nets.
#[derive(Drop)]
pub(crate) struct Mates<'a> {
    pub(crate) mates: &'a mut [u16; 257],
    pub(crate) lone: &'a mut [u64; 8],
}

// The sweep of a channel at a gap.
#[derive(Drop)]
pub(crate) struct Sweep<'a> {
    pub(crate) plan: Plan<'a>,
    pub(crate) strands: Strands<'a>,
    pub(crate) marks: Marks<'a>,
    pub(crate) mates: Mates<'a>,
}
