// The sweeps of documents 01 and 02, as definitions and laws: specs/ has the rules and the drawing, proofs/ that every drawing is a solution. No code but the
// structs that the definitions speak of.
#![tactic(auto)]

use grid::Segments;

// A terminal of the column: its net (0: none), its kind (0 none, 1 starts, 2 continues, 3 ends) and its net's strands in the gap left of the
// column: the lowest, the highest and how many.
#[derive(Clone, Copy)]
pub struct Pin {
    pub net: u16,
    pub kind: u16,
    pub low: u16,
    pub high: u16,
    pub many: u16,
}

// The net that rule 2 joins (0: none), its lowest, second lowest and highest strand, and whether it has pins after the column.
#[derive(Clone, Copy)]
pub struct Joint {
    pub net: u16,
    pub low: u16,
    pub second: u16,
    pub high: u16,
    pub later: bool,
}

// A net with two strands that has no mate (0: none), its lower and its higher strand, and its last column.
#[derive(Clone, Copy)]
pub struct Double {
    pub net: u16,
    pub low: u16,
    pub high: u16,
    pub last: u16,
}

// The two lowest free tracks, 0 where there is none.
#[derive(Clone, Copy)]
pub struct Free {
    pub first: u16,
    pub second: u16,
}

// A track that a net is given; track 0: none.
#[derive(Clone, Copy)]
pub struct Gift {
    pub track: u16,
    pub net: u16,
}

// What a rule does in a column: its vertical wires; the nets ended and closed, all of whose strands end here (0: none); then up to three tracks given.
#[derive(Clone, Copy)]
pub struct Action {
    pub wires: Segments,
    pub ended: u16,
    pub closed: u16,
    pub gift1: Gift,
    pub gift2: Gift,
    pub gift3: Gift,
}

// What a rule does in a column and the pair that it forms, a double and a single net (0 and 0: none).
#[derive(Clone, Copy)]
pub struct Move {
    pub action: Action,
    pub double: u16,
    pub single: u16,
}
