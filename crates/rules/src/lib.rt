// The rules of the sweeps in code: from a column's pins, the free tracks, the net of rule 2 and, in three-pin channels, double nets to what the
// column does. They are total functions of a few numbers; the router finds these in its arrays and sets.
#![tactic(auto)]

pub mod actions;
pub mod many_pin;
pub mod three_pin;
