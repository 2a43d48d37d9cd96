// Runs the checker on cases from standard input and writes number, place, column and row of each answer, a line for each case.
// A case is 16-bit words, low byte first: the length of the top row, of the bottom row, the width, the tracks, the length of the layout (two words, low
// word first), then the rows and the layout. A case that is cut off ends the run.
#![tactic(auto)]

use checker::Told;
use std::io;
use words::{Case, Cases};

// Checks the drawing of a case and writes the answer.
fn answer(rt: &impl Print, case: Case<'_, 2>) -> io::Result<()> {
    let [width, tracks] = *case.head;
    let answer = checker::check(
        case.top,
        case.bottom,
        usize::from(width),
        usize::from(tracks),
        case.layout,
    );
    let Told {
        number,
        place,
        column,
        row,
    } = Told::from(answer);
    println!(rt; "{number} {place} {column} {row}")
}

fn main(rt: HostRuntime) -> io::Result<()> {
    let mut bytes = words::byte_room();
    let n = reading::read_full(&mut rt.stdin(), &mut bytes)?;
    let mut words = words::word_room();
    let k = words::decode(&bytes[..n], &mut words);
    for case in Cases::new(&words[..k]) {
        answer(&rt, case)?;
    }
    Ok(())
}
