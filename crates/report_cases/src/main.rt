// Runs the net report on cases from standard input and writes a line for each answer, `number N place P column C row R`, and after a filled table a line
// `net V: FIRST LAST PINS LENGTH` for each record that is not all zeros.
// A case is 16-bit words, low byte first: the length of the top row, of the bottom row, 1 with a drawing or 0 without, the width, the tracks, the length of
// the layout (two words, low word first), then the rows and the layout. A case that is cut off ends the run.
#![tactic(auto)]

use checker::Told;
use report::{Drawing, NetRecord};
use std::io;
use words::{Case, Cases};

// The records of the nets 1 to 256 that are not all zeros.
fn show_table(rt: &impl Print, table: &[NetRecord; 256]) -> io::Result<()> {
    for (net, record) in (1..).zip(table) {
        let NetRecord {
            first,
            last,
            pins,
            length,
        } = *record;
        if [first, last, pins, length] != [0; 4] {
            println!(rt; "net {net}: {first} {last} {pins} {length}")?;
        }
    }
    Ok(())
}

// Writes the answer of a case, and the table where it is filled.
fn answer(rt: &impl Print, case: Case<'_, 3>) -> io::Result<()> {
    let drawing = match *case.head {
        [0, _, _] => Drawing::Absent,
        [_, width, tracks] => Drawing::Given(usize::from(width), usize::from(tracks)),
    };
    let reply = report::table_of(case.top, case.bottom, drawing, case.layout);
    let Told {
        number,
        place,
        column,
        row,
    } = Told::from(reply.answer);
    println!(rt; "number {number} place {place} column {column} row {row}")?;
    match reply.answer {
        Ok(()) => show_table(rt, &reply.table),
        Err(_) => Ok(()),
    }
}

fn main(rt: HostRuntime) -> io::Result<()> {
    let mut bytes = words::byte_room();
    let n = reading::read_full(&mut rt.stdin(), &mut bytes)?;
    let mut words = words::word_room();
    let k = words::decode(&bytes[..n], &mut words);
    for case in Cases::new(&words[..k]) {
        answer(&rt, case)?;
    }
    Ok(())
}
