// Why a call is refused: one table for all calls.
ghost use Rattle.std.specs.Prelude.{◌≡◌};
ghost use Rattle.grid.specs.Refusals.{number, number_of};

// The refusals, each with the number that C and the printed lines know it by.
#[derive(Clone, Copy, Debug, PartialEq, Eq)]
pub enum Refusal {
    // The length of a record.
    RecordLength = 1,
    // Its kind.
    RecordKind = 2,
    // Its body.
    RecordBody = 3,
    // Rows that differ in length.
    RowLengths = 4,
    // More columns than the call takes.
    TooManyColumns = 5,
    // A number over 256; of a net that is placed, added or dropped also 0.
    NetNumber = 6,
    // A net with a single pin; in a driven sweep, with any number but two.
    SinglePin = 7,
    // A layout slice that is too short.
    LayoutTooShort = 8,
    // A net table of under 256 records.
    TableTooShort = 9,
    // A drawing's width.
    Width = 10,
    // Its tracks.
    Tracks = 11,
    // The length of its slice.
    DrawingLength = 12,
    // An entry that is neither 0 nor a net.
    Entry = 13,
    // A pin whose edge is 0.
    UnwiredPin = 14,
    // A horizontal edge in the last column.
    LastColumn = 15,
    // A net in more than one piece.
    Pieces = 16,
    // A loose end.
    LooseEnd = 17,
    // An output slice too short for the record.
    OutputTooShort = 18,
    // A pin's edge that carries another net.
    MiswiredPin = 19,
    // A wire at a terminal without a pin.
    UnpinnedWire = 20,
    // A net number in use.
    NumberInUse = 21,
    // A terminal that is not free or not allowed.
    TerminalTaken = 22,
    // A density over the tracks.
    OverTracks = 23,
    // A net that is not on the board.
    AbsentNet = 24,
}

impl From<Refusal> for u16 {
    ghost from_gives = { λ r n. n ≡ number r };

    fn from(refusal: Refusal) -> u16 {
        refusal as u16
    }
}

// The number of an answer, 0 where the call is not refused.
pub fn number_of<T>(answer: &Result<T, Refusal>) -> u16
    ensures { result ≡ number_of answer.now }
{
    match answer {
        Ok(_) => 0,
        Err(refusal) => u16::from(*refusal),
    }
}
