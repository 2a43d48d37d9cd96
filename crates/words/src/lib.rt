// What the test programs share that read cases as 16-bit words: room for the input and for its words, the words of some bytes, the number in two words, and the
// cases in some words.
#![tactic(auto)]

ghost use Rattle.std.specs.Prelude.{◌≡◌, ◌+◌, ◌*◌, ◌^◌, ◌<◌, ◌≤◌, length, MatchOption};
ghost use Rattle.std.specs.Iterator.{at_most};
ghost use Rattle.words.specs.Cases.{Begins};
ghost use Rattle.words.specs.Words.{Decoded};

// Room for the words of a drawing of 511 columns and 511 tracks. A function, since proofs about an array of this length take too long where they see it made.
pub fn word_room() -> [u16; 524288]
    ensures { 524288 ≡ length result }
{
    [0; 524288]
}

// Room for their bytes.
pub fn byte_room() -> [u8; 1048576]
    ensures { 1048576 ≡ length result }
{
    [0; 1048576]
}

// The words of some bytes, as many as have room; how many.
pub fn decode(bytes: &[u8], words: &mut [u16]) -> usize
    ensures { Decoded bytes.now words.new result }
{
    let n = words.len().min(bytes.len() / 2);
    // By index: what a zip with `words.iter_mut()` wrote is not known after its loop.
    for k in 0..n {
        words[k] = u16::from_le_bytes([bytes[2 * k], bytes[2 * k + 1]]);
    }
    n
}

// The number in two words.
pub fn long(low: u16, high: u16) -> usize
    ensures { (result ≡ low + 65536 * high) × (result ≤ 4294967295) }
{
    usize::from(low) + 65536 * usize::from(high)
}

// A case: the words of its head between the lengths of the rows and of the layout, its rows and its layout.
#[derive(Clone, Copy)]
pub struct Case<'a, const N: usize> {
    pub head: &'a [u16; N],
    pub top: &'a [u16],
    pub bottom: &'a [u16],
    pub layout: &'a [u16],
}

// The cases in some words, up to one that is cut off. Each begins with the length of the top row, of the bottom row, N more words and the length of the layout
// (two words, low word first); the rows and the layout follow.
#[derive(Drop)]
pub struct Cases<'a, const N: usize> {
    rest: &'a [u16],
    // So a head fits memory.
    ghost small: { N < 2 ^ 32 },
}

impl<'a, const N: usize> Cases<'a, N> {
    pub fn new(words: &'a [u16]) -> Cases<'a, N>
        requires { N < 2 ^ 32 }
        ensures { result.rest.now ≡ words.now }
    {
        Cases { rest: words }
    }
}

impl<'a, const N: usize> Iterator for Cases<'a, N> {
    type Item = Case<'a, N>;

    ghost next_gives = { λ s r t. MatchOption r (t.rest.now ≡ s.rest.now)
        (λ c. Begins N s.rest.now c.head.now c.top.now c.bottom.now c.layout.now t.rest.now) };

    ghost remaining = { λ s. at_most (length s.rest.now) };

    fn next(&mut self) -> Option<Case<'a, N>> {
        let (&[top, bottom], rest) = self.rest.split_first_chunk::<2>()?;
        let (head, rest) = rest.split_first_chunk()?;
        let (&[low, high], rest) = rest.split_first_chunk::<2>()?;
        let (top, rest) = rest.split_at_checked(usize::from(top))?;
        let (bottom, rest) = rest.split_at_checked(usize::from(bottom))?;
        let (layout, rest) = rest.split_at_checked(long(low, high))?;
        self.rest = rest;
        Some(Case {
            head,
            top,
            bottom,
            layout,
        })
    }
}
