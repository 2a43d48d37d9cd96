// The tests of the row check: numbers over 256 in a row, and the pin counts.
ghost use Rattle.std.specs.Prelude.{◌≡◌, eqb, ltb, length, get_or};
ghost use Rattle.grid.specs.Channel.{over};
ghost use Rattle.grid.specs.Working.{some_to};

// Whether a net has a single pin, whether one has three or more, and whether one has four or more.
#[derive(Clone, Copy)]
pub(crate) struct Flags {
    pub single: bool,
    pub three: bool,
    pub four: bool,
}

// Whether a row has a number over 256.
pub(crate) fn has_over(row: &[u16]) -> bool
    ensures { result ≡ over row.now }
{
    row.iter().fold(false, |found, &x| found | (256 < x))
}

// The tests over the pin counts of all nets.
pub(crate) fn tests(pins: &[u16]) -> Flags
    requires { length pins.now ≡ 257 }
    ensures single { result.single ≡ some_to (λ v. eqb (get_or pins.now v 0) 1) 256 }
    ensures three { result.three ≡ some_to (λ v. ltb 2 (get_or pins.now v 0)) 256 }
    ensures four { result.four ≡ some_to (λ v. ltb 3 (get_or pins.now v 0)) 256 }
{
    let mut single = false;
    let mut three = false;
    let mut four = false;
    for &k in &pins[1..] {
        single |= k == 1;
        three |= 2 < k;
        four |= 3 < k;
    }
    Flags {
        single,
        three,
        four,
    }
}
