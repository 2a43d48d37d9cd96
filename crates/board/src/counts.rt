// The stored counts: mended by a change, and the largest of them.
ghost use Rattle.std.specs.Prelude.{◌≡◌, ◌≤◌, max, fold};
ghost use Rattle.board.specs.Working.{Mended};

// Mends the counts of the gaps from `first` to one before `last`: those at which a net with these first and last columns is open.
pub(crate) fn mend<F: Fn(u16) -> u16>(counts: &mut [u16; 256], first: usize, last: usize, change: F)
    requires last { last ≤ 256 }
    requires change { F.IsAlwaysCallable change }
    ensures { Mended first last (F.post change) counts.old counts.new }
{
    for gap in first..last {
        counts[gap] = change(counts[gap]);
    }
}

// The largest of the counts, 0 for none.
pub(crate) fn largest(counts: &[u16]) -> u16
    ensures { result ≡ fold max 0 counts.now }
{
    // a `for`: `iter().fold(..)` takes more than twice the time
    let mut most = 0;
    for count in counts {
        most = most.max(*count);
    }
    most
}
