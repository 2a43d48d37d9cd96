// Rule 2 of two-pin channels, which asks for the free tracks only where there is no net to join. The other rules of two-pin channels are in moves.rt.
ghost use Rattle.sweep.specs.Rules.{top_takes_free, bottom_takes_free, both_take_free};
ghost use Rattle.router.specs.Working.{WithFree};
ghost use Rattle.sweep.specs.TwoPin.{join_or};

use crate::nets;
use rules::actions;
use sweep::{Action, Joint, Pin};

// A starting bottom pin alone in a column of a two-pin channel, rule 2: the extended net n is joined, and where there is none the pin takes the
// lowest free track.
pub(crate) fn bottom_starts(a: Pin, b: Pin, free: &[u64; 8], n: Joint) -> Action
    ensures { WithFree free.now (λ f. join_or n a.net b.net (bottom_takes_free f b.net)) result }
{
    if n.net == 0 {
        return actions::bottom_takes_free(nets::free_tracks(free), b.net);
    }
    actions::join_net(n, a.net, b.net)
}

// A starting top pin alone.
pub(crate) fn top_starts(a: Pin, b: Pin, free: &[u64; 8], n: Joint) -> Action
    ensures { WithFree free.now (λ f. join_or n a.net b.net (top_takes_free f a.net)) result }
{
    if n.net == 0 {
        return actions::top_takes_free(nets::free_tracks(free), a.net);
    }
    actions::join_net(n, a.net, b.net)
}

// Two starting pins of two nets.
pub(crate) fn both_start(a: Pin, b: Pin, free: &[u64; 8], n: Joint) -> Action
    ensures { WithFree free.now (λ f. join_or n a.net b.net (both_take_free f a.net b.net)) result }
{
    if n.net == 0 {
        return actions::both_take_free(nets::free_tracks(free), a.net, b.net);
    }
    actions::join_net(n, a.net, b.net)
}
