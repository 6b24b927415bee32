// Walking along the one path under a watcher's eyes.
ghost use Rattle.std.specs.Prelude.{◌≡◌};
ghost use Rattle.run.specs.Machine.{state_of};
ghost use Rattle.protocol.specs.Advancing.{over_by};
ghost use Rattle.protocol.specs.Calls.{told_of};
ghost use Rattle.round.specs.Rounds.{walk_of};

use onepath::Step;
use protocol::{Advanced, Ending};
use run::{Track, is_over, step};
use value::Value;
use watch::Watcher;

// The ending of a run that is over.
fn over(track: &Track) -> Ending
    ensures { result ≡ over_by track.now.broken }
{
    match track.broken {
        Some(line) => Ending::Broken { line },
        None => Ending::Ended,
    }
}

// Takes at most `count` steps. A run that is over ends it; after `count` steps it is paused; a place that the watcher
// declines stops it; otherwise the step is taken.
pub(crate) fn walk<V: Value, W: Watcher>(
    track: &mut Track,
    steps: &[Step],
    working: &mut [V],
    watcher: &mut W,
    count: u32,
) -> Advanced
    ensures told { result ≡ told_of (walk_of V.Value W.Watcher steps.now count track.old working.old watcher.old) }
    ensures run { state_of V.Value track.new working.new ≡ (walk_of V.Value W.Watcher steps.now count track.old working.old watcher.old).run }
    ensures watching { W.Watcher.meaning watcher.new ≡ (walk_of V.Value W.Watcher steps.now count track.old working.old watcher.old).watcher }
    ensures loan { W.Watcher.loan watcher.new ≡ W.Watcher.loan watcher.old }
{
    for done in 0..count {
        if is_over(track, steps.len()) {
            return Advanced {
                steps: done,
                ending: over(track),
            };
        }
        if !watcher.offer(track.place) {
            return Advanced {
                steps: done,
                ending: Ending::Stopped,
            };
        }
        step(track, steps, working);
    }
    let ending = if is_over(track, steps.len()) {
        over(track)
    } else {
        Ending::Paused
    };
    Advanced {
        steps: count,
        ending,
    }
}
