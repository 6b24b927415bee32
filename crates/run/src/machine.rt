// The step machine. The match over the steps is in three functions, by whose step it is: in one it would be too long to
// read at once.
ghost use Rattle.std.specs.Prelude.{◌≡◌, ◌+◌, ◌||◌, map, is_some, None, nat_le};
ghost use Rattle.run.specs.Machine.{act as acted, next, steps as stepped, taken, state_of};
ghost use Rattle.run.specs.Moves.{owner_of, of_covered, of_open};
ghost use Rattle.run.specs.Values.{kind_of};

use crate::cells::{is_true, state, work};
use crate::track::Track;
use onepath::Step;
use value::Value;

// A step of a covered construct's own.
fn act_covered<V: Value>(step: Step, after: usize, track: &mut Track, cells: &[V])
    requires place { after ≡ track.old.place + 1 }
    requires whole { track.old.broken ≡ None }
    ensures { owner_of step ≡ of_covered → state_of V.Value track.new cells.now ≡ acted (kind_of V.Value) step track.old.place track.old.registers track.old.latch (map V.Value.meaning cells.now) }
{
    track.place = after;
    match step {
        Step::Ask { level, cell } => track.registers.ask(level, is_true(cells, cell)),
        Step::Turn { level } => track.registers.turn(level),
        Step::Setout { level } => track.registers.setout(level),
        Step::Narrow { level, cell } => {
            let q = track.registers.flag(level) && is_true(cells, cell);
            track.registers.ask(level, q);
        }
        Step::Again { level, bound, to } => {
            if track.registers.count_pass(level) < bound {
                track.place = to;
            }
        }
        Step::Close { level, cell, line } => track.close(level, is_true(cells, cell), line),
        _ => {}
    }
}

// A step of an open construct's own.
fn act_open<V: Value>(step: Step, after: usize, track: &mut Track, cells: &[V])
    requires place { after ≡ track.old.place + 1 }
    requires whole { track.old.broken ≡ None }
    ensures { owner_of step ≡ of_open → state_of V.Value track.new cells.now ≡ acted (kind_of V.Value) step track.old.place track.old.registers track.old.latch (map V.Value.meaning cells.now) }
{
    match step {
        Step::Branch { cell, to } => track.place = if is_true(cells, cell) { after } else { to },
        Step::Jump { to } => track.place = to,
        Step::Enter { counter } => {
            track.registers.set_loop(counter, 0);
            track.place = after;
        }
        Step::Test {
            counter,
            cell,
            bound,
            to,
            line,
        } => {
            if !is_true(cells, cell) {
                track.place = to;
            } else if track.registers.count_loop(counter, bound) {
                track.place = after;
            } else {
                track.broken = Some(line);
            }
        }
        _ => {}
    }
}

// Takes the step, which stands at the track's place; `after` is the place after it.
fn act<V: Value>(step: Step, after: usize, track: &mut Track, cells: &mut [V])
    requires place { after ≡ track.old.place + 1 }
    requires whole { track.old.broken ≡ None }
    ensures { state_of V.Value track.new cells.new ≡ acted (kind_of V.Value) step track.old.place track.old.registers track.old.latch (map V.Value.meaning cells.old) }
{
    match step {
        Step::Work {
            level,
            target,
            op,
            a,
            b,
        } => {
            if track.registers.guard(level) {
                work(cells, target, op, a, b);
            }
            track.place = after;
        }
        Step::Literal {
            level,
            target,
            number,
        } => {
            if track.registers.guard(level) {
                state(cells, target, number);
            }
            track.place = after;
        }
        Step::Branch { .. } | Step::Jump { .. } | Step::Enter { .. } | Step::Test { .. } => {
            act_open(step, after, track, cells)
        }
        _ => act_covered(step, after, track, cells),
    }
}

// Whether a run of so many steps broke or has none left.
pub fn is_over(track: &Track, count: usize) -> bool
    ensures { result ≡ (is_some track.now.broken || nat_le count track.now.place) }
{
    track.broken.is_some() || count <= track.place
}

// Takes one step, unless the run is over.
pub fn step<V: Value>(track: &mut Track, steps: &[Step], cells: &mut [V])
    ensures { state_of V.Value track.new cells.new ≡ next (kind_of V.Value) steps.now (state_of V.Value track.old cells.old) }
{
    let place = track.place;
    if is_over(track, steps.len()) {
        return;
    }
    act(steps[place], place + 1, track, cells);
}

// Takes at most `budget` steps; answers how many it took before the run was over.
pub fn run_steps<V: Value>(track: &mut Track, steps: &[Step], cells: &mut [V], budget: u32) -> u32
    ensures state { state_of V.Value track.new cells.new ≡ stepped (kind_of V.Value) steps.now budget (state_of V.Value track.old cells.old) }
    ensures count { result ≡ taken (kind_of V.Value) steps.now budget (state_of V.Value track.old cells.old) }
{
    for done in 0..budget {
        if is_over(track, steps.len()) {
            return done;
        }
        step(track, steps, cells);
    }
    budget
}
