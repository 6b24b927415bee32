// What the steps do to the registers.
ghost use Rattle.std.specs.Prelude.{◌≡◌, ◌-◌, true, not, ◌&&◌, ◌==◌, if◌then◌else◌};
ghost use Rattle.run.specs.Machine.{level_at, flag_at, guard_at, counter_at, loop_at, put_level, flagged, guarded, counted, looped, counted_on, cleared};

use crate::registers::{Level, Registers};
use crate::slots::put;

impl Registers {
    // Nothing is set. A derived default says less of an array than this clause.
    pub fn new() -> Registers
        ensures { result ≡ cleared }
    {
        Registers {
            levels: [Level::default(); 7],
            loops: [0; 6],
        }
    }

    // What is kept for a level; past the last nothing is set.
    fn level(&self, level: usize) -> Level
        ensures { result ≡ level_at self.now level }
    {
        self.levels.get(level).copied().unwrap_or_default()
    }

    // Past the last level nothing changes.
    fn set_level(&mut self, level: usize, to: Level)
        ensures { self.new ≡ put_level self.old level to }
    {
        put(&mut self.levels, level, to);
    }

    pub(crate) fn flag(&self, level: usize) -> bool
        ensures { result ≡ flag_at self.now level }
    {
        self.level(level).flag
    }

    // The guard of a level; that of level 0 is always yes.
    pub(crate) fn guard(&self, level: usize) -> bool
        ensures { result ≡ guard_at self.now level }
    {
        level == 0 || self.level(level).guard
    }

    // The guard of the level around a construct.
    pub(crate) fn outer_guard(&self, level: usize) -> bool
        ensures { result ≡ guard_at self.now (level - 1) }
    {
        self.guard(level.saturating_sub(1))
    }

    // The construct's flag becomes q, and its guard that of the level around it and q.
    pub(crate) fn ask(&mut self, level: usize, q: bool)
        ensures { self.new ≡ guarded (flagged self.old level q) level (guard_at self.old (level - 1) && q) }
    {
        let passes = self.level(level).passes;
        let guard = self.outer_guard(level) && q;
        self.set_level(
            level,
            Level {
                flag: q,
                guard,
                passes,
            },
        );
    }

    // The guard becomes that of the level around it and not the flag.
    pub(crate) fn turn(&mut self, level: usize)
        ensures { self.new ≡ guarded self.old level (guard_at self.old (level - 1) && not (flag_at self.old level)) }
    {
        let guard = self.outer_guard(level) && !self.flag(level);
        self.set_level(
            level,
            Level {
                guard,
                ..self.level(level)
            },
        );
    }

    // The flag becomes yes, and no pass is counted.
    pub(crate) fn setout(&mut self, level: usize)
        ensures { self.new ≡ counted (flagged self.old level true) level 0 }
    {
        let guard = self.level(level).guard;
        self.set_level(
            level,
            Level {
                flag: true,
                guard,
                passes: 0,
            },
        );
    }

    // Counts a pass; answers how many there are.
    pub(crate) fn count_pass(&mut self, level: usize) -> u8
        ensures value { result ≡ counted_on (counter_at self.old level) }
        ensures after { self.new ≡ counted self.old level result }
    {
        let passes = self.level(level).passes.saturating_add(1);
        self.set_level(
            level,
            Level {
                passes,
                ..self.level(level)
            },
        );
        passes
    }

    pub(crate) fn set_loop(&mut self, counter: usize, n: u8)
        ensures { self.new ≡ looped self.old counter n }
    {
        put(&mut self.loops, counter, n);
    }

    // Counts a pass of an open loop, unless there are as many as its bound; answers whether it did.
    pub(crate) fn count_loop(&mut self, counter: usize, bound: u8) -> bool
        ensures value { result ≡ not (loop_at self.old counter == bound) }
        ensures after { self.new ≡ (if result then looped self.old counter (counted_on (loop_at self.old counter)) else self.old) }
    {
        let passes = self.loops.get(counter).copied().unwrap_or(0);
        if passes == bound {
            return false;
        }
        self.set_loop(counter, passes.saturating_add(1));
        true
    }
}
