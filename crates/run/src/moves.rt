// A run's beginning, and what the close of a covered loop does to it.
ghost use Rattle.std.specs.Prelude.{◌≡◌, ◌-◌, ◌&&◌};
ghost use Rattle.run.specs.Machine.{at_first};
ghost use Rattle.run.specs.Moves.{closed};

use crate::registers::Registers;
use crate::track::Track;

impl Track {
    // Before the first step.
    pub fn new() -> Track
        ensures { result ≡ at_first }
    {
        Track {
            place: 0,
            registers: Registers::new(),
            latch: None,
            broken: None,
        }
    }

    // Latches the loop's line where nothing is latched, the loop ran, and its cell is still true.
    pub(crate) fn close(&mut self, level: usize, is_true: bool, line: usize)
        ensures { self.new ≡ closed self.old level is_true line }
    {
        if self.registers.outer_guard(level)
            && (self.registers.flag(level) && is_true)
            && self.latch.is_none()
        {
            self.latch = Some(line);
        }
    }
}
