// Items that are printed in a row.
ghost use Rattle.report.specs.Texts.{spaced_output};

use std::fmt;

// Each item after a space.
#[derive(Clone, Copy)]
pub(crate) struct Spaced<'a, T>(pub(crate) &'a [T]);

impl<T: fmt::Display> fmt::Display for Spaced<'_, T> {
    ghost output = { λ s. spaced_output T.output s.0.now };

    fn fmt<W: fmt::Write>(&self, f: &mut fmt::Formatter<W>) -> fmt::Result {
        for item in self.0 {
            write!(f, " {item}")?;
        }
        Ok(())
    }
}
