// How faults are printed.
ghost use Rattle.std.specs.Prelude.{Some};
ghost use Rattle.sheet.specs.Words.{refusal_text, layer_text};

use crate::fault_kinds::Fault;
use crate::faults::Layer;
use std::fmt;

// What was refused, by the fault's number and place.
#[derive(Clone, Copy)]
pub struct Refused<F>(pub F);

impl<F: Fault> fmt::Display for Refused<F> {
    ghost output = { λ r. Some (refusal_text (F.numbered r.0) (F.placed r.0)) };

    fn fmt<W: fmt::Write>(&self, f: &mut fmt::Formatter<W>) -> fmt::Result {
        let number = self.0.number();
        let place = self.0.place();
        write!(f, "refused {number} at {place}")
    }
}

impl fmt::Display for Layer {
    ghost output = { λ l. Some (layer_text l) };

    fn fmt<W: fmt::Write>(&self, f: &mut fmt::Formatter<W>) -> fmt::Result {
        f.write_str(match *self {
            Layer::Reading => "reading",
            Layer::Marking => "marking",
            Layer::Conversion => "conversion",
            Layer::Running => "running",
            Layer::Opening => "opening",
            Layer::Playing => "playing",
        })
    }
}
