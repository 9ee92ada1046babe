// The line that a program writes in place of a refused file.
use super::{Layer, Refusal};
use std::fmt;

impl fmt::Display for Layer {
    fn fmt<W: fmt::Write>(&self, f: &mut fmt::Formatter<W>) -> fmt::Result {
        f.write_str(match self {
            Layer::File => "F",
            Layer::Table => "T",
            Layer::Writer => "W",
        })
    }
}

impl fmt::Display for Refusal {
    fn fmt<W: fmt::Write>(&self, f: &mut fmt::Formatter<W>) -> fmt::Result {
        write!(f, "refused {} {} {}", self.layer, self.number, self.place)
    }
}
