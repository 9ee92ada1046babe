// Why a step of writing is refused.
ghost use Rattle.std.specs.Prelude.{◌≡◌};

use crate::reading::FileFault;
use routing::refusal::{Layer, Refusal};
use routing::widths::WidthsFault;
use thiserror::Error;

// Places are fields, counted from 1, or numbers of bytes, rows or decisions.
#[derive(Clone, Copy, Debug, PartialEq, Eq, Hash, Error)]
pub enum WriteFault {
    #[error("there are not 1 to 8 fields (place 1)")]
    Fields,
    #[error("the width of a field is not 1 to 32 (place {0})")]
    Width(u8),
    #[error("there are more than 512 rules (place 4)")]
    Rules,
    // the bytes that the file needs
    #[error("the buffer is shorter than the file (place {0})")]
    Room(usize),
    // after so many
    #[error("a row or a decision too many, or a turn or an end too early (place {0})")]
    Count(usize),
    // the file was started for another
    #[error("the decision is of another kind than the file (place 2)")]
    Kind,
    #[error("two ends make no interval of their field (place {0})")]
    Ends(u8),
}

// What a fault tells.
impl From<WriteFault> for Refusal {
    ghost use Rattle.routing.specs.Refusals.{told_by};
    ghost use Rattle.routing.specs.declared.refusal.Layer.TheVariants.{Writer as WriterLayer};
    ghost use Rattle.fault.specs.Faults.{write_reason};

    ghost from_gives = { λ f r. r ≡ told_by WriterLayer (write_reason f) };

    fn from(value: WriteFault) -> Refusal {
        let (number, place) = match value {
            WriteFault::Fields => (3, 1),
            WriteFault::Kind => (4, 2),
            WriteFault::Rules => (5, 4),
            WriteFault::Width(field) => (8, usize::from(field)),
            WriteFault::Ends(field) => (9, usize::from(field)),
            WriteFault::Room(place) => (16, place),
            WriteFault::Count(place) => (17, place),
        };
        Refusal {
            layer: Layer::Writer,
            number,
            place,
        }
    }
}

// By hand, as the others below, since a derived From has no contract.
impl From<WidthsFault> for WriteFault {
    ghost use Rattle.fault.specs.Faults.{write_of};

    ghost from_gives = { λ f r. r ≡ write_of f };

    fn from(value: WidthsFault) -> WriteFault {
        match value {
            WidthsFault::Fields => WriteFault::Fields,
            WidthsFault::Width(field) => WriteFault::Width(field),
        }
    }
}

// Why a file is not written again: it was refused as it was read, or as it was written.
#[derive(Clone, Copy, Debug, PartialEq, Eq, Hash, Error)]
pub enum RewriteFault {
    #[error(transparent)]
    Read(FileFault),
    #[error(transparent)]
    Write(WriteFault),
}

// What a fault tells.
impl From<RewriteFault> for Refusal {
    ghost use Rattle.fault.specs.Faults.{rewrite_told};

    ghost from_gives = { λ f r. r ≡ rewrite_told f };

    fn from(value: RewriteFault) -> Refusal {
        match value {
            RewriteFault::Read(fault) => fault.into(),
            RewriteFault::Write(fault) => fault.into(),
        }
    }
}

impl From<FileFault> for RewriteFault {
    ghost use Rattle.fault.specs.declared.writing.RewriteFault.TheVariants.{Read};

    ghost from_gives = { λ f r. r ≡ Read f };

    fn from(value: FileFault) -> RewriteFault {
        RewriteFault::Read(value)
    }
}

impl From<WriteFault> for RewriteFault {
    ghost use Rattle.fault.specs.declared.writing.RewriteFault.TheVariants.{Write};

    ghost from_gives = { λ f r. r ≡ Write f };

    fn from(value: WriteFault) -> RewriteFault {
        RewriteFault::Write(value)
    }
}
