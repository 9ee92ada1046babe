// Why a file is refused.
ghost use Rattle.std.specs.Prelude.{◌≡◌};

use routing::refusal::{Layer, Refusal};
use routing::widths::WidthsFault;
use thiserror::Error;

// Places are bytes of the file, counted from 0, or its length.
#[derive(Clone, Copy, Debug, PartialEq, Eq, Hash, Error)]
pub enum FileFault {
    // its length
    #[error("the file is shorter than its header of 16 bytes (place {0})")]
    Short(usize),
    // the edition is not 1, or a byte that must be 0 is not: that byte
    #[error("a byte is not what every file of edition 1 has there (place {0})")]
    Fixed(usize),
    #[error("there are not 1 to 8 fields (place 1)")]
    Fields,
    #[error("the decisions are of another kind (place 2)")]
    Kind,
    #[error("there are more than 512 rules (place 4)")]
    Rules,
    // its first byte
    #[error("an offset is not the one that the counts give (place {0})")]
    Offset(usize),
    // the length of the file
    #[error("the length is not the one that the counts give (place {0})")]
    Length(usize),
    // its byte
    #[error("a width is not 1 to 32 (place {0})")]
    Width(usize),
    // the first byte of the low end
    #[error("two ends make no interval of their field (place {0})")]
    Ends(usize),
}

// What a fault tells.
impl From<FileFault> for Refusal {
    ghost use Rattle.routing.specs.Refusals.{told_by};
    ghost use Rattle.routing.specs.declared.refusal.Layer.TheVariants.{File as FileLayer};
    ghost use Rattle.fault.specs.Faults.{file_reason};

    ghost from_gives = { λ f r. r ≡ told_by FileLayer (file_reason f) };

    fn from(value: FileFault) -> Refusal {
        let (number, place) = match value {
            FileFault::Short(place) => (1, place),
            FileFault::Fixed(place) => (2, place),
            FileFault::Fields => (3, 1),
            FileFault::Kind => (4, 2),
            FileFault::Rules => (5, 4),
            FileFault::Offset(place) => (6, place),
            FileFault::Length(place) => (7, place),
            FileFault::Width(place) => (8, place),
            FileFault::Ends(place) => (9, place),
        };
        Refusal {
            layer: Layer::File,
            number,
            place,
        }
    }
}

// By hand, as a derived From has no contract. The widths of a file begin at byte 16.
impl From<WidthsFault> for FileFault {
    ghost use Rattle.fault.specs.Faults.{file_of};

    ghost from_gives = { λ f r. r ≡ file_of f };

    fn from(value: WidthsFault) -> FileFault {
        match value {
            WidthsFault::Fields => FileFault::Fields,
            WidthsFault::Width(field) => FileFault::Width(15 + usize::from(field)),
        }
    }
}
