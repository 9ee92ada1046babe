// What a refusal tells: who refuses, the number of the reason and the place.

// The part that refuses: the reader of files, the table, or the writer of files.
#[derive(Clone, Copy, Debug, PartialEq, Eq, Hash)]
pub enum Layer {
    File,
    Table,
    Writer,
}

// The number is the one that stands for the reason in the line of a refusal; the reasons themselves are the faults of each part.
#[derive(Clone, Copy, Debug, PartialEq, Eq, Hash)]
pub struct Refusal {
    pub layer: Layer,
    pub number: u8,
    pub place: usize,
}

pub mod shown;
