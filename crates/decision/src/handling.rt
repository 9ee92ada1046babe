// The decision that is a handling: a queue with a service class, a keep time and a note.
ghost use Rattle.std.specs.Prelude.{◌≡◌};
ghost use Rattle.std.proofs.Common.{rules};
ghost use Rattle.std.proofs.lemmas.Grind.{common_steps};
ghost use Rattle.decision.specs.Classes.{class_code};
ghost use Rattle.decision.specs.Kinds.{same_handling, handling_bytes, handling_of};

use crate::bytes::{byte_at, put_front};
use crate::class::Class;
use crate::kind::Kind;
use std::fmt;

// As it lies in memory: the class is its bare code, so that no type with an invariant lies in a slice.
#[derive(Clone, Copy, Debug, PartialEq, Eq, Hash)]
pub struct Handling {
    pub queue: u8,
    class: u8,
    pub keep: u16,
    pub note: u16,
}

impl Handling {
    // `keep` is in minutes.
    pub fn new(queue: u8, class: Class, keep: u16, note: u16) -> Handling
        ensures { result ≡ record { queue = queue; class = class_code class; keep = keep; note = note } }
    {
        Handling {
            queue,
            class: class.into(),
            keep,
            note,
        }
    }

    pub fn class(self) -> Class
        ensures { class_code result ≡ self.class }
    {
        Class::from(self.class)
    }
}

impl Kind for Handling {
    ghost alike = { same_handling };

    const CODE: u8 = 2;

    ghost CODE = { 2 };

    const SIZE: u16 = 6;

    ghost SIZE = { 6 };

    ghost written = { handling_bytes };

    ghost reading = { handling_of };

    ghost equivalence = { Prim.search rules };

    ghost sized = { Prim.search rules };

    ghost again = { Prim.search (rules, common_steps) };

    // wider than equality: keep time and note do not count
    fn same(self, other: Handling) -> bool {
        self.queue == other.queue && self.class == other.class
    }

    fn write(self, out: &mut [u8]) {
        let [keep_high, keep_low] = self.keep.to_be_bytes();
        let [note_high, note_low] = self.note.to_be_bytes();
        put_front(
            &[
                self.queue, self.class, keep_high, keep_low, note_high, note_low,
            ],
            out,
        );
    }

    fn read(bytes: &[u8]) -> Handling {
        Handling {
            queue: byte_at(bytes, 0),
            class: byte_at(bytes, 1),
            keep: u16::from_be_bytes([byte_at(bytes, 2), byte_at(bytes, 3)]),
            note: u16::from_be_bytes([byte_at(bytes, 4), byte_at(bytes, 5)]),
        }
    }
}

impl fmt::Display for Handling {
    fn fmt<W: fmt::Write>(&self, f: &mut fmt::Formatter<W>) -> fmt::Result {
        write!(
            f,
            "queue {}, class {}, keep {}, note {}",
            self.queue,
            self.class(),
            self.keep,
            self.note,
        )
    }
}
