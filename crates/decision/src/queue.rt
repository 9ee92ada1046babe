// The decision that is a queue.
ghost use Rattle.std.proofs.Common.{rules};
ghost use Rattle.std.proofs.lemmas.Grind.{common_steps};
ghost use Rattle.decision.specs.Kinds.{same_queue, queue_bytes, queue_of};

use crate::bytes::{byte_at, put_front};
use crate::kind::Kind;
use std::fmt;

#[derive(Clone, Copy, Debug, PartialEq, Eq, Hash)]
pub struct Queue {
    pub queue: u8,
}

impl Kind for Queue {
    ghost alike = { same_queue };

    const CODE: u8 = 1;

    ghost CODE = { 1 };

    const SIZE: u16 = 1;

    ghost SIZE = { 1 };

    ghost written = { queue_bytes };

    ghost reading = { queue_of };

    ghost equivalence = { Prim.search rules };

    ghost sized = { Prim.search rules };

    ghost again = { Prim.search (rules, common_steps) };

    fn same(self, other: Queue) -> bool {
        self == other
    }

    fn write(self, out: &mut [u8]) {
        put_front(&[self.queue], out);
    }

    fn read(bytes: &[u8]) -> Queue {
        Queue {
            queue: byte_at(bytes, 0),
        }
    }
}

impl fmt::Display for Queue {
    fn fmt<W: fmt::Write>(&self, f: &mut fmt::Formatter<W>) -> fmt::Result {
        write!(f, "queue {}", self.queue)
    }
}
