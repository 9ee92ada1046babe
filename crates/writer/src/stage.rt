// The stages of a file that is written: first its rows, then its decisions. A stage holds plain numbers and no part of the file; it is
// neither copied nor made by hand, and its phase says what can be written next.
ghost use Rattle.std.specs.Prelude.{◌≡◌};

use fault::writing::WriteFault;
use routing::widths::Widths;
use std::marker::PhantomData;

// What the file is for: its widths, how many rules it gets, and the code and the size of its decisions' kind.
#[derive(Clone, Copy)]
pub(crate) struct Plan {
    pub(crate) widths: Widths,
    pub(crate) rules: u16,
    pub(crate) code: u8,
    pub(crate) size: u16,
}

// The phases: what is written next.
pub struct Rows;

pub struct Decisions;

// So many rows stand in the file, or all rows and so many decisions.
pub struct Stage<P> {
    pub(crate) plan: Plan,
    pub(crate) done: u16,
    pub(crate) phase: PhantomData<P>,
}

pub type RowStage = Stage<Rows>;

pub type DecisionStage = Stage<Decisions>;

// A step that was refused: the same stage back, and the fault.
pub struct Refused<S> {
    pub stage: S,
    pub fault: WriteFault,
}

impl<P> Stage<P> {
    // Gives the file up.
    pub fn abandon(self) {
        let Stage {
            plan: _,
            done: _,
            phase: _,
        } = self;
    }
}

impl<P> Refused<Stage<P>> {
    // Gives the file up, and keeps the fault. It is no `From`: by `?` a stage would be lost without a word.
    pub fn abandon(self) -> WriteFault
        ensures { result ≡ self.fault }
    {
        let Refused { stage, fault } = self;
        stage.abandon();
        fault
    }
}
