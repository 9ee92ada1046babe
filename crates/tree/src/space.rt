// The space that records take.
ghost use Rattle.std.specs.Prelude.{◌≡◌, ◌+◌, if◌then◌else◌};
ghost use Rattle.tree.specs.Reads.{sat};

// So many branches and marks, as far as 64 bits go.
#[derive(Clone, Copy)]
pub struct Space {
    pub branches: u64,
    pub marks: u64,
}

pub(crate) const NOTHING: Space = Space {
    branches: 0,
    marks: 0,
};

pub(crate) const ONE_BRANCH: Space = Space {
    branches: 1,
    marks: 0,
};

pub(crate) const ONE_MARK: Space = Space {
    branches: 0,
    marks: 1,
};

impl Space {
    // All of it where it is needed, else nothing.
    pub(crate) fn when(self, needed: bool) -> Space
        ensures { result ≡ (if needed then self else record { branches = 0; marks = 0 }) }
    {
        if needed { self } else { NOTHING }
    }

    // Not `+`, which says nothing of where it stops.
    pub(crate) fn plus(self, other: Space) -> Space
        ensures { result ≡ record { branches = sat (self.branches + other.branches); marks = sat (self.marks + other.marks) } }
    {
        Space {
            branches: self.branches.saturating_add(other.branches),
            marks: self.marks.saturating_add(other.marks),
        }
    }
}
