// The ends of an interval: its least and its greatest value, both included.
ghost use Rattle.std.specs.Prelude.{◌≡◌, ◌^◌, nat_lt};
ghost use Rattle.routing.specs.Rules.{holds};
ghost use Rattle.routing.specs.Lawful.{fits};

// As a caller hands them over: whether they make an interval of a field is for `fits` to say.
#[derive(Clone, Copy, Debug, PartialEq, Eq, Hash)]
pub struct Ends {
    pub low: u32,
    pub high: u32,
}

impl Ends {
    // Whether a value lies in the interval. Every other test of an interval calls this one.
    pub fn holds(self, value: u32) -> bool
        ensures { result ≡ holds self value }
    {
        self.low <= value && value <= self.high
    }

    // Whether these are the ends of an interval of a field of that many bits.
    pub fn fits(self, width: u8) -> bool
        ensures { result ≡ fits width self }
    {
        self.low <= self.high && within(self.high, width)
    }
}

// Whether a number is a value of a field of that many bits.
pub(crate) fn within(value: u32, width: u8) -> bool
    ensures { result ≡ nat_lt value (2 ^ width) }
{
    width >= 32 || value >> width == 0
}
