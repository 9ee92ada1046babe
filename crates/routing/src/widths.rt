// The widths of a table's fields.
ghost use Rattle.std.specs.Prelude.{◌≡◌};
ghost use Rattle.routing.specs.Packing.{packed, unpacked};
ghost use Rattle.routing.specs.Lawful.{Tested};

// Tested widths in one number: byte k, from the lowest up, is the width of field k, and 0 past the last.
#[derive(Clone, Copy)]
pub struct Widths {
    number: u64,
    ghost whole: { packed (unpacked number) ≡ number },
    ghost tested: { Tested (unpacked number) },
}

// Why widths are refused. Fields count from 1.
#[derive(Clone, Copy, Debug, PartialEq, Eq, Hash)]
pub enum WidthsFault {
    // there are not 1 to 8 fields
    Fields,
    // the width of this field is not 1 to 32
    Width(u8),
}

mod reads;
