// The service class of a handling: three codes have names.
ghost use Rattle.std.specs.Prelude.{◌≤◌};

// A class that has no name here, by its code, which is all that is known of it and never that of a named one.
#[derive(Clone, Copy, Debug, PartialEq, Eq, Hash)]
pub struct UnnamedClass {
    code: u8,
    ghost unnamed: { 3 ≤ code },
}

#[derive(Clone, Copy, Debug, PartialEq, Eq, Hash)]
pub enum Class {
    Ordinary,
    Express,
    Chilled,
    Unnamed(UnnamedClass),
}

pub mod codes;
