// The class of a code, and the code of a class.
ghost use Rattle.std.specs.Prelude.{◌≡◌};

use super::{Class, UnnamedClass};
use std::fmt;

// The one class that has this code.
impl From<u8> for Class {
    ghost use Rattle.decision.specs.Classes.{IsOnlyClass};

    ghost from_gives = { IsOnlyClass };

    fn from(value: u8) -> Class {
        match value {
            0 => Class::Ordinary,
            1 => Class::Express,
            2 => Class::Chilled,
            _ => Class::Unnamed(UnnamedClass { code: value }),
        }
    }
}

impl From<Class> for u8 {
    ghost use Rattle.decision.specs.Classes.{class_code};

    ghost from_gives = { λ c r. r ≡ class_code c };

    fn from(value: Class) -> u8 {
        match value {
            Class::Ordinary => 0,
            Class::Express => 1,
            Class::Chilled => 2,
            Class::Unnamed(other) => other.code,
        }
    }
}

impl fmt::Display for Class {
    fn fmt<W: fmt::Write>(&self, f: &mut fmt::Formatter<W>) -> fmt::Result {
        match self {
            Class::Ordinary => write!(f, "ordinary"),
            Class::Express => write!(f, "express"),
            Class::Chilled => write!(f, "chilled"),
            Class::Unnamed(other) => write!(f, "{}", other.code),
        }
    }
}
