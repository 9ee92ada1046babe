// Where the parts of a file lie.
ghost use Rattle.std.specs.Prelude.{◌≡◌, ◌+◌, ◌*◌, ◌<◌, ◌≤◌};
ghost use Rattle.file.specs.Layout.{layout_of, rows_at, low_at, decisions_at, file_length};

use crate::number::two_at;
use decision::bytes::byte_at;

// What settles where the parts of a file lie: how many fields and rules it has, and the bytes of a decision.
#[derive(Clone, Copy, Debug, PartialEq, Eq)]
pub struct Layout {
    pub fields: u8,
    pub rules: u16,
    pub size: u16,
}

// A product of numbers of 16 bits, which 32 bits hold.
fn product(a: u16, b: u16) -> usize
    ensures value { result ≡ a * b }
    ensures bound { result < 4294967296 }
{
    usize::from(a) * usize::from(b)
}

impl Layout {
    // As the header of a file counts, with decisions of a size.
    pub(crate) fn of(bytes: &[u8], size: u16) -> Layout
        ensures { result ≡ layout_of bytes.now size }
    {
        Layout {
            fields: byte_at(bytes, 1),
            rules: two_at(bytes, 4),
            size,
        }
    }

    // Where the rows begin.
    pub fn rows(self) -> usize
        ensures { result ≡ rows_at self.fields }
    {
        16 + usize::from(self.fields)
    }

    // Where the row of a rule begins. Rules count from 0.
    pub fn row(self, rule: u16) -> usize
        ensures { result ≡ low_at self.fields (rule * self.fields) }
    {
        self.rows() + 8 * product(rule, u16::from(self.fields))
    }

    // Where the decisions begin.
    pub fn decisions(self) -> usize
        ensures { result ≡ decisions_at self.fields self.rules }
    {
        self.rows() + 8 * product(u16::from(self.fields), self.rules)
    }

    // Where the decision of a rule begins. Rules count from 0.
    pub fn decision(self, rule: u16) -> usize
        ensures { result ≡ decisions_at self.fields self.rules + rule * self.size }
    {
        self.decisions() + product(rule, self.size)
    }

    // The bytes of the file.
    pub fn length(self) -> usize
        ensures { result ≡ file_length self.fields self.rules self.size }
    {
        self.decisions() + product(self.rules, self.size)
    }
}
