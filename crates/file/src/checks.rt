// The rules that a lawful file keeps, in the order in which they are tested.
ghost use Rattle.std.specs.Prelude.{◌≡◌, ◌≤◌, ◌<◌, ◌*◌, ◌+◌, ◌^◌, length, None, Some, MatchResult};
ghost use Rattle.std.specs.Option.{option_map};
ghost use Rattle.std.specs.Result.{result_err};
ghost use Rattle.routing.specs.Fields.{widths_of};
ghost use Rattle.routing.specs.Firsts.{first_some};
ghost use Rattle.fault.specs.Faults.{file_reason};
ghost use Rattle.file.specs.Layout.{header_refusal, counts_refusal, file_refusal, row_place, layout_of, width_bytes, pair_from, row_of};

use crate::layout::Layout;
use crate::number::four_at;
use fault::reading::FileFault;
use routing::ends::Ends;
use routing::widths::Widths;
use std::array;

// The ends where there is no field.
pub const NO_ENDS: Ends = Ends { low: 0, high: 0 };

// A file with what its header counts.
#[derive(Clone, Copy)]
pub struct Counted<'a> {
    bytes: &'a [u8],
    layout: Layout,
    ghost of_header: { layout ≡ layout_of bytes.now layout.size },
}

// The header's own rules: numbers 1 to 5. A kind is told by its code here, as the file has it.
fn check_header(bytes: &[u8], kind: u8) -> Result<(), FileFault>
    ensures { option_map file_reason (result_err result) ≡ header_refusal bytes.now kind }
{
    let [
        edition,
        fields,
        code,
        zero,
        high,
        low,
        sixth,
        seventh,
        rest @ ..,
    ] = bytes
    else {
        return Err(FileFault::Short(bytes.len()));
    };
    if rest.len() < 8 {
        return Err(FileFault::Short(bytes.len()));
    }
    if *edition != 1 {
        return Err(FileFault::Fixed(0));
    }
    if *zero != 0 {
        return Err(FileFault::Fixed(3));
    }
    if *sixth != 0 {
        return Err(FileFault::Fixed(6));
    }
    if *seventh != 0 {
        return Err(FileFault::Fixed(7));
    }
    if !(1..=8).contains(fields) {
        return Err(FileFault::Fields);
    }
    if *code != kind {
        return Err(FileFault::Kind);
    }
    if u16::from_be_bytes([*high, *low]) > 512 {
        return Err(FileFault::Rules);
    }
    Ok(())
}

// The pair at a place.
fn pair_at(bytes: &[u8], at: usize) -> Ends
    requires { at + 4 < 4294967296 }
    ensures { result ≡ pair_from bytes.now at }
{
    Ends {
        low: four_at(bytes, at),
        high: four_at(bytes, at + 4),
    }
}

impl<'a> Counted<'a> {
    // With decisions of a size.
    pub fn new(bytes: &'a [u8], size: u16) -> Counted<'a>
        ensures file { result.bytes.now ≡ bytes.now }
        ensures layout { result.layout ≡ layout_of bytes.now size }
    {
        Counted {
            bytes,
            layout: Layout::of(bytes, size),
        }
    }

    // What the counts give: numbers 6 and 7.
    fn check_counts(&self) -> Result<(), FileFault>
        ensures { option_map file_reason (result_err result) ≡ counts_refusal self.now.bytes.now self.now.layout.size }
    {
        if four_at(self.bytes, 8) as usize != self.layout.rows() {
            return Err(FileFault::Offset(8));
        }
        if four_at(self.bytes, 12) as usize != self.layout.decisions() {
            return Err(FileFault::Offset(12));
        }
        if self.bytes.len() != self.layout.length() {
            return Err(FileFault::Length(self.bytes.len()));
        }
        Ok(())
    }

    // The pairs of a rule, counted from 0.
    pub fn row(&self, rule: u16) -> [Ends; 8]
        ensures { result ≡ row_of self.now.bytes.now rule }
    {
        let at = self.layout.row(rule);
        let fields = usize::from(self.layout.fields);
        let bytes = self.bytes;
        array::from_fn(|k| {
            if k < fields {
                pair_at(bytes, at + 8 * k)
            } else {
                NO_ENDS
            }
        })
    }

    // The first ends that make no interval of their field: number 9.
    fn check_rows(&self, widths: Widths) -> Result<(), FileFault>
        requires { widths_of widths ≡ width_bytes self.now.bytes.now }
        ensures { option_map file_reason (result_err result) ≡ option_map (λ place. (9, place)) (first_some (row_place self.now.bytes.now) self.now.layout.rules) }
    {
        // there is no slice to go over: a row is read from the bytes
        for rule in 0..self.layout.rules {
            if let Some(field) = widths.ends_fault(&self.row(rule)) {
                let place = self.layout.row(rule) + 8 * usize::from(field) - 8;
                return Err(FileFault::Ends(place));
            }
        }
        Ok(())
    }
}

// Every rule that a file for decisions of a kind, told by its code, and a size keeps, or the first that it breaks.
#[tactic(auto, unfolding(crate::specs::Layout::file_refusal))]
pub fn check(bytes: &[u8], kind: u8, size: u16) -> Result<(), FileFault>
    ensures { option_map file_reason (result_err result) ≡ file_refusal bytes.now kind size }
{
    check_header(bytes, kind)?;
    let file = Counted::new(bytes, size);
    file.check_counts()?;
    let widths = Widths::test(&bytes[16..file.layout.rows()])?;
    file.check_rows(widths)
}
