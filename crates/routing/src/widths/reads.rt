// Testing widths, and what tested widths allow.
ghost use Rattle.std.specs.Prelude.{◌≡◌, ℕ, ◌+◌, ◌<◌, ◌≤◌, length, Some, None, IfSome, MatchResult, slice_index};
ghost use Rattle.std.specs.Option.{option_map};
ghost use Rattle.routing.specs.Packing.{packed};
ghost use Rattle.routing.specs.Lawful.{width_refusal, widths_refusal, message_refusal, ends_refusal};
ghost use Rattle.routing.specs.Refusals.{told_by, widths_reason};
ghost use Rattle.routing.specs.Fields.{widths_of};

use super::{Widths, WidthsFault};
use crate::ends::{Ends, within};
use crate::refusal::{Layer, Refusal};
use crate::rule::Message;

// A message has eight places, and a table as many fields at most.
const PLACES: usize = 8;

impl WidthsFault {
    // What it tells, where this layer refuses: a method and no `From`, since it takes the layer.
    pub fn refusal(self, layer: Layer) -> Refusal
        ensures { result ≡ told_by layer (widths_reason self) }
    {
        match self {
            WidthsFault::Fields => Refusal {
                layer,
                number: 3,
                place: 1,
            },
            WidthsFault::Width(field) => Refusal {
                layer,
                number: 8,
                place: usize::from(field),
            },
        }
    }
}

// A place counted from 1 in place of 0.
fn from_one(place: Option<usize>) -> Option<u8>
    requires { IfSome place (λ k. k < 255) }
    ensures { result ≡ option_map (λ k. k + 1) place }
{
    place.map(|k| (k + 1) as u8)
}

// The first field whose width is not 1 to 32.
fn width_fault(widths: &[u8]) -> Option<u8>
    requires { length widths.now ≤ 8 }
    ensures { result ≡ width_refusal widths.now }
{
    from_one(widths.iter().position(|&width| !(1..=32).contains(&width)))
}

// The widths in one number.
fn pack(widths: &[u8]) -> u64
    requires { length widths.now ≤ 8 }
    ensures { result ≡ packed widths.now }
{
    let mut all = [0u8; 8];
    let n = widths.len();
    all[0..n].copy_from_slice(widths);
    u64::from_le_bytes(all)
}

impl Widths {
    // The widths of as many fields as there are bytes.
    pub fn test(widths: &[u8]) -> Result<Widths, WidthsFault>
        ensures { MatchResult result
            (λ w. (widths_refusal widths.now ≡ None) × (widths_of w ≡ widths.now))
            (λ f. widths_refusal widths.now ≡ Some (widths_reason f)) }
    {
        let fields = widths.len();
        if fields < 1 || fields > 8 {
            return Err(WidthsFault::Fields);
        }
        if let Some(field) = width_fault(widths) {
            return Err(WidthsFault::Width(field));
        }
        let number = pack(widths);
        Ok(Widths { number })
    }

    // A byte for the width of each field, and 0 past the last.
    fn bytes(self) -> [u8; 8]
        ensures long { length result ≡ 8 }
        ensures each { (k : ℕ) → slice_index result k ≡ slice_index (widths_of self) k }
    {
        self.number.to_le_bytes()
    }

    // The width of a field, counted from 0; past the last field it is 0, so that a message's places there can hold 0 alone.
    pub fn width(self, field: usize) -> u8
        ensures { result ≡ slice_index (widths_of self) field }
    {
        self.bytes().get(field).copied().unwrap_or(0)
    }

    // How many fields there are.
    pub fn fields(self) -> usize
        ensures { result ≡ length (widths_of self) }
    {
        self.bytes()
            .iter()
            .position(|&width| width == 0)
            .unwrap_or(PLACES)
    }

    // The first place of a message, counted from 1, that holds no value of its field, or not 0 past the last field.
    pub fn message_fault(self, message: Message) -> Option<u8>
        ensures { result ≡ message_refusal (widths_of self) message }
    {
        from_one(self.outside(&message))
    }

    // The same place, counted from 0.
    fn outside(self, message: &Message) -> Option<usize>
        ensures place { option_map (λ k. k + 1) result ≡ message_refusal (widths_of self) message.now }
        ensures few { IfSome result (λ k. k < 8) }
    {
        let widths = self.bytes();
        let mut places = message.iter().zip(&widths);
        places.position(|(&value, &width)| !within(value, width))
    }

    // The first field, counted from 1, whose ends make no interval of it. Inlined, so that a loop over rules counts the fields once.
    #[inline(always)]
    pub fn ends_fault(self, ends: &[Ends; 8]) -> Option<u8>
        ensures { result ≡ ends_refusal (widths_of self) ends.now }
    {
        from_one(self.unfit(ends))
    }

    // The same field, counted from 0.
    #[inline(always)]
    fn unfit(self, ends: &[Ends; 8]) -> Option<usize>
        ensures field { option_map (λ k. k + 1) result ≡ ends_refusal (widths_of self) ends.now }
        ensures few { IfSome result (λ k. k < 8) }
    {
        let widths = self.bytes();
        let mut fields = ends.iter().zip(&widths).take(self.fields());
        fields.position(|(pair, &width)| !pair.fits(width))
    }
}
