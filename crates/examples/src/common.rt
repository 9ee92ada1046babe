// What the tests share.
use routing::ends::Ends;
use routing::refusal::Refusal;

// A row of one field.
pub(crate) fn one_field(low: u32, high: u32) -> [Ends; 8] {
    let mut row = [Ends { low: 0, high: 0 }; 8];
    row[0] = Ends { low, high };
    row
}

// The number and the place of a refusal.
pub(crate) fn told<R: Into<Refusal>>(fault: R) -> (u8, usize) {
    let refusal: Refusal = fault.into();
    (refusal.number, refusal.place)
}
