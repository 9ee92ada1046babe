// Reading a file where the caller keeps it.
ghost use Rattle.std.specs.Prelude.{◌≡◌, ◌<◌, ◌≤◌, ⊤, Some, None, MatchOption, MatchResult};
ghost use Rattle.file.specs.Layout.{file_refusal, layout_of, fields, rules, width_bytes};
ghost use Rattle.file.specs.Lawful.{Lawful};
ghost use Rattle.fault.specs.Faults.{file_reason};

use crate::checks::check;
use crate::layout::Layout;
use crate::number::part_of;
use decision::kind::Kind;
use fault::reading::FileFault;
use std::alloc::AllocError;
use std::marker::PhantomData;

// A lawful file of decisions of the kind K, which `open` alone makes. That it is one of this kind is for `open` to say, or for the type
// `LawfulFile`: a field that spoke of the kind asks for a bound on K wherever the type is named.
pub struct TableFile<'a, K> {
    pub(crate) bytes: &'a [u8],
    kind: PhantomData<K>,
    ghost lawful: { Lawful bytes.now },
}

// By hand: none is derived for a struct that has parameters and a ghost field, and a derived one would ask it of K.
impl<'a, K> Clone for TableFile<'a, K> {
    ghost is_clone = { λ file copy. copy ≡ file };

    ghost is_infallible = { λ _. ⊤ };

    fn clone(&self) -> Result<Self, AllocError> {
        Ok(*self)
    }
}

impl<'a, K> Copy for TableFile<'a, K> {}

impl<'a, K: Kind> TableFile<'a, K> {
    // The file, or the first rule that it breaks.
    pub fn open(bytes: &'a [u8]) -> Result<TableFile<'a, K>, FileFault>
        ensures { MatchResult result
            (λ f. (file_refusal bytes.now K.CODE K.SIZE ≡ None) × (f.bytes.now ≡ bytes.now))
            (λ e. file_refusal bytes.now K.CODE K.SIZE ≡ Some (file_reason e)) }
    {
        check(bytes, K::CODE, K::SIZE)?;
        Ok(TableFile {
            bytes,
            kind: PhantomData,
        })
    }

    pub(crate) fn layout(&self) -> Layout
        ensures { result ≡ layout_of self.now.bytes.now K.SIZE }
    {
        Layout::of(self.bytes, K::SIZE)
    }

    // The number of a rule that there is, counted from 0.
    pub(crate) fn rule(&self, rule: usize) -> Option<u16>
        ensures { MatchOption result (rules self.now.bytes.now ≤ rule) (λ r. (r ≡ rule) × (r < rules self.now.bytes.now)) }
    {
        if rule < usize::from(self.layout().rules) {
            Some(rule as u16)
        } else {
            None
        }
    }

    // How many fields the table has.
    pub fn fields(&self) -> usize
        ensures { result ≡ fields self.now.bytes.now }
    {
        usize::from(self.layout().fields)
    }

    // A byte for the width of each field.
    pub fn widths(&self) -> &'a [u8]
        ensures { result.now ≡ width_bytes self.now.bytes.now }
    {
        part_of(self.bytes, 16, usize::from(self.layout().fields))
    }
}
