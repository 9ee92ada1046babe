// A file that is lawful for its own kind by its type.
ghost use Rattle.std.specs.Prelude.{◌≡◌, ⊤, Some, None, MatchResult};
ghost use Rattle.file.specs.Layout.{file_refusal};
ghost use Rattle.fault.specs.Faults.{file_reason};

use crate::reader::TableFile;
use decision::kind::Kind;
use fault::reading::FileFault;
use std::alloc::AllocError;

// An open file with the fact that it is lawful for decisions of the kind K, so that whoever is handed one knows it. The type asks for a
// bound on K wherever it is named; a `TableFile` asks for none, and says no more than that it is lawful for some kind.
pub struct LawfulFile<'a, K: Kind> {
    pub table: TableFile<'a, K>,
    ghost lawful: { file_refusal table.bytes.now K.CODE K.SIZE ≡ None },
}

// By hand: none is derived for a struct that has parameters and a ghost field.
impl<'a, K: Kind> Clone for LawfulFile<'a, K> {
    ghost is_clone = { λ file copy. copy ≡ file };

    ghost is_infallible = { λ _. ⊤ };

    fn clone(&self) -> Result<Self, AllocError> {
        Ok(*self)
    }
}

impl<'a, K: Kind> Copy for LawfulFile<'a, K> {}

impl<'a, K: Kind> LawfulFile<'a, K> {
    // The file, or the first rule that it breaks.
    pub fn open(bytes: &'a [u8]) -> Result<LawfulFile<'a, K>, FileFault>
        ensures { MatchResult result
            (λ f. (file_refusal bytes.now K.CODE K.SIZE ≡ None) × (f.table.bytes.now ≡ bytes.now))
            (λ e. file_refusal bytes.now K.CODE K.SIZE ≡ Some (file_reason e)) }
    {
        let table = TableFile::open(bytes)?;
        Ok(LawfulFile { table })
    }
}
