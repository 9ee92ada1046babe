// Kinds of decision.
ghost use Rattle.std.specs.Prelude.{◌≡◌, ℕ, ◌<◌, Bool, List, length, slice_index};
ghost use Rattle.decision.specs.Bytes.{front};
ghost use Rattle.decision.specs.Kinds.{Equivalence};

// When two decisions are the same, how many bytes one takes, and how it is written and read.
pub trait Kind: Copy {
    ghost alike: { Self → Self → Bool };

    ghost written: { Self → List ℕ };

    ghost reading: { List ℕ → Self };

    // The number that stands for the kind in a file.
    const CODE: u8;

    ghost CODE: { ℕ };

    // The bytes of one decision.
    const SIZE: u16;

    ghost SIZE: { ℕ };

    fn same(self, other: Self) -> bool
        ensures { result ≡ alike self other };

    // Writes the decision to the front of a buffer, as far as it reaches. What was written reads as the same decision again.
    fn write(self, out: &mut [u8])
        ensures after { out.new ≡ front (written self) out.old }
        ensures kept { reading (written self) ≡ self };

    // Reads a decision from the front of a buffer; bytes that are missing count as 0.
    fn read(bytes: &[u8]) -> Self
        ensures { result ≡ reading bytes.now };

    ghost equivalence: { Equivalence alike };

    ghost sized: { (x : Self) → length (written x) ≡ SIZE };

    // Bytes that are read and written again are the same.
    ghost again: { (bs : List ℕ) → length bs ≡ SIZE → ((k : ℕ) → slice_index bs k < 256) → written (reading bs) ≡ bs };
}
