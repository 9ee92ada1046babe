// Bytes at the front of a buffer.
ghost use Rattle.std.specs.Prelude.{◌≡◌, slice_index};
ghost use Rattle.decision.specs.Bytes.{front};

// The byte at a place, 0 past the end: reading a decision refuses nothing.
pub fn byte_at(bytes: &[u8], place: usize) -> u8
    ensures { result ≡ slice_index bytes.now place }
{
    bytes.get(place).copied().unwrap_or(0)
}

// Copies bytes to the front of a buffer, as far as it reaches.
pub(crate) fn put_front(bytes: &[u8], out: &mut [u8])
    ensures { out.new ≡ front bytes.now out.old }
{
    let n = bytes.len().min(out.len());
    out[..n].copy_from_slice(&bytes[..n]);
}
