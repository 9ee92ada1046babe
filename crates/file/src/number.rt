// Numbers at places of a file, high byte first, and parts of it.
ghost use Rattle.std.specs.Prelude.{◌≡◌, ◌+◌, ◌<◌, ◌^◌, map, slice_index};
ghost use Rattle.std.specs.List.{range_with_len};
ghost use Rattle.file.specs.Layout.{two, four, part};

use decision::bytes::byte_at;
use std::array;

// The bytes at a place, and 0 past the end, so that a number is read before it is known whether the file reaches so far.
fn bytes_at<const N: usize>(bytes: &[u8], at: usize) -> [u8; N]
    requires { at + N < 2 ^ 64 }
    ensures { result ≡ map (λ k. slice_index bytes.now (at + k)) (range_with_len 0 N) }
{
    array::from_fn(|k| byte_at(bytes, at + k))
}

// Numbers of two and of four bytes have no trait in common that reads them.
pub fn two_at(bytes: &[u8], at: usize) -> u16
    requires { at < 4294967296 }
    ensures { result ≡ two bytes.now at }
{
    u16::from_be_bytes(bytes_at(bytes, at))
}

pub fn four_at(bytes: &[u8], at: usize) -> u32
    requires { at < 4294967296 }
    ensures { result ≡ four bytes.now at }
{
    u32::from_be_bytes(bytes_at(bytes, at))
}

// The bytes at a place, as far as there are any.
pub fn part_of(bytes: &[u8], at: usize, n: usize) -> &[u8]
    requires { at + n < 2 ^ 64 }
    ensures { result.now ≡ part at n bytes.now }
{
    let from = at.min(bytes.len());
    let to = (at + n).min(bytes.len());
    &bytes[from..to]
}
