// Numbers that stand as bytes at a place, lowest byte first. Three sizes, a line each over the bytes from there on: a
// trait over them would be longer. A place beside its bytes: a slice from there on would be cut at each call.
#![tactic(auto)]

ghost use Rattle.std.specs.Prelude.{◌≡◌, ◌+◌, ◌≤◌, length, take, drop};
ghost use Rattle.zahlen.specs.Places.{u16_at, u32_at, i64_at};

pub mod theorems;

/// The `N` bytes that start at a place: of the bytes ea 07 04 07 the two at 1 are 07 04.
pub fn bytes_at<const N: usize>(bytes: &[u8], at: usize) -> [u8; N]
    requires { at + N ≤ length bytes.now }
    ensures { result ≡ take N (drop at bytes.now) }
{
    let mut part = [0; N];
    part.copy_from_slice(&bytes[at..at + N]);
    part
}

/// The number of the two bytes that start at a place: of the bytes ea 07 04 07 it is 2026 at 0.
pub fn u16_at(bytes: &[u8], at: usize) -> u16
    requires { at + 2 ≤ length bytes.now }
    ensures { result ≡ u16_at bytes.now at }
{
    u16::from_le_bytes(bytes_at(bytes, at))
}

/// The number of the four bytes that start at a place: of the bytes 00 01 00 00 00 it is 1 at 1.
pub fn u32_at(bytes: &[u8], at: usize) -> u32
    requires { at + 4 ≤ length bytes.now }
    ensures { result ≡ u32_at bytes.now at }
{
    u32::from_le_bytes(bytes_at(bytes, at))
}

/// The signed number of the eight bytes that start at a place: of eight bytes ff it is -1 at 0.
#[tactic(auto, using(crate::proofs::Std::i64_made))]
pub fn i64_at(bytes: &[u8], at: usize) -> i64
    requires { at + 8 ≤ length bytes.now }
    ensures { result ≡ i64_at bytes.now at }
{
    i64::from_le_bytes(bytes_at(bytes, at))
}
