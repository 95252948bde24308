// Numbers of a slice's bytes, the high byte first. Knows nothing of circuits.
#![tactic(auto)]

ghost use Rattle.std.specs.Prelude.{◌≡◌, ◌&&◌, ◌||◌, ◌+◌, ◌≤◌, ◌<◌, ◌^◌, length, get_or, take, drop, pos, ◌≤ℤ◌};
ghost use Rattle.std.proofs.lemmas.List.Edits.{sets};
ghost use Rattle.std.specs.Int.{w16, w32};
ghost use Rattle.std.proofs.Common.{to_z, of_z, SFits};
ghost use Rattle.words.specs.Bytes.{number_at, bytes_of};

// The N bytes at a place.
pub fn array_at<const N: usize>(bytes: &[u8], at: usize) -> [u8; N]
    requires { at + N ≤ length bytes.now }
    ensures { result ≡ take N (drop at bytes.now) }
{
    let mut part = [0; N];
    part.copy_from_slice(&bytes[at..at + N]);
    part
}

// The N bytes at a place become these.
pub fn put<const N: usize>(bytes: &mut [u8], at: usize, part: [u8; N])
    requires { at + N ≤ length bytes.old }
    ensures { bytes.new ≡ sets bytes.old at part.entry }
{
    bytes[at..at + N].copy_from_slice(&part);
}

// The byte at a place.
pub fn byte_at(bytes: &[u8], at: usize) -> usize
    requires { at < length bytes.now }
    ensures { (result ≡ get_or bytes.now at 0) × (result < 256) }
{
    bytes[at] as usize
}

// The number of two bytes at a place.
#[tactic(auto, using(crate::proofs::Ordered::two_read))]
pub fn two_at(bytes: &[u8], at: usize) -> usize
    requires { at + 2 ≤ length bytes.now }
    ensures { (result ≡ number_at 2 bytes.now at) × (result < 65536) }
{
    u16::from_be_bytes(array_at(bytes, at)) as usize
}

// The number of four bytes at a place.
#[tactic(auto, using(crate::proofs::Ordered::four_read))]
pub fn four_at(bytes: &[u8], at: usize) -> u32
    requires { at + 4 ≤ length bytes.now }
    ensures { result ≡ number_at 4 bytes.now at }
{
    u32::from_be_bytes(array_at(bytes, at))
}

// The signed number of two bytes at a place.
#[tactic(auto, using(crate::proofs::Ordered::two_read))]
pub fn signed_two_at(bytes: &[u8], at: usize) -> i32
    requires { at + 2 ≤ length bytes.now }
    ensures { result ≡ to_z w16 (number_at 2 bytes.now at) }
{
    i16::from_be_bytes(array_at(bytes, at)) as i32
}

// The signed number of four bytes at a place.
#[tactic(auto, using(crate::proofs::Ordered::four_read))]
pub fn signed_four_at(bytes: &[u8], at: usize) -> i32
    requires { at + 4 ≤ length bytes.now }
    ensures { result ≡ to_z w32 (number_at 4 bytes.now at) }
{
    i32::from_be_bytes(array_at(bytes, at))
}

// Two bytes at a place become those of a number; of a greater one than 65,535 the last two.
#[tactic(auto, using(crate::proofs::Ordered::two_written, crate::proofs::Ordered::last_two))]
pub fn put_two(bytes: &mut [u8], at: usize, n: usize)
    requires { at + 2 ≤ length bytes.old }
    ensures { bytes.new ≡ sets bytes.old at (bytes_of 2 n) }
{
    put(bytes, at, ((n & 65535) as u16).to_be_bytes());
}

// Four bytes at a place become those of a number.
#[tactic(auto, using(crate::proofs::Ordered::four_written))]
pub fn put_four(bytes: &mut [u8], at: usize, n: u32)
    requires { at + 4 ≤ length bytes.old }
    ensures { bytes.new ≡ sets bytes.old at (bytes_of 4 n) }
{
    put(bytes, at, n.to_be_bytes());
}

// Two bytes at a place become those of a signed number of 16 bits.
#[tactic(auto, using(crate::proofs::Ordered::two_written))]
pub fn put_signed_two(bytes: &mut [u8], at: usize, x: i32)
    requires { (at + 2 ≤ length bytes.old) × SFits w16 x }
    ensures { bytes.new ≡ sets bytes.old at (bytes_of 2 (of_z w16 x)) }
{
    put(bytes, at, (x as i16).to_be_bytes());
}

// Four bytes at a place become those of a signed number.
#[tactic(auto, using(crate::proofs::Ordered::four_written))]
pub fn put_signed_four(bytes: &mut [u8], at: usize, x: i32)
    requires { at + 4 ≤ length bytes.old }
    ensures { bytes.new ≡ sets bytes.old at (bytes_of 4 (of_z w32 x)) }
{
    put(bytes, at, x.to_be_bytes());
}
