// Numbers at places of a block, the lowest byte first.
ghost use Rattle.byteorder.specs.Endian.{little_bytes, little_number};
ghost use Rattle.std.specs.Prelude.{◌≡◌, ◌+◌, ◌-◌, ◌≤◌, ◌++◌, length, drop, replicate, List, ℕ};

use byteorder::{ByteOrder, LittleEndian};

// Each of these writes in front of the zeros that are left, of which there are enough.

pub(crate) fn put_bytes(b: &mut [u8], at: usize, bytes: &[u8])
    requires { at + length bytes.now ≤ length b.old }
    ensures { (front : List ℕ) (k : ℕ) → length front ≡ at → length bytes.now ≤ k
        → b.old ≡ front ++ replicate k 0
        → b.new ≡ front ++ bytes.now ++ replicate (k - length bytes.now) 0 }
{
    b[at..at + bytes.len()].copy_from_slice(bytes);
}

pub(crate) fn put_u32(b: &mut [u8], at: usize, n: u32)
    requires { at + 4 ≤ length b.old }
    ensures { (front : List ℕ) (k : ℕ) → length front ≡ at → 4 ≤ k → b.old ≡ front ++ replicate k 0
        → b.new ≡ front ++ little_bytes 4 n ++ replicate (k - 4) 0 }
{
    LittleEndian::write_u32(&mut b[at..], n);
}

pub(crate) fn put_u64(b: &mut [u8], at: usize, n: u64)
    requires { at + 8 ≤ length b.old }
    ensures { (front : List ℕ) (k : ℕ) → length front ≡ at → 8 ≤ k → b.old ≡ front ++ replicate k 0
        → b.new ≡ front ++ little_bytes 8 n ++ replicate (k - 8) 0 }
{
    LittleEndian::write_u64(&mut b[at..], n);
}

pub(crate) fn put_u128(b: &mut [u8], at: usize, n: u128)
    requires { at + 16 ≤ length b.old }
    ensures { (front : List ℕ) (k : ℕ) → length front ≡ at → 16 ≤ k → b.old ≡ front ++ replicate k 0
        → b.new ≡ front ++ little_bytes 16 n ++ replicate (k - 16) 0 }
{
    LittleEndian::write_u128(&mut b[at..], n);
}

pub(crate) fn u32_at(b: &[u8], at: usize) -> u32
    requires { at + 4 ≤ length b.now }
    ensures { result ≡ little_number 4 (drop at b.now) }
{
    LittleEndian::read_u32(&b[at..])
}

pub(crate) fn u64_at(b: &[u8], at: usize) -> u64
    requires { at + 8 ≤ length b.now }
    ensures { result ≡ little_number 8 (drop at b.now) }
{
    LittleEndian::read_u64(&b[at..])
}

pub(crate) fn u128_at(b: &[u8], at: usize) -> u128
    requires { at + 16 ≤ length b.now }
    ensures { result ≡ little_number 16 (drop at b.now) }
{
    LittleEndian::read_u128(&b[at..])
}
