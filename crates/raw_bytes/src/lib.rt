// Bytes: wider numbers of them, numbers read from them with the lowest byte first, and bytes compared and copied.
#![tactic(auto)]

ghost use Rattle.std.specs.Prelude.{◌≡◌, ◌+◌, ◌%◌, ◌≤◌, ◌<◌, length, drop};
ghost use Rattle.std.proofs.Math.Seq.{paste};
ghost use Rattle.laws.specs.Every.{same};
ghost use Rattle.raw_bytes.specs.Bytes.{low_first, low_or_high};

// ---- the same number in a wider type

pub fn u8_to_u16(byte: u8) -> u16
    ensures { (result ≡ byte) × (result < 0x100) }
{
    u16::from(byte)
}

pub fn u8_to_u64(byte: u8) -> u64
    ensures { (result ≡ byte) × (result < 0x100) }
{
    u64::from(byte)
}

pub fn u16_to_u64(value: u16) -> u64
    ensures { (result ≡ value) × (result < 0x10000) }
{
    u64::from(value)
}

pub fn u16_to_usize(value: u16) -> usize
    ensures { (result ≡ value) × (result < 0x10000) }
{
    usize::from(value)
}

pub fn u32_to_usize(value: u32) -> usize
    ensures { result ≡ value }
{
    value as usize
}

// ---- numbers, the lowest byte first

pub fn u16_at(bytes: &[u8], at: usize) -> u16
    requires { at + 2 ≤ length bytes.now }
    ensures { result ≡ low_first bytes.now at 2 }
{
    u16::from_le_bytes([bytes[at], bytes[at + 1]])
}

pub fn u32_at(bytes: &[u8], at: usize) -> u32
    requires { at + 4 ≤ length bytes.now }
    ensures { result ≡ low_first bytes.now at 4 }
{
    u32::from_le_bytes([bytes[at], bytes[at + 1], bytes[at + 2], bytes[at + 3]])
}

pub fn u64_at(bytes: &[u8], at: usize) -> u64
    requires { at + 8 ≤ length bytes.now }
    ensures { result ≡ low_first bytes.now at 8 }
{
    u64::from_le_bytes([
        bytes[at],
        bytes[at + 1],
        bytes[at + 2],
        bytes[at + 3],
        bytes[at + 4],
        bytes[at + 5],
        bytes[at + 6],
        bytes[at + 7],
    ])
}

// ---- the two bytes of a number

// The low byte at an even place, the high byte at an odd one.
pub fn low_or_high(value: u16, k: usize) -> u8
    ensures { result ≡ low_or_high value k }
{
    value.to_le_bytes()[k % 2]
}

// ---- runs of bytes

// Two runs of `size` bytes are the same.
pub fn same_bytes(a: &[u8], b: &[u8], size: usize) -> bool
    requires { (length a.now ≡ size) × (length b.now ≡ size) }
    ensures { result ≡ same a.now b.now }
{
    a == b
}

// Copies `size` bytes of `from`, beginning at `at`, into `out` at `to`.
pub fn copy_part(from: &[u8], at: usize, size: usize, out: &mut [u8], to: usize)
    requires size_in_bounds { at + size ≤ length from.now }
    requires size_in_bounds_2 { to + size ≤ length out.old }
    ensures { out.new ≡ paste out.old to (drop at from.now) size }
{
    out[to..to + size].copy_from_slice(&from[at..at + size]);
}

// Copies `size` bytes of `out` that begin at `from` and end before `to`, to `to`.
pub fn copy_within(out: &mut [u8], from: usize, size: usize, to: usize)
    requires { (from + size ≤ to) × (to + size ≤ length out.old) }
    ensures { out.new ≡ paste out.old to (drop from out.old) size }
{
    out.copy_within(from..from + size, to);
}
