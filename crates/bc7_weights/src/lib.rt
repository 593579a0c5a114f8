// The weights of a block's indexes, for every index width.
#![tactic(auto)]

ghost use Rattle.std.specs.Prelude.{◌≡◌, [], ◌∷◌, ◌*◌, ◌/◌, ◌%◌, ◌^◌, ◌≤◌, ◌<◌};
ghost use Rattle.bcn_util.specs.Stream.{number};
ghost use Rattle.bc7_spec.specs.Fields.{field_in};
ghost use Rattle.bc7_spec.specs.Bytes.{weight_of};
ghost use Rattle.bc7_weights.specs.Weighed.{factor_of, Weighed, WeighedBy};

use bcn_util::{BitStream, Indexes};

// Eighths of a weight that an index is worth.
fn factor(bits: u64) -> u16
    requires { (2 ≤ bits) × (bits ≤ 4) }
    ensures { result ≡ factor_of bits }
{
    if bits == 2 {
        return 171;
    }
    if bits == 3 {
        return 73;
    }
    34
}

// 0, 21, 43, 64, or 0, 9, 18, .., or 0, 4, 9, .., by the width.
fn weight(index: u16, bits: u64) -> u16
    requires { (2 ≤ bits) × (bits ≤ 4) × (index < 2 ^ bits) }
    ensures { (result ≡ weight_of bits index) × (result < 65) }
{
    (factor(bits) * index + 4) / 8
}

// The lowest eight indexes of a word.
fn eight(word: u64, bits: u64) -> u32
    requires { bits ≤ 4 }
    ensures { result ≡ word % 2 ^ (8 * bits) }
{
    (word % (1u64 << (8 * bits))) as u32
}

fn index_at(word: u32, bits: u64, k: usize) -> u16
    requires { (bits ≤ 4) × (k < 8) }
    ensures { (result ≡ field_in bits word k) × (result < 2 ^ bits) }
{
    ((word >> (bits * (k as u64))) % (1u32 << bits)) as u16
}

// (Two words of eight indexes, and two loops of eight turns: of that the compiler makes vector code.)
fn weigh(x: Indexes) -> [u16; 16]
    requires { (2 ≤ x.bits) × (x.bits ≤ 4) }
    ensures { Weighed x result }
{
    let bits = x.bits;
    let low = eight(x.uncompressed, bits);
    let high = eight(x.uncompressed >> (8 * bits), bits);
    let mut weights = [0u16; 16];
    for k in 0..8usize {
        weights[k] = weight(index_at(low, bits, k), bits);
    }
    for k in 0..8usize {
        weights[k + 8] = weight(index_at(high, bits, k), bits);
    }
    weights
}

// The weights of the index set that starts at bit `at`: with one region ..
pub fn weigh_one(stream: BitStream, at: u64, bits: u64) -> [u16; 16]
    requires { (at < 128) × (2 ≤ bits) × (bits ≤ 4) }
    ensures { WeighedBy bits (0 ∷ []) (number stream / 2 ^ at) result }
{
    weigh(Indexes::new_p1(bits, stream.skip(at)))
}

// .. with two ..
pub fn weigh_two(stream: BitStream, at: u64, bits: u64, low: u8) -> [u16; 16]
    requires { (at < 128) × (2 ≤ bits) × (bits ≤ 4) × (1 ≤ low) × (low ≤ 15) }
    ensures { WeighedBy bits (0 ∷ low ∷ []) (number stream / 2 ^ at) result }
{
    weigh(Indexes::new_p2(bits, stream.skip(at), low as u64))
}

// .. and with three.
pub fn weigh_three(stream: BitStream, at: u64, bits: u64, low: u8, high: u8) -> [u16; 16]
    requires { (at < 128) × (2 ≤ bits) × (bits ≤ 4) × (1 ≤ low) × (low < high) × (high ≤ 15) }
    ensures { WeighedBy bits (0 ∷ low ∷ high ∷ []) (number stream / 2 ^ at) result }
{
    weigh(Indexes::new_p3(bits, stream.skip(at), low as u64, high as u64))
}
