// The public calls for C and Rust, as include/knotpasture.h declares them. A slice is a pointer and a length.
#![tactic(auto)]

pub mod bc7_pixels;
pub mod clean;
pub mod fields;
pub mod files;
pub mod pixels;
pub mod probes;
pub mod store;

ghost use Rattle.std.specs.Prelude.{◌≡◌};
ghost use Rattle.bcn_spec.specs.Refusals.{answer_of};
ghost use Rattle.knotpasture.specs.Words.{two_bytes, count_of};

use bcn_spec::{Refusal, answer_number};

// Two bytes as one word, the first the lowest.
fn two_bytes(low: u8, high: u8) -> u32
    ensures { result ≡ two_bytes low high }
{
    (low as u32) + (high as u32) * 0x100
}

// The number of what a call answers; its count goes to a slot, 0 where the call refuses.
fn give_count(told: Result<usize, Refusal>, count: &mut usize) -> u32
    ensures number { result ≡ answer_of told }
    ensures counted { count.new ≡ count_of told }
{
    *count = told.unwrap_or(0);
    answer_number(told) as u32
}
