// What is kept of the records while a twin list is made, in scratch space: first a fingerprint a record, by which the search passes most
// records by, and behind those the pictures.
#![tactic(auto)]

ghost use Rattle.std.specs.Prelude.{◌≡◌, ◌++◌, ◌+◌, ◌*◌, ◌≤◌, ◌<◌, length, drop};
ghost use Rattle.laws.specs.Made.{made};
ghost use Rattle.bc6h_spec.specs.Fields.{mode_of};
ghost use Rattle.bc6h_spec.specs.Picture.{value_count};
ghost use Rattle.store_records.specs.Store.{records_in, format_of, block_of, Unrefused};
ghost use Rattle.store_spec.specs.Scratch.{scratch_entry, kind_at, mixed_on, picture_mixed, print_of, print_at, picture_in, Pictured};

use bc6_mode::extract_mode;
use bc6h_spec::Picture;
use bcn_util::BitStream;
use store_records::{record_at, record_block, record_count};
use store_spec::TwinList;

// A number made of all but the high bits of another, to which the next values are added.
pub fn mixed_on(mix: u64) -> u64
    ensures { (result ≡ mixed_on mix) × (result < 0x9E37790000000000) }
{
    mix % 0x10000000000 * 0x9E3779
}

// A number that records of another kind or with other values seldom share, from the three values of each pixel in turn.
fn mixed(kind: u64, picture: &[u16]) -> u64
    requires { length picture.now ≡ value_count }
    ensures { result ≡ picture_mixed kind picture.now 16 }
{
    let mut mix = kind;
    for pixel in picture.chunks_exact(3) {
        mix = mixed_on(mix)
            + u64::from(pixel[0])
            + u64::from(pixel[1]) * 0x1000
            + u64::from(pixel[2]) * 0x1000000;
    }
    mix
}

fn fingerprint(kind: u64, picture: &[u16]) -> u16
    requires { length picture.now ≡ value_count }
    ensures { result ≡ print_of kind picture.now }
{
    (mixed(kind, picture) / 0x1000000 % 0x10000) as u16
}

// The picture of record n, in scratch space with so many fingerprints.
pub fn picture_in(scratch: &[u16], count: usize, n: usize) -> &[u16]
    requires { count + (value_count * n + value_count) ≤ length scratch.now }
    ensures { result.now ≡ picture_in scratch.now count n }
{
    let start = count + Picture::VALUES * n;
    &scratch[start..start + Picture::VALUES]
}

// The mode of record n, which is not refused; 0 for a reserved one.
pub fn mode_at(store: &[u8], n: usize) -> usize
    requires { Unrefused store.now n }
    ensures { result ≡ mode_of (block_of store.now n) }
{
    extract_mode(BitStream::new(record_block(store, n)))
}

// The kind of record n, which is not refused and of the format.
fn kind_at(store: &[u8], n: usize, format: u8) -> u64
    requires unrefused { Unrefused store.now n }
    requires format_value { format ≡ format_of store.now n }
    ensures { result ≡ kind_at store.now n }
{
    if mode_at(store, n) == 0 {
        return TwinList::NO_PICTURE;
    }
    u64::from(format)
}

// The fingerprints of all records that are not refused, before their pictures.
pub fn keep_prints(store: &[u8], scratch: &mut [u16])
    requires scratch_entry_in_bounds { records_in store.now * scratch_entry ≤ length scratch.old }
    requires pictured { Pictured store.now scratch.old }
    ensures { scratch.new ≡ made (print_at store.now scratch.old) (records_in store.now) ++ drop (records_in store.now) scratch.old }
{
    let count = record_count(store);
    for n in 0..count {
        let Ok(found) = record_at(store, n) else {
            continue;
        };
        let kind = kind_at(store, n, found.format);
        scratch[n] = fingerprint(kind, picture_in(scratch, count, n));
    }
}
