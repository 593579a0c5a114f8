// The records of a store, its twins, and what a clean-up may rely on, for C and Rust.
ghost use Rattle.std.specs.Prelude.{◌≡◌, ◌+◌, ◌≤◌};
ghost use Rattle.store_copies.specs.Trust.{trusted};
ghost use Rattle.store_covered.specs.CleanUp.{covered};
ghost use Rattle.store_records.specs.Store.{most_records, record_refusal, tile_at};
ghost use Rattle.store_spec.specs.Twins.{first_twin};
ghost use Rattle.store_twins.specs.Strict.{first_damaged};
ghost use Rattle.knotpasture.specs.Store.{reading_word, offset_at, twins_word, TwinsCalled, StrictCalled, TwinsInCalled};

use store_records::Record;
use store_spec::TwinList;

#[unsafe(no_mangle)]
pub extern "C" fn knot_record_at(store: &[u8], n: usize) -> u64
    ensures { result ≡ reading_word store.now n }
{
    let reading = store_records::record_at(store, n);
    match reading {
        Ok(record) => (record.format as u64) * 0x100 + (record.tile as u64) * 0x100000000,
        Err(refusal) => refusal.number() as u64,
    }
}

#[unsafe(no_mangle)]
pub extern "C" fn knot_record_block(store: &[u8], n: usize) -> usize
    ensures { result ≡ offset_at (record_refusal store.now n) n }
{
    let Ok(_) = store_records::record_at(store, n) else {
        return 0;
    };
    n * Record::SIZE + Record::HEAD
}

#[unsafe(no_mangle)]
pub extern "C" fn knot_tile_at(store: &[u8], n: usize) -> u32
    ensures { result ≡ tile_at store.now n }
{
    store_records::tile_at(store, n)
}

// The number and the counts of a twin list.
fn list_word(list: TwinList) -> u64
    requires { list.kept + list.twins + list.bad ≤ most_records }
    ensures { result ≡ twins_word list }
{
    (list.answer as u64)
        + (list.kept as u64) * 0x10000
        + (list.twins as u64) * 0x100000000
        + (list.bad as u64) * 0x1000000000000
}

#[unsafe(no_mangle)]
pub extern "C" fn knot_twin_list(store: &[u8], marks: &mut [u8]) -> u64
    ensures { TwinsCalled store.now marks.old result marks.new }
{
    list_word(store_twins::twin_list(store, marks))
}

#[unsafe(no_mangle)]
pub extern "C" fn knot_strict_twin_list(store: &[u8], marks: &mut [u8]) -> u64
    ensures { StrictCalled store.now marks.old result marks.new }
{
    list_word(store_twins::strict_twin_list(store, marks))
}

#[unsafe(no_mangle)]
pub extern "C" fn knot_twin_list_in(store: &[u8], marks: &mut [u8], scratch: &mut [u16]) -> u64
    ensures { TwinsInCalled store.now marks.old scratch.old result marks.new scratch.new }
{
    list_word(store_twins::twin_list_in(store, marks, scratch))
}

#[unsafe(no_mangle)]
pub extern "C" fn knot_first_damaged(store: &[u8]) -> usize
    ensures { result ≡ first_damaged store.now }
{
    store_twins::first_damaged(store)
}

#[unsafe(no_mangle)]
pub extern "C" fn knot_first_twin(store: &[u8], n: usize) -> usize
    ensures { result ≡ first_twin store.now n }
{
    store_twins::first_twin(store, n)
}

#[unsafe(no_mangle)]
pub extern "C" fn knot_is_trusted(block: &[u8], format: u8) -> bool
    ensures { result ≡ trusted format block.now }
{
    store_trust::is_trusted(block, format)
}

#[unsafe(no_mangle)]
pub extern "C" fn knot_is_covered(store: &[u8], n: usize, earlier: usize) -> bool
    ensures { result ≡ covered store.now n earlier }
{
    store_covered::is_covered(store, n, earlier)
}
