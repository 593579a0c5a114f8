// A clean-up of copies, with and without a receipt, and the way back from one, for C and Rust.
ghost use Rattle.std.specs.Prelude.{◌≡◌, ◌+◌, ◌≤◌};
ghost use Rattle.store_records.specs.Store.{most_records};
ghost use Rattle.store_clean.specs.Clean.{first_of};
ghost use Rattle.knotpasture.specs.Clean.{clean_word, CleanCalled, ReceiptCalled, restored_word, RestoreCalled};

use store_clean::Cleaned;
use store_receipt::clean_with_receipt;
use store_restore::Restored;

// The number and the counts of a clean-up.
fn clean_word(cleaned: Cleaned) -> u64
    requires { cleaned.kept + cleaned.removed ≤ most_records }
    ensures { result ≡ clean_word cleaned }
{
    (cleaned.answer as u64)
        + (cleaned.kept as u64) * 0x10000
        + (cleaned.removed as u64) * 0x100000000
}

#[unsafe(no_mangle)]
pub extern "C" fn knot_clean_store(store: &[u8], out: &mut [u8]) -> u64
    ensures { CleanCalled store.now out.old result out.new }
{
    clean_word(store_clean::clean_store(store, out))
}

#[unsafe(no_mangle)]
pub extern "C" fn knot_first_of(store: &[u8], n: usize) -> usize
    ensures { result ≡ first_of store.now n }
{
    store_clean::first_of(store, n)
}

#[unsafe(no_mangle)]
pub extern "C" fn knot_clean_with_receipt(store: &[u8], out: &mut [u8], receipt: &mut [u8]) -> u64
    ensures { ReceiptCalled store.now out.old receipt.old result out.new receipt.new }
{
    clean_word(clean_with_receipt(store, out, receipt))
}

// The number and the count of a way back.
fn restored_word(restored: Restored) -> u64
    requires { restored.records ≤ most_records }
    ensures { result ≡ restored_word restored }
{
    (restored.answer as u64) + (restored.records as u64) * 0x10000
}

#[unsafe(no_mangle)]
pub extern "C" fn knot_restore_store(cleaned: &[u8], receipt: &[u8], out: &mut [u8]) -> u64
    ensures { RestoreCalled cleaned.now receipt.now out.old result out.new }
{
    restored_word(store_restore::restore_store(cleaned, receipt, out))
}
