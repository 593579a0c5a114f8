// The way back as one run of bytes. The input is the length of the cleaned store, its bytes, and the receipt; the output is the answer in
// one byte, and where that is 0 the restored store.
#![tactic(auto)]

ghost use Rattle.std.specs.Prelude.{◌≡◌, ◌+◌, ◌≤◌, ◌<◌, length};
ghost use Rattle.store_records.specs.Store.{store_limit};
ghost use Rattle.text.specs.Text.{Written};
ghost use Rattle.text_restore.specs.Restoring.{length_size, cleaned_length, input_refusal, restored_output, restoring_output};

use bcn_spec::Answer;
use raw_bytes::u32_at;
use store_receipt::Entry;
use store_records::Record;
use store_restore::restore_store;
use store_spec::TwinList;
use text::put;

// The bytes before the cleaned store.
const LENGTH: usize = 4;

// The most bytes of an input that are read: where there are as many, the receipt has too many entries for any store.
pub const INPUT: usize = LENGTH + Record::STORE + (TwinList::RECORDS + 1) * Entry::SIZE;

// The most bytes of an output.
pub const OUTPUT: usize = 1 + Record::STORE;

// How many bytes of the input are the cleaned store.
fn cleaned_length(input: &[u8]) -> usize
    requires { length_size ≤ length input.now }
    ensures { result ≡ cleaned_length input.now }
{
    u32_at(input, 0) as usize
}

// Why an input is refused before its two parts are looked at.
fn input_refusal(input: &[u8]) -> u8
    ensures { result ≡ input_refusal input.now }
{
    if input.len() < LENGTH {
        return Answer::BAD_RECEIPT;
    }
    let size = cleaned_length(input);
    if size > Record::STORE {
        return Answer::LONG_STORE;
    }
    if input.len() < LENGTH + size {
        return Answer::BAD_RECEIPT;
    }
    Answer::DONE
}

// The answer for a cleaned store and a receipt, and behind it the records that are restored: none on a refusal.
fn put_restored(out: &mut [u8], cleaned: &[u8], receipt: &[u8]) -> usize
    requires { 1 + store_limit ≤ length out.old }
    ensures upper_bound { result ≤ length out.new }
    ensures written { Written out.old 0 (restored_output cleaned.now receipt.now) result out.new }
{
    let mut store = [0u8; Record::STORE];
    let restored = restore_store(cleaned, receipt, &mut store);
    let answer = [restored.answer];
    let end = put(out, 0, &answer);
    let size = restored.records * Record::SIZE;
    put(out, end, &store[..size])
}

// What the program writes of an input, at the start of `out`; answers how many bytes it has.
pub fn put_restoring(out: &mut [u8], input: &[u8]) -> usize
    requires { 1 + store_limit ≤ length out.old }
    ensures upper_bound { result ≤ length out.new }
    ensures written { Written out.old 0 (restoring_output input.now) result out.new }
{
    let refusal = input_refusal(input);
    if refusal != Answer::DONE {
        let answer = [refusal];
        return put(out, 0, &answer);
    }
    let start = LENGTH + cleaned_length(input);
    put_restored(out, &input[LENGTH..start], &input[start..])
}
