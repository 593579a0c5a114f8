// What the programs run_place, run_unplace and run_put write of what they read: the answer, a byte, and then the moved store.
#![tactic(auto)]

ghost use Rattle.std.specs.Prelude.{◌≡◌, ◌+◌, ◌≤◌, length};
ghost use Rattle.store_records.specs.Store.{store_limit};
ghost use Rattle.probe_places.specs.Places.{place_limit};
ghost use Rattle.text.specs.Text.{Written};
ghost use Rattle.text_moves.specs.Output.{placed_output, unplaced_output, wish_output};

use bcn_spec::Answer;
use probe_moves::{place_store, unplace_store};
use probe_places::Place;
use probe_put::put_place;
use raw_bytes::{u16_at, u32_at, u32_to_usize};
use store_records::{Record, record_count};

// The answer, and the largest store that is moved.
pub const PLACED: usize = 1 + Place::STORE;

pub const UNPLACED: usize = 1 + Record::STORE;

// The bytes of a wish before its store: a record's number, face, column and row.
const HEAD: usize = 9;

// One byte more than the largest wish has: enough to tell that a store is too long.
pub const WISH: usize = HEAD + Place::STORE + 1;

// What run_place writes of a store, at the start of `out`; answers how many bytes it has.
pub fn put_placed(store: &[u8], out: &mut [u8]) -> usize
    requires { length out.old ≡ 1 + place_limit }
    ensures upper_bound { result ≤ length out.new }
    ensures written { Written out.old 0 (placed_output store.now) result out.new }
{
    let placed = place_store(store, &mut out[1..]);
    out[0] = placed.answer;
    if placed.answer != Answer::DONE {
        return 1;
    }
    1 + record_count(store) * Place::SIZE
}

// What run_unplace writes of a store.
pub fn put_unplaced(store: &[u8], out: &mut [u8]) -> usize
    requires { length out.old ≡ 1 + store_limit }
    ensures upper_bound { result ≤ length out.new }
    ensures written { Written out.old 0 (unplaced_output store.now) result out.new }
{
    let unplaced = unplace_store(store, &mut out[1..]);
    out[0] = unplaced.answer;
    if unplaced.answer != Answer::DONE {
        return 1;
    }
    1 + store.len() / Place::SIZE * Record::SIZE
}

// What run_put writes of a wish.
pub fn put_wish(input: &[u8], out: &mut [u8]) -> usize
    requires { length out.old ≡ 1 + place_limit }
    ensures upper_bound { result ≤ length out.new }
    ensures written { Written out.old 0 (wish_output input.now) result out.new }
{
    if input.len() < HEAD {
        return 0;
    }
    let n = u32_to_usize(u32_at(input, 0));
    let face = input[4];
    let column = u16_at(input, 5);
    let row = u16_at(input, 7);
    let store = &input[HEAD..];
    let put = put_place(store, n, face, column, row, &mut out[1..]);
    out[0] = put.answer;
    if put.answer != Answer::DONE {
        return 1;
    }
    1 + store.len()
}
