// Puts a record of a store of records with a place in its place: reads a wish from standard input and writes the answer, a byte, and then the
// store. Of a refused wish the answer is all.
//
// The wish is the record's number in four bytes, its face in one, its column and its row in two each, the low byte first; then the store.
#![tactic(auto)]

ghost use Rattle.text_moves.specs.Output.{wish_limit, wish_output};

use run_streams::{Program, run};
use text_moves::{PLACED, WISH, put_wish};

struct Putting;

impl Program<WISH, PLACED> for Putting {
    ghost definition = { wish_output };

    ghost largest = { wish_limit };

    fn put(input: &[u8], out: &mut [u8]) -> usize {
        put_wish(input, out)
    }
}

fn main(rt: HostRuntime) {
    run::<WISH, PLACED, Putting>(&rt);
}
