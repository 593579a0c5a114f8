// Moves a store of 24-byte records to one of records with a place: reads it from standard input and writes the answer, a byte, and then the
// moved store. Of a refused store the answer is all.
#![tactic(auto)]

ghost use Rattle.store_records.specs.Store.{store_limit};
ghost use Rattle.text_moves.specs.Output.{placed_output};

use run_streams::{Program, STORE_INPUT, run};
use text_moves::{PLACED, put_placed};

struct Placing;

impl Program<STORE_INPUT, PLACED> for Placing {
    ghost definition = { placed_output };

    ghost largest = { store_limit };

    fn put(store: &[u8], out: &mut [u8]) -> usize {
        put_placed(store, out)
    }
}

fn main(rt: HostRuntime) {
    run::<STORE_INPUT, PLACED, Placing>(&rt);
}
