// Cleans a store: reads it from standard input and writes what is told of the clean-up and behind it the records that stay.
#![tactic(auto)]

ghost use Rattle.store_records.specs.Store.{store_limit};
ghost use Rattle.text_clean.specs.CleanText.{cleaning_output};

use run_streams::{Program, STORE_INPUT, run};
use text_clean::{ROOM, put_cleaning};

struct Cleaning;

impl Program<STORE_INPUT, ROOM> for Cleaning {
    ghost definition = { cleaning_output };

    ghost largest = { store_limit };

    fn put(input: &[u8], out: &mut [u8]) -> usize {
        put_cleaning(out, input)
    }
}

fn main(rt: HostRuntime) {
    run::<STORE_INPUT, ROOM, Cleaning>(&rt);
}
