// Names the records of a store in which a value is minus infinity: reads the store from standard input and writes what there is to say.
#![tactic(auto)]

ghost use Rattle.store_records.specs.Store.{store_limit};
ghost use Rattle.text_infinities.specs.Infinities.{infinities_text};

use run_streams::{Program, STORE_INPUT, run};
use text_infinities::{ROOM, put_infinities};

struct Infinities;

impl Program<STORE_INPUT, ROOM> for Infinities {
    ghost definition = { infinities_text };

    ghost largest = { store_limit };

    fn put(input: &[u8], text: &mut [u8]) -> usize {
        put_infinities(text, input)
    }
}

fn main(rt: HostRuntime) {
    run::<STORE_INPUT, ROOM, Infinities>(&rt);
}
