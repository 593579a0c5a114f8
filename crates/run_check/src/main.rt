// Names the faulty records of a store: reads one byte for the form and then the store from standard input, and writes what there is to say.
#![tactic(auto)]

ghost use Rattle.std.specs.Prelude.{◌+◌};
ghost use Rattle.probe_places.specs.Places.{place_limit};
ghost use Rattle.text_check.specs.Checking.{checking_of};

use run_streams::{Program, run};
use text_check::{INPUT, ROOM, put_input};

struct Checking;

impl Program<INPUT, ROOM> for Checking {
    ghost definition = { checking_of };

    ghost largest = { 1 + place_limit };

    fn put(input: &[u8], text: &mut [u8]) -> usize {
        put_input(text, input)
    }
}

fn main(rt: HostRuntime) {
    run::<INPUT, ROOM, Checking>(&rt);
}
