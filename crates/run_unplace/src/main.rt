// Moves a store of records with a place back to one of 24-byte records: reads it from standard input and writes the answer, a byte, and
// then the moved store. Of a refused store the answer is all.
#![tactic(auto)]

ghost use Rattle.probe_places.specs.Places.{place_limit};
ghost use Rattle.text_moves.specs.Output.{unplaced_output};

use probe_places::Place;
use run_streams::{Program, run};
use text_moves::{UNPLACED, put_unplaced};

// One byte more than a store may have: enough to tell that one is too long.
const ROOM: usize = Place::STORE + 1;

struct Unplacing;

impl Program<ROOM, UNPLACED> for Unplacing {
    ghost definition = { unplaced_output };

    ghost largest = { place_limit };

    fn put(store: &[u8], out: &mut [u8]) -> usize {
        put_unplaced(store, out)
    }
}

fn main(rt: HostRuntime) {
    run::<ROOM, UNPLACED, Unplacing>(&rt);
}
