// Lists a store of records with a place: reads one byte, 1 for the strict listing, and then the store from standard input, and writes its listing.
#![tactic(auto)]

ghost use Rattle.std.specs.Prelude.{◌+◌};
ghost use Rattle.probe_places.specs.Places.{place_limit};
ghost use Rattle.text_places.specs.Listing.{listing_of};

use run_streams::{Program, run};
use text_places::{INPUT, ROOM, put_input};

struct Listing;

impl Program<INPUT, ROOM> for Listing {
    ghost definition = { listing_of };

    ghost largest = { 1 + place_limit };

    fn put(input: &[u8], text: &mut [u8]) -> usize {
        put_input(text, input)
    }
}

fn main(rt: HostRuntime) {
    run::<INPUT, ROOM, Listing>(&rt);
}
