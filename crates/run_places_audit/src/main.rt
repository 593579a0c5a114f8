// Audits a store of records with a place: reads it from standard input and writes its audit.
#![tactic(auto)]

ghost use Rattle.probe_places.specs.Places.{place_limit};
ghost use Rattle.text_places_audit.specs.Audit.{audit_of};

use run_streams::{Program, run};
use text_places_audit::{INPUT, ROOM, put_places_audit};

struct Audit;

impl Program<INPUT, ROOM> for Audit {
    ghost definition = { audit_of };

    ghost largest = { place_limit };

    fn put(store: &[u8], text: &mut [u8]) -> usize {
        put_places_audit(text, store)
    }
}

fn main(rt: HostRuntime) {
    run::<INPUT, ROOM, Audit>(&rt);
}
