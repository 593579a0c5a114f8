// Audits a store: reads it from standard input and writes its audit.
#![tactic(auto)]

ghost use Rattle.store_records.specs.Store.{store_limit};
ghost use Rattle.text_audit.specs.Audit.{audit_of};

use run_streams::{Program, STORE_INPUT, run};
use text_audit::{ROOM, put_audit};

struct Audit;

impl Program<STORE_INPUT, ROOM> for Audit {
    ghost definition = { audit_of };

    ghost largest = { store_limit };

    fn put(input: &[u8], text: &mut [u8]) -> usize {
        put_audit(text, input)
    }
}

fn main(rt: HostRuntime) {
    run::<STORE_INPUT, ROOM, Audit>(&rt);
}
