// The way back from a clean-up: reads the cleaned store, with its length before it, and the receipt from standard input, and writes the
// answer, one byte, and where that is 0 the store as it was.
#![tactic(auto)]

ghost use Rattle.text_restore.specs.Restoring.{longest_input, restoring_output};

use run_streams::{Program, run};
use text_restore::{INPUT, OUTPUT, put_restoring};

struct Restoring;

impl Program<INPUT, OUTPUT> for Restoring {
    ghost definition = { restoring_output };

    ghost largest = { longest_input };

    fn put(input: &[u8], out: &mut [u8]) -> usize {
        put_restoring(out, input)
    }
}

fn main(rt: HostRuntime) {
    run::<INPUT, OUTPUT, Restoring>(&rt);
}
