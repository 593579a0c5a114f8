// Says whether a store is a probe, or writes a face of it as a Portable Float Map or an OpenEXR file, to standard output.
//
// Standard input has the kind, a byte: 0 to be told of an edge, 1 for a face as a Portable Float Map, 2 to be told of the edge that fits the
// store, 3 for a face as an OpenEXR file; the edge and the face in four bytes each, low byte first; then the store.
// A refusal is a line that begins `store refused`. Each block is shown in the format of its own record.
#![tactic(auto)]

ghost use Rattle.text_probe.specs.Output.{probe_output, question_limit};

use run_streams::{Program, run};
use text_probe::{ANSWER, QUESTION, put_probe};

struct Question;

impl Program<QUESTION, ANSWER> for Question {
    ghost definition = { probe_output };

    ghost largest = { question_limit };

    fn put(input: &[u8], out: &mut [u8]) -> usize {
        put_probe(input, out)
    }
}

fn main(rt: HostRuntime) {
    run::<QUESTION, ANSWER, Question>(&rt);
}
