// Makes a probe of the blocks of its six faces: reads a wish from standard input and writes the answer, a byte, and then the probe. Of a
// refused wish the answer is all.
//
// The wish is the format in one byte, the edge and the first tile number in four each, the low byte first; then the blocks, face by face and
// row by row.
#![tactic(auto)]

ghost use Rattle.text_build.specs.Output.{build_limit, build_output};

use run_streams::{Program, run};
use text_build::{BUILT, WISH, put_build};

struct Building;

impl Program<WISH, BUILT> for Building {
    ghost definition = { build_output };

    ghost largest = { build_limit };

    fn put(input: &[u8], out: &mut [u8]) -> usize {
        put_build(input, out)
    }
}

fn main(rt: HostRuntime) {
    run::<WISH, BUILT, Building>(&rt);
}
