// What the program run_build writes of its wish: the answer, a byte, and then the probe.
#![tactic(auto)]

ghost use Rattle.std.specs.Prelude.{◌≡◌, ◌+◌, ◌≤◌, length};
ghost use Rattle.text.specs.Text.{Written};
ghost use Rattle.text_build.specs.Output.{built_room, build_output};

use bcn_spec::{Answer, Block};
use probe::ProbePixel;
use probe_build::probe_build;
use probe_places::Place;
use raw_bytes::u32_at;

// The bytes of a wish before its blocks: the format, the edge and the first tile number.
const HEAD: usize = 9;

// One byte more than the largest wish has: enough to tell that blocks are left over.
pub const WISH: usize = HEAD + Block::SIZE * ProbePixel::PLACES + 1;

// The answer, and the largest probe.
pub const BUILT: usize = 1 + Place::SIZE * ProbePixel::PLACES;

// What run_build writes of a wish, at the start of `out`; answers how many bytes it has.
pub fn put_build(input: &[u8], out: &mut [u8]) -> usize
    requires { length out.old ≡ 1 + built_room }
    ensures upper_bound { result ≤ length out.new }
    ensures written { Written out.old 0 (build_output input.now) result out.new }
{
    if input.len() < HEAD {
        return 0;
    }
    let format = input[0];
    let edge = u32_at(input, 1);
    let first_tile = u32_at(input, 5);
    let built = probe_build(&input[HEAD..], format, edge, first_tile, &mut out[1..]);
    out[0] = built.answer;
    if built.answer != Answer::DONE {
        return 1;
    }
    1 + Place::SIZE * built.records
}
