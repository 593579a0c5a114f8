// A Portable Float Map of any size from 1 to 4,096, a row of blocks at a time.
#![tactic(auto)]

ghost use Rattle.std.specs.Prelude.{◌≡◌, ◌++◌, ◌≤◌, ◌*◌, length, drop};
ghost use Rattle.bcn_spec.specs.Bits.{most_across};
ghost use Rattle.pfm_bands.specs.Bands.{cropped_rows, RowsFit, RowsPut};

use pfm::put_band;
use raw_bytes::copy_part;

// The last `rows` of the four rows in `lines`, each cropped to `width` pixels.
fn crop_rows(lines: &[u8], across: usize, width: usize, rows: usize, out: &mut [u8])
    requires across_le_most_across { (across ≤ most_across) × (width ≤ 4 * across) × (rows ≤ 4) }
    requires across_in_bounds { (192 * across ≤ length lines.now) × (12 * width * rows ≤ length out.old) }
    ensures { out.new ≡ cropped_rows lines.now across width rows ++ drop (12 * width * rows) out.old }
{
    let hidden = 4 - rows;
    for i in 0..rows {
        copy_part(
            lines,
            48 * across * (hidden + i),
            12 * width,
            out,
            12 * width * i,
        );
    }
}

// What the file has of a row of blocks: its first `rows` rows of pixels, the lowest first, each cropped to `width` pixels. Answers how many bytes
// that is. `lines` takes the four rows before they are cropped.
pub fn put_rows(
    band: &[u8],
    format: u8,
    width: usize,
    rows: usize,
    lines: &mut [u8],
    out: &mut [u8],
) -> usize
    requires { RowsFit format width rows (length band.now) (length lines.old) (length out.old) }
    ensures { RowsPut band.now format width rows out.old result out.new }
{
    let across = (width + 3) / 4;
    put_band(band, format, 0, across, lines);
    crop_rows(lines, across, width, rows, out);
    12 * width * rows
}
