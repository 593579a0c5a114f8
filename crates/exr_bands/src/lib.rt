// An OpenEXR file of any size from 1 to 4,096, a row of blocks at a time.
#![tactic(auto)]

ghost use Rattle.std.specs.Prelude.{◌≡◌, ◌++◌, ◌≤◌, ◌+◌, ◌*◌, length, drop};
ghost use Rattle.std.proofs.lemmas.List.Edits.{sets};
ghost use Rattle.bcn_spec.specs.Bits.{size_limit, most_across};
ghost use Rattle.exr_bands.specs.Bands.{cropped_at, cropped_lines, LinesFit, LinesPut};

use exr::{put_band, put_head};
use raw_bytes::copy_part;

// The line of `lines` that begins at `at`, cropped to `width` pixels, as line y; it goes to `to`.
fn crop_line(
    lines: &[u8],
    at: usize,
    across: usize,
    width: usize,
    y: usize,
    out: &mut [u8],
    to: usize,
)
    requires across_le_most_across { (across ≤ most_across) × (width ≤ 4 * across) }
    requires across_in_bounds { (at + (8 + 24 * across) ≤ length lines.now) × (to + (8 + 6 * width) ≤ length out.old) }
    ensures { out.new ≡ sets out.old to (cropped_at lines.now at across width y) }
{
    let size = 2 * width;
    put_head(width, y, out, to);
    copy_part(lines, at + 8, size, out, to + 8);
    copy_part(lines, at + 8 + 8 * across, size, out, to + 8 + size);
    copy_part(lines, at + 8 + 16 * across, size, out, to + 8 + size + size);
}

// The first `rows` of the four lines in `lines`, each cropped to `width` pixels, with numbers from `first` on.
fn crop_lines(lines: &[u8], across: usize, width: usize, first: usize, rows: usize, out: &mut [u8])
    requires across_le_most_across { (across ≤ most_across) × (width ≤ 4 * across) × (rows ≤ 4) × (first ≤ size_limit) }
    requires across_in_bounds { (32 + 96 * across ≤ length lines.now) × ((8 + 6 * width) * rows ≤ length out.old) }
    ensures { out.new ≡ cropped_lines lines.now across width first rows ++ drop ((8 + 6 * width) * rows) out.old }
{
    for row in 0..rows {
        crop_line(
            lines,
            (8 + 24 * across) * row,
            across,
            width,
            first + row,
            out,
            (8 + 6 * width) * row,
        );
    }
}

// What the file has of a row of blocks: its first `rows` lines, cropped to `width` pixels, with numbers from `first` on. Answers how many bytes
// that is. `lines` takes the four lines before they are cropped.
pub fn put_lines(
    band: &[u8],
    format: u8,
    width: usize,
    first: usize,
    rows: usize,
    lines: &mut [u8],
    out: &mut [u8],
) -> usize
    requires { LinesFit format width first rows (length band.now) (length lines.old) (length out.old) }
    ensures { LinesPut band.now format width first rows out.old result out.new }
{
    let across = (width + 3) / 4;
    put_band(band, format, 0, across, first, lines);
    crop_lines(lines, across, width, first, rows, out);
    (8 + 6 * width) * rows
}
