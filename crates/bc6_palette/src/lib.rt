// The picture of a field record, as the document reads: the palettes between its endpoints, then each pixel's colour by its index, all of them
// triples made, passed and returned by value. (Decoding a block builds no palette: bc6.)
#![tactic(auto)]

ghost use Rattle.std.specs.Prelude.{◌≡◌, true, false, ◌++◌, ◌^◌, ◌<◌, ◌≤◌, pos, length, drop};
ghost use Rattle.laws.specs.Made.{made};
ghost use Rattle.laws.specs.Ranges.{InBits};
ghost use Rattle.bc6h_spec.specs.Layout.{two_regions};
ghost use Rattle.bc6h_spec.specs.Fields.{Valid};
ghost use Rattle.bc6h_spec.specs.Half.{interpolated, finished};
ghost use Rattle.bc6h_spec.specs.Picture.{picture_as, picture};
ghost use Rattle.bc6_half.specs.Halves.{weights_of, marked};
ghost use Rattle.bc6_colour.specs.Colours.{unquantized_of, OfBits};
ghost use Rattle.bc6_palette.specs.Palettes.{blend_of, palette_entry};
ghost use Rattle.bc6_palette.specs.Triples.{IndicesBelow, one_pixel, two_pixel, flat, in_triples};
ghost use Rattle.bc6_palette.specs.Call.{FieldsShown};
ghost use Rattle.bcn_spec.specs.Refusals.{answer_of};

use bc6_colour::Colour;
use bc6_half::{Half, finish_unquantize, interpolate, weight};
use bc6_mode::ModeBits;
use bc6_valid::is_valid;
use bc6h_spec::{Fields, Picture};
use bcn_data::Subset2Map;
use bcn_spec::Refusal;

// One channel of a palette's entry, between two unquantised ends.
fn entry(a: i32, b: i32, w: u16, signed: bool) -> Half
    requires { (InBits signed 16 a × InBits signed 16 b) × (w ≤ 64) }
    ensures { result ≡ marked (finished signed (interpolated a b (pos w))) }
{
    finish_unquantize(interpolate(a, b, w), signed)
}

// The patterns at the weight w between two unquantised colours.
fn between(a: Colour, b: Colour, w: u16, signed: bool) -> [Half; 3]
    requires { (OfBits signed 16 a × OfBits signed 16 b) × (w ≤ 64) }
    ensures { result ≡ blend_of signed a b w }
{
    let red = entry(a.r, b.r, w, signed);
    let green = entry(a.g, b.g, w, signed);
    let blue = entry(a.b, b.b, w, signed);
    [red, green, blue]
}

// The colours between the ends of a block of one region, sixteen, or of one of two regions, eight: one for each index of so many bits.
fn generate_palette_unquantized<const BITS: u8, const COUNT: usize>(
    c1: Colour,
    c2: Colour,
    prec: u8,
    signed: bool,
) -> [[Half; 3]; COUNT]
    requires { ((3 ≤ BITS) × (BITS ≤ 4) × (COUNT ≤ 2 ^ BITS)) × ((0 < prec) × (prec ≤ 16) × (OfBits signed prec c1 × OfBits signed prec c2)) }
    ensures { result ≡ made (palette_entry signed (unquantized_of signed prec c1) (unquantized_of signed prec c2) (weights_of BITS)) COUNT }
{
    let a = c1.unquantize(prec, signed);
    let b = c2.unquantize(prec, signed);
    let black = Half::black();
    let mut palette = [black; COUNT];
    for i in 0..COUNT {
        palette[i] = between(a, b, weight::<BITS>(i as u16), signed);
    }
    palette
}

// Each pixel has the palette's colour at its index.
fn paint_one(palette: [[Half; 3]; 16], indices: [u8; 16]) -> [[Half; 3]; 16]
    requires { IndicesBelow 16 indices }
    ensures { result ≡ made (one_pixel palette indices) 16 }
{
    let black = Half::black();
    let mut picture = [black; 16];
    for k in 0..16usize {
        let at = indices[k] as usize;
        picture[k] = palette[at];
    }
    picture
}

// Each pixel has its region's colour at its index.
fn paint_two(
    palette0: [[Half; 3]; 8],
    palette1: [[Half; 3]; 8],
    partition: Subset2Map,
    indices: [u8; 16],
) -> [[Half; 3]; 16]
    requires { IndicesBelow 8 indices }
    ensures { result ≡ made (two_pixel palette0 palette1 partition.subset_indexes indices) 16 }
{
    let black = Half::black();
    let mut picture = [black; 16];
    for k in 0..16usize {
        let at = indices[k] as usize;
        if partition.get_subset_index(k as u8) == 0 {
            picture[k] = palette0[at];
        } else {
            picture[k] = palette1[at];
        }
    }
    picture
}

fn decode_one(f: Fields, signed: bool) -> [[Half; 3]; 16]
    requires { Valid f × (two_regions f.mode ≡ false) }
    ensures { result ≡ in_triples (picture_as signed f) }
{
    let bits = ModeBits::of(f.mode);
    let a = Colour::first(f, bits, signed);
    let b = a.other(f, 1, bits, signed);
    let palette = generate_palette_unquantized::<4, 16>(a, b, bits.a0, signed);
    let indices = f.indices;
    paint_one(palette, indices)
}

fn decode_two(f: Fields, signed: bool) -> [[Half; 3]; 16]
    requires { Valid f × (two_regions f.mode ≡ true) }
    ensures { result ≡ in_triples (picture_as signed f) }
{
    let bits = ModeBits::of(f.mode);
    let a = Colour::first(f, bits, signed);
    let b = a.other(f, 1, bits, signed);
    let c = a.other(f, 2, bits, signed);
    let d = a.other(f, 3, bits, signed);
    let palette0 = generate_palette_unquantized::<3, 8>(a, b, bits.a0, signed);
    let palette1 = generate_palette_unquantized::<3, 8>(c, d, bits.a0, signed);
    let partition = Subset2Map::of(f.partition as usize);
    let indices = f.indices;
    paint_two(palette0, palette1, partition, indices)
}

// The sixteen triples of a record.
fn picture_of(fields: Fields) -> [[Half; 3]; 16]
    requires { Valid fields }
    ensures { result ≡ in_triples (picture fields) }
{
    let signed = fields.format == 1;
    if fields.mode <= 10 {
        return decode_two(fields, signed);
    }
    decode_one(fields, signed)
}

// Red, green and blue of each triple.
fn write_values(triples: [[Half; 3]; 16], out: &mut [u16])
    requires { 48 ≤ length out.old }
    ensures { out.new ≡ flat triples ++ drop 48 out.old }
{
    for j in 0..48usize {
        let pixel = triples[j / 3];
        let value = pixel[j % 3];
        out[j] = value.pattern;
    }
}

// The 48 values that a field record shows.
pub fn fields_pixels(fields: Fields, out: &mut [u16]) -> Result<(), Refusal>
    ensures { FieldsShown fields out.old (answer_of result) out.new }
{
    if 1 < fields.format {
        return Err(Refusal::BadFormat);
    }
    if !is_valid(fields) {
        return Err(Refusal::InvalidFields);
    }
    if out.len() < Picture::VALUES {
        return Err(Refusal::ShortOutput);
    }
    write_values(picture_of(fields), out);
    Ok(())
}
