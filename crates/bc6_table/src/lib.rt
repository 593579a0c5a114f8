// The bits before the indices, bit by bit, each put where the table of 1,080 codes says.
#![tactic(auto)]

pub mod destinations;

ghost use Rattle.std.specs.Prelude.{◌≡◌, ◌*◌, ◌^◌, ◌<◌, ◌≤◌};
ghost use Rattle.laws.specs.Made.{made};
ghost use Rattle.bcn_util.specs.Stream.{number};
ghost use Rattle.bc6h_spec.specs.Layout as Layout;
ghost use Rattle.bc6h_spec.specs.Layout.{row, row_start, table_bits};
ghost use Rattle.bc6h_spec.specs.Fields.{gathered};

use bcn_util::BitStream;
use destinations::codes;

// Where a mode's row starts in the table.
pub fn row_start(mode: usize) -> usize
    requires { (1 ≤ mode) × (mode ≤ 14) }
    ensures { result ≡ row_start mode }
{
    if mode <= 10 {
        82 * (mode - 1)
    } else {
        820 + 65 * (mode - 11)
    }
}

// How many bits stand before the indices.
pub fn table_bits(mode: usize) -> usize
    ensures { result ≡ table_bits mode }
{
    if mode <= 10 { 82 } else { 65 }
}

// A mode's row of the table.
pub fn row_of(table: &[u8], mode: usize) -> &[u8]
    requires { (1 ≤ mode) × (mode ≤ 14) × (table.now ≡ Layout.table) }
    ensures { result.now ≡ row mode }
{
    let start = row_start(mode);
    &table[start..start + table_bits(mode)]
}

fn bit_at(bit: u64, at: u8) -> u16
    requires { (bit < 2) × (at < 16) }
    ensures { result ≡ bit * 2 ^ at }
{
    (bit as u16) << at
}

// The numbers at the fourteen places.
pub fn read_places(mode: usize, stream: BitStream) -> [u16; 14]
    requires { (1 ≤ mode) × (mode ≤ 14) }
    ensures { result ≡ made (gathered (row mode) (number stream)) 14 }
{
    let table = codes();
    let row = row_of(&table, mode);
    let mut values = [0u16; 14];
    let mut rest = stream;
    for code in row {
        let place = usize::from(*code / 16);
        let read = rest.consume_bits(1);
        values[place] += bit_at(read.bits, *code % 16);
        rest = read.rest;
    }
    values
}
