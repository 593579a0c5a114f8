// What the clean-up may rely on: a twin that is covered is a copy, byte for byte, of the first record that it equals.
#![tactic(auto)]

ghost use Rattle.std.specs.Prelude.{◌≡◌};
ghost use Rattle.store_covered.specs.CleanUp.{covered_pair, covered, by_demand_3};

use bc6_fields::fields_of;
use store_records::{record_at, record_block};
use store_trust::is_trusted;

// The copies theorem covers two blocks of a format.
fn is_covered_pair(format: u8, block: &[u8], earlier: &[u8]) -> bool
    ensures { result ≡ covered_pair format block.now earlier.now }
{
    if !is_trusted(block, format) {
        return false;
    }
    if !is_trusted(earlier, format) {
        return false;
    }
    let fields = fields_of(block, format);
    let earlier_fields = fields_of(earlier, format);
    if fields.mode != earlier_fields.mode {
        return false;
    }
    fields.partition == earlier_fields.partition
}

// Records n and `earlier` are not refused, both have one format, and the theorem covers their blocks.
pub fn is_covered(store: &[u8], n: usize, earlier: usize) -> bool
    ensures { result ≡ covered store.now n earlier }
{
    let Ok(found) = record_at(store, n) else {
        return false;
    };
    let Ok(kept) = record_at(store, earlier) else {
        return false;
    };
    if found.format != kept.format {
        return false;
    }
    is_covered_pair(
        found.format,
        record_block(store, n),
        record_block(store, earlier),
    )
}

// They are covered by demand 3 alone: both unsigned, in a mode of one region.
pub fn is_by_demand_3(store: &[u8], n: usize, earlier: usize) -> bool
    ensures { result ≡ by_demand_3 store.now n earlier }
{
    if !is_covered(store, n, earlier) {
        return false;
    }
    let Ok(found) = record_at(store, n) else {
        return false;
    };
    if found.format != 0 {
        return false;
    }
    let fields = fields_of(record_block(store, n), 0);
    11 <= fields.mode
}
