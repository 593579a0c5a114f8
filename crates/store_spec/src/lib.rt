// The plain types and numbers that the definitions of twins and the code share.
#![tactic(auto)]

ghost use Rattle.std.specs.Prelude.{◌≡◌};
ghost use Rattle.store_spec.specs.Twins.{marks, refusal};

use bc6h_spec::Picture;
use store_records::Record;

// What a record is marked with.
#[derive(Clone, Copy)]
pub struct Mark {
    pub number: u8,
}

impl Mark {
    pub const KEPT: u8 = 0;

    pub const TWIN: u8 = 1;

    pub const BAD: u8 = 2;

    // The constants are the numbers of specs/.
    pub fn all() -> [u8; 3]
        ensures { result ≡ marks }
    {
        [Mark::KEPT, Mark::TWIN, Mark::BAD]
    }
}

// Done, with how many records are kept, are twins and are refused; or a refusal's number.
#[derive(Clone, Copy)]
pub struct TwinList {
    pub answer: u8,
    pub kept: usize,
    pub twins: usize,
    pub bad: usize,
}

impl TwinList {
    // The most records of a store.
    pub const RECORDS: usize = Record::STORE / Record::SIZE;

    // How many values of scratch space a record takes, its fingerprint and its picture; and a whole store.
    pub const ENTRY: usize = 1 + Picture::VALUES;

    pub const SCRATCH: usize = TwinList::RECORDS * TwinList::ENTRY;

    // The kind of a record that holds no picture; that of another is its format.
    pub const NO_PICTURE: u64 = 2;

    pub fn refused(answer: u8) -> TwinList
        ensures { result ≡ refusal answer }
    {
        TwinList {
            answer,
            kept: 0,
            twins: 0,
            bad: 0,
        }
    }
}
