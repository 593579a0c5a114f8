// What both formats share with the store and the files: the numbers that calls answer, and the size of a block.
#![tactic(auto)]

ghost use Rattle.std.specs.Prelude.{◌≡◌};
ghost use Rattle.bcn_spec.specs.Answers.{answers};
ghost use Rattle.bcn_spec.specs.Bits.{block_size};
ghost use Rattle.bcn_spec.specs.Refusals.{refusal_number, answer_of};

// What a call answers.
#[derive(Clone, Copy)]
pub struct Answer {
    pub number: u8,
}

impl Answer {
    pub const DONE: u8 = 0;

    pub const BAD_FORMAT: u8 = 1;

    pub const BLOCK_NOT_16: u8 = 2;

    pub const SHORT_OUTPUT: u8 = 3;

    pub const RESERVED_MODE: u8 = 4;

    pub const LONG_STORE: u8 = 5;

    pub const UNEVEN_STORE: u8 = 6;

    pub const SPARE_BYTE: u8 = 7;

    pub const NO_RECORD: u8 = 8;

    pub const UNEVEN_BLOCKS: u8 = 9;

    pub const INVALID_FIELDS: u8 = 10;

    pub const BAD_BUFFER: u8 = 11;

    pub const RESERVED_BLOCK: u8 = 12;

    pub const FOREIGN_HEADER: u8 = 13;

    pub const BAD_SIZE: u8 = 14;

    pub const BLOCKS_MISFIT: u8 = 15;

    pub const UNEVEN_SIZE: u8 = 16;

    pub const BAD_PLACE: u8 = 17;

    pub const PLACED_RECORD: u8 = 18;

    pub const BAD_EDGE: u8 = 19;

    pub const UNPLACED_RECORD: u8 = 20;

    pub const PAST_EDGE: u8 = 21;

    pub const TAKEN_PLACE: u8 = 22;

    pub const EMPTY_PLACE: u8 = 23;

    pub const NO_PIXEL: u8 = 24;

    pub const BAD_RECEIPT: u8 = 25;

    // The constants are the numbers of specs/Answers.
    pub fn all() -> [u8; 26]
        ensures { result ≡ answers }
    {
        [
            Answer::DONE,
            Answer::BAD_FORMAT,
            Answer::BLOCK_NOT_16,
            Answer::SHORT_OUTPUT,
            Answer::RESERVED_MODE,
            Answer::LONG_STORE,
            Answer::UNEVEN_STORE,
            Answer::SPARE_BYTE,
            Answer::NO_RECORD,
            Answer::UNEVEN_BLOCKS,
            Answer::INVALID_FIELDS,
            Answer::BAD_BUFFER,
            Answer::RESERVED_BLOCK,
            Answer::FOREIGN_HEADER,
            Answer::BAD_SIZE,
            Answer::BLOCKS_MISFIT,
            Answer::UNEVEN_SIZE,
            Answer::BAD_PLACE,
            Answer::PLACED_RECORD,
            Answer::BAD_EDGE,
            Answer::UNPLACED_RECORD,
            Answer::PAST_EDGE,
            Answer::TAKEN_PLACE,
            Answer::EMPTY_PLACE,
            Answer::NO_PIXEL,
            Answer::BAD_RECEIPT,
        ]
    }
}

// Why a call refuses.
#[derive(Clone, Copy, Debug, PartialEq, Eq)]
pub enum Refusal {
    BadFormat,
    BlockNot16,
    ShortOutput,
    ReservedMode,
    LongStore,
    UnevenStore,
    SpareByte,
    NoRecord,
    UnevenBlocks,
    InvalidFields,
    BadBuffer,
    ReservedBlock,
    ForeignHeader,
    BadSize,
    BlocksMisfit,
    UnevenSize,
    BadPlace,
    PlacedRecord,
    BadEdge,
    UnplacedRecord,
    PastEdge,
    TakenPlace,
    EmptyPlace,
    NoPixel,
    BadReceipt,
}

impl Refusal {
    // The number that C is answered.
    pub fn number(self) -> u8
        ensures { result ≡ refusal_number self }
    {
        match self {
            Refusal::BadFormat => Answer::BAD_FORMAT,
            Refusal::BlockNot16 => Answer::BLOCK_NOT_16,
            Refusal::ShortOutput => Answer::SHORT_OUTPUT,
            Refusal::ReservedMode => Answer::RESERVED_MODE,
            Refusal::LongStore => Answer::LONG_STORE,
            Refusal::UnevenStore => Answer::UNEVEN_STORE,
            Refusal::SpareByte => Answer::SPARE_BYTE,
            Refusal::NoRecord => Answer::NO_RECORD,
            Refusal::UnevenBlocks => Answer::UNEVEN_BLOCKS,
            Refusal::InvalidFields => Answer::INVALID_FIELDS,
            Refusal::BadBuffer => Answer::BAD_BUFFER,
            Refusal::ReservedBlock => Answer::RESERVED_BLOCK,
            Refusal::ForeignHeader => Answer::FOREIGN_HEADER,
            Refusal::BadSize => Answer::BAD_SIZE,
            Refusal::BlocksMisfit => Answer::BLOCKS_MISFIT,
            Refusal::UnevenSize => Answer::UNEVEN_SIZE,
            Refusal::BadPlace => Answer::BAD_PLACE,
            Refusal::PlacedRecord => Answer::PLACED_RECORD,
            Refusal::BadEdge => Answer::BAD_EDGE,
            Refusal::UnplacedRecord => Answer::UNPLACED_RECORD,
            Refusal::PastEdge => Answer::PAST_EDGE,
            Refusal::TakenPlace => Answer::TAKEN_PLACE,
            Refusal::EmptyPlace => Answer::EMPTY_PLACE,
            Refusal::NoPixel => Answer::NO_PIXEL,
            Refusal::BadReceipt => Answer::BAD_RECEIPT,
        }
    }
}

// The number of what a call answers: 0 where it did what was asked.
pub fn answer_number<T: Copy>(told: Result<T, Refusal>) -> u8
    ensures { result ≡ answer_of told }
{
    match told {
        Ok(_) => Answer::DONE,
        Err(refusal) => refusal.number(),
    }
}

// The bytes of a block.
#[derive(Clone, Copy)]
pub struct Block {
    pub bytes: [u8; 16],
}

impl Block {
    pub const SIZE: usize = 16;

    // The constant is the number of specs/Bits.
    pub fn size() -> usize
        ensures { result ≡ block_size }
    {
        Block::SIZE
    }
}
