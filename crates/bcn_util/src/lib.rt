// A block's bits, read from the lowest, and the indexes that end it.
#![tactic(auto)]

ghost use Rattle.std.specs.Prelude.{◌≡◌, [], ◌∷◌, ◌+◌, ◌-◌, ◌*◌, ◌/◌, ◌%◌, ◌^◌, ◌≤◌, ◌<◌, length};
ghost use Rattle.laws.specs.Packed.{opened};
ghost use Rattle.bcn_spec.specs.Bits.{number_of};
ghost use Rattle.bcn_util.specs.Stream.{number, BitsRead};
ghost use Rattle.bcn_util.specs.Indexed.{FixupsFit, indexes_of, index_at};

use raw_bytes::u64_at;

// The bits of a block that are left: two words, moved as one.
#[derive(Clone, Copy)]
pub struct BitStream {
    pub lo: u64,
    pub hi: u64,
}

// Bits that were read, the first the lowest, and the stream shortened by them.
#[derive(Clone, Copy)]
pub struct Consumed {
    pub bits: u64,
    pub rest: BitStream,
}

impl BitStream {
    // The stream of two words, the lower first.
    pub fn of(lo: u64, hi: u64) -> BitStream
        ensures { result ≡ record { lo = lo; hi = hi } }
    {
        BitStream { lo, hi }
    }

    pub fn new(block: &[u8]) -> BitStream
        requires { length block.now ≡ 16 }
        ensures { number result ≡ number_of block.now }
    {
        BitStream {
            lo: u64_at(block, 0),
            hi: u64_at(block, 8),
        }
    }

    // The stream without its lowest bits.
    pub fn skip(self, count: u64) -> BitStream
        requires { count < 128 }
        ensures { number result ≡ number self / 2 ^ count }
    {
        if count == 0 {
            return self;
        }
        let low = self.lo;
        let high = self.hi;
        if count < 64 {
            return BitStream {
                lo: (low >> count) + (high << (64 - count)),
                hi: high >> count,
            };
        }
        BitStream {
            lo: high >> (count - 64),
            hi: 0,
        }
    }

    pub fn consume_bits(self, count: u64) -> Consumed
        requires { count ≤ 63 }
        ensures { BitsRead (number self) count result.bits (number result.rest) }
    {
        let low = self.lo;
        let above = 1u64 << count;
        Consumed {
            bits: low % above,
            rest: self.skip(count),
        }
    }
}

// Sixteen indexes at full width in one word, pixel 0 lowest.
#[derive(Clone, Copy)]
pub struct Indexes {
    pub uncompressed: u64,
    pub bits: u64,
}

impl Indexes {
    // One region: pixel 0 is stored with one bit fewer.
    pub fn new_p1(bits: u64, stream: BitStream) -> Indexes
        requires { (1 ≤ bits) × (bits ≤ 4) }
        ensures { result ≡ indexes_of bits (0 ∷ []) (number stream) }
    {
        Indexes::read(bits, stream, &[0])
    }

    // Two regions: so is the fix-up pixel of region 1.
    pub fn new_p2(bits: u64, stream: BitStream, fixup: u64) -> Indexes
        requires { (1 ≤ bits) × (bits ≤ 4) × (1 ≤ fixup) × (fixup ≤ 15) }
        ensures { result ≡ indexes_of bits (0 ∷ fixup ∷ []) (number stream) }
    {
        Indexes::read(bits, stream, &[0, fixup])
    }

    // Three regions: so are the fix-up pixels of regions 1 and 2, the lower pixel first.
    pub fn new_p3(bits: u64, stream: BitStream, low: u64, high: u64) -> Indexes
        requires { (1 ≤ bits) × (bits ≤ 4) × (1 ≤ low) × (low < high) × (high ≤ 15) }
        ensures { result ≡ indexes_of bits (0 ∷ low ∷ high ∷ []) (number stream) }
    {
        Indexes::read(bits, stream, &[0, low, high])
    }

    // The indexes of which those at the given pixels, in rising order, are stored with one bit fewer.
    fn read(bits: u64, stream: BitStream, fixups: &[u64]) -> Indexes
        requires { (1 ≤ bits) × (bits ≤ 4) × FixupsFit fixups.now }
        ensures { result ≡ indexes_of bits fixups.now (number stream) }
    {
        let mut uncompressed = stream.consume_bits(16 * bits - fixups.len() as u64).bits;
        for pixel in fixups {
            uncompressed = Indexes::decompress_single_index(bits, uncompressed, *pixel);
        }
        Indexes { uncompressed, bits }
    }

    // A zero put in as the top bit of an index. What stands above is moved up by one, that is, added once more.
    fn decompress_single_index(bits: u64, compressed: u64, index: u64) -> u64
        requires { (1 ≤ bits) × (bits ≤ 4) × (index ≤ 15) × (compressed < 2 ^ 63) }
        ensures { result ≡ opened (bits * index + (bits - 1)) compressed }
    {
        let top = bits * index + (bits - 1);
        compressed + ((compressed >> top) << top)
    }

    pub fn get_index(self, pixel: u64) -> u8
        requires { (pixel ≤ 15) × (self.bits ≤ 4) }
        ensures { result ≡ index_at self pixel }
    {
        let bits = self.bits;
        let above = 1u64 << bits;
        ((self.uncompressed >> (bits * pixel)) % above) as u8
    }
}
