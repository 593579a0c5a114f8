// The plain types and numbers that the definitions of specs/ and the code share.
#![tactic(auto)]

ghost use Rattle.std.specs.Prelude.{◌≡◌};
ghost use Rattle.bc6h_spec.specs.Fields.{no_fields};
ghost use Rattle.bc6h_spec.specs.Half.{highest_pattern};
ghost use Rattle.bc6h_spec.specs.Picture.{value_count};

// The fields of a block, as stored: endpoint e's channel c is endpoints[3 * e + c].
#[derive(Clone, Copy)]
pub struct Fields {
    pub format: u8,
    pub mode: u8,
    pub endpoints: [u16; 12],
    pub partition: u8,
    pub region1: u8,
    pub indices: [u8; 16],
}

impl Fields {
    pub fn none() -> Fields
        ensures { result ≡ no_fields }
    {
        Fields {
            format: 0,
            mode: 0,
            endpoints: [0; 12],
            partition: 0,
            region1: 0,
            indices: [0; 16],
        }
    }
}

// The half-floats that a block shows.
#[derive(Clone, Copy)]
pub struct Picture {
    pub values: [u16; 48],
}

impl Picture {
    // Three for each of sixteen pixels.
    pub const VALUES: usize = 48;

    // The highest pattern of both formats.
    pub const HIGHEST: u16 = 0x7BFF;

    // The constants are the numbers of specs/.
    pub fn count() -> usize
        ensures { result ≡ value_count }
    {
        Picture::VALUES
    }

    pub fn highest() -> u16
        ensures { result ≡ highest_pattern }
    {
        Picture::HIGHEST
    }
}
