// The format of a plan file: what stands where in the file of a network, and what the bytes of a file say (specs/).
// `bytes` has numbers in bytes, `layout` how many blocks there are, what each says of itself, and its check. It uses
// `plan`. Internal: most of its functions have `requires`.
#![tactic(auto)]

pub mod bytes;
pub mod layout;

ghost use Rattle.std.specs.Prelude.{◌≡◌};
ghost use Rattle.format.specs.Format.{first_edition, block_size, kind_at, number_at, first_at, second_at, payload_at, check_at, check_modulus, supply_size};

// What a later edition of the file changes.
#[derive(Clone, Copy)]
pub struct Edition {}

impl Edition {
    pub const HEAD_KIND: u8 = 1;

    pub const ARC_KIND: u8 = 2;

    pub const RECORD_SIZE: usize = 6;

    pub const BLOCK_ARCS: usize = 84;

    pub const LONGEST: usize = 4_096;
}

// How a block begins and how far its content goes: kind, number, the two counts, and the byte at which
// the content ends.
#[derive(Clone, Copy)]
pub struct Block {
    pub kind: u8,
    pub number: usize,
    pub first: usize,
    pub second: usize,
    pub end: usize,
}

impl Block {
    pub const SIZE: usize = 512;

    pub const KIND_AT: usize = 0;

    pub const NUMBER_AT: usize = 1;

    pub const FIRST_AT: usize = 2;

    pub const SECOND_AT: usize = 4;

    pub const PAYLOAD_AT: usize = 6;

    pub const CHECK_AT: usize = 510;

    pub const CHECK_MODULUS: usize = 65_521;

    pub const SUPPLY_SIZE: usize = 4;
}

// It does nothing: its contract says that the code's numbers are those of the definitions.
pub fn numbers_agree()
    ensures head_kind { Edition.HEAD_KIND ≡ first_edition.head_kind }
    ensures arc_kind { Edition.ARC_KIND ≡ first_edition.arc_kind }
    ensures record_size { Edition.RECORD_SIZE ≡ first_edition.record_size }
    ensures block_arcs { Edition.BLOCK_ARCS ≡ first_edition.block_arcs }
    ensures longest { Edition.LONGEST ≡ first_edition.longest }
    ensures size { Block.SIZE ≡ block_size }
    ensures kind_at { Block.KIND_AT ≡ kind_at }
    ensures number_at { Block.NUMBER_AT ≡ number_at }
    ensures first_at { Block.FIRST_AT ≡ first_at }
    ensures second_at { Block.SECOND_AT ≡ second_at }
    ensures payload_at { Block.PAYLOAD_AT ≡ payload_at }
    ensures check_at { Block.CHECK_AT ≡ check_at }
    ensures check_modulus { Block.CHECK_MODULUS ≡ check_modulus }
    ensures supply_size { Block.SUPPLY_SIZE ≡ supply_size }
{}
