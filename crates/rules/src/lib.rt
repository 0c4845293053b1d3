// The rules of document 01, written down: `specs/` are the definitions that every promise cites, in the document's order, and this file
// declares the sizes, counts and enums that code and definitions share.
#![tactic(auto)]

ghost use Rattle.std.specs.Prelude.{◌≡◌, ok_or};
ghost use Rattle.rules.specs.Records.{mark_of};
ghost use Rattle.rules.specs.declared.Refusal.TheVariants.{WrongMark};

// The sizes that the code is built with; specs/Sizes.antt names the same numbers for the definitions.
pub const WIDEST: u32 = 1_000_000;

pub const MOST_CELLS: usize = 256;

// A place before each cell, and one after the last.
pub const ENDS: usize = 257;

pub const MOST_NETS: usize = 512;

pub const HEAVIEST: u32 = 1_000;

pub const MOST_PINS: usize = 2_048;

pub const MOST_CHANGES: usize = 1_024;

pub const MOST_CARRIED: u32 = 10_240;

pub const HEAD_SIZE: usize = 11;

pub const PART_SIZE: usize = 6;

pub const BENCH_SIZE: usize = 1_547;

// Rows of up to so many cells and nets are worked on in short lists, which take less time to clear.
pub const FEW_CELLS: usize = 64;

pub const FEW_ENDS: usize = FEW_CELLS + 1;

pub const FEW_NETS: usize = 128;

pub const FEW_CHANGES: usize = 2 * FEW_NETS;

// Four counts that never stand in for one another.
#[derive(Clone, Copy)]
pub struct Site(pub u32);

#[derive(Clone, Copy, Default)]
pub struct Weight(pub u32);

#[derive(Clone, Copy)]
pub struct Steps(pub u32);

#[derive(Clone, Copy)]
pub struct Carried(pub u32);

// A slope change: where the slope changes, and by how much, minus or plus a net's weight.
#[derive(Clone, Copy, Default)]
pub struct Change {
    pub at: i32,
    pub slope: i64,
}

// The ten refusals by their numbers, which are `number` in specs/Refusals.antt.
#[derive(Clone, Copy)]
pub enum Refusal {
    Cut = 1,
    WrongMark = 2,
    Tail = 3,
    Range = 4,
    Lonely = 5,
    Full = 6,
    Room = 7,
    WrongBench = 8,
    Unfinished = 9,
    Overlap = 10,
}

// A refusal and its place.
#[derive(Clone, Copy)]
pub struct Refused {
    pub refusal: Refusal,
    pub place: u32,
}

// What the two bytes that open a record say.
#[derive(Clone, Copy)]
pub enum Mark {
    RowMark,
    CellMark,
    NetMark,
    FixedMark,
    PinMark,
    EndMark,
}

// The two letters of a mark, the first of them low. Letters that are no mark are refused (2).
impl TryFrom<u16> for Mark {
    type Error = Refusal;

    fn try_from(m: u16) -> Result<Self, Refusal>
        ensures { result ≡ ok_or (mark_of m) WrongMark }
    {
        match m {
            0x5752 => Ok(Mark::RowMark),
            0x4543 => Ok(Mark::CellMark),
            0x544e => Ok(Mark::NetMark),
            0x5046 => Ok(Mark::FixedMark),
            0x504d => Ok(Mark::PinMark),
            0x4e45 => Ok(Mark::EndMark),
            _ => Err(Refusal::WrongMark),
        }
    }
}

// A record with its numbers.
#[derive(Clone, Copy)]
pub enum Record {
    Rw(u32, u16, u16),
    Ce(u32),
    Nt(u32),
    Fp(i32),
    Mp(u16, u32),
    En,
}
