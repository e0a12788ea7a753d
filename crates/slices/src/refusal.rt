// The refusals of document 01, "Refusal numbers": what a file, slices or a number are refused with.
ghost use Rattle.std.specs.Prelude.{◌≡◌};
ghost use Rattle.slices.specs.Refusals.{number_of, block_of};

use std::fmt;

// What is refused, each with its number in document 01 beside it. Blocks are counted from 1.
#[derive(Clone, Copy, Debug, PartialEq, Eq, Drop)]
pub enum Refusal {
    // 1: a file "ends where a byte is still needed".
    Ended,
    // 2: "a number is longer than its shortest form, or a fifth byte has its high bit set".
    TooLong,
    // 3: "a count or the block total is out of range".
    Counts,
    // 4: "δ, flag, step or tolerance is out of range", and the weights.
    Terms,
    // 5: "a width is out of range".
    Widths,
    // 6: "a slot is out of range".
    Slots { block: usize },
    // 7: "a lent slice is too short".
    Short,
    // 8: "bytes follow the last block".
    Excess,
    // 9: "an active block's top lies above the base of the block directly above it".
    Overlap { block: usize },
    // 10: "a conductance of either fluid exceeds 268,435,456".
    Conductance { block: usize },
    // 11: marks other than 0 and 1.
    Marks,
    // 12: "a double is no number, infinite, or its tick outside ±4,194,304".
    Double,
    // 13: "a table is asked for with a dry well".
    DryWell { block: usize },
    // 14: a report of a block that is not there, or not active.
    NoBlock { number: usize },
}

impl Refusal {
    // Its number in document 01.
    pub fn number(self) -> u64
        ensures { result ≡ number_of self }
    {
        match self {
            Refusal::Ended => 1,
            Refusal::TooLong => 2,
            Refusal::Counts => 3,
            Refusal::Terms => 4,
            Refusal::Widths => 5,
            Refusal::Slots { block: _ } => 6,
            Refusal::Short => 7,
            Refusal::Excess => 8,
            Refusal::Overlap { block: _ } => 9,
            Refusal::Conductance { block: _ } => 10,
            Refusal::Marks => 11,
            Refusal::Double => 12,
            Refusal::DryWell { block: _ } => 13,
            Refusal::NoBlock { number: _ } => 14,
        }
    }

    // The block that it names; 0 where it names none.
    pub fn block(self) -> usize
        ensures { result ≡ block_of self }
    {
        match self {
            Refusal::Slots { block } => block,
            Refusal::Overlap { block } => block,
            Refusal::Conductance { block } => block,
            Refusal::DryWell { block } => block,
            Refusal::NoBlock { number } => number,
            _ => 0,
        }
    }
}

// "a refusal prints `refused`, number, block".
impl fmt::Display for Refusal {
    fn fmt<W: fmt::Write>(&self, f: &mut fmt::Formatter<W>) -> fmt::Result {
        let number = self.number();
        let block = self.block();
        write!(f, "refused {number} {block}")
    }
}
