// A block's sixteen slots (document 01, "Units and ranges"): the table of their ends, the slots as a struct, and the rules that the table
// does not hold. The reader of a file and the check of slices both use what stands here.
#![tactic(auto)]

pub mod ranges;
pub mod rules;
pub mod units;

ghost use Rattle.std.specs.Prelude.{◌≡◌, ◌+◌, ◌*◌, ◌≤◌, length};
ghost use Rattle.slots.specs.Slots.{slots_at, block_of, is_active};

use units::SLOTS_EACH;

// A block's slots. Units: ticks for base, thickness, screens, level and heads; mm/day for k; per mille for porosity; 10^-6 a day
// for the leakances; µm/day for recharge; litres a day for pumpage, positive where taken out. The level is the stage of a river or
// the floor of a sea.
#[derive(Clone, Copy, Debug, PartialEq, Eq)]
pub struct Block {
    pub k: i64,
    pub base: i64,
    pub thickness: i64,
    pub porosity: i64,
    pub leakance: i64,
    pub recharge: i64,
    pub pumpage: i64,
    pub screen_bottom: i64,
    pub screen_top: i64,
    pub kind: i64,
    pub level: i64,
    pub boundary_leakance: i64,
    pub old_fresh: i64,
    pub old_salt: i64,
    pub new_fresh: i64,
    pub new_salt: i64,
}

// The first sixteen numbers of a part of the slots. Inner: there are so many.
#[tactic(auto, unfolding(crate::specs::Slots::slots_at))]
pub fn slots_at(part: &[i64]) -> Block
    requires { 16 ≤ length part.now }
    ensures { result ≡ slots_at part.now }
{
    Block {
        k: part[0],
        base: part[1],
        thickness: part[2],
        porosity: part[3],
        leakance: part[4],
        recharge: part[5],
        pumpage: part[6],
        screen_bottom: part[7],
        screen_top: part[8],
        kind: part[9],
        level: part[10],
        boundary_leakance: part[11],
        old_fresh: part[12],
        old_salt: part[13],
        new_fresh: part[14],
        new_salt: part[15],
    }
}

// Whether a block of the lent slots, counted from 0, is active: "0 is inactive", of K. Inner: the slots reach so far.
#[tactic(auto, using(crate::proofs::SlotsLaws::first_slot))]
pub fn is_active(slots: &[i64], block: usize) -> bool
    requires { 16 * block + 16 ≤ length slots.now }
    ensures { result ≡ is_active (block_of slots.now block) }
{
    0 < slots[SLOTS_EACH * block]
}

// A block of the lent slots, counted from 0. Inner: the slots reach so far.
pub fn load(slots: &[i64], block: usize) -> Block
    requires { 16 * block + 16 ≤ length slots.now }
    ensures { result ≡ block_of slots.now block }
{
    slots_at(&slots[SLOTS_EACH * block..])
}
