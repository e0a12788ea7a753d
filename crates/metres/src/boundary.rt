// A boundary as the client writes it (document 01, "Metres").
ghost use Rattle.std.specs.Prelude.{◌≡◌};
ghost use Rattle.metres.specs.Boundaries.{boundary_slots_in, boundary_slots_of};

use super::{take_in, take_up_to};
use slices::refusal::Refusal;

// "none, river with stage in metres, sea with floor in metres, or one of the three fixed kinds"
#[derive(Clone, Copy, Debug, PartialEq)]
pub enum Boundary {
    None,
    River { stage: f64 },
    Sea { floor: f64 },
    FixedFresh,
    FixedSalt,
    BothFixed,
}

// What goes into a block's kind slot and its level slot, ticks.
#[derive(Clone, Copy, Debug, PartialEq, Eq)]
pub struct BoundarySlots {
    pub kind: i64,
    pub level: i64,
}

// "It sets the kind and level slots, 0 without a level." The boundary leakance is the client's. A stage or a floor is refused with 12 as any
// double is, a sea floor also where its tick is above 0.
#[tactic(auto, unfolding(crate::specs::Boundaries::boundary_slots_of))]
pub fn take_boundary(boundary: Boundary) -> Result<BoundarySlots, Refusal>
    ensures { boundary_slots_in result ≡ boundary_slots_of boundary }
{
    let (kind, level) = match boundary {
        Boundary::None => (0, 0),
        Boundary::River { stage } => (1, take_in(stage)?),
        Boundary::Sea { floor } => (2, take_up_to(floor, 0)?),
        Boundary::FixedFresh => (3, 0),
        Boundary::FixedSalt => (4, 0),
        Boundary::BothFixed => (5, 0),
    };
    Ok(BoundarySlots { kind, level })
}
