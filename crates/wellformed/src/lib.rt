// A case in slices, judged in full: refusals 9 and 10 join those of `slices`, and a case that is not refused is well formed (document 01,
// "Refusal numbers").
#![tactic(auto)]

pub mod limits;
pub mod links;
pub mod spot;
pub mod widths;

ghost use Rattle.std.specs.Prelude.{◌≡◌, IfOk};
ghost use Rattle.slices.specs.Cases.{case_in};
ghost use Rattle.slices.specs.Refusals.{refusal_in};
ghost use Rattle.slices.specs.Slices.{first_refusal};
ghost use Rattle.wellformed.specs.Inner.{WellFormed};
ghost use Rattle.wellformed.specs.Limits.{limits_of, checked_of, checked_lent};

use limits::first_at_fault;
use slices::refusal::Refusal;
use slices::{Case, JudgedCase};

// A case that is refused nothing.
#[derive(Clone, Copy)]
pub struct WellFormedCase<'a> {
    pub case: Case<'a>,
    pub ghost well_formed: { WellFormed (case_in case) },
}

// 9, then 10.
#[tactic(auto, using(slices::proofs::SlicesLaws::blames_found, slices::proofs::SlicesLaws::blames_nobody), unfolding(crate::specs::Limits::limits_of, slices::specs::Slices::first_refusal))]
pub fn judge_limits<'a>(judged: JudgedCase<'a>) -> Result<WellFormedCase<'a>, Refusal>
    ensures refusal { refusal_in result ≡ first_refusal (limits_of (case_in judged.entry.case)) }
    ensures same { IfOk result (λ w. w.case ≡ judged.entry.case) }
{
    if let Some(block) = first_at_fault(judged, 9) {
        return Err(Refusal::Overlap { block });
    }
    if let Some(block) = first_at_fault(judged, 10) {
        return Err(Refusal::Conductance { block });
    }
    Ok(WellFormedCase { case: judged.case })
}

// What a case in slices is refused with where more is lent than the case itself, marks or room for an answer: `reaches` says whether all of that is
// long enough, and where it is not, 7 comes in 7's place. Any numbers, and slices of any length, are judged.
#[tactic(auto, using(crate::proofs::LimitsLaws::ranges_refuse, crate::proofs::LimitsLaws::limits_decide, slices::proofs::SlicesLaws::refused_some))]
#[inline(always)]
pub fn check_lent<'a>(case: Case<'a>, reaches: bool) -> Result<WellFormedCase<'a>, Refusal>
    ensures refusal { refusal_in result ≡ checked_lent (case_in case.entry) reaches }
    ensures same { IfOk result (λ w. w.case ≡ case.entry) }
{
    judge_limits(case.judge_ranges(reaches)?)
}

// The first of 3, 7, 4, 5, 6, 9 and 10 that a case in slices is refused with, and the block that it names, counted from 1. Any numbers, and slices of
// any length, are judged.
#[tactic(auto, using(crate::proofs::LimitsLaws::lent_reaches))]
pub fn check_slices<'a>(case: Case<'a>) -> Result<WellFormedCase<'a>, Refusal>
    ensures refusal { refusal_in result ≡ checked_of (case_in case.entry) }
    ensures same { IfOk result (λ w. w.case ≡ case.entry) }
{
    check_lent(case, true)
}
