//! Ranks are planned onto 64 processors.
ghost use Rattle.std.specs.Prelude.{◌≡◌, true, All, Contains, IfOk};
ghost use Rattle.balancers.specs.Loads.{AreByRank, AreLoads};
ghost use Rattle.balancers.specs.Turns.{Ascend};

use crate::failed::Failed;
use am_base::{ProcId, RankId};
use balancers::{Load, greedy, refine, rotate};
use std::alloc::{AllocError, Global};

/// By which rule the ranks get their places.
#[derive(Clone, Copy)]
pub enum Rule {
    Rotate,
    Greedy,
    Refine,
}

impl Rule {
    pub(crate) fn of(kind: &str) -> Option<Rule> {
        match kind {
            "rotate" => Some(Rule::Rotate),
            "greedy" => Some(Rule::Greedy),
            "refine" => Some(Rule::Refine),
            _ => None,
        }
    }
}

/// How many places are planned in so many turns for so many ranks, of which there are fewer than 65,536.
pub(crate) fn places_planned(
    alloc: Global,
    rule: Rule,
    ranks: u32,
    turns: u32,
) -> Result<u64, Failed> {
    let Ok(ranks) = u16::try_from(ranks) else {
        return Err(Failed::Words);
    };
    let loads = loads_of(alloc, ranks)?;
    let live = processors(alloc)?;
    if !are_live(&loads, &live) {
        return Err(Failed::Refused);
    }
    let mut count = 0u64;
    for _turn in 0..turns {
        count = count.saturating_add(planned(alloc, rule, &loads, &live)?);
    }
    Ok(count)
}

fn planned(alloc: Global, rule: Rule, loads: &[Load], live: &[ProcId]) -> Result<u64, AllocError>
    requires { AreLoads loads.now live.now }
{
    let plan = match rule {
        Rule::Rotate => rotate(alloc, loads, live)?,
        Rule::Greedy => greedy(alloc, loads, live)?,
        Rule::Refine => refine(alloc, loads, live)?,
    };
    Ok(plan.as_slice().len() as u64)
}

/// Loads of up to 10,006 ticks, of which each processor has the next one in turn.
fn loads_of(alloc: Global, ranks: u16) -> Result<Vec<Load>, AllocError>
    ensures { IfOk result (λ v. AreByRank v.items) }
{
    let mut loads = Vec::new(alloc);
    for rank in 0..ranks {
        loads.push(Load {
            rank: RankId(rank),
            place: ProcId((rank % 64) as u8),
            ticks: u64::from(rank) * 7919 % 10_007,
        })?;
    }
    Ok(loads)
}

fn processors(alloc: Global) -> Result<Vec<ProcId>, AllocError> {
    (0u8..64).map(|number| ProcId(number)).collect(alloc)
}

/// Whether the processors ascend, there is one, and each place is one of them.
fn are_live(loads: &[Load], live: &[ProcId]) -> bool
    requires { AreByRank loads.now }
    ensures { result ≡ true → AreLoads loads.now live.now }
{
    ascend(live) && are_placed(loads, live) && !live.is_empty()
}

fn ascend(live: &[ProcId]) -> bool
    ensures { result ≡ true → Ascend live.now }
{
    for (i, p) in live.iter().enumerate() {
        for q in &live[..i] {
            if p.0 <= q.0 {
                return false;
            }
        }
    }
    true
}

fn are_placed(loads: &[Load], live: &[ProcId]) -> bool
    ensures { result ≡ true → All (λ l. Contains live.now l.place) loads.now }
{
    for load in loads {
        if !live.contains(&load.place) {
            return false;
        }
    }
    true
}
