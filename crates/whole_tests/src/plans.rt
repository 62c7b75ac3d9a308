//! `plans`: a rule, the live processors, a colon, and each rank's place and ticks; the answer is the plan.

ghost use Rattle.std.specs.Prelude.{◌≡◌, true, All, Contains, IfOk};
ghost use Rattle.balancers.specs.Loads.{AreByRank, AreLoads};
ghost use Rattle.balancers.specs.Turns.{Ascend};

use crate::lines::{no_case, number};
use am_base::{ProcId, RankId};
use balancers::{Load, Plan, greedy, refine, rotate};
use std::alloc::{AllocError, Global};

pub(crate) fn answer(alloc: Global, out: &mut String, line: &str) -> Result<(), AllocError> {
    let Some((front, table)) = line.split_once(" : ") else {
        return no_case(out);
    };
    let loads = loads_of(alloc, table)?;
    let live = procs_of(alloc, front)?;
    if !are_live(loads.as_slice(), live.as_slice()) {
        return out.push_str("these are no loads on live processors");
    }
    let rule = front.split(' ').next().unwrap_or("");
    match plan_of(alloc, rule, loads.as_slice(), live.as_slice())? {
        Some(plan) => show_plan(out, &plan),
        None => no_case(out),
    }
}

fn plan_of(
    alloc: Global,
    rule: &str,
    loads: &[Load],
    live: &[ProcId],
) -> Result<Option<Plan>, AllocError>
    requires { AreLoads loads.now live.now }
{
    let plan = match rule {
        "rotate" => rotate(alloc, loads, live)?,
        "greedy" => greedy(alloc, loads, live)?,
        "refine" => refine(alloc, loads, live)?,
        _ => return Ok(None),
    };
    Ok(Some(plan))
}

fn show_plan(out: &mut String, plan: &Plan) -> Result<(), AllocError> {
    out.push_str("plan")?;
    for place in plan.as_slice() {
        write!(out, " {}", place.0)?;
    }
    Ok(())
}

/// Loads by rank, from words as `3/100`: a place and ticks.
fn loads_of(alloc: Global, table: &str) -> Result<Vec<Load>, AllocError>
    ensures { IfOk result (λ v. AreByRank v.items) }
{
    let mut loads = Vec::new(alloc);
    let mut rank = 0u16;
    for word in table.split(' ') {
        if rank == u16::MAX {
            break;
        }
        let Some((place, ticks)) = place_and_ticks(word) else {
            break;
        };
        loads.push(Load {
            rank: RankId(rank),
            place,
            ticks,
        })?;
        rank += 1;
    }
    Ok(loads)
}

fn place_and_ticks(word: &str) -> Option<(ProcId, u64)> {
    let (place, ticks) = word.split_once('/')?;
    let place = u8::try_from(number(place)?).ok()?;
    Some((ProcId(place), number(ticks)?))
}

/// The processors behind the rule.
fn procs_of(alloc: Global, front: &str) -> Result<Vec<ProcId>, AllocError> {
    let mut live = Vec::new(alloc);
    for word in front.split(' ').skip(1) {
        live.push(ProcId(word.parse().unwrap_or(0)))?;
    }
    Ok(live)
}

/// Whether the processors ascend, there is one, and each place is one of them.
fn are_live(loads: &[Load], live: &[ProcId]) -> bool
    requires { AreByRank loads.now }
    ensures { result ≡ true → AreLoads loads.now live.now }
{
    ascend(live) && are_placed(loads, live) && !live.is_empty()
}

fn ascend(live: &[ProcId]) -> bool
    ensures { result ≡ true → Ascend live.now }
{
    for (i, p) in live.iter().enumerate() {
        for q in &live[..i] {
            if p.0 <= q.0 {
                return false;
            }
        }
    }
    true
}

fn are_placed(loads: &[Load], live: &[ProcId]) -> bool
    ensures { result ≡ true → All (λ l. Contains live.now l.place) loads.now }
{
    for load in loads {
        if !live.contains(&load.place) {
            return false;
        }
    }
    true
}
