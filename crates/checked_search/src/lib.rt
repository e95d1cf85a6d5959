// The search and promotion_collector_candidates with what they refuse, on numbers as they are: minus
// zero is not accepted here. The public entries (search_entry) take it as plus zero before.
//
// Ported from cachanova/schemweave, commit c4a1a2c60a, crates/schemweave/src/boundary_bundles.rs
// (Apache-2.0, see NOTICE); the refusals are added.

#![tactic(auto)]

ghost use Rattle.std.specs.Prelude.{◌≡◌};
ghost use Rattle.search_calls.specs.Entry.{collector_bounds_fit, Replied, Untouched};
ghost use Rattle.search_calls.specs.Lent.{search_call, search_call_says, promotion_call, promotion_call_says};

use limits::{ENTRY_WORK, LARGEST_LIST, MOST_KEPT, PROMOTION_SCRATCH, SEARCH_SCRATCH};
use search::{Bounds, Sought, TapVisits};
use search_calls::{Call, Mark, SearchAnswer};

// xs, candidates and scratch are the entries' parameters for C, handed on once: a struct of them would be
// made there and taken apart here.

// The stretches are kept, and the candidates sorted, in an array of its own, for which scratch would
// be too short. Both entries stay: they differ in two sizes, and in that the second's bounds may be absent.
pub fn search_checked<'a>(
    call: Call<'a>,
    bounds: Bounds,
    xs: &mut [f64],
    candidates: &mut [f64],
    scratch: &mut [f64],
) -> SearchAnswer
    ensures replied { Replied (search_call xs.old candidates.old scratch.old call.entry bounds) (search_call_says (search_call xs.old candidates.old scratch.old call.entry bounds) call.entry bounds) result xs.old xs.new }
    ensures untouched { Untouched (search_call xs.old candidates.old scratch.old call.entry bounds) candidates.old candidates.new scratch.old scratch.new }
{
    let room = (LARGEST_LIST <= xs.len())
        & (SEARCH_SCRATCH <= candidates.len())
        & (SEARCH_SCRATCH <= scratch.len());
    let fit = search_refusals::is_bounds(bounds);
    let (routes, role) = match search_refusals::accepted(room, call, fit) {
        Ok(accepted) => accepted,
        Err(refusal) => return search_replies::refuse(u8::from(refusal), call.granted),
    };
    let sought = Sought {
        routes,
        role,
        pitch: call.pitch,
        bounds,
    };
    let mut work = [0.0; ENTRY_WORK];
    let g = collector_xs::common_horizontal_collector_xs(
        sought,
        TapVisits(call.granted),
        &mut candidates[..LARGEST_LIST],
        &mut work[..],
    );
    search_replies::search_reply(g, candidates, xs)
}

// Bounds that are absent are not looked at.
fn is_collector_bounds(bounds: Option<Bounds>) -> bool
    ensures { result ≡ collector_bounds_fit bounds }
{
    bounds.is_none_or(|b| search_refusals::is_bounds(b))
}

pub fn promotion_checked<'a>(
    call: Call<'a>,
    bounds: Option<Bounds>,
    xs: &mut [f64],
    candidates: &mut [f64],
    scratch: &mut [f64],
) -> SearchAnswer
    ensures replied { Replied (promotion_call xs.old candidates.old scratch.old call.entry bounds) (promotion_call_says (promotion_call xs.old candidates.old scratch.old call.entry bounds) call.entry bounds) result xs.old xs.new }
    ensures untouched { Untouched (promotion_call xs.old candidates.old scratch.old call.entry bounds) candidates.old candidates.new scratch.old scratch.new }
{
    let room = (MOST_KEPT <= xs.len())
        & (PROMOTION_SCRATCH <= candidates.len())
        & (PROMOTION_SCRATCH <= scratch.len());
    let fit = is_collector_bounds(bounds);
    let (routes, role) = match search_refusals::accepted(room, call, fit) {
        Ok(accepted) => accepted,
        Err(refusal) => return search_replies::refuse(u8::from(refusal), call.granted),
    };
    let Some(b) = bounds else {
        return search_replies::reply(u8::from(Mark::Absent), call.granted, 0, candidates, xs);
    };
    let sought = Sought {
        routes,
        role,
        pitch: call.pitch,
        bounds: b,
    };
    let mut work = [0.0; ENTRY_WORK];
    let p = promotion::promotion_candidates(
        sought,
        TapVisits(call.granted),
        &mut candidates[..PROMOTION_SCRATCH],
        &mut work[..],
    );
    search_replies::promotion_reply(p, candidates, xs)
}
