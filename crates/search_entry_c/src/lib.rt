// The entries of the search for C, as a static library exports them. Each is the function of crate
// search_entry that has its name, with the same clauses, and only calls it.

#![tactic(auto)]

ghost use Rattle.binary64.specs.Accepted.{plus_zero};
ghost use Rattle.search_calls.specs.Entry.{plus_zeros, bounds, collector_bounds, search_number, search_says, promotion_number, promotion_says, Replied, Untouched};

use search_calls::SearchAnswer;

// The search: `search_entry::search`.
#[unsafe(no_mangle)]
pub extern "C" fn search(
    points: &[f64],
    starts: &[usize],
    counts: &[usize],
    role: u8,
    pitch: f64,
    minimum: f64,
    desired: f64,
    maximum: f64,
    granted: u32,
    xs: &mut [f64],
    candidates: &mut [f64],
    scratch: &mut [f64],
) -> SearchAnswer
    ensures replied { Replied (search_number xs.old candidates.old scratch.old (plus_zeros points.now) starts.now counts.now role (plus_zero pitch) (bounds (plus_zero minimum) (plus_zero desired) (plus_zero maximum)) granted) (search_says (search_number xs.old candidates.old scratch.old (plus_zeros points.now) starts.now counts.now role (plus_zero pitch) (bounds (plus_zero minimum) (plus_zero desired) (plus_zero maximum)) granted) (plus_zeros points.now) starts.now counts.now role (plus_zero pitch) (bounds (plus_zero minimum) (plus_zero desired) (plus_zero maximum)) granted) result xs.old xs.new }
    ensures untouched { Untouched (search_number xs.old candidates.old scratch.old (plus_zeros points.now) starts.now counts.now role (plus_zero pitch) (bounds (plus_zero minimum) (plus_zero desired) (plus_zero maximum)) granted) candidates.old candidates.new scratch.old scratch.new }
{
    search_entry::search(
        points, starts, counts, role, pitch, minimum, desired, maximum, granted, xs, candidates,
        scratch,
    )
}

// The candidates of a promotion: `search_entry::promotion_collector_candidates`.
#[unsafe(no_mangle)]
pub extern "C" fn promotion_collector_candidates(
    points: &[f64],
    starts: &[usize],
    counts: &[usize],
    role: u8,
    pitch: f64,
    present: bool,
    minimum: f64,
    desired: f64,
    maximum: f64,
    granted: u32,
    xs: &mut [f64],
    candidates: &mut [f64],
    scratch: &mut [f64],
) -> SearchAnswer
    ensures replied { Replied (promotion_number xs.old candidates.old scratch.old (plus_zeros points.now) starts.now counts.now role (plus_zero pitch) (collector_bounds present (plus_zero minimum) (plus_zero desired) (plus_zero maximum)) granted) (promotion_says (promotion_number xs.old candidates.old scratch.old (plus_zeros points.now) starts.now counts.now role (plus_zero pitch) (collector_bounds present (plus_zero minimum) (plus_zero desired) (plus_zero maximum)) granted) (plus_zeros points.now) starts.now counts.now role (plus_zero pitch) (collector_bounds present (plus_zero minimum) (plus_zero desired) (plus_zero maximum)) granted) result xs.old xs.new }
    ensures untouched { Untouched (promotion_number xs.old candidates.old scratch.old (plus_zeros points.now) starts.now counts.now role (plus_zero pitch) (collector_bounds present (plus_zero minimum) (plus_zero desired) (plus_zero maximum)) granted) candidates.old candidates.new scratch.old scratch.new }
{
    search_entry::promotion_collector_candidates(
        points, starts, counts, role, pitch, present, minimum, desired, maximum, granted, xs,
        candidates, scratch,
    )
}
