// The candidates of a promotion.
//
// Ported from cachanova/schemweave, commit c4a1a2c60a, crates/schemweave/src/boundary_bundles.rs
// (Apache-2.0, see NOTICE): common_horizontal_collector_xs, common_horizontal_collector_x and
// promotion_collector_candidates.

#![tactic(auto)]

ghost use Rattle.std.specs.Prelude.{◌+◌, ◌*◌, ◌≤◌, ◌<◌, length, take};
ghost use Rattle.search.specs.Stretches.{runs_in};
ghost use Rattle.search.specs.Lent.{sought_lent};
ghost use Rattle.search.specs.Promotion.{with_adjacent, promotion_xs, Promotes};

use search::{Bounds, Promoted, SearchSpent, Sought, TapVisits};

// ---- promotion_collector_candidates

// A second search one pitch beside the desired x, behind the first n numbers of xs, which are the
// first one's list. What the rest of xs and scratch hold afterwards is left open.
fn add_adjacent<'a>(
    sought: Sought<'a>,
    n: usize,
    left: TapVisits,
    xs: &mut [f64],
    scratch: &mut [f64],
) -> Promoted
    requires room { n + runs_in (sought_lent sought) < length xs.old }
    requires scratch_room { length xs.old + 2 * runs_in (sought_lent sought) ≤ length scratch.old }
    ensures { Promotes result xs.new (length xs.old) (with_adjacent sought.entry.role sought.entry.pitch sought.entry.bounds (sought_lent sought.entry) (take n xs.old) left.0) }
{
    let lane = search_runs::adjacent_lane(sought.role, sought.pitch, sought.bounds.desired);
    if !search_runs::is_between(sought.bounds, lane) {
        return Ok((n, left));
    }
    let second = Sought {
        bounds: Bounds {
            desired: lane,
            ..sought.bounds
        },
        ..sought
    };
    let listed = collector_xs::common_horizontal_collector_xs(second, left, &mut xs[n..], scratch);
    let Ok((m, rest)) = listed else {
        return Err(SearchSpent::Second(n));
    };
    let both = n + m;
    let k = search_lists::put_in_order(sought.role, &mut xs[..both], scratch);
    Ok((k, rest))
}

// The candidates of both searches, at the front of xs. What the rest of xs and scratch hold
// afterwards is left open.
pub fn promotion_candidates<'a>(
    sought: Sought<'a>,
    granted: TapVisits,
    xs: &mut [f64],
    scratch: &mut [f64],
) -> Promoted
    requires room { 2 * runs_in (sought_lent sought) + 1 < length xs.old }
    requires scratch_room { length xs.old + 2 * runs_in (sought_lent sought) ≤ length scratch.old }
    ensures { Promotes result xs.new (length xs.old) (promotion_xs sought.entry.role sought.entry.pitch sought.entry.bounds (sought_lent sought.entry) granted.0) }
{
    let (n, left) = collector_xs::common_horizontal_collector_xs(sought, granted, xs, scratch)?;
    add_adjacent(sought, n, left, xs, scratch)
}
