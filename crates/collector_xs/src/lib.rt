// The search for a collector.
//
// Ported from cachanova/schemweave, commit c4a1a2c60a, crates/schemweave/src/boundary_bundles.rs
// (Apache-2.0, see NOTICE): common_horizontal_collector_xs, common_horizontal_collector_x and
// promotion_collector_candidates.

#![tactic(auto)]

ghost use Rattle.std.specs.Prelude.{◌≡◌, ◌+◌, ◌*◌, ◌≤◌, ◌<◌, length};
ghost use Rattle.search.specs.Stretches.{runs_in};
ghost use Rattle.search.specs.Lent.{sought_lent};
ghost use Rattle.search.specs.Search.{common_xs, search_of, Lists};

use search::{Listed, Outcome, Searched, Sought, TapVisits};

// How many numbers the search keeps is a fact of the routes, what is sought and both slices: it is asked.

// All common candidates in the order in which they are tried, at the front of xs. The runs' stretches
// are kept at the front of scratch, and its end, as long as xs, is for sorting. What the rest of xs and
// scratch hold afterwards is left open.
pub fn common_horizontal_collector_xs<'a>(
    sought: Sought<'a>,
    granted: TapVisits,
    xs: &mut [f64],
    scratch: &mut [f64],
) -> Listed
    requires room { runs_in (sought_lent sought) < length xs.old }
    requires scratch_room { length xs.old + 2 * runs_in (sought_lent sought) ≤ length scratch.old }
    ensures { Lists result xs.new (length xs.old) (common_xs sought.entry.role sought.entry.bounds (sought_lent sought.entry) granted.0) }
{
    let keep = scratch.len() - xs.len();
    let (n, left) = search_lists::gather(sought, granted, xs, scratch)?;
    let k = search_lists::put_in_order(sought.role, &mut xs[..n], &mut scratch[keep..]);
    search_lists::try_candidates(&scratch[..], sought.routes.counts, left, &mut xs[..k])
}

// The first of them.
pub fn common_horizontal_collector_x<'a>(
    sought: Sought<'a>,
    granted: TapVisits,
    xs: &mut [f64],
    scratch: &mut [f64],
) -> Searched
    requires room { runs_in (sought_lent sought) < length xs.old }
    requires scratch_room { length xs.old + 2 * runs_in (sought_lent sought) ≤ length scratch.old }
    ensures { result ≡ search_of sought.entry.role sought.entry.bounds (sought_lent sought.entry) granted.0 }
{
    let g = common_horizontal_collector_xs(sought, granted, xs, scratch);
    let Ok((n, left)) = g else {
        return Searched {
            outcome: Outcome::Spent,
            left: TapVisits(0),
        };
    };
    let outcome = if n == 0 {
        Outcome::Nothing
    } else {
        Outcome::Found(xs[0])
    };
    Searched { outcome, left }
}
