// Lists of candidates: gathered, tried, put in order.
//
// Ported from cachanova/schemweave, commit c4a1a2c60a, crates/schemweave/src/boundary_bundles.rs
// (Apache-2.0, see NOTICE): common_horizontal_collector_xs, common_horizontal_collector_x and
// promotion_collector_candidates.

#![tactic(auto)]

ghost use Rattle.std.specs.Prelude.{[], ◌*◌, ◌≤◌, ◌<◌, ◌≡◌, ◌+◌, length, MatchResult};
ghost use Rattle.search.specs.Stretches.{all_runs, runs_in};
ghost use Rattle.search.specs.Lent.{sought_lent};
ghost use Rattle.search.specs.Search.{gathered, tried, Lists, InOrder};
ghost use Rattle.search.specs.Kept.{members_from, Keeps};

use geometry::Role;
use search::{Listed, Sought, TapVisits, TapVisitsSpent};

// One visit is paid before each look, if one is left. looks::charge pays one of the other purse: the purses are
// two types, so that neither pays for the other.
fn charge(left: &mut TapVisits) -> Result<(), TapVisitsSpent>
    ensures { MatchResult result (λ _. left.old.0 ≡ left.new.0 + 1) (λ _. left.old.0 ≡ 0) }
{
    if left.0 == 0 {
        return Err(TapVisitsSpent);
    }
    left.0 -= 1;
    Ok(())
}

// The first pass: the desired x and a candidate of each run that has one, one visit paid before
// each run. Each run's stretch, or that it has none, is kept as a pair at the front of kept.
pub fn gather<'a>(
    sought: Sought<'a>,
    granted: TapVisits,
    xs: &mut [f64],
    kept: &mut [f64],
) -> Listed
    requires room { runs_in (sought_lent sought) < length xs.old }
    requires pair_room { 2 * runs_in (sought_lent sought) ≤ length kept.old }
    ensures found { Lists result xs.new (length xs.old) (gathered sought.entry.role sought.entry.bounds (sought_lent sought.entry) granted.0) }
    ensures keeps { Keeps result kept.new (all_runs (sought_lent sought.entry)) }
{
    xs[0] = sought.bounds.desired;
    let mut n = 1;
    let mut k = 0;
    let mut left = granted;
    for m in 0..sought.routes.starts.len() {
        let route = search_runs::member_route(sought.routes, m);
        for i in 0..route.count.saturating_sub(1) {
            charge(&mut left)?;
            let s = search_runs::run_stretch(route, i, sought.role, sought.pitch);
            route_views::put_point(kept, k, search_runs::kept_of(s));
            k += 1;
            let c = search_runs::candidate_of(sought.role, sought.bounds, s);
            if let Some(x) = c {
                xs[n] = x;
                n += 1;
            }
        }
    }
    Ok((n, left))
}

// The second pass: each candidate is tried on the members in order, one visit paid before each run
// looked at. A look is at what the first pass kept of the run, a pair for each run in the members'
// order; a member that holds the candidate has its later pairs passed over. The candidates that are
// common are put at the front of xs. The outermost loop is left where a visit is due and 0 are left.
pub fn try_candidates(kept: &[f64], counts: &[usize], granted: TapVisits, xs: &mut [f64]) -> Listed
    requires { 2 * runs_in (members_from kept.now 0 counts.now) ≤ length kept.now }
    ensures { Lists result xs.new (length xs.old) (tried (members_from kept.now 0 counts.now) xs.old [] granted.0) }
{
    let mut left = granted;
    let mut n = 0;
    let mut i = 0;
    // No `for` and no `?`: document 01 has the loop left by its label, and a `for` that ends comes there too.
    'candidates: loop {
        if i == xs.len() {
            return Ok((n, left));
        }
        let x = xs[i];
        i += 1;
        let mut at = 0;
        'members: for &count in counts {
            if count == 0 {
                continue 'candidates;
            }
            let end = at + (count - 1);
            // By place: the pairs kept of a member lie in scratch as numbers.
            for j in at..end {
                let Ok(()) = charge(&mut left) else {
                    break 'candidates;
                };
                if search_runs::kept_holds(kept, j, x) {
                    at = end;
                    continue 'members;
                }
            }
            continue 'candidates;
        }
        xs[n] = x;
        n += 1;
    }
    Err(TapVisitsSpent)
}

// The numbers in the order in which they are tried, equal bits kept once, at the front of xs; the
// answer is how many there are.
pub fn put_in_order(role: Role, xs: &mut [f64], scratch: &mut [f64]) -> usize
    requires { length xs.old ≤ length scratch.old }
    ensures { InOrder role xs.old xs.new result }
{
    let falling = search_runs::is_falling(role);
    sorting::sort(falling, xs, scratch);
    sorting::dedup(falling, xs)
}
