// The searches for a collector: the first pass, and searches anew.
//
// Ported from cachanova/schemweave, commit c4a1a2c60a, crates/schemweave/src/boundary_bundles.rs
// (Apache-2.0, see NOTICE).

#![tactic(auto)]

ghost use Rattle.std.specs.Prelude.{◌≡◌, List, length, take};
ghost use Rattle.plan.specs.Depths.{pitch_of};
ghost use Rattle.board.specs.Board.{Board};
ghost use Rattle.geometry.specs.Points.{Route};
ghost use Rattle.plan.specs.Prepared.{Among, RangedBy, passed, Listing, SameBundles, SameRows, plan_in, upper_at};
ghost use Rattle.plan.specs.Lent.{BundleTells, ReachTells, LayoutTells};
ghost use Rattle.plan.specs.Plan.{seek_in, seek, narrowed, first_pass, Ranged, again};
ghost use Rattle.search.specs.Search.{search_of};

use board::Bundle;
use limits::MAX_BUNDLES;
use plan::layout::{Layout, Setting};
use plan::search_work::SearchWork;
use plan::{Between, Bound, Planned, Planning, Range, Ranges, Ranging, Reached, Upper};
use search::{Bounds, MemberRoutes, Outcome, Searched, Sought, TapVisits};

// ---- interior_collector_bounds

// The search for a collector between bounds.
pub fn search_between(
    setting: Setting,
    u: Bundle,
    bounds: Option<Bounds>,
    granted: TapVisits,
    work: &mut SearchWork,
) -> Searched
    requires among { Among setting.routes.starts.now u }
    ensures { (b : Board) (given : List Route) → setting.entry.pitch ≡ pitch_of b u → BundleTells b given setting.entry.routes u → result ≡ seek_in search_of b given u bounds granted.0 }
{
    match bounds {
        None => Searched {
            outcome: Outcome::Nothing,
            left: granted,
        },
        Some(s) => {
            let end = u.first + u.count;
            let routes = MemberRoutes {
                points: setting.routes.points,
                starts: &setting.routes.starts[u.first..end],
                counts: &setting.routes.counts[u.first..end],
            };
            let sought = Sought {
                routes,
                role: u.role,
                pitch: setting.pitch,
                bounds: s,
            };
            collector_xs::common_horizontal_collector_x(sought, granted, work.xs, work.scratch)
        }
    }
}

// The search for the collector of a bundle between a lower and an upper bound, each search paid for.
pub fn interior_collector_range_bounded(
    setting: Setting,
    r: Reached,
    between: Between,
    granted: TapVisits,
    work: &mut SearchWork,
) -> Searched
    requires among { Among setting.routes.starts.now r.bundle }
    ensures { (b : Board) (given : List Route) → ReachTells b given setting.entry r → result ≡ seek search_of b given r.bundle between.lower between.upper granted.0 }
{
    let bounds = plan_bounds::interior_collector_bounds(r, setting.rail, setting.pitch, between);
    search_between(setting, r.bundle, bounds, granted, work)
}

// ---- the first pass

// The bounds with the x that the search found, if it did, as the desired one.
pub fn narrow(b: Option<Bounds>, o: Outcome) -> Option<Bounds>
    ensures { result ≡ narrowed b o }
{
    match o {
        Outcome::Found(x) => b.map(|s| Bounds { desired: x, ..s }),
        Outcome::Nothing => None,
        Outcome::Spent => None,
    }
}

// The first search of a bundle.
fn interior_collector_range(
    setting: Setting,
    r: Reached,
    granted: TapVisits,
    work: &mut SearchWork,
) -> Ranging
    requires among { Among setting.routes.starts.now r.bundle }
    ensures told { (b : Board) (given : List Route) → ReachTells b given setting.entry r → RangedBy b given r.bundle granted.0 result }
    ensures same { result.range.bundle ≡ r.bundle }
{
    let free = Between {
        lower: Bound::None,
        upper: Bound::None,
    };
    let bounds = plan_bounds::interior_collector_bounds(r, setting.rail, setting.pitch, free);
    let u = r.bundle;
    let s = search_between(setting, u, bounds, granted, work);
    Ranging {
        range: Range {
            bundle: u,
            bounds: narrow(bounds, s.outcome),
        },
        left: s.left,
    }
}

// The first search of each bundle, in order.
pub fn first_pass(layout: Layout, granted: TapVisits, work: &mut SearchWork) -> Ranges
    ensures told { (b : Board) (given : List Route) → LayoutTells b given layout.entry → passed (length layout.entry.reaches.now) result ≡ first_pass search_of b given b.bundles granted.0 }
    ensures same { SameRows (take (length layout.entry.reaches.now) result.rows) layout.entry.reaches.now }
{
    let mut rows = [Range::default(); MAX_BUNDLES];
    let mut left = granted;
    for (i, r) in layout.reaches.iter().enumerate() {
        let s = interior_collector_range(layout.setting, *r, left, work);
        rows[i] = s.range;
        left = s.left;
    }
    Ranges { rows, left }
}

// ---- searches anew
//
// A layout, what is planned or granted and the room to work in stay three, here and in component_settling: what
// is gone by, what changes and what is written to.

// The upper bound for a bundle with a planned x.
fn upper_at(pitch: f64, upper: Upper, x: Bound) -> Bound
    ensures { result ≡ upper_at pitch upper x }
{
    match upper {
        Upper::Never => Bound::None,
        Upper::Fixed(s) => Bound::At(s),
        Upper::Below(limit) => match x {
            Bound::None => Bound::At(binary64::min(limit, limit - pitch)),
            Bound::At(y) => Bound::At(binary64::min(y, limit - pitch)),
        },
    }
}

// The bundles in a list are searched anew, in order.
pub fn search_again(
    layout: Layout,
    which: &[usize],
    lower: Bound,
    upper: Upper,
    p: Planning,
    work: &mut SearchWork,
) -> Planning
    requires listing { Listing which.now (length layout.reaches.now) }
    ensures { (b : Board) (given : List Route) (ranges : List Ranged) → LayoutTells b given layout.entry → SameBundles ranges layout.entry.reaches.now → plan_in (length layout.entry.reaches.now) result ≡ again search_of b given ranges (λ x. lower) (upper_at layout.entry.setting.pitch upper) which.now (plan_in (length layout.entry.reaches.now) p) }
{
    let mut rows = p.rows;
    let mut left = p.left;
    for &i in which {
        let r = layout.reaches[i];
        let between = Between {
            lower,
            upper: upper_at(layout.setting.pitch, upper, rows[i].x),
        };
        let s = interior_collector_range_bounded(layout.setting, r, between, left, work);
        rows[i] = Planned {
            x: Bound::from(s.outcome),
        };
        left = s.left;
    }
    Planning { rows, left }
}
