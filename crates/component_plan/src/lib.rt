// Every component of a plan, one after the other.
//
// Ported from cachanova/schemweave, commit c4a1a2c60a, crates/schemweave/src/boundary_bundles.rs
// (Apache-2.0, see NOTICE): plan_interior_collectors, without its separation.

#![tactic(auto)]

ghost use Rattle.std.specs.Prelude.{◌≡◌, false, List, length, replicate};
ghost use Rattle.geometry.specs.Points.{Route};
ghost use Rattle.board.specs.Board.{Board};
ghost use Rattle.search.specs.Search.{search_of};
ghost use Rattle.plan.specs.Plan.{indices_from, components};
ghost use Rattle.plan.specs.MemberColumns.{edges_of};
ghost use Rattle.plan.specs.Prepared.{RangesAmong, plan_in};
ghost use Rattle.components.specs.Settled.{ranges_in, step_in, Known, Neighboured, AllEdges, settled};

use board::Member;
use components::NoRoom;
use limits::MAX_BUNDLES;
use plan::layout::Layout;
use plan::search_work::SearchWork;
use plan::{Adjacent, Planning, Range};
use search::TapVisits;

// ---- every component

// That there is a range for each bundle that was reached, and that the members are those of the ranges'
// bundles, is asked, here and below: facts of two slices, which no field of either can keep.

// Each bundle that found an x and is in no component yet starts one.
fn components(
    layout: Layout,
    adjacent: &Adjacent,
    ranges: &[Range],
    before: Planning,
    work: &mut SearchWork,
) -> Result<Planning, NoRoom>
    requires as_many { length ranges.now ≡ length layout.reaches.now }
    ensures { (b : Board) (given : List Route) → Known b given layout.entry (ranges_in ranges.now) → Neighboured b given (ranges_in ranges.now) (length ranges.now) adjacent.now.rows → step_in (length ranges.now) result ≡ components search_of b given (ranges_in ranges.now) (indices_from 0 (ranges_in ranges.now)) (replicate (length ranges.now) false) (plan_in (length ranges.now) before) }
{
    let mut seen = [false; MAX_BUNDLES];
    let mut p = before;
    for (i, r) in ranges.iter().enumerate() {
        if !seen[i] && r.bounds.is_some() {
            let w = plan_neighbours::component(adjacent, ranges.len(), i, seen);
            seen = w.seen;
            p = component_settling::treat(layout, ranges, w.order.as_slice(), p, work)?;
        }
    }
    Ok(p)
}

// The plan after the first pass, which left so many visits, component after component.
pub fn settle_components(
    layout: Layout,
    members: &[Member],
    ranges: &[Range],
    left: TapVisits,
    work: &mut SearchWork,
) -> Result<Planning, NoRoom>
    requires as_many { length ranges.now ≡ length layout.reaches.now }
    requires ranges_among { RangesAmong (edges_of members.now) ranges.now }
    ensures { (b : Board) (given : List Route) → Known b given layout.entry (ranges_in ranges.now) → AllEdges b (edges_of members.now) ranges.now → step_in (length ranges.now) result ≡ settled b given (record { ranges = ranges_in ranges.now; left = left.0 }) }
{
    let a = plan_neighbours::adjacency(members, ranges);
    let p = component_extents::initial(ranges, left);
    components(layout, &a, ranges, p, work)
}
