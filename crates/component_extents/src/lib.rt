// The bundles of a role in a component, how far their bounds reach, and what they are planned at first.
//
// Ported from cachanova/schemweave, commit c4a1a2c60a, crates/schemweave/src/boundary_bundles.rs
// (Apache-2.0, see NOTICE): plan_interior_collectors, without its separation.

#![tactic(auto)]

ghost use Rattle.std.specs.Prelude.{◌≡◌, map, ℕ, ◌≤◌, ◌<◌, length, get_or, drop};
ghost use Rattle.limits.specs.Limits.{max_bundles};
ghost use Rattle.binary64.specs.Accepted.{zero64};
ghost use Rattle.search.specs.declared.Bounds.{Bounds};
ghost use Rattle.plan.specs.declared.Bound.TheVariants.{None, At};
ghost use Rattle.plan.specs.Plan.{if_between, drop_all, initial_x};
ghost use Rattle.plan.specs.Prepared.{Listing, plan_in};
ghost use Rattle.components.specs.Settled.{ranges_in, Chosen, bound_in, inner, extent};

use components::{Extent, Places};
use geometry::Role;
use limits::MAX_BUNDLES;
use plan::{Bound, NO_X, Planned, Planning, Range};
use search::{Bounds, TapVisits};
use table::Table;

// ---- the bundles of a component

// The bundles of a role among those of a component, in order: a selection, as the definition has it.
pub fn of_role(role: Role, ranges: &[Range], order: &[usize]) -> Places
    requires { (length order.now ≤ max_bundles) × Listing order.now (length ranges.now) }
    ensures { Chosen role (ranges_in ranges.now) order.now (length ranges.now) result.items }
{
    let mut chosen = Table::new();
    for &i in order {
        if ranges[i].bundle.role == role {
            chosen.push(i);
        }
    }
    chosen
}

// The bound of a role: an input's minimum, an output's maximum.
fn bound_of(role: Role, b: Option<Bounds>) -> f64
    ensures { result ≡ bound_in role b }
{
    b.map_or(0.0, |r| match role {
        Role::Input => r.minimum,
        Role::Output => r.maximum,
    })
}

fn desired_of(b: Option<Bounds>) -> f64
    ensures { result ≡ if_between b zero64 (λ (s : Bounds). s.desired) }
{
    b.map_or(0.0, |r| r.desired)
}

// The larger of two for inputs, the smaller for outputs.
fn inner(role: Role, x: f64, y: f64) -> f64
    ensures { result ≡ inner role x y }
{
    match role {
        Role::Input => binary64::max(x, y),
        Role::Output => binary64::min(x, y),
    }
}

// How far the bundles of a role go: inputs to the largest minimum and the largest x found, outputs to
// the smallest maximum and the smallest x found.
pub fn extent(role: Role, ranges: &[Range], which: &[usize]) -> Extent
    requires { (0 < length which.now) × Listing which.now (length ranges.now) }
    ensures { result ≡ extent role (ranges_in ranges.now) (get_or which.now 0 0) (drop 1 which.now) }
{
    let b = ranges[which[0]].bounds;
    let mut bound = bound_of(role, b);
    let mut desired = desired_of(b);
    for &i in &which[1..] {
        let c = ranges[i].bounds;
        bound = inner(role, bound, bound_of(role, c));
        desired = inner(role, desired, desired_of(c));
    }
    Extent { bound, desired }
}

// The bundles in a list are given up.
pub fn drop_all(which: &[usize], p: Planning) -> Planning
    requires { Listing which.now max_bundles }
    ensures { (m : ℕ) → Listing which.now m → plan_in m result ≡ record { xs = drop_all which.now (plan_in m p).xs; left = p.left.0 } }
{
    let mut rows = p.rows;
    for &i in which {
        rows[i] = NO_X;
    }
    Planning { rows, left: p.left }
}

// ---- every component

// The x that the first search found. A match: with `b.map_or(..)`, as in desired_of, it was proved, but a wrong
// field in the closure was refused by a search that finds nothing, and at no fact.
fn initial_x(b: Option<Bounds>) -> Bound
    ensures { result ≡ if_between b None (λ (s : Bounds). At s.desired) }
{
    match b {
        None => Bound::None,
        Some(r) => Bound::At(r.desired),
    }
}

// The plan of the first pass. By index, as the others that write a row at each turn:
// plan_depths::corridor_depth_offsets, plan_searches::first_pass, plan_neighbours::adjacent_row and adjacency,
// planner::member_windows and bundle_ends, separation::separate, bundle_geometry::trunk_taps and rail_taps. With
// `rows.iter_mut().zip(ranges)` the proof did not close: after an adapter of `iter_mut` a proof knows how many
// rows there are, and not what they hold.
pub fn initial(ranges: &[Range], left: TapVisits) -> Planning
    requires { length ranges.now ≤ max_bundles }
    ensures { plan_in (length ranges.now) result ≡ record { xs = map initial_x (ranges_in ranges.now); left = left.0 } }
{
    let mut rows = [NO_X; MAX_BUNDLES];
    for (at, r) in ranges.iter().enumerate() {
        rows[at] = Planned {
            x: initial_x(r.bounds),
        };
    }
    Planning { rows, left }
}
