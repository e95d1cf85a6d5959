// One component: given up, split with its clamp (13), limited, its outputs last.
//
// Ported from cachanova/schemweave, commit c4a1a2c60a, crates/schemweave/src/boundary_bundles.rs
// (Apache-2.0, see NOTICE): plan_interior_collectors, without its separation.

#![tactic(auto)]

ghost use Rattle.std.specs.Prelude.{◌≡◌, List, ◌≤◌, ◌<◌, length, get_or, drop};
ghost use Rattle.limits.specs.Limits.{max_bundles};
ghost use Rattle.geometry.specs.Points.{Route};
ghost use Rattle.board.specs.Board.{Board};
ghost use Rattle.search.specs.Search.{search_of};
ghost use Rattle.plan.specs.Plan.{Ranged, input_split, exceeds, split, limited, outputs_last, settle, treated};
ghost use Rattle.plan.specs.Prepared.{Listing, plan_in};
ghost use Rattle.components.specs.Settled.{ranges_in, step_in, extent, Known};

use components::{Extent, Group, NoRoom};
use geometry::Role;
use plan::layout::Layout;
use plan::search_work::SearchWork;
use plan::{Bound, Planning, Range, Upper};

// ---- one component

fn input_split(pitch: f64, low: f64, limit: f64, deepest: f64, earliest: f64) -> f64
    ensures { result ≡ input_split pitch low limit deepest earliest }
{
    let separate = earliest - pitch;
    plan_numbers::clamp(separate + (deepest - separate) / 2.0, low, limit - pitch)
}

// The inputs are split from the outputs if the deepest comes too near to the earliest.
fn split(
    layout: Layout,
    inputs: Group,
    outputs: Extent,
    p: Planning,
    work: &mut SearchWork,
) -> Result<Planning, NoRoom>
    requires listing { Listing inputs.bundles.now (length layout.reaches.now) }
    ensures { (b : Board) (given : List Route) (ranges : List Ranged) → Known b given layout.entry ranges → step_in (length layout.entry.reaches.now) result ≡ split search_of b given ranges inputs.entry.extent.bound outputs.bound inputs.entry.extent.desired outputs.desired inputs.entry.bundles.now (plan_in (length layout.entry.reaches.now) p) }
{
    let near = inputs.extent;
    if near.desired + layout.setting.pitch > outputs.desired {
        if near.bound > outputs.bound - layout.setting.pitch {
            return Err(NoRoom { left: p.left });
        }
        let x = input_split(
            layout.setting.pitch,
            near.bound,
            outputs.bound,
            near.desired,
            outputs.desired,
        );
        let fixed = Upper::Fixed(x);
        let q = plan_searches::search_again(layout, inputs.bundles, Bound::None, fixed, p, work);
        return Ok(q);
    }
    Ok(p)
}

fn exceeds(r: Bound, limit: f64) -> bool
    ensures { result ≡ exceeds r limit }
{
    match r {
        Bound::None => false,
        Bound::At(x) => x > limit,
    }
}

// The inputs are held below the outputs' limit if what they ask lies above it.
fn limited(
    layout: Layout,
    inputs: &[usize],
    limit: f64,
    p: Planning,
    work: &mut SearchWork,
) -> Planning
    requires listing { Listing inputs.now (length layout.reaches.now) }
    ensures { (b : Board) (given : List Route) (ranges : List Ranged) → Known b given layout.entry ranges → plan_in (length layout.entry.reaches.now) result ≡ limited search_of b given ranges limit inputs.now (plan_in (length layout.entry.reaches.now) p) }
{
    let r = plan_outputs::required_output_collector_x(layout, inputs, p);
    if exceeds(r, limit) {
        let below = Upper::Below(limit);
        return plan_searches::search_again(layout, inputs, Bound::None, below, p, work);
    }
    p
}

// The outputs keep clear of what the inputs ask.
fn outputs_last(
    layout: Layout,
    inputs: &[usize],
    outputs: &[usize],
    p: Planning,
    work: &mut SearchWork,
) -> Planning
    requires listing { Listing inputs.now (length layout.reaches.now) × Listing outputs.now (length layout.reaches.now) }
    ensures { (b : Board) (given : List Route) (ranges : List Ranged) → Known b given layout.entry ranges → plan_in (length layout.entry.reaches.now) result ≡ outputs_last search_of b given ranges inputs.now outputs.now (plan_in (length layout.entry.reaches.now) p) }
{
    let r = plan_outputs::required_output_collector_x(layout, inputs, p);
    plan_searches::search_again(layout, outputs, r, Upper::Never, p, work)
}

// Inputs and outputs with these extents.
fn settle(
    layout: Layout,
    order: &[usize],
    inputs: Group,
    outputs: Group,
    p: Planning,
    work: &mut SearchWork,
) -> Result<Planning, NoRoom>
    requires listing { Listing order.now (length layout.reaches.now) × Listing inputs.bundles.now (length layout.reaches.now) × Listing outputs.bundles.now (length layout.reaches.now) }
    ensures { (b : Board) (given : List Route) (ranges : List Ranged) → Known b given layout.entry ranges → step_in (length layout.entry.reaches.now) result ≡ settle search_of b given ranges order.now inputs.entry.extent.bound outputs.entry.extent.bound inputs.entry.extent.desired outputs.entry.extent.desired inputs.entry.bundles.now outputs.entry.bundles.now (plan_in (length layout.entry.reaches.now) p) }
{
    let far = outputs.extent;
    if inputs.extent.bound + layout.setting.pitch > far.bound {
        let dropped = component_extents::drop_all(order, p);
        return Ok(dropped);
    }
    let parted = split(layout, inputs, far, p, work)?;
    let q = limited(layout, inputs.bundles, far.bound, parted, work);
    let last = outputs_last(layout, inputs.bundles, outputs.bundles, q, work);
    Ok(last)
}

// Some bundles of one role, and how far they go.
fn group<'a>(role: Role, ranges: &[Range], bundles: &'a [usize]) -> Group<'a>
    requires { (0 < length bundles.now) × Listing bundles.now (length ranges.now) }
    ensures lent { result.bundles.now ≡ bundles.now }
    ensures far { result.extent ≡ extent role (ranges_in ranges.now) (get_or bundles.now 0 0) (drop 1 bundles.now) }
{
    let extent = component_extents::extent(role, ranges, bundles);
    Group { bundles, extent }
}

// A component of one role only is left as it is.
pub fn treat(
    layout: Layout,
    ranges: &[Range],
    order: &[usize],
    p: Planning,
    work: &mut SearchWork,
) -> Result<Planning, NoRoom>
    requires as_many { length ranges.now ≡ length layout.reaches.now }
    requires listing { (length order.now ≤ max_bundles) × Listing order.now (length layout.reaches.now) }
    ensures { (b : Board) (given : List Route) → Known b given layout.entry (ranges_in ranges.now) → step_in (length ranges.now) result ≡ treated search_of b given (ranges_in ranges.now) order.now (plan_in (length ranges.now) p) }
{
    let i = component_extents::of_role(Role::Input, ranges, order);
    if i.is_empty() {
        return Ok(p);
    }
    let o = component_extents::of_role(Role::Output, ranges, order);
    if o.is_empty() {
        return Ok(p);
    }
    let inputs = group(Role::Input, ranges, i.as_slice());
    let outputs = group(Role::Output, ranges, o.as_slice());
    settle(layout, order, inputs, outputs, p, work)
}
