// The separation of collectors of one role.
//
// Ported from cachanova/schemweave, commit c4a1a2c60a, crates/schemweave/src/boundary_bundles.rs
// (Apache-2.0, see NOTICE): the end of plan_interior_collectors, and collector_has_lane_separation.

#![tactic(auto)]

ghost use Rattle.std.specs.Prelude.{◌≡◌, List, [], ◌∷◌, ◌++◌, map, ℕ, ◌+◌, ◌≤◌, ◌<◌, length, take};
ghost use Rattle.limits.specs.Limits.{max_bundles};
ghost use Rattle.geometry.specs.Points.{Route};
ghost use Rattle.board.specs.Board.{Board};
ghost use Rattle.search.specs.Search.{search_of};
ghost use Rattle.plan.specs.Depths.{pitch_of};
ghost use Rattle.plan.specs.Plan.{clear, moved, cut_to, if_clear, lanes_of, add_lane, beside, separated};
ghost use Rattle.plan.specs.Prepared.{Among, ranged_from, x_of, plan_in};
ghost use Rattle.plan.specs.Lent.{BundleTells};
ghost use Rattle.separation.specs.Taken.{lanes_in, outmost, cut_past, none_taken, RangesTell, RangesFit};

use geometry::Role;
use limits::MAX_BUNDLES;
use plan::layout::Setting;
use plan::search_work::SearchWork;
use plan::{Bound, Planned, Planning, Range};
use search::{Bounds, Outcome, Searched, TapVisits};
use table::Table;

// The x taken so far by the bundles of each role. No one type with plan::Used (see there).
#[derive(Clone, Copy)]
pub struct Lanes {
    pub input: Table<f64, MAX_BUNDLES>,
    pub output: Table<f64, MAX_BUNDLES>,
}

// Whether x is a pitch away from each of those taken. A loop and no `all`, with which it was proved, but an
// edit was refused by a search that finds nothing, and at no fact.
pub fn collector_has_lane_separation(pitch: f64, x: f64, used: &[f64]) -> bool
    ensures { result ≡ clear pitch x used.now }
{
    let least = pitch - 0.0000001;
    for &y in used {
        if !(binary64::abs(y - x) >= least) {
            return false;
        }
    }
    true
}

// The smallest of x and those taken for inputs, the largest for outputs.
fn outmost(role: Role, x: f64, used: &[f64]) -> f64
    ensures { result ≡ outmost role x used.now }
{
    let mut most = x;
    for &y in used {
        most = plan_numbers::outer(role, most, y);
    }
    most
}

// Past all that are taken, but within the bounds.
#[tactic(auto, using(crate::proofs::TakenTurns::past_all))]
fn moved(pitch: f64, role: Role, r: Bounds, x: f64, used: &[f64]) -> f64
    ensures { result ≡ moved pitch role r x used.now }
{
    let past = search_runs::adjacent_lane(role, pitch, outmost(role, x, used));
    plan_numbers::clamp(past, r.minimum, r.maximum)
}

fn cut_to(role: Role, r: Bounds, d: f64) -> Bounds
    ensures { result ≡ cut_to role r d }
{
    match role {
        Role::Input => Bounds {
            desired: d,
            maximum: d,
            ..r
        },
        Role::Output => Bounds {
            minimum: d,
            desired: d,
            ..r
        },
    }
}

// The bounds of a bundle, cut to what lies past all that are taken.
fn cut_beside(pitch: f64, role: Role, b: Option<Bounds>, x: f64, used: &[f64]) -> Option<Bounds>
    ensures { result ≡ cut_past pitch role b x used.now }
{
    let r = b?;
    let d = moved(pitch, role, r, x, used);
    Some(cut_to(role, r, d))
}

// One bundle: a planned x stays if it is clear of those taken, and otherwise is sought anew.
fn beside(
    setting: Setting,
    s: Range,
    planned: Bound,
    used: &[f64],
    granted: TapVisits,
    work: &mut SearchWork,
) -> Searched
    requires among { Among setting.routes.starts.now s.bundle }
    ensures { (b : Board) (given : List Route) → setting.entry.pitch ≡ pitch_of b s.bundle → BundleTells b given setting.entry.routes s.bundle → result ≡ beside search_of b given (ranged_from s) planned used.now granted.0 }
{
    let Bound::At(x) = planned else {
        return Searched {
            outcome: Outcome::Nothing,
            left: granted,
        };
    };
    if collector_has_lane_separation(setting.pitch, x, used) {
        return Searched {
            outcome: Outcome::Found(x),
            left: granted,
        };
    }
    let cut = cut_beside(setting.pitch, s.bundle.role, s.bounds, x, used);
    plan_searches::search_between(setting, s.bundle, cut, granted, work)
}

fn if_clear(pitch: f64, x: Bound, used: &[f64]) -> Bound
    ensures { result ≡ if_clear pitch x used.now }
{
    match x {
        Bound::None => Bound::None,
        Bound::At(y) => {
            if collector_has_lane_separation(pitch, y, used) {
                Bound::At(y)
            } else {
                Bound::None
            }
        }
    }
}

fn lanes_of(role: Role, l: &Lanes) -> &[f64]
    ensures { result.now ≡ lanes_of role (lanes_in l.now) }
{
    match role {
        Role::Input => l.input.as_slice(),
        Role::Output => l.output.as_slice(),
    }
}

// The x of a bundle, if it has one, is taken among those of its role.
fn add_lane(role: Role, x: Bound, l: &mut Lanes)
    requires { (length l.old.input.items < max_bundles) × (length l.old.output.items < max_bundles) }
    ensures told { lanes_in l.new ≡ add_lane role x (lanes_in l.old) }
    ensures few { (length l.new.input.items ≤ length l.old.input.items + 1) × (length l.new.output.items ≤ length l.old.output.items + 1) }
{
    match x {
        Bound::None => {}
        Bound::At(y) => match role {
            Role::Input => l.input.push(y),
            Role::Output => l.output.push(y),
        },
    }
}

// Each bundle of the plan in order, clear of those of its role before it.
pub fn separate(setting: Setting, ranges: &[Range], p: Planning, work: &mut SearchWork) -> Planning
    requires ranges_fit { RangesFit setting.routes.starts.now ranges.now }
    ensures { (b : Board) (given : List Route) → RangesTell b given setting.entry ranges.now → plan_in (length ranges.now) result ≡ separated search_of b given (map ranged_from ranges.now) (map x_of (take (length ranges.now) p.rows)) none_taken p.left.0 }
{
    let mut lanes = Lanes {
        input: Table::new(),
        output: Table::new(),
    };
    let mut rows = p.rows;
    let mut left = p.left;
    for (i, s) in ranges.iter().enumerate() {
        let role = s.bundle.role;
        let used = lanes_of(role, &lanes);
        let r = beside(setting, *s, rows[i].x, used, left, work);
        let found = Bound::from(r.outcome);
        let x = if_clear(setting.pitch, found, used);
        rows[i] = Planned { x };
        add_lane(role, x, &mut lanes);
        left = r.left;
    }
    Planning { rows, left }
}
