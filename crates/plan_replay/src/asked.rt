// The result of 37: what inputs ask of the outputs.

ghost use Rattle.std.specs.Prelude.{◌≤◌, ◌+◌, length};
ghost use Rattle.limits.specs.Limits.{max_bundles};
ghost use Rattle.plan.specs.Prepared.{Listing};

use crate::fields::Written;
use board::Bundle;
use components::Places;
use geometry::Role;
use limits::MAX_BUNDLES;
use plan::layout::Layout;
use plan::{Bound, NO_X, Planned, Planning, Reached};
use search::{MemberRoutes, TapVisits};
use table::Table;

// sheet_replay has the same: of the crates below both, those that know a plan read no records.
pub(crate) fn plan_at(record: &[u8], from: usize) -> Planning {
    let mut rows = [NO_X; MAX_BUNDLES];
    let mut at = from;
    for row in &mut rows {
        *row = Planned {
            x: Bound::from(records::option_at(record, at)),
        };
        at = records::plus(at, 9);
    }
    Planning {
        rows,
        left: TapVisits(0),
    }
}

// Where a bundle's members part from its trunk at a planned x.
fn divergence_at(routes: MemberRoutes, pitch: f64, u: Bundle, x: Bound) -> Bound
    requires { u.first + u.count ≤ length routes.starts.now }
{
    match x {
        Bound::None => Bound::None,
        Bound::At(c) => plan_outputs::input_shared_trunk_divergence_x(routes, pitch, u, c),
    }
}

fn put_divergences(layout: Layout, p: Planning, out: &mut Written) {
    let setting = layout.setting;
    out.put_count(layout.reaches.len());
    for (reached, row) in layout.reaches.iter().zip(&p.rows) {
        out.put_bound(divergence_at(setting.routes, setting.pitch, reached.bundle, row.x));
    }
}

// The places of the inputs, in job order.
fn inputs_of(reaches: &[Reached]) -> Places
    requires { length reaches.now ≤ max_bundles }
    ensures { Listing result.items (length reaches.now) }
{
    let mut inputs = Table::new();
    for (i, r) in reaches.iter().enumerate() {
        if r.bundle.role == Role::Input {
            inputs.push(i);
        }
    }
    inputs
}

pub(crate) fn put_asked(layout: Layout, p: Planning, out: &mut Written) {
    put_divergences(layout, p, out);
    let inputs = inputs_of(layout.reaches);
    let r = plan_outputs::required_output_collector_x(layout, inputs.as_slice(), p);
    out.put_bound(r);
}
