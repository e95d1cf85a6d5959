// The results of 31 and 32: depth offsets and corridors.

ghost use Rattle.std.specs.Prelude.{ℕ, ◌+◌, ◌≤◌, ◌<◌, length, get_or};
ghost use Rattle.limits.specs.Limits.{max_edges};
ghost use Rattle.plan.specs.BoardTables.{no_member};

use crate::fields::Written;
use board::{Bundle, Member};
use limits::MAX_EDGES;
use plan::corridors::Corridors;
use plan::tables::BoardTables;
use plan::{Bound, Offsets};

pub(crate) fn put_offsets(t: BoardTables, offsets: Offsets, out: &mut Written) {
    let n = t.bundles.len();
    out.put_count(n);
    for x in &offsets.rows[..n] {
        out.put_number(*x);
    }
}

// A corridor; every edge of a member has one for the bundle's role.
fn put_corridor(out: &mut Written, x: Bound) {
    if let Bound::At(y) = x {
        out.put_number(y);
    }
}

// The corridors of a bundle's members.
fn put_members(u: Bundle, members: &[Member], c: Corridors, out: &mut Written)
    requires inside { u.first + u.count ≤ length members.now }
    requires by_index { (i : ℕ) → i < length members.now → (get_or members.now i no_member).edge < max_edges }
{
    out.put_count(u.count);
    for m in &members[u.first..u.first + u.count] {
        let x = plan_corridors::corridor_of(u.role, c, m.edge);
        put_corridor(out, x);
    }
}

// The corridors of all bundles, from those of both roles.
fn put_bundles(t: BoardTables, c: Corridors, out: &mut Written) {
    out.put_count(t.bundles.len());
    for u in t.bundles {
        put_members(*u, t.members, c, out);
    }
}

pub(crate) fn put_corridors(t: BoardTables, offsets: Offsets, out: &mut Written) {
    let ends = planner::bundle_ends(t.nodes, t.ports, t.bundles);
    let mut inputs = [Bound::None; MAX_EDGES];
    let mut outputs = [Bound::None; MAX_EDGES];
    planner::add_all_corridors(t, ends, offsets, &mut inputs, &mut outputs);
    let c = Corridors {
        inputs: &inputs,
        outputs: &outputs,
    };
    put_bundles(t, c, out);
}
