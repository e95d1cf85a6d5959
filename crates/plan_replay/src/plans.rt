// The result of 35: the plan.

ghost use Rattle.plan.specs.Lent.{OffsetsLent};

use crate::fields::Written;
use crate::operations::Request;
use plan::search_work::SearchWork;
use plan::{Offsets, Planned};
use refusal::Refusal;
use search::TapVisits;

fn put_planned(rows: &[Planned], left: TapVisits, out: &mut Written) {
    out.put_count(rows.len());
    for row in rows {
        out.put_bound(row.x);
    }
    out.put_visits(left);
}

// That the offsets are those of the tables is a fact of two values.

pub(crate) fn put_plan(q: Request, offsets: Offsets, work: &mut SearchWork, out: &mut Written)
    requires { OffsetsLent q.tables offsets.rows }
{
    let r = planner::plan_interior_collectors(
        q.tables,
        offsets,
        q.points,
        q.separates,
        q.granted,
        work.xs,
        work.scratch,
    );
    match r {
        Ok(p) => {
            out.put_mark(0);
            put_planned(&p.rows[..q.tables.bundles.len()], p.left, out);
        }
        Err(e) => out.put_mark(u8::from(Refusal::from(e))),
    }
}
