// The results of 33 and 34: bounds, and searches between them.

use crate::fields::Written;
use plan::layout::Layout;
use plan::search_work::SearchWork;
use plan::{Between, Reached};
use search::{Bounds, Outcome, TapVisits};

// The bounds of a bundle's collector between two others.
fn bounds_of(layout: Layout, r: Reached, between: Between) -> Option<Bounds> {
    let s = layout.setting;
    plan_bounds::interior_collector_bounds(r, s.rail, s.pitch, between)
}

pub(crate) fn put_all_bounds(layout: Layout, between: Between, out: &mut Written) {
    out.put_count(layout.reaches.len());
    for &r in layout.reaches {
        let b = bounds_of(layout, r, between);
        out.put_between(b);
    }
}

// What a search says, and the bounds where it found an x.
fn put_search(out: &mut Written, b: Option<Bounds>, o: Outcome) {
    if b.is_none() {
        out.put_mark(3);
        return;
    }
    match o {
        Outcome::Spent => out.put_mark(2),
        Outcome::Nothing => out.put_mark(0),
        Outcome::Found(_) => out.put_between(plan_searches::narrow(b, o)),
    }
}

pub(crate) fn put_searches(
    layout: Layout,
    between: Between,
    granted: TapVisits,
    work: &mut SearchWork,
    out: &mut Written,
) {
    let mut left = granted;
    out.put_count(layout.reaches.len());
    for &r in layout.reaches {
        let b = bounds_of(layout, r, between);
        let s = plan_searches::search_between(layout.setting, r.bundle, b, left, work);
        put_search(out, b, s.outcome);
        left = s.left;
    }
    out.put_visits(left);
}
