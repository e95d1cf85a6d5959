// The routes lent to a search, copied with plus zeros for minus zeros (F-1): what is lent is not
// written to.

#![tactic(auto)]

ghost use Rattle.std.specs.Prelude.{◌≡◌, length};
ghost use Rattle.limits.specs.Limits.{max_bundle_members, member_numbers};
ghost use Rattle.search_calls.specs.Entry.{plus_zeros};
ghost use Rattle.search_calls.specs.Copied.{Fitting, Copied};
ghost use Rattle.search_calls.specs.Lent.{lent_windows_fit, PlainFor};

use limits::{MAX_BUNDLE_MEMBERS, MAX_ROUTE_POINTS, ROUTE_NUMBERS};
use search_calls::LentRoutes;

// Whether the members' routes are within the points lent, and neither they nor their points are too
// many.
#[tactic(auto, using(std::proofs::lemmas::Grind::common_steps), unfolding(search_calls::specs::Copied::windows_fit))]
pub fn windows_fit<'a>(lent: LentRoutes<'a>) -> bool
    ensures { result ≡ lent_windows_fit lent.entry }
{
    search_refusals::places_fit(lent)
        && lent.starts.len() <= MAX_BUNDLE_MEMBERS
        && search_refusals::counts_fit(lent.counts)
}

// The numbers of points, plus zeros for minus zeros, over copy.
#[tactic(auto, using(crate::proofs::Parts::copied_next, crate::proofs::Parts::copied_whole))]
pub fn copy_numbers(points: &[f64], copy: &mut [f64])
    requires { length points.now ≡ length copy.old }
    ensures { copy.new ≡ plus_zeros points.now }
{
    // No zip with copy.iter_mut(): tried, it did not prove, since the invariant of a loop over that cannot speak of
    // what stands in copy.
    for (i, x) in points.iter().enumerate() {
        copy[i] = binary64::plus_zero(*x);
    }
}

// The copy is lent by the entry, whose array it is: its length is asked.

// The routes, each into a row of copy. rows says at which point each row begins.
pub fn copy_routes<'a>(lent: LentRoutes<'a>, copy: &mut [f64], rows: &mut [usize])
    requires fitting { Fitting lent.points.now lent.starts.now lent.counts.now }
    requires copy_len { (length copy.old ≡ member_numbers) × (length rows.old ≡ length lent.starts.now) }
    ensures { Copied lent.entry.points.now lent.entry.starts.now lent.entry.counts.now (length lent.entry.starts.now) copy.new rows.new }
{
    for (m, (start, count)) in lent.starts.iter().zip(lent.counts).enumerate() {
        let from = 2 * *start;
        let at = ROUTE_NUMBERS * m;
        let n = 2 * *count;
        copy_numbers(&lent.points[from..from + n], &mut copy[at..at + n]);
        rows[m] = MAX_ROUTE_POINTS * m;
    }
}

// The routes with plus zeros for minus zeros, in copy and rows. Routes that do not fit are not copied:
// a call of them is refused before a number is looked at.
#[tactic(auto, using(search_calls::proofs::Copies::unfit_call))]
pub fn with_plus_zeros<'a>(
    lent: LentRoutes<'a>,
    copy: &'a mut [f64],
    rows: &'a mut [usize],
) -> LentRoutes<'a>
    requires { (length copy.old ≡ member_numbers) × (length rows.old ≡ max_bundle_members) }
    ensures counted { result.counts.now ≡ lent.entry.counts.now }
    ensures plain { PlainFor result lent.entry }
{
    if !windows_fit(lent) {
        return lent;
    }
    let n = lent.starts.len();
    copy_routes(lent, &mut copy[..], &mut rows[..n]);
    LentRoutes {
        points: &copy[..],
        starts: &rows[..n],
        counts: lent.counts,
    }
}
