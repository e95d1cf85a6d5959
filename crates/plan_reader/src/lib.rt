// A plan's bytes, read (F-5): the plan that some bytes are for a job, or 17 or 18.

#![tactic(auto)]

ghost use Rattle.std.specs.Prelude.{◌≡◌, ◌≤◌};
ghost use Rattle.limits.specs.Limits.{max_bundles};
ghost use Rattle.plan_bytes.specs.PlanBytes.{entry, read_plan};
ghost use Rattle.plan_reader.specs.Reading.{told_entry, told_plan, judged, EntriesTold, BodyTold};

use grid::Grid;
use limits::MAX_BUNDLES;
use plan::{Bound, NO_X, Planned, Planning};
use refusal::Refusal;
use search::TapVisits;
use wire::Unread;

// The next entry: none, or a number's pattern. Any refusal of the form is 17 in the end.
#[tactic(auto, unfolding(wire::specs::Read::after, plan_bytes::specs::PlanBytes::marked, crate::specs::Reading::told_entry))]
fn next_entry(s: &mut Unread<'_>) -> Result<Option<u64>, Refusal>
    ensures { told_entry result s.new.bytes.now ≡ entry s.old.bytes.now }
{
    let mark = s.byte()?;
    match mark {
        0 => Ok(None),
        1 => Ok(Some(s.double()?)),
        _ => Err(Refusal::PlanMismatch),
    }
}

// A pattern's number, where 18 lets it pass. It keeps its sign where it is minus zero; with bit 2 of the
// flags set that does not pass.
fn judged_number(b: u64, grid: bool) -> Option<f64>
    ensures { result ≡ judged grid b }
{
    if b % 0x8000000000000000 > 0x7ff0000000000000 {
        return None;
    }
    let x = f64::from_bits(b);
    let small = (-1073741824.0 <= x) & (x <= 1073741824.0);
    if !grid {
        return small.then_some(x);
    }
    let other = b != 0x8000000000000000;
    (small & (other & grid::is_on(Grid::Plan, x))).then_some(x)
}

// The entries of n bundles, all with their marks and their bytes: their rows, if every number passes. All are
// read also where one does not, as 17 is looked for before 18.
fn read_entries(
    s: &mut Unread<'_>,
    n: usize,
    grid: bool,
) -> Result<Option<[Planned; MAX_BUNDLES]>, Refusal>
    requires { n ≤ max_bundles }
    ensures { EntriesTold grid s.old.bytes.now s.new.bytes.now n result }
{
    let mut rows = [NO_X; MAX_BUNDLES];
    let mut passes = true;
    let front = &mut rows[..n];
    for row in front.iter_mut() {
        let mut x = Bound::None;
        if let Some(b) = next_entry(s)? {
            match judged_number(b, grid) {
                Some(y) => x = Bound::At(y),
                None => passes = false,
            }
        }
        *row = Planned { x };
    }
    Ok(passes.then_some(rows))
}

// What stands behind a plan's length: the visits left, and the rows, if every number passes.
struct Body {
    left: u32,
    rows: Option<[Planned; MAX_BUNDLES]>,
}

#[tactic(auto, using(crate::proofs::Taken::no_version, crate::proofs::Taken::wrong_version, crate::proofs::Taken::no_visits, crate::proofs::Taken::no_entries, crate::proofs::Taken::body_read))]
fn read_body(s: &mut Unread<'_>, n: usize, grid: bool) -> Result<Body, Refusal>
    requires { n ≤ max_bundles }
    ensures { BodyTold grid s.old.bytes.now s.new.bytes.now n result }
{
    let version = s.byte()?;
    if version != 1 {
        return Err(Refusal::PlanMismatch);
    }
    let left = s.word()?;
    let rows = read_entries(s, n, grid)?;
    Ok(Body { left, rows })
}

// The plan that some bytes are, for a job with n bundles and such a grant of tap visits, its numbers on
// the grid or not.
#[tactic(auto, using(crate::proofs::Taken::no_length, crate::proofs::Taken::wrong_length, crate::proofs::Taken::broken), unfolding(crate::specs::Reading::told_plan))]
pub fn read_plan(s: &[u8], n: usize, grant: u32, grid: bool) -> Result<Planning, Refusal>
    requires { n ≤ max_bundles }
    ensures { told_plan n result ≡ read_plan grid n grant s.now }
{
    let mut rest = Unread { bytes: s };
    let Ok(size) = rest.word() else {
        return Err(Refusal::PlanMismatch);
    };
    if size as usize != rest.bytes.len() {
        return Err(Refusal::PlanMismatch);
    }
    let Ok(body) = read_body(&mut rest, n, grid) else {
        return Err(Refusal::PlanMismatch);
    };
    let Body { left, rows } = body;
    let fits = rest.bytes.is_empty() & (left <= grant);
    if !fits {
        return Err(Refusal::PlanMismatch);
    }
    Ok(Planning {
        rows: rows.ok_or(Refusal::PlannedNumber)?,
        left: TapVisits(left),
    })
}
