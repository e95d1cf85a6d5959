// What a call of the search says, and the list that it writes.

#![tactic(auto)]

ghost use Rattle.std.specs.Prelude.{◌≡◌, ◌≤◌, length, take, List, Float};
ghost use Rattle.limits.specs.Limits.{most_kept};
ghost use Rattle.search.specs.Search.{Fits, told, mark, first};
ghost use Rattle.search.specs.Promotion.{PromotionFits, promotion_told, shortened};
ghost use Rattle.search_calls.specs.Marks.{mark_number};
ghost use Rattle.search_calls.specs.Entry.{refused, answer_of, said, promotion_said, Replied};

use limits::MOST_KEPT;
use search::{Listed, Promoted, SearchSpent};
use search_calls::{Mark, SearchAnswer};

// ---- the public entries

// The number and the mark are u8 here and in `reply`: a Refusal and a Mark would ask more of the caller.

pub fn refuse(number: u8, granted: u32) -> SearchAnswer
    ensures { result ≡ answer_of number (refused granted) }
{
    SearchAnswer {
        number,
        mark: 0,
        left: granted,
        count: 0,
        x: 0.0,
    }
}

// The first n numbers of list are written over the front of xs. n is apart: a part of list would be cut in
// each case below, and its length looked up here.
pub fn reply(mark: u8, left: u32, n: usize, list: &[f64], xs: &mut [f64]) -> SearchAnswer
    requires { (n ≤ length list.now) × (n ≤ length xs.old) }
    ensures { Replied 0 (record { mark = mark; list = take n list.now; left = left }) result xs.old xs.new }
{
    if n == 0 {
        return SearchAnswer {
            number: 0,
            mark,
            left,
            count: 0,
            x: 0.0,
        };
    }
    slices::copy(&mut xs[..n], &list[..n]);
    SearchAnswer {
        number: 0,
        mark,
        left,
        count: n,
        x: list[0],
    }
}

// The mark of n numbers: nothing common, or found. No `From`: a count has a mark only in a reply.
pub fn mark_of(n: usize) -> Mark
    ensures { (list : List Float) → n ≤ length list → mark_number result ≡ mark (first (take n list)) }
{
    if n > 0 { Mark::Found } else { Mark::Nothing }
}

pub fn search_reply(g: Listed, list: &[f64], xs: &mut [f64]) -> SearchAnswer
    requires { Fits g (length list.now) × Fits g (length xs.old) }
    ensures { Replied 0 (said (told g list.now)) result xs.old xs.new }
{
    match g {
        Err(_) => reply(u8::from(Mark::Spent), 0, 0, list, xs),
        Ok((n, left)) => reply(u8::from(mark_of(n)), left.0, n, list, xs),
    }
}

pub fn promotion_reply(p: Promoted, list: &[f64], xs: &mut [f64]) -> SearchAnswer
    requires { PromotionFits p (length list.now) × (most_kept ≤ length xs.old) }
    ensures { Replied 0 (promotion_said (shortened (promotion_told p list.now))) result xs.old xs.new }
{
    match p {
        Err(SearchSpent::First) => reply(u8::from(Mark::Spent), 0, 0, list, xs),
        Err(SearchSpent::Second(n)) => {
            reply(u8::from(Mark::SecondSpent), 0, n.min(MOST_KEPT), list, xs)
        }
        Ok((n, left)) => {
            let k = n.min(MOST_KEPT);
            reply(u8::from(mark_of(k)), left.0, k, list, xs)
        }
    }
}
