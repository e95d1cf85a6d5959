// The calls of the public search entries: which are refused and what the others say (specs/Entry.antt), and
// what a call answers.

#![tactic(auto)]

ghost use Rattle.std.specs.Prelude.{◌≡◌};
ghost use Rattle.search_calls.specs.Marks.{mark_number};

// The members' routes as a caller lends them, route m being counts[m] points from point starts[m] on:
// nothing says yet that the points are there.
#[derive(Clone, Copy)]
pub struct LentRoutes<'a> {
    pub points: &'a [f64],
    pub starts: &'a [usize],
    pub counts: &'a [usize],
}

// What a caller asks, besides the bounds. The role is a number, as a C caller lends it: the entries look at
// it before it is a Role.
#[derive(Clone, Copy)]
pub struct Call<'a> {
    pub routes: LentRoutes<'a>,
    pub role: u8,
    pub pitch: f64,
    pub granted: u32,
}

// What the mark of an answer says; specs/Marks.antt has the number of each.
#[derive(Clone, Copy, Debug, PartialEq, Eq)]
pub enum Mark {
    Nothing,
    Found,
    Spent,
    Absent,
    SecondSpent,
}

// A mark's number.
impl From<Mark> for u8 {
    ghost from_gives = { λ m n. n ≡ mark_number m };

    fn from(m: Mark) -> u8 {
        m as u8
    }
}

// What a public entry says, a struct for C: document 01's number of a refusal, or 0; the number of a
// mark, and 0 beside a refusal; the visits left; how many numbers stand at the front of the output, and
// the first of them.
#[repr(C)]
#[derive(Clone, Copy)]
pub struct SearchAnswer {
    pub number: u8,
    pub mark: u8,
    pub left: u32,
    pub count: usize,
    pub x: f64,
}
