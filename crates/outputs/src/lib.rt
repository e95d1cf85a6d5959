// What a call of stage_sheet is given and wants beside the job and the answer. What is written is in specs/Outputs.antt.

#![tactic(auto)]

ghost use Rattle.std.specs.Prelude.{◌≡◌};
ghost use Rattle.outputs.specs.Outputs.{wants_of, lacks, too_short};

use limits::{ANSWER_ROOM, CROSSINGS_ROOM, PAGE_ROOM};

// Whether a plan is given, and the outputs that are wanted.
#[derive(Clone, Copy)]
pub struct Wants {
    pub plan: bool,
    pub page: bool,
    pub crossings: bool,
}

impl From<u32> for Wants {
    ghost from_gives = { λ mask w. w ≡ wants_of mask };

    fn from(mask: u32) -> Wants {
        Wants {
            plan: mask % 2 == 1,
            page: mask / 2 % 2 == 1,
            crossings: mask / 4 % 2 == 1,
        }
    }
}

fn lacks_room(wanted: bool, room: usize, least: usize) -> bool
    ensures { result ≡ lacks wanted room least }
{
    let under = room < least;
    wanted & under
}

// 2: a buffer is too short.
pub fn is_too_short(wants: Wants, answer: usize, page: usize, crossings: usize) -> bool
    ensures { result ≡ too_short wants answer page crossings }
{
    let p = lacks_room(wants.page, page, PAGE_ROOM);
    let c = lacks_room(wants.crossings, crossings, CROSSINGS_ROOM);
    let a = answer < ANSWER_ROOM;
    a | p | c
}
