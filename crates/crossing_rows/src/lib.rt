// The strict crossings of a sheet as the walk over it meets and keeps them. There is no function here:
// specs/Rows.antt has the definitions; crate crossing_walk has the walk, crate crossing_list the list.

#![tactic(auto)]

use arrayvec::ArrayVec;
use geometry::Point;
use limits::MAX_CROSSINGS;

// An entry of F-7's list: the place, and the ids of the bundle and of the edge.
#[derive(Clone, Copy, Default)]
pub struct Row {
    pub place: Point,
    pub bundle: u64,
    pub edge: u64,
}

// The rows kept so far. There is no room for more than 1,024: that there are more is a refusal.
pub type Rows = ArrayVec<Row, MAX_CROSSINGS>;
