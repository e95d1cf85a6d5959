// The limits of a job, from document 01's section "The job", and the sizes of lists and buffers that
// follow from them. Each has the name of its definition in specs/Limits.antt.

#![tactic(auto)]

// ---- "Limits"

pub const MAX_NODES: usize = 128;

pub const MAX_PORTS: usize = 256;

pub const MAX_EDGES: usize = 256;

pub const MAX_ROUTE_POINTS: usize = 64;

pub const MAX_POINTS: usize = 2048;

pub const MAX_BUNDLES: usize = 32;

pub const MAX_BUNDLE_MEMBERS: usize = 64;

pub const MAX_MEMBERS: usize = 256;

pub const MAX_LANE: u32 = 255;

pub const MAX_TAP_VISITS: u32 = 2000000;

pub const MAX_GEOMETRY_VISITS: u32 = 20000000;

// ---- buffers

// The bytes of a job that the program sheet reads; a place in a job is below it.
pub const JOB_ROOM: usize = 65536;

// The bytes that the answer's buffer has at least.
pub const ANSWER_ROOM: usize = 65536;

// The bytes that a plan's buffer has at least: length, version, visits left, and for each bundle a
// mark and a number.
pub const PLAN_ROOM: usize = 4 + 1 + 4 + 9 * MAX_BUNDLES;

// ---- tables

// The coordinates of all given points.
pub const POINT_NUMBERS: usize = 2 * MAX_POINTS;

// ---- present routes

// A route after its rewritings, one for each role, each of two points more at most.
pub const SLOT_POINTS: usize = MAX_ROUTE_POINTS + 2 * 2;

// The coordinates of a slot.
pub const SLOT_NUMBERS: usize = 2 * SLOT_POINTS;

// The coordinates of the slots of all routes.
pub const ALL_SLOT_NUMBERS: usize = SLOT_NUMBERS * MAX_EDGES;

// Up to so many routes have slots of their own, since clearing those of all would take most of a
// small job's time. Their slots have room for what the plan's search works in.
pub const FEW_ROUTES: usize = 91;

pub const FEW_SLOT_NUMBERS: usize = SLOT_NUMBERS * FEW_ROUTES;

// The points of all routes drawn: two more for each member.
pub const MAX_DRAWN_POINTS: usize = MAX_POINTS + 2 * MAX_MEMBERS;

// ---- the search

// The runs of a bundle's members, one for each point at most.
pub const BUNDLE_RUNS: usize = MAX_BUNDLE_MEMBERS * MAX_ROUTE_POINTS;

// The plan's list of candidates: one for each run, and the desired x.
pub const CANDIDATE_ROOM: usize = BUNDLE_RUNS + 1;

// The coordinates of a route, and of the routes of a bundle's members, each in a row of its own.
pub const ROUTE_NUMBERS: usize = 2 * MAX_ROUTE_POINTS;

pub const MEMBER_NUMBERS: usize = MAX_BUNDLE_MEMBERS * ROUTE_NUMBERS;
// What the plan's search works in: two numbers kept for each run, and room to sort its candidates.
pub const SEARCH_WORK: usize = 2 * BUNDLE_RUNS + CANDIDATE_ROOM;

// The longest list of a search that is called by itself: a candidate for each run, and the desired x.
pub const LARGEST_LIST: usize = 2017;

// The scratch of such a search, and of both searches of a promotion.
pub const SEARCH_SCRATCH: usize = MAX_POINTS;

pub const PROMOTION_SCRATCH: usize = 2 * SEARCH_SCRATCH;

// What both work in: two numbers kept for each run, and room to sort the longest list.
pub const ENTRY_WORK: usize = 2 * LARGEST_LIST + PROMOTION_SCRATCH;

// The candidates that a promotion keeps.
pub const MOST_KEPT: usize = 32;

// ---- bytes, field by field as document 01 lists them

// The head up to the counts; nodes, ports, edges, points, bundles, members.
pub const LARGEST_JOB: usize = 62
    + 36 * MAX_NODES
    + 17 * MAX_PORTS
    + 22 * MAX_EDGES
    + 16 * MAX_POINTS
    + 19 * MAX_BUNDLES
    + 6 * MAX_MEMBERS;

// The head up to the counts; nodes, routes, points, bundles, taps.
pub const LARGEST_ANSWER: usize = 36
    + 20 * MAX_NODES
    + 6 * MAX_EDGES
    + 16 * MAX_DRAWN_POINTS
    + 71 * MAX_BUNDLES
    + 20 * MAX_MEMBERS;

// An answer for tables of any content: every slot full, and all taps at every bundle.
pub const ANY_ANSWER_ROOM: usize = 36
    + 20 * MAX_NODES
    + 6 * MAX_EDGES
    + 16 * (SLOT_POINTS * MAX_EDGES)
    + 71 * MAX_BUNDLES
    + 20 * (MAX_MEMBERS * MAX_BUNDLES);

// ---- the bundle page, from document 02's F-4

// The columns of an id.
pub const ID_COLUMNS: usize = 10;

// The bytes of a line: the id; a space, I or R, a space; three numbers in 20 columns with a space or
// the newline behind each.
pub const LINE_BYTES: usize = ID_COLUMNS + 66;

// A line for each bundle.
pub const PAGE_ROOM: usize = MAX_BUNDLES * LINE_BYTES;

// ---- the list of crossings

// F-7: "19 when .. there are more than 1,024 crossings".
pub const MAX_CROSSINGS: usize = 1024;

// An entry of the list: a point and two ids.
pub const CROSSING_BYTES: usize = 16 + 4 + 4;

// The largest list: a count, and the entries.
pub const CROSSINGS_ROOM: usize = 2 + CROSSING_BYTES * MAX_CROSSINGS;
