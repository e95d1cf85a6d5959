// The sheet before the last shift: bundle after bundle drawn, its members rewritten, and both checks
// made, in job order.
//
// Ported from cachanova/schemweave, commit c4a1a2c60a, crates/schemweave/src/boundary_bundles.rs
// (Apache-2.0, see NOTICE). The present routes are in slots (crate route). The slices that are written,
// taps, points and counts, are in no struct: with several fields of one lent struct lent on at a time, and
// told of afterwards, the proofs did not close.

#![tactic(auto)]

ghost use Rattle.std.specs.Prelude.{◌≡◌, ◌++◌, map, ◌+◌, ◌*◌, ◌<◌, ◌≤◌, length, take, IfOk};
ghost use Rattle.limits.specs.Limits.{slot_numbers};
ghost use Rattle.route.specs.Slots.{routes_of, Held};
ghost use Rattle.board.specs.Board.{Board};
ghost use Rattle.plan.specs.BoardTables.{given_routes, RoutesIn};
ghost use Rattle.plan.specs.Lent.{board_lent};
ghost use Rattle.plan.specs.Prepared.{x_of};
ghost use Rattle.plan.specs.MemberColumns.{edges_of, lanes_of};
ghost use Rattle.drawing.specs.Sheet.{turn, turns_from, sheet_of, blank};
ghost use Rattle.checks.specs.Purse.{told};
ghost use Rattle.checks.specs.CheckRows.{drawn_of};
ghost use Rattle.checks.specs.MemberSlices.{members_from, Row};
ghost use Rattle.member_rewriting.specs.Ways.{way_of};
ghost use Rattle.turns.specs.TurnTables.{turn_of, standing, ends_as, drawn_in, row_drawn, Faced, Ready, Longer, Lists, Room, Short, Rows, Full, GivenIn, Follow, Once};

use board::{Bundle, DrawnBundle, DrawnBundles, Edge, Member};
use checks::{BoardSlices, MemberTaps, Rules};
use drawing::GeometryVisits;
use geometry::{Point, RouteView};
use limits::MAX_BUNDLES;
use member_rewriting::{Lead, Way};
use plan::tables::BoardTables;
use plan::{Bound, Offsets, Planned};
use refusal::Refusal;
use route::PresentRoutes;
use table::Table;

// What a turn works in, lent: a mask of the routes that it changes, and room for the numbers of one slot.
#[derive(Drop)]
pub struct TurnWork<'a> {
    pub mask: &'a mut [bool],
    pub scratch: &'a mut [f64],
    pub ghost spare: { slot_numbers ≤ length scratch.now },
}

// The bundles drawn, and how the last turn ended. No Result of both: after a refusal too it is told which
// bundles were drawn before it (sheet_replay writes how many).
#[derive(Clone, Copy)]
pub struct Drawing {
    pub ended: Result<(), Refusal>,
    pub drawn: DrawnBundles,
}

// ---- one bundle

// A bundle whose turn it is: where its port stands, its planned x, and the offset of its corridor.
#[derive(Clone, Copy)]
struct BundleTurn {
    bundle: Bundle,
    end: Point,
    planned: Bound,
    offset: f64,
}

// A bundle that counts as interior leads its routes through its trunk.
#[tactic(auto, unfolding(member_rewriting::specs::Ways::way_of))]
fn way_of_bundle(interior: bool, offset: f64) -> Way
    ensures { result ≡ way_of interior offset }
{
    if interior {
        Way::Trunk
    } else {
        Way::Corridor(offset)
    }
}

// One bundle: build_geometry, rewrite_member_routes, verify_one_bundle_route_node_interiors,
// verify_new_bundle_route_contacts.
fn draw_bundle(
    rules: Rules,
    board: BoardSlices,
    t: BundleTurn,
    priors: &[DrawnBundle],
    members: &[Member],
    taps: &mut [Point],
    points: &mut [f64],
    counts: &mut [usize],
    work: &mut TurnWork,
    visits: &mut GeometryVisits,
) -> Result<DrawnBundle, Refusal>
    requires { (length counts.old ≤ length board.edges.now) × Ready t.bundle priors.now (edges_of members.now) (lanes_of members.now) taps.old points.old counts.old work.old.mask.now }
    ensures told { (b : Board) → Faced b rules.options board.entry.nodes.now board.entry.edges.now t.bundle t.end (members_from (edges_of members.now) (lanes_of members.now) t.bundle.first t.bundle.count) → ends_as (told result visits.new.0) (routes_of points.new counts.new) (map (drawn_of (edges_of members.now) taps.new) priors.now ++ row_drawn (edges_of members.now) taps.new result) ≡ turn b rules.permits_crossings (turn_of t.bundle t.planned t.offset) (standing (routes_of points.old counts.old) (map (drawn_of (edges_of members.now) taps.old) priors.now) visits.old.0) }
    ensures row { IfOk result (λ d. Row t.bundle d) }
    ensures hold { Held counts.new }
    ensures longer { Longer (told result visits.new.0) counts.old counts.new (members_from (edges_of members.now) (lanes_of members.now) t.bundle.first t.bundle.count) }
    ensures mask { length work.new.mask.now ≡ length work.old.mask.now }
{
    let u = t.bundle;
    let before = PresentRoutes { points, counts };
    let d = bundle_geometry::build_geometry(
        rules.options,
        t.end,
        u,
        t.planned,
        members,
        before,
        taps,
    );
    let lead = Lead {
        way: way_of_bundle(d.interior, t.offset),
        role: u.role,
        pitch: board::pitch_of_bundle(rules.options, u),
    };
    member_rewriting::rewrite_member_routes(
        lead,
        &members[u.first..u.first + u.count],
        &taps[u.first..u.first + u.count],
        points,
        counts,
        work.scratch,
    )?;
    let tapped = MemberTaps { members, taps };
    let present = PresentRoutes { points, counts };
    bundle_checks::verify_bundle(rules, board, d, priors, tapped, present, work.mask, visits)?;
    Ok(d)
}

// ---- what is filled before the first turn

// The given route of each edge in its slot.
fn store_edges(table: &[Edge], given: &[f64], points: &mut [f64], counts: &mut [usize])
    requires { GivenIn given.now table.now × (length counts.old ≡ length table.now) × (slot_numbers * length counts.old ≤ length points.old) }
    ensures routes { routes_of points.new counts.new ≡ given_routes given.now table.now }
    ensures short { Short counts.new }
{
    for (i, e) in table.iter().enumerate() {
        let route = RouteView {
            points: given,
            start: e.first,
            count: e.count,
        };
        route_slots::store_route(route, points, counts, i);
    }
}

// ---- bundle after bundle

// The turns to be made: the board, the plan of each bundle and the offset of its corridor.
#[derive(Clone, Copy)]
struct Turns<'a> {
    board: BoardTables<'a>,
    permits_crossings: bool,
    plan: &'a [Planned],
    offsets: &'a [f64],
    ghost plan_long: { length board.bundles.now ≤ length plan.now },
    ghost offsets_long: { length board.bundles.now ≤ length offsets.now },
}

// Every bundle in job order; after a refusal, those drawn before it.
fn draw_bundles(
    turns: Turns,
    taps: &mut [Point],
    points: &mut [f64],
    counts: &mut [usize],
    work: &mut TurnWork,
    visits: &mut GeometryVisits,
) -> Drawing
    requires edges { length counts.old ≤ length turns.board.edges.now }
    requires lists { Lists turns.board.bundles.now (edges_of turns.board.members.now) (lanes_of turns.board.members.now) (length counts.old) }
    requires room { Room (length turns.board.members.now) taps.old points.old counts.old work.old.mask.now × Short counts.old }
    ensures told { ends_as (told result.ended visits.new.0) (routes_of points.new counts.new) (drawn_in (edges_of turns.entry.board.members.now) taps.new result.drawn) ≡ sheet_of (board_lent turns.entry.board) turns.entry.permits_crossings (turns_from turns.entry.board.bundles.now (map x_of (take (length turns.entry.board.bundles.now) turns.entry.plan.now)) (take (length turns.entry.board.bundles.now) turns.entry.offsets.now)) (blank (routes_of points.old counts.old) visits.old.0) }
    ensures rows { Rows (take (length result.drawn.items) turns.entry.board.bundles.now) result.drawn.items }
    ensures full { Full (told result.ended visits.new.0) (length result.drawn.items) (length turns.entry.board.bundles.now) }
    ensures hold { Held counts.new }
{
    let board = turns.board;
    let rules = Rules {
        options: board.options,
        permits_crossings: turns.permits_crossings,
    };
    let slices = BoardSlices {
        nodes: board.nodes,
        edges: board.edges,
    };
    let mut drawn = Table::new();
    for (i, bundle) in board.bundles.iter().enumerate() {
        let port = board.ports[bundle.port];
        let t = BundleTurn {
            bundle: *bundle,
            end: board::endpoint_of(board.nodes[port.node], port),
            planned: turns.plan[i].x,
            offset: turns.offsets[i],
        };
        match draw_bundle(
            rules,
            slices,
            t,
            drawn.as_slice(),
            board.members,
            taps,
            points,
            counts,
            work,
            visits,
        ) {
            Ok(row) => drawn.push(row),
            Err(r) => {
                return Drawing {
                    ended: Err(r),
                    drawn,
                };
            }
        }
    }
    Drawing {
        ended: Ok(()),
        drawn,
    }
}

// ---- the sheet before the last shift

// Every bundle in job order, from the given routes on: what points, counts and taps hold then is the
// sheet before the last shift. After a refusal they hold anything. plan and offsets are arrays: of slices
// their lengths would be asked.
pub fn draw_sheet(
    board: BoardTables,
    permits_crossings: bool,
    plan: [Planned; MAX_BUNDLES],
    offsets: Offsets,
    given: &[f64],
    taps: &mut [Point],
    points: &mut [f64],
    counts: &mut [usize],
    work: &mut TurnWork,
    visits: &mut GeometryVisits,
) -> Drawing
    requires tables { RoutesIn given.now board.edges.now board.members.now }
    requires once { Follow 0 (length board.members.now) board.bundles.now × Once board.members.now board.bundles.now }
    requires exact { length counts.old ≡ length board.edges.now }
    requires room { Room (length board.members.now) taps.old points.old counts.old work.old.mask.now }
    ensures told { ends_as (told result.ended visits.new.0) (routes_of points.new counts.new) (drawn_in (edges_of board.entry.members.now) taps.new result.drawn) ≡ sheet_of (board_lent board.entry) permits_crossings (turns_from board.entry.bundles.now (map x_of (take (length board.entry.bundles.now) plan)) (take (length board.entry.bundles.now) offsets.rows)) (blank (given_routes given.now board.entry.edges.now) visits.old.0) }
    ensures rows { Rows (take (length result.drawn.items) board.entry.bundles.now) result.drawn.items }
    ensures full { Full (told result.ended visits.new.0) (length result.drawn.items) (length board.entry.bundles.now) }
    ensures hold { Held counts.new }
{
    store_edges(board.edges, given, points, counts);
    let turns = Turns {
        board,
        permits_crossings,
        plan: &plan,
        offsets: &offsets.rows,
    };
    draw_bundles(turns, taps, points, counts, work, visits)
}
