// What a record asks for, and what the answers are worked out of.

ghost use Rattle.std.proofs.Props.{props};
ghost use Rattle.plan.specs.BoardTables.{RoutesIn};

use plan::tables::BoardTables;
use search::TapVisits;

// A call of the Rust's plan, as rust/oracle/README.md numbers them; any other number is of bounds with
// none before the job.
#[derive(Clone, Copy)]
pub(crate) enum Operation {
    Offsets,
    Corridors,
    BoundsBetween,
    SearchesBetween,
    Plan,
    Asked,
    All,
    Bounds,
}

impl From<u8> for Operation {
    fn from(op: u8) -> Operation {
        match op {
            0x31 => Operation::Offsets,
            0x32 => Operation::Corridors,
            0x33 => Operation::BoundsBetween,
            0x34 => Operation::SearchesBetween,
            0x35 => Operation::Plan,
            0x37 => Operation::Asked,
            0x3b => Operation::All,
            _ => Operation::Bounds,
        }
    }
}

// Where the job of a record starts: behind two bounds, or behind the operation.
pub(crate) fn start_of(op: Operation) -> usize {
    match op {
        Operation::BoundsBetween | Operation::SearchesBetween => 19,
        _ => 1,
    }
}

// A record, and how many bytes of it the job has.
#[derive(Clone, Copy)]
pub(crate) struct Record<'a> {
    pub(crate) operation: Operation,
    pub(crate) bytes: &'a [u8],
    pub(crate) size: usize,
}

// A record with the tables of its job, and the job's points and what it says of the plan.
#[derive(Clone, Copy)]
pub(crate) struct Request<'a, 'b> {
    pub(crate) record: Record<'a>,
    pub(crate) tables: BoardTables<'b>,
    pub(crate) points: &'a [f64],
    pub(crate) separates: bool,
    pub(crate) granted: TapVisits,
    pub(crate) ghost routes_in: { RoutesIn points.now tables.edges.now tables.members.now } by { Prim.hlevel props },
}
