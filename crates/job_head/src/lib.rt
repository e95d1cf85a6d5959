// Reading the head of a job: flags, options, grants, counts.

#![tactic(auto, unfolding(wire::specs::Read::after))]

ghost use Rattle.std.specs.Prelude.{◌≡◌};
ghost use Rattle.wire.specs.Read.{told};
ghost use Rattle.job.specs.Job.{options, grants, counts, header};

use board::Options;
use job::{Counts, Flags, Grants, Header};
use limits::{MAX_BUNDLES, MAX_EDGES, MAX_GEOMETRY_VISITS, MAX_NODES, MAX_PORTS, MAX_TAP_VISITS};
use refusal::Refusal;
use wire::Unread;

// The limits of counts, in the type of a count that is read.
const NODE_LIMIT: u32 = MAX_NODES as u32;

const PORT_LIMIT: u32 = MAX_PORTS as u32;

const EDGE_LIMIT: u32 = MAX_EDGES as u32;

const BUNDLE_LIMIT: u32 = MAX_BUNDLES as u32;

pub fn options(s: &mut Unread<'_>, grid: bool) -> Result<Options, Refusal>
    ensures { told result s.new.bytes.now ≡ options grid s.old.bytes.now }
{
    Ok(Options {
        port_stub: s.option(grid)?,
        route_lane_gap: s.option(grid)?,
        edge_node_clearance: s.option(grid)?,
        minimum_parallel_wire_spacing: s.option(grid)?,
        member_endpoint_reserve: s.option(grid)?,
    })
}

pub fn grants(s: &mut Unread<'_>) -> Result<Grants, Refusal>
    ensures { told result s.new.bytes.now ≡ grants s.old.bytes.now }
{
    Ok(Grants {
        tap_visits: s.word_at_most(MAX_TAP_VISITS)?,
        geometry_visits: s.word_at_most(MAX_GEOMETRY_VISITS)?,
    })
}

pub fn counts(s: &mut Unread<'_>) -> Result<Counts, Refusal>
    ensures { told result s.new.bytes.now ≡ counts s.old.bytes.now }
{
    Ok(Counts {
        nodes: s.half_at_most(NODE_LIMIT)? as usize,
        ports: s.half_at_most(PORT_LIMIT)? as usize,
        edges: s.half_at_most(EDGE_LIMIT)? as usize,
        bundles: s.half_at_most(BUNDLE_LIMIT)? as usize,
    })
}

// Flags, five options, two grants, four counts.
pub fn header(s: &mut Unread<'_>) -> Result<Header, Refusal>
    ensures { told result s.new.bytes.now ≡ header s.old.bytes.now }
{
    let flags = Flags::try_from(u32::from(s.byte()?))?;
    Ok(Header {
        flags,
        options: options(s, flags.on_grid)?,
        grants: grants(s)?,
        counts: counts(s)?,
    })
}
