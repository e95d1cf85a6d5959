// Reading tables: a loop for each, which looks every id up.

#![tactic(auto)]

ghost use Rattle.std.specs.Prelude.{◌≡◌, ◌+◌, ◌≤◌, length};
ghost use Rattle.limits.specs.Limits.{max_nodes, max_ports, max_edges, max_route_points, max_points, point_numbers};
ghost use Rattle.wire.specs.Read.{many};
ghost use Rattle.geometry.specs.Points.{points_from};
ghost use Rattle.job.specs.Job.{point, push, port_of, edge_of};
ghost use Rattle.job.specs.Reads.{ended_as, NodesTold, PortsTold, EdgesTold};

use board::{Edge, Nodes, Port};
use job::{EdgesRead, PortsRead, RawEdge, RawPort};
use refusal::Refusal;
use table::Table;
use wire::Unread;

// ---- rows

// A port's row, where its node is known.
#[tactic(auto, unfolding(job::specs::Job::port_of, job::specs::Keys::known_then))]
fn port_row(p: RawPort, nodes: &[(u64, u64)]) -> Option<Port>
    ensures { result ≡ port_of nodes.now p }
{
    let node = job_keys::find(nodes, (p.node, 0))?;
    Some(Port {
        node,
        id: p.id,
        side: p.side,
        offset: p.offset,
    })
}

// An edge's row, where both its nodes are known.
#[tactic(auto, unfolding(job::specs::Job::edge_of, job::specs::Keys::known_then))]
fn edge_row(e: RawEdge, nodes: &[(u64, u64)]) -> Option<Edge>
    ensures { result ≡ edge_of nodes.now e }
{
    let source = job_keys::find(nodes, (e.source, 0))?;
    let target = job_keys::find(nodes, (e.target, 0))?;
    Some(Edge {
        id: e.id,
        source,
        target,
        first: e.first,
        count: e.count,
    })
}

// ---- tables
//
// The keys of a table's rows go to a lent slice, which has one place for each row. An id is looked up in
// the keys of the tables before. Nodes and ports are no one loop over a trait: the nodes look nothing up and
// have no mark, so that what the loop is for would be the trait's.

pub fn read_nodes(s: &mut Unread<'_>, keys: &mut [(u64, u64)], grid: bool) -> Result<Nodes, Refusal>
    requires { length keys.old ≤ max_nodes }
    ensures { NodesTold grid s.old.bytes.now s.new.bytes.now (length keys.old) keys.new result }
{
    let mut rows = Table::new();
    for key in keys.iter_mut() {
        let n = job_records::node(s, grid)?;
        *key = (n.id, 0);
        rows.push(n);
    }
    Ok(rows)
}

pub fn read_ports(
    s: &mut Unread<'_>,
    nodes: &[(u64, u64)],
    keys: &mut [(u64, u64)],
    grid: bool,
) -> Result<PortsRead, Refusal>
    requires { length keys.old ≤ max_ports }
    ensures { PortsTold grid s.old.bytes.now s.new.bytes.now (length keys.old) nodes.now keys.new result }
{
    let mut rows = Table::new();
    let mut known = true;
    for key in keys.iter_mut() {
        let p = job_records::port(s, grid)?;
        let port = port_row(p, nodes);
        known = known & port.is_some();
        rows.push(port.unwrap_or_default());
        *key = (p.node, p.id);
    }
    Ok(PortsRead { known, rows })
}

// The points of one route, total points standing before them.
fn read_points(
    s: &mut Unread<'_>,
    count: usize,
    total: usize,
    points: &mut [f64],
    grid: bool,
) -> Result<(), Refusal>
    requires { (count ≤ max_route_points) × (total + count ≤ max_points) × (length points.old ≡ point_numbers) }
    ensures { ended_as result (points_from points.new 0 (total + count)) s.new.bytes.now ≡ many count (push (point grid)) (points_from points.old 0 total) s.old.bytes.now }
{
    // As many as were read before: there is nothing to run over.
    for i in 0..count {
        let p = job_records::point(s, grid)?;
        route_views::put_point(points, total + i, p);
    }
    Ok(())
}

#[tactic(auto, using(job::proofs::Windows::edge_window))]
pub fn read_edges(
    s: &mut Unread<'_>,
    nodes: &[(u64, u64)],
    points: &mut [f64],
    keys: &mut [(u64, u64)],
    grid: bool,
) -> Result<EdgesRead, Refusal>
    requires { (length keys.old ≤ max_edges) × (length points.old ≡ point_numbers) }
    ensures { EdgesTold grid s.old.bytes.now s.new.bytes.now (length keys.old) nodes.now points.new keys.new result }
{
    let mut rows = Table::new();
    let mut known = true;
    let mut total = 0;
    for key in keys.iter_mut() {
        let e = job_records::edge_head(s, total)?;
        read_points(s, e.count, total, points, grid)?;
        let edge = edge_row(e, nodes);
        known = known & edge.is_some();
        rows.push(edge.unwrap_or_default());
        *key = (e.id, 0);
        total += e.count;
    }
    Ok(EdgesRead { known, rows, total })
}
