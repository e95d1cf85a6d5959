// Reading the table of bundles with their members: one loop for each, which looks every id up.

#![tactic(auto)]

ghost use Rattle.std.specs.Prelude.{◌≡◌, ◌≤◌, length};
ghost use Rattle.limits.specs.Limits.{max_bundles, max_members};
ghost use Rattle.job.specs.Job.{bundle_of, member_of};
ghost use Rattle.job.specs.Reads.{BundlesTold};

use board::{Bundle, Member};
use job::{BundlesRead, RawBundle, RawMember};
use job_keys::TableKeys;
use refusal::Refusal;
use table::Table;
use wire::Unread;

// ---- rows

// A bundle's row, where its node and its port are known.
#[tactic(auto, unfolding(job::specs::Job::bundle_of, job::specs::Keys::known_then))]
fn bundle_row(b: RawBundle, tables: TableKeys) -> Option<Bundle>
    ensures { result ≡ bundle_of tables.entry.nodes.now tables.entry.ports.now b }
{
    job_keys::find(tables.nodes, (b.node, 0))?;
    let port = job_keys::find(tables.ports, (b.node, b.port))?;
    Some(Bundle {
        id: b.id,
        port,
        role: b.role,
        width: b.width,
        first: b.first,
        count: b.count,
    })
}

// A member's row, where its edge is known.
#[tactic(auto, unfolding(job::specs::Job::member_of, job::specs::Keys::known_then))]
fn member_row(m: RawMember, tables: TableKeys) -> Option<Member>
    ensures { result ≡ member_of tables.entry.edges.now m }
{
    let edge = job_keys::find(tables.edges, (m.edge, 0))?;
    Some(Member {
        edge,
        tap_lane: m.tap_lane,
    })
}

// ---- tables
//
// The bundles' keys go to a lent slice, which has one place for each bundle, and their members' keys,
// an edge and its role, to the front of another. An id is looked up in the keys of the tables before. The
// bundles go by index: tried with keys.iter_mut(), the inner loop's invariant cannot name the keys while they
// are lent, and so cannot keep what was read before it.

pub fn read_bundles<'a>(
    s: &mut Unread<'_>,
    tables: TableKeys<'a>,
    keys: &mut [(u64, u64)],
    member_keys: &mut [(u64, u64)],
) -> Result<BundlesRead, Refusal>
    requires { (length keys.old ≤ max_bundles) × (length member_keys.old ≡ max_members) }
    ensures { BundlesTold s.old.bytes.now s.new.bytes.now (length keys.old) tables.entry.nodes.now tables.entry.ports.now tables.entry.edges.now keys.new member_keys.new result }
{
    let mut bundles = Table::new();
    let mut members = Table::new();
    let mut known = true;
    let mut members_known = true;
    for i in 0..keys.len() {
        let b = job_records::bundle_head(s, members.len())?;
        let role_key = u64::from(b.role);
        // As many as were read: there is nothing to run over.
        for _ in 0..b.count {
            let x = job_records::member(s, b.role)?;
            let row = member_row(x, tables);
            members_known = members_known & row.is_some();
            member_keys[members.len()] = (x.edge, role_key);
            members.push(row.unwrap_or_default());
        }
        let row = bundle_row(b, tables);
        known = known & row.is_some();
        bundles.push(row.unwrap_or_default());
        keys[i] = (b.id, 0);
    }
    Ok(BundlesRead {
        known,
        bundles,
        members_known,
        members,
    })
}
