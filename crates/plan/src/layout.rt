// What the searches of a plan go by, lent.

#![tactic(auto)]

ghost use Rattle.std.proofs.Props.{props};
ghost use Rattle.plan.specs.Prepared.{AllAmong, Short};

use crate::Reached;
use search::MemberRoutes;

// The members' given routes, none of more points than a route may have, the rail's depth and the
// pitch.
#[derive(Clone, Copy)]
pub struct Setting<'a> {
    pub routes: MemberRoutes<'a>,
    pub rail: f64,
    pub pitch: f64,
    pub ghost short: { Short routes.counts.now } by { Prim.hlevel props },
}

// The same, and what was worked out about each bundle, whose members are among the routes.
#[derive(Clone, Copy)]
pub struct Layout<'a, 'b> {
    pub setting: Setting<'a>,
    pub reaches: &'b [Reached],
    pub ghost among: { AllAmong setting.routes.starts.now reaches.now } by { Prim.hlevel props },
}
