// The room that the searches of a plan use, lent.

#![tactic(auto)]

ghost use Rattle.plan.specs.Prepared.{SearchRoom};

// The candidates of a search, and what it keeps and sorts in: room for those of every bundle. No search
// goes by what an earlier one left there.
#[derive(Drop)]
pub struct SearchWork<'a> {
    pub xs: &'a mut [f64],
    pub scratch: &'a mut [f64],
    pub ghost room: { SearchRoom xs.now scratch.now },
}
