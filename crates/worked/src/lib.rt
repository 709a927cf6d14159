// The worked orders: small cases with their results, proved of the definitions that the library's contracts cite.
#![tactic(auto)]

ghost use Rattle.worked.specs.Cases.{Worked};

// Each case of the table has the result that the table gives.
pub fn worked_orders_hold()
    ensures { Worked }
{}
