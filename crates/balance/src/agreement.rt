// Two balances of one column agree where its turns have one outcome.
ghost use Rattle.balance.specs.Agreement.{Agree};

use stores::determined::Determined;
use stores::store::Store;

// Whoever keeps the contract of `run_column` ends with the same column and the same figures.
pub fn balances_agree<S: Determined>()
    ensures { Agree S.Store.water S.Store.turns }
{}
