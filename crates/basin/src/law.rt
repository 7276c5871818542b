// The law that every basin keeps.
ghost use Rattle.basin.specs.Law.{Balances};

use stores::store::Store;

// Nobody makes or loses a millilitre: every list of calls balances, as a whole, unit by unit and reach by reach.
pub fn balance_stands<S: Store + Copy>()
    ensures { Balances S.Store.water S.Store.turns }
{}
