// Two suppliers who keep the contract of the three calls agree.
ghost use Rattle.law.specs.Agreement.{CallsAgree, SuppliersAgree};

use stores::determined::Determined;
use stores::store::Store;

// Over units with one outcome, the same calls on the same basin end in the same basin, figures and lists, readings aside.
pub fn suppliers_agree<S: Determined>()
    ensures call { CallsAgree S.Store.water S.Store.turns }
    ensures calls { SuppliersAgree S.Store.water S.Store.turns }
{}
