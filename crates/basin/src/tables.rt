// The tables of a basin, and whether they fit together.
ghost use Rattle.std.specs.Prelude.{◌≡◌, ◌≤◌, true, not, length, nat_le};
ghost use Rattle.std.specs.List.{enumerate_from, position};
ghost use Rattle.basin.specs.Tables.{areas, lengths_fit, lies_ahead, refused_by, tables_fault};

use network::reach::Reach;
use network::site::Site;
use refusals::basin::BasinFault;

// The tables of a basin. Sites and units are two lists, as they are handed over: a basin may be filled with lists of
// any lengths, which its calls refuse. So what makes tables sound is asked by methods, and is no invariant.
#[derive(Drop)]
pub struct Tables<S> {
    pub sites: Vec<Site>,
    pub units: Vec<S>,
    pub reaches: Vec<Reach>,
}

impl<S> Tables<S> {
    // Whether so many sites, units and reaches go together.
    pub fn lengths_fit(&self) -> bool
        ensures { result ≡ lengths_fit (length self.now.sites.items) (length self.now.units.items) (length self.now.reaches.items) }
    {
        let sites = self.sites.len();
        (1..=1024).contains(&sites)
            && self.units.len() == sites
            && (1..=256).contains(&self.reaches.len())
    }
}

// The greatest sum of the areas, in square metres.
const AREA: u64 = 1_000_000_000;

// The first site whose reach does not exist.
fn stray_site(sites: &[Site], reaches: usize) -> Option<usize>
    ensures { result ≡ position (λ s. nat_le reaches s.reach) sites.now }
{
    sites.iter().position(|site| site.reach as usize >= reaches)
}

// Whether the next reach, if there is one, lies further on.
fn lies_ahead(next: Option<u8>, from: usize, to: usize) -> bool
    ensures { result ≡ lies_ahead next from to }
{
    next.is_none_or(|reach| from < reach as usize && (reach as usize) < to)
}

// The first reach whose next does not lie further on.
fn stray_next(reaches: &[Reach]) -> Option<usize>
    ensures { result ≡ position (λ q. not (lies_ahead q.1.channel.next q.0 (length reaches.now))) (enumerate_from 0 reaches.now) }
{
    reaches.iter().enumerate().position(|(j, reach)| !lies_ahead(
        reach.channel.next,
        j,
        reaches.len(),
    ))
}

// The area of all sites.
fn total_area(sites: &[Site]) -> u64
    requires { length sites.now ≤ 1024 }
    ensures { result ≡ areas sites.now }
{
    sites.iter().map(|site| u64::from(site.area)).sum()
}

// The first fault of the tables; `fit` says whether their lengths go together.
// That is the caller's to say: a run asks it of its flow lists too.
#[tactic(auto, using(crate::proofs::Straying::stray_first, crate::proofs::Straying::next_first))]
pub fn check_tables(fit: bool, sites: &[Site], reaches: &[Reach]) -> Result<(), BasinFault>
    requires { fit ≡ true → length sites.now ≤ 1024 }
    ensures { refused_by result ≡ tables_fault fit sites.now reaches.now }
{
    if !fit {
        return Err(BasinFault::Lengths);
    }
    if let Some(site) = stray_site(sites, reaches.len()) {
        return Err(BasinFault::SiteReach(site as u64));
    }
    if let Some(reach) = stray_next(reaches) {
        return Err(BasinFault::NextReach(reach as u64));
    }
    if total_area(sites) > AREA {
        return Err(BasinFault::Areas);
    }
    Ok(())
}
