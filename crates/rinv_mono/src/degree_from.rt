//! The order by the degree of some last variables.

ghost use Rattle.std.specs.Prelude.{◌≡◌, drop, ⊤, IsTrue};
ghost use Rattle.rinv_algebra.specs.Monomial.{total_degree};
ghost use Rattle.rinv_algebra.specs.BlockEnds.{sizes_from, rises_from};
ghost use Rattle.rinv_algebra.specs.Ranks.{degree_order, degree_rank};
ghost use Rattle.rinv_algebra.proofs.DegreeOrder.{degree_order_laws, degree_order_ties};
ghost use Rattle.rinv_algebra.proofs.RankLaws.{degree_rank_law};

use crate::graded::Grevlex;
use crate::monomial::Mono;
use crate::order::MonoOrder;
use crate::ranks::push_graded;
use crate::sums::degree_between;
use std::alloc::{AllocError as NoMemory, Global};
use std::cmp::Ordering;

/// The order by the degree in the variables from one place on; monomials that tie there are compared in all variables by graded reverse
/// lexicographic order. It fits any number of variables.
#[derive(Clone, Copy, Debug)]
pub struct DegreeFrom {
    from: u32,
}

impl DegreeFrom {
    /// The order by the degree in the variables from this place on.
    pub fn new(from: u32) -> DegreeFrom
        ensures { result.from ≡ from }
    {
        DegreeFrom { from }
    }
}

impl MonoOrder for DegreeFrom {
    ghost cmp = { λ s. degree_order s.from };

    ghost fits = { λ _ _. ⊤ };

    ghost rank = { λ s. degree_rank s.from };

    ghost laws = { λ s. degree_order_laws s.from };

    ghost ties = { λ s a b same _ e. degree_order_ties s.from a b same e };

    ghost ranks = { λ s. degree_rank_law s.from };

    fn compare(&self, a: &Mono, b: &Mono) -> Ordering {
        let left = degree_from(a.sums(), self.from);
        let right = degree_from(b.sums(), self.from);
        match left.cmp(&right) {
            Ordering::Equal => Grevlex.compare(a, b),
            order => order,
        }
    }

    // The degree in these variables, and then the rank in graded reverse lexicographic order.
    fn rank(&self, alloc: Global, a: &Mono) -> Result<Vec<u32>, NoMemory> {
        let sums = a.sums();
        let mut rank = Vec::with_capacity(alloc, sums.len().saturating_add(2))?;
        rank.push(degree_from(sums, self.from))?;
        push_graded(&mut rank, sums, 0, sums.len())?;
        Ok(rank)
    }
}

// The sum of the exponents from this place on.
fn degree_from(sums: &[u16], from: u32) -> u32
    requires { IsTrue (rises_from 0 sums.now) }
    ensures { result ≡ total_degree (drop from (sizes_from 0 sums.now)) }
{
    let end = sums.len();
    let start = (from as usize).min(end);
    degree_between(sums, start, end)
}
