ghost use Rattle.std.proofs.Common.{refl};
ghost use Rattle.std.specs.Cmp.{partial_order_from_agreeing_total};
ghost use Rattle.std.specs.Ordering.{as_partial_cmp};
ghost use Rattle.ring.specs.FractionOrders.{compare, compare_total, compare_ties};

use crate::fractions::Fraction;
use std::cmp::Ordering;

// By their values. Products of 32 bits fit into 64.
impl Ord for Fraction {
    ghost cmp = { compare };

    ghost total = { compare_total };

    ghost matches_partial_cmp = { λ x y. refl };

    ghost matches_eq = { compare_ties };

    fn cmp(&self, other: &Fraction) -> Ordering {
        let left = self.over() as u64 * other.under() as u64;
        let right = other.over() as u64 * self.under() as u64;
        left.cmp(&right)
    }
}

impl PartialOrd for Fraction {
    ghost partial_cmp = { as_partial_cmp compare };

    ghost laws = { partial_order_from_agreeing_total compare compare_total (λ x y. refl) compare_ties };

    fn partial_cmp(&self, other: &Fraction) -> Option<Ordering> {
        Some(self.cmp(other))
    }
}
