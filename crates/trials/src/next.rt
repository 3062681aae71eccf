ghost use Rattle.std.specs.Prelude.{◌≡◌, ℕ, ◌+◌, ◌-◌, ◌*◌, ◌/◌, ◌^◌, ◌<◌, ◌≤◌, MatchOption};
ghost use Rattle.placement.specs.Windows.{Holds, Earliest};
ghost use Rattle.placement.specs.Stays.{Apart};
ghost use Rattle.trials.specs.Trials.{Least};

use placement::Stay;
use ring::{Ratio, Ring};

// The whole ticks that b has to come after a: it is apart from a exactly that much later.
fn gap(ratio: Ratio, a: &Stay, b: &Stay) -> u128
    ensures apart { (x z : ℕ) → x + result ≤ z → Apart ratio.over ratio.under a.now x b.now z }
    ensures least { (x z : ℕ) → Apart ratio.over ratio.under a.now x b.now z → x + result ≤ z }
    ensures small { result < 2 ^ 66 }
{
    let p = ratio.over() as u128;
    let q = ratio.under() as u128;
    // div_ceil divides twice, and a leeway of 64 stays takes a tenth longer
    (p * (a.trail as u128 + b.lead as u128) + (q - 1)) / q
}

// The least time of b after a at x, nothing where that passes 64 bits.
pub fn next_time(ring: Ring, ratio: Ratio, a: &Stay, x: u64, b: &Stay) -> Option<u64>
    ensures { MatchOption result ((z : ℕ) → Holds ring.ticks b.now.window z → Apart ratio.over ratio.under a.now x b.now z → 2 ^ 64 ≤ z) (λ y. Least ring.ticks ratio.over ratio.under a.now x b.now y) }
{
    let low = x as u128 + gap(ratio, a, b);
    // branch by branch: with `?` and no last `Some` the goal stays open
    let Ok(low) = u64::try_from(low) else {
        return None;
    };
    let y = b.window.earliest(ring, low)?;
    Some(y)
}
