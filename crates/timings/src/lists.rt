// The lists that are seated, at the pace 1/1.
ghost use Rattle.std.specs.Prelude.{◌≡◌, IfOk, vec_len};

use placement::{Stay, Window};
use ring::Ring;
use std::alloc::{AllocError, Global};

// The whole ring for each window, and lengths of 90, 91, 92 and so on. Twelve of these stays take
// 1,146 ticks, and sixteen 1,560, in whatever order they come.
pub fn whole_ring(heap: Global, ring: Ring, count: u32) -> Result<Vec<Stay>, AllocError>
    ensures { IfOk result (λ stays. vec_len stays ≡ count) }
{
    (0..count)
        .map(|i| Stay {
            window: Window {
                from: i % ring.ticks(),
                width: ring.ticks() - 1,
            },
            lead: 20,
            trail: i.saturating_add(70),
        })
        .collect(heap)
}

// 64 stays that leave a twentieth of a day free, and have a seating in their own order: their windows
// follow one another, and each is several stays long.
pub fn nearly_full(heap: Global) -> Result<Vec<Stay>, AllocError>
    ensures { IfOk result (λ stays. vec_len stays ≡ 64) }
{
    let mut x = 12_345;
    (0..64u32)
        .map(|i| {
            x = scatter(x);
            Stay {
                window: Window {
                    from: i * 1_350,
                    width: 5_000,
                },
                lead: 0,
                trail: 1_200 + (x >> 3) % 150,
            }
        })
        .collect(heap)
}

// Windows of 6,001 positions that begin here and there on the ring, and lengths up to `longest`.
pub fn spread(heap: Global, ring: Ring, count: u32, longest: u32) -> Result<Vec<Stay>, AllocError>
    ensures { IfOk result (λ stays. vec_len stays ≡ count) }
{
    let longest = longest.max(1);
    let mut x = 12_345;
    (0..count)
        .map(|_| {
            x = scatter(x);
            let from = (x >> 3) % ring.ticks();
            x = scatter(x);
            Stay {
                window: Window { from, width: 6_000 },
                lead: 0,
                trail: 1 + (x >> 3) % longest,
            }
        })
        .collect(heap)
}

// One step of a linear congruential generator.
fn scatter(x: u32) -> u32 {
    x.wrapping_mul(1_103_515_245).wrapping_add(12_345) & 0x7fff_ffff
}
