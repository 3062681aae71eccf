// What layers above a seater make of a list, from their rules alone.
ghost use Rattle.std.specs.Prelude.{◌≡◌, Ok, vec_len};

use crate::cases::Case;
use crate::definition::{Answer, List, Rule, within_bounds};
use placement::Stay;
use ring::Ring;
use seaters::NotSeated;
use std::alloc::Global;

#[derive(Clone, Copy)]
pub enum Layer {
    Depot,
    Margin,
}

// What a seater under layers, told from the top, says of the list of a case. The empty list is always
// seated.
pub fn expect(heap: Global, rule: Rule, layers: &[Layer], case: &Case) -> Answer
    ensures { vec_len case.now.stays ≡ 0 → result ≡ Ok tt }
{
    if case.stays.is_empty() {
        return Ok(());
    }
    let mut stays = Vec::from_slice(heap, &case.stays)?;
    for layer in layers {
        match layer {
            Layer::Depot => stays.push(case.depot)?,
            Layer::Margin => lengthen(case.ring, case.margin, &mut stays)?,
        }
    }
    let list = List {
        stays: &stays,
        ..case.list()
    };
    rule.decide(heap, list)
}

// Each trail longer by the margin, where the margin's layer takes the list.
fn lengthen(ring: Ring, margin: u32, stays: &mut [Stay]) -> Answer {
    for stay in stays.iter_mut() {
        if margin > 1_000 || !within_bounds(ring, stay) || stay.trail > 40_000 - margin {
            return Err(NotSeated::NotTaken);
        }
        stay.trail += margin;
    }
    Ok(())
}
