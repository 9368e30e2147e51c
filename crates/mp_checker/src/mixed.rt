//! The parts of a fact as one number.

ghost use Rattle.std.specs.Prelude.{◌≡◌};
ghost use Rattle.mp_checker.specs.Mixed.{mixed as mixed_parts, owner_number as number_of};

/// 2 to the 64th, divided by the golden ratio.
const MULTIPLIER: u64 = 0x9e37_79b9_7f4a_7c15;

/// The number of an owner, and 0 where there is none.
fn owner_number(owner: Option<u16>) -> u64
    ensures { result ≡ number_of owner }
{
    match owner {
        Some(agent) => agent as u64,
        None => 0,
    }
}

/// The parts of a fact, mixed to one number.
#[tactic(auto, unfolding(crate::specs::Mixed::mixed_with_all))]
pub fn mixed(owner: Option<u16>, symbol: u32, objects: &[u32]) -> u64
    ensures { result ≡ mixed_parts owner symbol objects.now }
{
    let mut number = owner_number(owner)
        .wrapping_mul(MULTIPLIER)
        .wrapping_add(symbol as u64);
    for object in objects {
        number = number.wrapping_mul(MULTIPLIER).wrapping_add(*object as u64);
    }
    number
}
