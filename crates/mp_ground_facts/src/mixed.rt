//! The parts of a fact as one number.

ghost use Rattle.std.specs.Prelude.{◌≡◌};
ghost use Rattle.mp_ground_facts.specs.Mixed.{mixed};

/// 2 to the 64th, divided by the golden ratio.
const MULTIPLIER: u64 = 0x9e37_79b9_7f4a_7c15;

/// The parts of a fact or complement, mixed to one number.
#[tactic(auto, unfolding(crate::specs::Mixed::mixed_with_all))]
pub fn mix(is_public: bool, is_complement: bool, predicate: u32, objects: &[u32]) -> u64
    ensures { result ≡ mixed is_public is_complement predicate objects.now }
{
    let mut number = predicate as u64 * 4 + is_public as u64 * 2 + is_complement as u64;
    for object in objects {
        number = number.wrapping_mul(MULTIPLIER).wrapping_add(*object as u64);
    }
    number
}
