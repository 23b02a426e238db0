//! Tasks in normal form: the class 3S, recipes and routes, defined in specs/ and proved right. The functions here carry the theorems.
#![tactic(auto)]

ghost use Rattle.std.specs.Prelude.{◌≡◌};
ghost use Rattle.theory.specs.Bound.{longest_route};
ghost use Rattle.theory.specs.Judgement.{judgement};
ghost use Rattle.theory.specs.Theorems.{ClassIsMeant, RouteDoesErrand, NoWayIsRight, RouteIsShort};

use words::MOST_LATCHES;

/// What is said of an errand.
#[derive(Clone, Copy, PartialEq, Eq, Debug)]
pub enum Judgement {
    /// It is in the class 3S, and its route does it.
    Way,
    /// It is in the class 3S, and no list of legal moves does it.
    NoWay,
    /// It is not in the class 3S.
    Outside,
}

/// The judgement on an errand, by whether it is in the class and whether a latch wanted at 1 has no kept recipe to 1.
/// The theorems say what each judgement means: `class` what lies outside, `route` what a way is, `none` what no way is.
#[tactic(auto, using(crate::proofs::Meant::class_is_meant, crate::proofs::Theorems::judged_right))]
pub fn judge(in_class: bool, no_way: bool) -> Judgement
    ensures answer { result ≡ judgement in_class no_way }
    ensures class { ClassIsMeant }
    ensures route { RouteDoesErrand }
    ensures none { NoWayIsRight }
{
    match (in_class, no_way) {
        (false, _) => Judgement::Outside,
        (true, true) => Judgement::NoWay,
        (true, false) => Judgement::Way,
    }
}

/// The most moves that a route of n latches can have: (5 × 3^(n − 1) − 1) / 2. Absent unless there are 1 to 32 latches.
#[tactic(auto, using(crate::proofs::Theorems::route_is_short, crate::proofs::Lengths::three_powers))]
pub fn longest_route(latches: u8) -> Option<u64>
    ensures answer { result ≡ longest_route latches }
    ensures short { RouteIsShort }
{
    match latches {
        1..=MOST_LATCHES => Some((5 * 3_u64.pow(u32::from(latches) - 1) - 1) / 2),
        _ => None,
    }
}
