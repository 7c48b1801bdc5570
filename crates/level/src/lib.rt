// The level byte (document 01, "Levels"). Its limits and its functions belong to the type.
#![tactic(auto)]

ghost use Rattle.std.specs.Prelude.{◌≡◌, ◌<◌};
ghost use Rattle.level.specs.Level.{rank, compartments, at_or_below, low, mislabelled};

#[derive(Clone, Copy)]
pub struct Level;

impl Level {
    // Bits 7 and 6 are the rank.
    pub const MAX_RANK: u8 = 3;

    // Bits 5 to 0 are compartments.
    pub const COMPARTMENTS: u8 = 6;

    // The ranks share the 256 levels evenly.
    const ONE_RANK: u8 = 255 / (Level::MAX_RANK + 1) + 1;

    const COMPARTMENT_SETS: u8 = 1 << Level::COMPARTMENTS;

    #[tactic(auto, unfolding(crate::specs::Level::rank))]
    pub fn rank(level: u8) -> u8
        ensures { result ≡ rank level }
    {
        level / Level::ONE_RANK
    }

    #[tactic(auto, unfolding(crate::specs::Level::compartments))]
    pub fn compartments(level: u8) -> u8
        ensures { result ≡ compartments level }
    {
        level % Level::COMPARTMENT_SETS
    }

    // a is at or below b: each compartment of a that b has too is all of a's.
    pub fn at_or_below(a: u8, b: u8) -> bool
        ensures { result ≡ at_or_below a b }
    {
        let own = Level::compartments(a);
        let common = own & Level::compartments(b);
        Level::rank(a) <= Level::rank(b) && common == own
    }

    #[tactic(auto, unfolding(crate::specs::Level::low))]
    pub fn is_low(observer: u8, level: u8) -> bool
        ensures { result ≡ low observer level }
    {
        Level::at_or_below(level, observer)
    }

    #[tactic(auto, using(crate::proofs::Labels::rank_higher, crate::proofs::Labels::lowest_rank))]
    pub fn is_mislabelled(level: u8) -> bool
        ensures { result ≡ mislabelled level }
    {
        Level::rank(level) == 0 && Level::compartments(level) != 0
    }
}
