//! What is left to chance.
ghost use Rattle.std.specs.Prelude.{◌≡◌, ◌<◌, ◌≤◌};
ghost use Rattle.room_sample.specs.Chances.{below, random_in, random_of};

use rand::RngExt;
use rand_core::SeedableRng;
use rand_xoshiro::Xoshiro256PlusPlus;

/// A generator of numbers that look random. The same seed gives the same numbers.
#[derive(Drop)]
pub(crate) struct Chances {
    random: Xoshiro256PlusPlus,
}

impl Chances {
    /// The generator of the schedule of this number, by this seed. Each schedule has one of its own.
    pub(crate) fn of(seed: u32, schedule: u32) -> Chances
        ensures { random_in result ≡ random_of seed schedule }
    {
        let own = u64::from(seed) * 4294967296 + u64::from(schedule);
        Chances {
            random: Xoshiro256PlusPlus::seed_from_u64(own),
        }
    }

    /// A number below `count`.
    pub(crate) fn below(&mut self, count: u32) -> u32
        requires { 0 < count }
        ensures within { result < count }
        ensures drawn { (result, random_in self.new) ≡ below count (random_in self.old) }
    {
        self.random.random_range(0..count)
    }
}
