//! Who acts in a schedule, in what order, and when who crashes, as far as it is drawn before the first step.
ghost use Rattle.std.specs.Prelude.{◌≡◌, ◌<◌, ◌≤◌, length, slice_set};
ghost use Rattle.room_sample.specs.Chances.{random_in};
ghost use Rattle.room_sample.specs.Drawn.{IsFirstHighest, IsPicked, active_from, fuse_from, length_from, most_drawn, most_steps, one_from, rank_from, style_from};

use crate::chances::Chances;
use arrayvec::ArrayVec;
use room_spec::{MAX_SIMULATORS, Spec};

/// A stretch has at most 2 ^ k steps, for a k below this one.
const POWERS: u32 = 7;

/// How many ranks there are, below which one falls and above which each sets out.
const RANKS: u32 = 65536;

/// How a schedule is drawn.
#[derive(Clone, Copy)]
pub(crate) struct Style {
    /// Whether the simulator of the highest rank acts, as in probabilistic concurrency testing (Burckhardt, Kothari, Musuvathi and
    /// Nagarakatte 2010). Otherwise any may be next.
    by_rank: bool,
    /// How many of two fuses burn down inside an agreement: 0, 1 or 2.
    aimed: u32,
    /// Those burn down in one of this number of agreements that the simulator enters first.
    spread: u32,
}

/// When a simulator crashes.
#[derive(Clone, Copy, Default)]
pub(crate) enum Fuse {
    #[default]
    Never,
    /// After this number of steps.
    After { steps: u32 },
    /// Inside an agreement: the next that it enters after this number of others.
    Inside { others: u32 },
}

/// A simulator that may take more steps.
#[derive(Clone, Copy, Default)]
pub(crate) struct Active {
    pub(crate) simulator: u8,
    pub(crate) rank: u32,
    pub(crate) fuse: Fuse,
}

/// Those who may take more steps.
pub(crate) type AllActive = ArrayVec<Active, MAX_SIMULATORS>;

/// How a schedule is drawn, which is drawn first.
pub(crate) fn random_style(chances: &mut Chances) -> Style
    ensures drawn { (result, random_in chances.new) ≡ style_from (random_in chances.old) }
    ensures some { 0 < result.spread }
{
    let by_rank = chances.below(2) == 0;
    let aimed = chances.below(3);
    let spread = 1 << chances.below(4);
    Style {
        by_rank,
        aimed,
        spread,
    }
}

/// All simulators of a room, about half of which have a fuse.
pub(crate) fn all_active(spec: &Spec, style: Style, chances: &mut Chances) -> AllActive
    requires { 0 < style.spread }
    ensures { (result.items, random_in chances.new) ≡ active_from spec.now style spec.now.simulators (random_in chances.old) }
{
    let mut all = ArrayVec::new();
    for simulator in 0..spec.m() {
        all.push(random_active(spec, style, simulator as u8, chances));
    }
    all
}

/// A simulator with its rank and its fuse.
fn random_active(spec: &Spec, style: Style, simulator: u8, chances: &mut Chances) -> Active
    requires { 0 < style.spread }
    ensures { (result, random_in chances.new) ≡ one_from spec.now style simulator (random_in chances.old) }
{
    let rank = RANKS + chances.below(RANKS);
    let fuse = random_fuse(spec, style, chances);
    Active {
        simulator,
        rank,
        fuse,
    }
}

/// A fuse, or none.
fn random_fuse(spec: &Spec, style: Style, chances: &mut Chances) -> Fuse
    requires { 0 < style.spread }
    ensures { (result, random_in chances.new) ≡ fuse_from spec.now style (random_in chances.old) }
{
    if chances.below(2) == 0 {
        return Fuse::Never;
    }
    if chances.below(2) < style.aimed {
        let others = chances.below(style.spread);
        return Fuse::Inside { others };
    }
    let steps = chances.below(most_steps(spec));
    Fuse::After { steps }
}

/// How many steps a simulator takes if it takes a turn for each process and round. A turn has n + 7 steps and two for each word of
/// memory, and a scan: one load of a single word, or two collects of several.
fn most_steps(spec: &Spec) -> u32
    ensures value { result ≡ most_steps spec.now }
    ensures some { 0 < result }
{
    let n = spec.n() as u32;
    let words = spec.shape().memory_words() as u32;
    let scan = if words == 1 { 1 } else { 2 * words };
    n * spec.rounds() as u32 * (n + 7 + 2 * words + scan)
}

/// How many steps a simulator is to take: short stretches and long ones.
pub(crate) fn random_length(chances: &mut Chances) -> u16
    ensures drawn { (result, random_in chances.new) ≡ length_from (random_in chances.old) }
    ensures some { 1 ≤ result }
    ensures few { result ≤ most_drawn }
{
    let most = 1 << chances.below(POWERS);
    chances.below(most) as u16 + 1
}

/// The rank after a stretch: in one case of eight it falls, below all that haven't fallen.
pub(crate) fn random_rank(rank: u32, chances: &mut Chances) -> u32
    ensures { (result, random_in chances.new) ≡ rank_from rank (random_in chances.old) }
{
    if chances.below(8) == 0 {
        chances.below(RANKS)
    } else {
        rank
    }
}

/// The index of the one who acts next.
pub(crate) fn random_pick(style: Style, active: &AllActive, chances: &mut Chances) -> usize
    requires { 0 < length active.now.items }
    ensures picked { IsPicked style active.now.items (random_in chances.old) result (random_in chances.new) }
    ensures there { result < length active.now.items }
{
    if style.by_rank {
        first_highest(active)
    } else {
        chances.below(active.len() as u32) as usize
    }
}

/// The index of the first one of the highest rank.
fn first_highest(active: &AllActive) -> usize
    requires { 0 < length active.now.items }
    ensures highest { IsFirstHighest active.now.items result }
    ensures there { result < length active.now.items }
{
    let mut best = Highest { at: 0, rank: 0 };
    for at in 0..active.len() {
        let Some(one) = active.get(at) else {
            unreachable!() // it is below their number
        };
        best = higher(best, at, one.rank);
    }
    best.at
}

/// The first one of the highest rank so far.
#[derive(Clone, Copy)]
struct Highest {
    at: usize,
    rank: u32,
}

/// The one that was the highest so far, or the next, if that has a higher rank.
fn higher(best: Highest, at: usize, rank: u32) -> Highest
    ensures higher { best.rank < rank → (result.at ≡ at) × (result.rank ≡ rank) }
    ensures same { rank ≤ best.rank → (result.at ≡ best.at) × (result.rank ≡ best.rank) }
{
    if best.rank < rank {
        Highest { at, rank }
    } else {
        best
    }
}

/// Puts a simulator in the place of another.
pub(crate) fn put(active: &mut AllActive, at: usize, one: Active)
    requires { at < length active.old.items }
    ensures { active.new.items ≡ slice_set active.old.items at one }
{
    active[at] = one;
}
