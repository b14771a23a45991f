//! Safe agreement: how a simulator leaves one, what it gives, and its law.
//!
//! Simulators that propose to one agreement each have a level in it: 0 before they enter and after
//! they withdraw, 1 in the unsafe section, and 2 if their proposal is kept. One that enters raises its level to
//! 1, looks at all levels, and leaves. This is the safe agreement of E. Borowsky, E. Gafni, N. Lynch
//! and S. Rajsbaum, "The BG distributed simulation algorithm", Distributed Computing 14(3), 2001.
#![tactic(auto)]

ghost use Rattle.std.specs.Prelude.{◌≡◌, ◌==◌, IfNone, IfSome, position};
ghost use Rattle.safe_agreement.specs.Levels.{IsResolved, IsResolvedTo, leave_of, resolved_of};

pub mod laws;
mod packed;

pub use packed::{has_level, is_resolved, least_at, resolved_in};

/// The level to which a simulator goes when it leaves an agreement, by the levels that it saw when
/// it looked, one for each simulator, each 0 to 2: 0 if some level was 2, and else 2 (the end of a
/// proposal in the safe agreement of Borowsky et al. 2001).
pub fn leave_level(levels: &[u8]) -> u8
    ensures { result ≡ leave_of levels.now }
{
    if levels.contains(&2) { 0 } else { 2 }
}

/// The simulator whose proposal an agreement has chosen, by the levels of all simulators: the
/// least that is at level 2, if none is at level 1. `None` if one is at level 1 or none is
/// at level 2: then there is nothing to agree on yet (the safe agreement of Borowsky et al. 2001).
#[tactic(auto, using(crate::proofs::Resolving::found_in, crate::proofs::Resolving::none_in))]
pub fn resolved(levels: &[u8]) -> Option<usize>
    ensures exact { result ≡ resolved_of levels.now }
    // It is the least simulator at level 2, and none is at level 1.
    ensures found { IfSome result (λ simulator. IsResolvedTo levels.now simulator) }
    // There is one if some level is 2, and none is 1.
    ensures none { IfNone result (IsResolved levels.now → ⊥) }
{
    if levels.contains(&1) {
        return None;
    }
    first_at(levels, 2)
}

/// The least simulator at this level.
fn first_at(levels: &[u8], level: u8) -> Option<usize>
    ensures { result ≡ position (λ one. one == level) levels.now }
{
    levels.iter().position(|one| *one == level)
}
