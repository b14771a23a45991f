//! Lines that ask for steps, as most lines of a script do.
ghost use Rattle.std.specs.Prelude.{◌≡◌, ◌++◌, IfSome, codes};
ghost use Rattle.script_play.specs.Script.{command_in, steps_for};

use crate::entries::read_within;
use room_spec::cut_near;

/// The steps that a line asks for, with no command made: the bytes in the place of the room's name, which may be none;
/// the simulator; and how many. `None` if the line asks for no steps.
#[inline]
pub(crate) fn read_steps(line: &[u8]) -> Option<(&[u8], u8, u16)>
    ensures { IfSome result (λ asked. command_in line.now ≡ steps_for asked.0.now asked.1 asked.2) }
{
    let (name, numbers) = cut_near(after_step(line)?, b' ');
    let (sim, count) = cut_near(numbers?, b' ');
    let sim = read_within(0, 255, sim)? as u8;
    let count = read_within(1, 65535, count?)?; // a number has no space in it
    Some((name, sim, count))
}

/// What comes after the word `step` and a space.
fn after_step(line: &[u8]) -> Option<&[u8]>
    ensures { IfSome result (λ others. line.now ≡ codes "step " ++ others.now) }
{
    match line {
        [b's', b't', b'e', b'p', b' ', others @ ..] => Some(others),
        _ => None,
    }
}
