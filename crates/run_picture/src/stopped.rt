//! Whether some simulator of a room can go on, as far as its steps and crashes show it.
ghost use Rattle.std.specs.Prelude.{◌≡◌, ◌||◌, not};
ghost use Rattle.run_picture.specs.Stopped.{ends, has_stopped, is_one_left, stops};

use room_spec::Spec;
use run_columns::Mark;
use simulator::Turn;
use simulator_lanes::Panel;

/// Whether some simulator of a room has neither crashed nor ended its last turn.
pub(crate) fn is_one_left(panel: &Panel) -> bool
    ensures { result ≡ is_one_left panel.now }
{
    let mut left = false;
    for simulator in 0..panel.simulators() {
        left = is_left_with(left, panel, simulator);
    }
    left
}

/// Whether one of some simulators is left, or this one.
fn is_left_with(left: bool, panel: &Panel, simulator: u8) -> bool
    ensures { result ≡ (left || not (has_stopped panel.now simulator)) }
{
    left || !has_stopped(panel, simulator)
}

fn has_stopped(panel: &Panel, simulator: u8) -> bool
    ensures { result ≡ has_stopped panel.now simulator }
{
    let spec = &panel.head().spec;
    panel
        .marks()
        .iter()
        .any(|mark| stops(spec, simulator, *mark))
}

fn stops(spec: &Spec, simulator: u8, mark: Mark) -> bool
    ensures { result ≡ stops spec.now simulator mark }
{
    match mark {
        Mark::Step(step) => {
            step.simulator == simulator && (step.turn == spec.turns() && ends(step.end))
        }
        Mark::Crash { simulator: other } => other == simulator,
    }
}

fn ends(turn: Turn) -> bool
    ensures { result ≡ ends turn }
{
    match turn {
        Turn::Still => false,
        Turn::Useful | Turn::Quiet => true,
    }
}
