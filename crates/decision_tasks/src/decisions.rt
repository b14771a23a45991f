//! What the processes have decided.
ghost use Rattle.std.specs.Prelude.{◌≡◌};
ghost use Rattle.decision_tasks.specs.Decisions.{decision, decisions};

use protocol_lang::View;
use run_search::{Ended, Ends};

/// What each process has decided, if it has.
pub fn decisions_of(ends: &Ends) -> View
    ensures { result.items ≡ decisions ends.now.items }
{
    let mut view = View::new();
    for p in 0..ends.len() {
        view.push(decision(ends[p]));
    }
    view
}

fn decision(ended: Ended) -> Option<u32>
    ensures { result ≡ decision ended }
{
    match ended {
        Ended::Decided(v) => Some(v),
        Ended::Spent | Ended::Stopped => None,
    }
}
