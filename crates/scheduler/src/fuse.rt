//! When a simulator crashes.
ghost use Rattle.std.specs.Prelude.{◌≡◌, Some, None};
ghost use Rattle.scheduler.specs.Drives.{HasLeft};

use std::marker::Model;

/// A crash point: after how many atomic steps of a simulator, counted from its first, it crashes; or that it doesn't.
#[derive(Clone, Copy, Debug, PartialEq, Eq)]
pub struct Fuse {
    after: Option<u64>,
}

impl Model for Fuse {
    ghost use Rattle.std.specs.Prelude.{ℕ, Option};

    ghost Value = { Option ℕ };

    ghost view = { λ f. f.after };

    ghost inverse = { λ after. record { after = after } };
}

impl Fuse {
    /// It crashes if it has taken exactly `steps` steps.
    pub fn after(steps: u64) -> Fuse
        ensures { result ≡ Some steps }
    {
        Fuse { after: Some(steps) }
    }

    /// It doesn't crash.
    pub fn none() -> Fuse
        ensures { result ≡ None }
    {
        Fuse { after: None }
    }

    /// How many steps it allows after `steps`, or the greatest number where it won't burn down.
    pub(crate) fn left(&self, steps: u64) -> u64
        ensures { HasLeft self.now steps result }
    {
        match self.after {
            Some(after) if after >= steps => after - steps,
            _ => u64::MAX,
        }
    }
}

impl Default for Fuse {
    ghost is_default = { λ fuse. fuse ≡ None };

    fn default() -> Fuse {
        Fuse::none()
    }
}
