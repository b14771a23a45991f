//! What outcomes have in common.
ghost use Rattle.std.specs.Prelude.{◌≡◌, ◌&&◌, not};
ghost use Rattle.std.specs.List.{list_any};
ghost use Rattle.run_search.specs.contracts.ended.EndedPartialEq.TheImpl.{ghosts};
ghost use Rattle.view_outcomes.specs.Counts.{can_be_spent, has_spent, is_decided, is_spent, is_spent_at, most_values, values_in};

use crate::listing::Listed;
use run_search::Ended;

/// The most different values that any outcome has.
pub fn most_values(all: &[Listed]) -> usize
    ensures { result ≡ most_values all.now }
{
    let mut most = 0;
    for one in all {
        most = values_in(one.ends.as_slice()).max(most);
    }
    most
}

/// How many different values are decided.
pub fn values_in(ends: &[Ended]) -> usize
    ensures { result ≡ values_in ends.now }
{
    let mut count = 0;
    for at in 0..ends.len() {
        if is_last_to_decide(ends[at], &ends[at + 1..]) {
            count += 1;
        }
    }
    count
}

/// Whether a process has decided a value that none of these has.
fn is_last_to_decide(ended: Ended, later: &[Ended]) -> bool
    ensures { result ≡ (is_decided ended && not (list_any (ghosts.eq ended) later.now)) }
{
    matches!(ended, Ended::Decided(_)) && !later.contains(&ended)
}

/// Whether process `p` is spent in some outcome.
pub fn can_be_spent(all: &[Listed], p: usize) -> bool
    ensures { result ≡ can_be_spent all.now p }
{
    all.iter().any(|one| is_spent_at(one.ends.as_slice(), p))
}

/// Whether process `p` is spent.
fn is_spent_at(ends: &[Ended], p: usize) -> bool
    ensures { result ≡ is_spent_at p ends.now }
{
    p < ends.len() && is_spent(ends[p])
}

/// Whether any process is spent in some outcome.
pub fn is_any_spent(all: &[Listed]) -> bool
    ensures { result ≡ list_any (λ one. has_spent one.ends.items) all.now }
{
    all.iter().any(|one| has_spent(one.ends.as_slice()))
}

/// Whether any process is spent.
fn has_spent(ends: &[Ended]) -> bool
    ensures { result ≡ has_spent ends.now }
{
    ends.iter().any(|ended| is_spent(*ended))
}

fn is_spent(ended: Ended) -> bool
    ensures { result ≡ is_spent ended }
{
    matches!(ended, Ended::Spent)
}
