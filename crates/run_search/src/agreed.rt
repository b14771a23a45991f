//! The vectors of inputs that are made of the own inputs of a reduction's simulators. Each that they agree on is among them.
ghost use Rattle.std.specs.Prelude.{◌≡◌, ◌<◌, ◌≤◌, length};
ghost use Rattle.transcript.specs.Reductions.{AreFromOwn};
ghost use Rattle.run_search.specs.Agreed.{agreed_at, agreed_count, own_values, vector_at};

use arrayvec::ArrayVec;
use protocol_lang::MAX_PROCESSES;
use room_spec::{MAX_SIMULATORS, Spec};

/// How many vectors of inputs are made of the own inputs of a reduction's simulators, one of them for each process. In an ordinary
/// room there is none.
pub fn count_agreed(spec: &Spec) -> u64
    ensures { result ≡ agreed_count spec.now }
{
    let values = own_values(spec);
    (values.len() as u64).pow(spec.n() as u32)
}

/// The vector of this index, from 0, when all are in order: the input of the last process changes first.
pub fn agreed_inputs(spec: &Spec, index: u64) -> ArrayVec<u32, MAX_PROCESSES>
    requires { index < agreed_count spec.now }
    ensures value { result.items ≡ agreed_at spec.now index }
    // Each process has the own input of some simulator.
    ensures own { AreFromOwn spec.now result.items }
{
    let values = own_values(spec);
    vector_at(values.as_slice(), spec.n(), index)
}

/// The different own inputs of the simulators, in the order of the simulators that have them. An ordinary room has none.
pub fn own_values(spec: &Spec) -> ArrayVec<u32, MAX_SIMULATORS>
    ensures value { result.items ≡ own_values spec.now }
    ensures few { length result.items ≤ MAX_SIMULATORS }
{
    let _ = spec.shape(); // for the proof: there are no more own inputs than simulators
    let mut values = ArrayVec::new();
    for i in 0..spec.m() {
        let Some(value) = spec.own(i) else {
            continue;
        };
        if !values.contains(&value) {
            values.push(value);
        }
    }
    values
}

/// The vector of `n` of these values that has this index when all are in order.
fn vector_at(values: &[u32], n: usize, index: u64) -> ArrayVec<u32, MAX_PROCESSES>
    requires some { 1 ≤ length values.now }
    requires few { n ≤ MAX_PROCESSES }
    ensures { result.items ≡ vector_at values.now n index }
{
    if n == 0 {
        return ArrayVec::new();
    }
    let base = values.len() as u64;
    let mut vector = vector_at(values, n - 1, index / base);
    vector.push(values[(index % base) as usize]);
    vector
}
