//! All vectors of some values.
ghost use Rattle.std.specs.Prelude.{◌≡◌, ◌≤◌, ◌∷◌, ◌++◌, ◌^◌, IfOk, OnOk, SomeIff, map};
ghost use Rattle.std.specs.List.{flat_map};
ghost use Rattle.input_vectors.specs.Vectors.{entries_of, most_vectors, vectors};

use std::alloc::{AllocError, Global};

/// How many vectors a room is judged with at most.
const MAX_VECTORS: usize = 65536;

/// How many vectors of `n` of some values there are, if they are not too many.
pub fn count_if_few(values: usize, n: usize) -> Option<usize>
    requires { n ≤ 16 }
    ensures { SomeIff result (values ^ n ≤ most_vectors) (values ^ n) }
{
    let count = values.checked_pow(n as u32)?;
    if count > MAX_VECTORS {
        return None;
    }
    Some(count)
}

/// All vectors of `n` of these values, the first entry slowest.
///
/// # Errors
///
/// An allocation that fails.
pub fn all_vectors(alloc: Global, values: &[u32], n: usize) -> Result<Vec<Vec<u32>>, AllocError>
    ensures { IfOk result (λ all. entries_of all.items ≡ vectors values.now n) }
{
    let mut all = Vec::new(alloc);
    all.push(Vec::new(alloc))?;
    for _ in 0..n {
        all = longer(alloc, values, all.as_slice())?;
    }
    Ok(all)
}

/// Each of these values in front of each of these vectors.
fn longer(alloc: Global, values: &[u32], vectors: &[Vec<u32>]) -> Result<Vec<Vec<u32>>, AllocError>
    ensures { IfOk result (λ all. entries_of all.items ≡ flat_map (λ value. map (λ rest. value ∷ rest) (entries_of vectors.now)) values.now) }
{
    let mut all = Vec::new(alloc);
    for value in values {
        put_in_front(alloc, *value, vectors, &mut all)?;
    }
    Ok(all)
}

/// Appends the vectors with this value in front of each of these.
fn put_in_front(
    alloc: Global,
    value: u32,
    vectors: &[Vec<u32>],
    all: &mut Vec<Vec<u32>>,
) -> Result<(), AllocError>
    ensures { OnOk result (entries_of all.new.items ≡ entries_of all.old.items ++ map (λ rest. value ∷ rest) (entries_of vectors.now)) }
{
    for rest in vectors {
        all.push(in_front(alloc, value, rest.as_slice())?)?;
    }
    Ok(())
}

/// The value, and the rest after it.
fn in_front(alloc: Global, value: u32, rest: &[u32]) -> Result<Vec<u32>, AllocError>
    ensures { IfOk result (λ vector. vector.items ≡ value ∷ rest.now) }
{
    let mut vector = Vec::new(alloc);
    vector.push(value)?;
    vector.extend_from_slice(rest)?;
    Ok(vector)
}
