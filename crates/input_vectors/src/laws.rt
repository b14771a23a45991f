//! Laws of vectors of inputs. Each is what its function ensures.
ghost use Rattle.std.specs.Prelude.{◌≡◌, ℕ, List, Ok, length};
ghost use Rattle.std.specs.List.{AllByRecursion, Contains};
ghost use Rattle.input_vectors.specs.Values.{AreValues, values_in};
ghost use Rattle.input_vectors.specs.Vectors.{vector_count, vectors};

/// The vectors of some values are the lists of `n` of these values, and no other list; of k values there are k to the power n.
pub fn vectors_are_all()
    ensures complete { (values vector : List ℕ) → AllByRecursion (Contains values) vector → Contains (vectors values (length vector)) vector }
    ensures sound { (values vector : List ℕ) (n : ℕ) → Contains (vectors values n) vector → (length vector ≡ n) × AllByRecursion (Contains values) vector }
    ensures count { (values : List ℕ) (n : ℕ) → length (vectors values n) ≡ vector_count values n }
{}

/// Values that are read are 1 to 16, and no two are the same.
pub fn values_are_few()
    ensures { (text values : List ℕ) → values_in text ≡ Ok values → AreValues values }
{}
