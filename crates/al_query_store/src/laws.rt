//! Laws of counts. The function does nothing: its contract is the laws.
ghost use Rattle.std.specs.Prelude.{◌≡◌, ◌≤◌, ◌+◌, ◌||◌, ℕ, Bool, true, false};
ghost use Rattle.al_query_store.specs.Counting.{IsCount};
ghost use Rattle.al_query_store.specs.Changes.{Spot, same_spot};

/// A test holds for one number of places; for no more than a wider test; and for those of two tests that exclude each other together.
pub fn counts_are_one()
    ensures one { (test : Spot → Bool) (m n : ℕ) → IsCount same_spot test m → IsCount same_spot test n → m ≡ n }
    ensures fewer { (few many : Spot → Bool) (m n : ℕ) → ((p : Spot) → few p ≡ true → many p ≡ true) → IsCount same_spot few m → IsCount same_spot many n → m ≤ n }
    ensures both { (one two all : Spot → Bool) (m n k : ℕ) → ((p : Spot) → all p ≡ (one p || two p)) → ((p : Spot) → one p ≡ true → two p ≡ false) → IsCount same_spot one m → IsCount same_spot two n → IsCount same_spot all k → k ≡ m + n }
{}
