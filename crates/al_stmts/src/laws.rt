// Laws of exit statements.
ghost use Rattle.std.specs.Prelude.{◌≡◌, ◌<◌, ℕ, List, length, slice_index_or, IsTrue, IsFalse, Option, Some, None};
ghost use Rattle.std.specs.List.{All};
ghost use Rattle.al_stmts.specs.Exits.{EnclosingLoops, loops_between, may_leave};

/// An exit statement leaves the innermost loop that it may leave: it may leave that one, and none further in (ARM 5.7(4, 5)).
pub fn an_exit_leaves_the_innermost_loop()
    ensures may { (loops : EnclosingLoops) (name : Option (List ℕ)) (n : ℕ) (d : Option (List ℕ)) → loops_between loops name ≡ Some n → (n < length loops) × IsTrue (may_leave name (slice_index_or loops n d)) }
    ensures innermost { (loops : EnclosingLoops) (name : Option (List ℕ)) (n k : ℕ) (d : Option (List ℕ)) → loops_between loops name ≡ Some n → k < n → IsFalse (may_leave name (slice_index_or loops k d)) }
{}

/// If an exit statement leaves no loop, it may leave none of those round it.
pub fn no_exit_where_no_loop()
    ensures { (loops : EnclosingLoops) (name : Option (List ℕ)) → loops_between loops name ≡ None → All (λ loop. IsFalse (may_leave name loop)) loops }
{}
