// What the numbers of temporaries are.
ghost use Rattle.al_overload_slots.specs.Laws.{EachHasAWordOfItsOwn};

/// As long as there are words, a tree's temporaries have those from the first one on up to the next one after the tree, each once and in
/// source order.
pub fn each_has_a_word_of_its_own()
    ensures { EachHasAWordOfItsOwn }
{}
