//! Grammars as terms: the trees of a grammar, the lexemes of a tree, and reading from left to right by the next lexeme.
//!
//! A rule (`specs/Grammar.antt`) is a lexeme of a kind, one rule after another, a choice, an option, a repetition, or a construct
//! that nests. In a repetition after a mark it is the lexeme after the mark that decides, and a rule may depend on whether one more
//! construct may be open. A grammar gives what each construct has after its first word. Trees, their lexemes and the sentences
//! follow by computation. That constructs nest at most so deep is part of a tree's type.
//!
//! `IsClosed` and `is_clear` (`specs/Reading.antt`) compute whether the next lexeme alone decides what to read. For every such
//! grammar the functions below state what holds. They have no code: their contracts are the laws.
#![tactic(auto)]

ghost use Rattle.al_tree_grammar.specs.Laws.{FaultsAreFound, TreesAreFound, TreesAreUnique};

/// No two trees have one list of lexemes.
pub fn trees_are_unique()
    ensures { TreesAreUnique }
{}

/// `tree_of` gives the tree that has the lexemes, if there is one.
pub fn trees_are_found()
    ensures { TreesAreFound }
{}

/// `fault_of` gives the place of the fault: the length of the longest prefix that goes on to a sentence. It gives none at a
/// sentence.
pub fn faults_are_found()
    ensures { FaultsAreFound }
{}
