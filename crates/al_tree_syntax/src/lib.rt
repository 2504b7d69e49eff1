//! The whole grammar of the language, as rules of `al_tree_grammar`.
//!
//! `specs/Symbols.antt` has the kinds of lexemes, `specs/Constructs.antt` the constructs that nest, and
//! `specs/{Expressions, Declarations, Statements, Units, Rules}.antt` the rules, by subject. They are factored so that the
//! next lexeme alone decides what to read; after the `'` of a name it is the lexeme after the `'`.
//!
//! The functions below have no code: their contracts are the laws of the grammar.
#![tactic(auto)]

ghost use Rattle.al_tree_syntax.specs.Plain.{RulesArePlain};
ghost use Rattle.al_tree_syntax.specs.TreeLaws.{LexemesStay, SentencesAreTrees, TreesAreFound, TreesAreUnique};
ghost use Rattle.al_tree_syntax.specs.Laws.{ConstructsArePlaced, FaultsAreFound, LexemesAreLabelled, SymbolsAreNumbered, UnitsAreFound, UnitsAreUnique};

/// No two trees of compilation units have one list of lexemes (the grammar is unambiguous).
pub fn units_are_unique()
    ensures { UnitsAreUnique }
{}

/// `tree_of` gives the tree of a compilation unit that has the lexemes, if there is one.
pub fn units_are_found()
    ensures { UnitsAreFound }
{}

/// `fault_of` gives the place of the fault of each list of lexemes that is no compilation unit's.
pub fn faults_are_found()
    ensures { FaultsAreFound }
{}

/// A symbol is found by its number as a kind of lexeme.
pub fn symbols_are_numbered()
    ensures { SymbolsAreNumbered }
{}

/// The rules have a lexeme with a label exactly if its symbol is labelled: an identifier, a literal, or a reserved word or
/// delimiter whose place a tree keeps.
pub fn lexemes_are_labelled()
    ensures { LexemesAreLabelled }
{}

/// A construct is found by its place in the grammar.
pub fn constructs_are_placed()
    ensures { ConstructsArePlaced }
{}

/// A rule that was factored has the sentences of its plain form, as the Reference Manual writes it (ARM 3.3.1, 3.6, 4.1,
/// 4.3, 4.4, 5.1, 6.3, 9.1, 9.4, 10.1.1, 10.1.3).
pub fn rules_are_plain()
    ensures { RulesArePlain }
{}

/// The trees of compilation units as plain data have the lexemes of the grammar's trees that they stand for.
pub fn lexemes_stay()
    ensures { LexemesStay }
{}

/// No two trees of compilation units as plain data have one list of lexemes.
pub fn trees_are_unique()
    ensures { TreesAreUnique }
{}

/// `unit_of` gives the tree that has the lexemes, if its constructs nest no deeper than may be.
pub fn trees_are_found()
    ensures { TreesAreFound }
{}

/// The sentences are the lists of lexemes of the trees whose constructs nest no deeper than may be.
pub fn sentences_are_trees()
    ensures { SentencesAreTrees }
{}
