// What sources are read as. The functions do nothing: their contracts are the laws.
ghost use Rattle.al_unit.specs.Laws.{TextsAreRead, TextsAreReadAlike};

use al_tree_syntax::{faults_are_found, sentences_are_trees, trees_are_found};

/// Each source has one reading: the one tree of its tokens, or its first lexical fault, or its syntax fault.
pub fn texts_are_read()
    ensures { TextsAreRead }
{
    trees_are_found();
    sentences_are_trees();
    faults_are_found();
}

/// What the files of two libraries are read as depends only on their sources, so that equal sources are read alike.
pub fn texts_are_read_alike()
    ensures { TextsAreReadAlike }
{}
