// Questions about a state, and the words of its frame.
ghost use Rattle.std.specs.Prelude.{◌≡◌};
ghost use Rattle.al_check_here.specs.Standings.{at_word, is_immediate, is_nowhere, is_operation, is_whole, with_word, word_of};

use crate::state::CheckState;

impl CheckState {
    /// The next word of the frame.
    pub fn word(&self) -> u32
        ensures { result ≡ word_of self.now }
    {
        self.env.progress.words.frame
    }

    /// Sets the next word of the frame.
    pub fn set_word(&mut self, word: u32)
        ensures { self.new ≡ at_word self.old word }
    {
        self.env.progress.words.frame = word;
    }

    /// Takes the next word of the frame.
    pub fn take_word(&mut self)
        ensures { self.new ≡ with_word self.old }
    {
        let _ = self.env.progress.words.take_frame(1);
    }

    /// Whether no region is open, as after an error that ended the list.
    pub fn is_nowhere(&self) -> bool
        ensures { result ≡ is_nowhere self.now }
    {
        self.env.scope.is_empty()
    }

    /// Whether the next head or body is that of the unit, which is one subprogram.
    pub fn is_whole(&self) -> bool
        ensures { result ≡ is_whole self.now }
    {
        !self.unit.own.is_package && self.bodies.len() == 0
    }

    /// Whether the next head or body is that of an operation of a protected object.
    pub fn is_operation(&self) -> bool
        ensures { result ≡ is_operation self.now }
    {
        self.object.is_some() && self.bodies.len() == 0
    }

    /// Whether the place is immediately in a part of the unit.
    pub fn is_immediate(&self) -> bool
        ensures { result ≡ is_immediate self.now }
    {
        if self.blocks.len() != 0 {
            return false;
        }
        if self.unit.own.is_package {
            return self.bodies.len() == 0;
        }
        self.bodies.len() == 1
    }
}
