// Which words of frames and of a unit are taken.
ghost use Rattle.std.specs.Prelude.{◌≡◌};
ghost use Rattle.al_decl_judged.specs.WordCounts.{after_data, after_frame};

/// The next words that are free: of the frame of the innermost body, and of the unit.
#[derive(Clone, Copy)]
pub struct Words {
    /// The next word of the frame of the innermost body.
    pub frame: u32,
    /// The next word of the unit.
    pub data: u32,
}

impl Words {
    /// Takes this many words of the frame. The result is the first of them.
    pub fn take_frame(&mut self, words: u32) -> u32
        ensures first { result ≡ self.old.frame }
        ensures taken { self.new ≡ after_frame self.old words }
    {
        let first = self.frame;
        self.frame = first.saturating_add(words);
        first
    }

    /// Takes this many words of the unit. The result is the first of them.
    pub fn take_data(&mut self, words: u32) -> u32
        ensures first { result ≡ self.old.data }
        ensures taken { self.new ≡ after_data self.old words }
    {
        let first = self.data;
        self.data = first.saturating_add(words);
        first
    }
}
