// Laws of the definitions in specs/.
ghost use Rattle.al_session_stream.specs.Cuts.{CutLaw};

/// `cut_at` cuts at the first place of the byte, and gives nothing if, and only if, the byte isn't there.
pub fn cut_is_first()
    ensures { CutLaw }
{}
