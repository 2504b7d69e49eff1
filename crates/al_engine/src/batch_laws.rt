//! A law of compiling, as the contract of a function without code.
ghost use Rattle.al_engine.specs.Replies.{ReplyIsOne};

/// The errors, what a partition lacks, the lines of a cycle, the order and the image depend only on the files, the outcomes of their units and the
/// main unit.
pub fn reply_is_one()
    ensures { ReplyIsOne }
{}
