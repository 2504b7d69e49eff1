// What holds of the tokens of every source. The functions have no code: their contracts are the laws.
ghost use Rattle.al_lex.specs.Laws.{EndIsAfter, FaultEndsCut, PiecesAreLongest, PlacesRise, TokensAreCut, TokensLieInText};

/// A source is cut into pieces in one way: each is the longest that begins where the one before ended.
pub fn texts_are_cut()
    ensures tokens { TokensAreCut }
    ensures fault { FaultEndsCut }
    ensures end { EndIsAfter }
{}

/// Each piece is the longest that begins there, and well formed; or the fault says what is wrong with it.
pub fn pieces_are_longest()
    ensures { PiecesAreLongest }
{}

/// The spans of a source's tokens lie in the source, each after the one before.
pub fn tokens_lie_in_text()
    ensures { TokensLieInText }
{}

/// The places of a source's tokens rise: by lines, and on one line by columns.
pub fn places_rise()
    ensures { PlacesRise }
{}
