// Building a change: what earlier pieces decide, and the new tree piece by piece.
ghost use Rattle.routes.specs.Build.Laws.{EarlierDecide, PiecesEdited, PiecesWritten, ChangesBuilt, FullIsTooMuch};

pub fn earlier_pieces_decide() -> u8
    ensures { EarlierDecide }
{
    0
}

pub fn changes_are_built() -> u8
    ensures edited { PiecesEdited }
    ensures written { PiecesWritten }
    ensures built { ChangesBuilt }
{
    0
}

pub fn full_is_too_much() -> u8
    ensures { FullIsTooMuch }
{
    0
}
