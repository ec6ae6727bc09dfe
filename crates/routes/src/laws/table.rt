// Lookups in a table, and what pieces of a change do to them.
ghost use Rattle.routes.specs.Table.Laws.{FindByLookups, PieceLookups, PieceLengths, TakesDecided};

pub fn find_by_lookups() -> u8
    ensures { FindByLookups }
{
    0
}

pub fn pieces_and_lookups() -> u8
    ensures lookups { PieceLookups }
    ensures lengths { PieceLengths }
    ensures takes { TakesDecided }
{
    0
}
