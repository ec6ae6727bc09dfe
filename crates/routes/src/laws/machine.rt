// What is promised of the machines.
ghost use Rattle.routes.specs.Machine.Laws.{LookupsEnd};

// A lookup ends within 13 turns.
pub fn lookups_end() -> u8
    ensures { LookupsEnd }
{
    0
}
