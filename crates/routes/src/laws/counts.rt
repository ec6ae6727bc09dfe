// Counting blocks.
ghost use Rattle.routes.specs.Counts.Laws.{Pigeonhole};

pub fn pigeonhole() -> u8
    ensures { Pigeonhole }
{
    0
}
