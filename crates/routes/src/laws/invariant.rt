// What is known between two turns: it starts, it stays, it lets a turn be taken, and it is known again after the turn.
ghost use Rattle.routes.specs.Invariant.Laws.{KnownStarts, KnownStays, KnownBegins, KnownAllows, KnownSteps};

pub fn known_starts() -> u8
    ensures { KnownStarts }
{
    0
}

pub fn known_stays() -> u8
    ensures arrives { KnownStays }
    ensures begins { KnownBegins }
{
    0
}

pub fn known_allows() -> u8
    ensures { KnownAllows }
{
    0
}

pub fn known_steps() -> u8
    ensures { KnownSteps }
{
    0
}
