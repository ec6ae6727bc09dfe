// What may be seen of many processors at once: what is under way, who leads, and which turns count.
ghost use Rattle.routes.specs.Run.Laws.{UnderWay, OneLeads, WaitsForQuestions, TurnCounts};

pub fn under_way() -> u8
    ensures { UnderWay }
{
    0
}

pub fn one_leads() -> u8
    ensures { OneLeads }
{
    0
}

pub fn turn_counts() -> u8
    ensures counts { TurnCounts }
    ensures waits { WaitsForQuestions }
{
    0
}
