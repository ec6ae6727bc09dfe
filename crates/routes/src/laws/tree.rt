// Trees of nodes: what an edit does to them, how many nodes they have, and what a walk finds.
ghost use Rattle.routes.specs.Tree.Laws.{LooksEdited, CountsEdited, FewNodes, PiecesEdit, WalksFind};

pub fn edits_of_trees() -> u8
    ensures looks { LooksEdited }
    ensures counts { CountsEdited }
    ensures pieces { PiecesEdit }
{
    0
}

pub fn few_nodes() -> u8
    ensures { FewNodes }
{
    0
}

pub fn walks_find() -> u8
    ensures { WalksFind }
{
    0
}
