// Trees in memory: what keeps them standing, what a walk touches, and how nodes are read, edited and written.
ghost use Rattle.routes.specs.Repr.Laws.{ReprStays, WalksFollow, NodesRead, ImagesEdited, NodesWritten};

pub fn trees_stay() -> u8
    ensures { ReprStays }
{
    0
}

pub fn walks_follow() -> u8
    ensures { WalksFollow }
{
    0
}

pub fn copies_of_nodes() -> u8
    ensures read { NodesRead }
    ensures edited { ImagesEdited }
    ensures written { NodesWritten }
{
    0
}
