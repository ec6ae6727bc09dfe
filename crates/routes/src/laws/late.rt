// Memory with late stores: what a processor sees of its own stores, and of their arriving.
ghost use Rattle.routes.specs.Late.Laws.{ArrivesUnseen, FenceArrives, OwnStores, NoneLate};

pub fn arrives_unseen() -> u8
    ensures { ArrivesUnseen }
{
    0
}

pub fn fence_arrives() -> u8
    ensures { FenceArrives }
{
    0
}

pub fn own_stores() -> u8
    ensures none { NoneLate }
    ensures own { OwnStores }
{
    0
}
