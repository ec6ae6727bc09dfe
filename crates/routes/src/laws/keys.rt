// Prefixes and their keys: the way to a node, and a place in it.
ghost use Rattle.routes.specs.Keys.Laws.{PrefixKey, KeysApart, KeyPrefix};

pub fn keys_are_prefixes() -> u8
    ensures key { PrefixKey }
    ensures apart { KeysApart }
    ensures back { KeyPrefix }
{
    0
}
