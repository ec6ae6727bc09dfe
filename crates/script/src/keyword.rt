// The words that have a meaning of their own.
ghost use Rattle.std.specs.Prelude.{◌≡◌};
ghost use Rattle.script.specs.Keywords.{keyword_of};

#[derive(Clone, Copy)]
pub enum Keyword {
    Find,
    Put,
    Take,
    Go,
    On,
    Any,
    Arrive,
}

// No TryFrom: a word that is none of these is no error.
pub fn keyword_of(word: &[u8]) -> Option<Keyword>
    ensures { result ≡ keyword_of word.now }
{
    match word {
        b"find" => Some(Keyword::Find),
        b"put" => Some(Keyword::Put),
        b"take" => Some(Keyword::Take),
        b"go" => Some(Keyword::Go),
        b"on" => Some(Keyword::On),
        b"any" => Some(Keyword::Any),
        b"arrive" => Some(Keyword::Arrive),
        _ => None,
    }
}
