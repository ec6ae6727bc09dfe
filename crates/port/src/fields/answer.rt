// Answers as numbers.
ghost use Rattle.std.specs.Prelude.{◌≡◌, Some as Some'};
ghost use Rattle.std.specs.Result.{result_ok};
ghost use Rattle.port.specs.Fields.{answer_of};

use super::{AnswerWords, UnknownState};
use routes::Answer;

impl From<Answer> for AnswerWords {
    ghost from_gives = { λ a w. answer_of w ≡ Some' a };

    fn from(answer: Answer) -> AnswerWords {
        match answer {
            Answer::Found(len, tells) => AnswerWords {
                kind: 1,
                len,
                tells,
            },
            Answer::Nothing => AnswerWords {
                kind: 2,
                len: 0,
                tells: 0,
            },
            Answer::Done => AnswerWords {
                kind: 3,
                len: 0,
                tells: 0,
            },
            Answer::Full => AnswerWords {
                kind: 4,
                len: 0,
                tells: 0,
            },
            Answer::No(why) => AnswerWords {
                kind: 5,
                len: why,
                tells: 0,
            },
        }
    }
}

impl TryFrom<AnswerWords> for Answer {
    type Error = UnknownState;

    ghost try_from_gives = { λ w r. result_ok r ≡ answer_of w };

    fn try_from(words: AnswerWords) -> Result<Answer, UnknownState> {
        match words.kind {
            1 => Ok(Answer::Found(words.len, words.tells)),
            2 => Ok(Answer::Nothing),
            3 => Ok(Answer::Done),
            4 => Ok(Answer::Full),
            5 => Ok(Answer::No(words.len)),
            _ => Err(UnknownState),
        }
    }
}
