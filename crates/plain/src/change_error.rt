// Why a change has no effect.
ghost use Rattle.std.specs.Prelude.{◌≡◌};
ghost use Rattle.plain.specs.declared.change_error.ChangeError.TheVariants.{Refused};

use routes::Refusal;

// No Option of a refusal: that there is no room is an error too.
#[derive(Clone, Copy)]
pub enum ChangeError {
    // it is turned away
    Refused(Refusal),
    // it comes to more routes than a table has room for
    NoRoom,
}

impl From<Refusal> for ChangeError {
    ghost from_gives = { λ k r. r ≡ Refused k };

    fn from(refusal: Refusal) -> ChangeError {
        ChangeError::Refused(refusal)
    }
}
