// The length and the bits of a route.
ghost use Rattle.std.specs.Prelude.{T};
ghost use Rattle.routes.specs.Routes.{clean};

// The first len of 32 bits, in front; the bits behind them are 0.
#[derive(Clone, Copy, PartialEq, Eq)]
pub struct Prefix {
    pub len: u8,
    pub bits: u32,
    ghost clean: { T (clean len bits) },
}
