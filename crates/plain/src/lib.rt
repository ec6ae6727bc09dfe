// A table of routes as a plain list: what a lookup finds, and what a change makes of it.
#![tactic(auto)]

ghost use Rattle.plain.specs.Tables.{CountsRoutes};

mod change_error;
mod draft;
mod entry;
mod size;
mod table;
#[cfg(test)]
mod tests;

pub use change_error::ChangeError;
pub use size::ROOM;
pub use table::PlainTable;

// A table's count is the length of its list of routes: a theorem.
pub fn counts_routes() -> u8
    ensures { CountsRoutes }
{
    0
}
