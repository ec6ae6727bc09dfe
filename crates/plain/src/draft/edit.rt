// Routes put in and taken out.
ghost use Rattle.std.specs.Prelude.{◌≡◌, ◌+◌, ◌<◌, ◌≤◌, ◌∷◌};
ghost use Rattle.arrayvec.specs.ArrayVec.{array_vec_len};
ghost use Rattle.routes.specs.Routes.{has, without};
ghost use Rattle.plain.specs.Entries.{route_for};
ghost use Rattle.plain.specs.Tables.{draft_routes};

use super::Draft;
use crate::entry::Entry;
use routes::Prefix;

impl Draft {
    // Has it the route of a prefix?
    pub fn contains(&self, prefix: Prefix) -> bool
        ensures { result ≡ has prefix.len prefix.bits (draft_routes self.now) }
    {
        self.entries.iter().any(|e| e.prefix == prefix)
    }

    // Takes out the route of a prefix; the others stay in their order.
    pub fn take_out(&mut self, prefix: Prefix)
        ensures routes { draft_routes self.new ≡ without prefix.len prefix.bits (draft_routes self.old) }
        ensures fewer { array_vec_len self.new.entries ≤ array_vec_len self.old.entries }
    {
        self.entries.retain(|e| e.prefix != prefix);
    }

    // Puts a route in, in place of the one with the same prefix if there is one.
    pub fn put_in(&mut self, prefix: Prefix, tells: u32)
        requires { array_vec_len self.old.entries < 2056 }
        ensures routes { draft_routes self.new ≡ route_for prefix tells ∷ without prefix.len prefix.bits (draft_routes self.old) }
        ensures more { array_vec_len self.new.entries ≤ array_vec_len self.old.entries + 1 }
    {
        self.take_out(prefix);
        self.entries.push(Entry { prefix, tells });
    }
}
