// One route of the list.
ghost use Rattle.std.specs.Prelude.{◌≡◌};
ghost use Rattle.routes.specs.Routes.{fits};
ghost use Rattle.plain.specs.Entries.{blank};

use routes::Prefix;

#[derive(Clone, Copy)]
pub struct Entry {
    pub prefix: Prefix,
    pub tells: u32,
}

// What stands where there is no route; by hand, since no Default is derived for Prefix, which has a ghost field.
impl Default for Entry {
    ghost is_default = { λ e. e ≡ blank };

    fn default() -> Entry {
        Entry {
            prefix: Prefix { len: 0, bits: 0 },
            tells: 0,
        }
    }
}

impl Entry {
    // Does the address begin with the prefix?
    pub fn fits(self, address: u32) -> bool
        ensures { result ≡ fits self.prefix.len self.prefix.bits address }
    {
        let behind = 32 - self.prefix.len;
        (address as u64) >> behind == (self.prefix.bits as u64) >> behind
    }
}
