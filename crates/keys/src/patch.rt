// The key that patches and cancels meet by.
ghost use Rattle.keys.specs.Keys.{same_key};
ghost use Rattle.std.proofs.Common.{rules};

use search::entry::Entry;
use search::key::Key;

// A sector, and a length in sectors.
#[derive(Clone, Copy, PartialEq, Eq, Debug)]
pub struct PatchKey {
    pub sector: i64,
    pub length: u32,
}

impl Key for PatchKey {
    ghost same = { same_key };

    ghost reflexive = { Prim.search rules };

    ghost symmetric = { Prim.search rules };

    ghost transitive = { Prim.search rules };

    fn same_as(&self, other: &PatchKey) -> bool {
        self == other
    }
}

// A key is an entry that is found by itself.
impl Entry for PatchKey {
    type By = PatchKey;

    ghost by = { λ e. e };

    fn by(&self) -> &PatchKey {
        self
    }
}
