//! A list of owners.

ghost use Rattle.std.specs.Prelude.{◌≡◌, [], ◌∷◌, ◌++◌, OnOk, OnErr};

use std::alloc::{AllocError, Global};
use std::marker::Model;

/// A list of owners, the first one first. Contracts see it as a list.
#[derive(Debug, Drop)]
pub struct Owners {
    owners: Vec<u32>,
}

impl Model for Owners {
    ghost use Rattle.std.specs.Prelude.{List, ℕ};

    ghost Value = { List ℕ };

    ghost view = { λ s. s.owners.items };
}

impl Owners {
    /// An empty list. It takes no memory.
    pub fn new(alloc: Global) -> Owners
        ensures { result ≡ [] }
    {
        Owners {
            owners: Vec::new(alloc),
        }
    }

    /// Appends the owner. The one refusal is want of memory; the list is then as before.
    pub fn push(&mut self, owner: u32) -> Result<(), AllocError>
        ensures ok { OnOk result (self.new ≡ self.old ++ owner ∷ []) }
        ensures err { OnErr result (self.new ≡ self.old) }
    {
        self.owners.push(owner)?;
        Ok(())
    }

    /// The list.
    pub fn as_slice(&self) -> &[u32]
        ensures { result.now ≡ self.now }
    {
        self.owners.as_slice()
    }
}
