//! A deed in a place of its own.
use crate::forms::Deed;
use mg_bytes::OutOfMemory;
use std::alloc::Global;
use std::marker::Model;

/// A deed in a box, so that what asks for a report keeps no room for one. A contract sees the deed.
pub struct BoxedDeed {
    deed: Box<Deed>,
}

// Written out: a derived drop, and those of all its parts, are proved anew by each crate that lets one go.
impl Drop for BoxedDeed {
    fn drop(self) {
        let BoxedDeed { deed } = self;
        drop(deed);
    }
}

impl Model for BoxedDeed {
    ghost use Rattle.command_forms.specs.declared.forms.Deed.{Deed};

    ghost Value = { Deed };

    ghost view = { λ b. b.deed.value };
}

impl BoxedDeed {
    ghost use Rattle.std.specs.Prelude.{◌≡◌, IfOk};

    /// Puts a deed into a box. An error is for want of memory only.
    pub fn new(alloc: Global, deed: Deed) -> Result<Self, OutOfMemory>
        ensures { IfOk result (λ boxed. boxed ≡ deed) }
    {
        Ok(BoxedDeed {
            deed: Box::new(alloc, deed)?,
        })
    }

    /// The deed.
    pub fn deed(&self) -> &Deed
        ensures { result.now ≡ self.now }
    {
        &self.deed
    }
}
