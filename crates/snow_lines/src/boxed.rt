use snow_base::Id;
use std::alloc::{AllocError, Global};
use std::marker::Model;

/// An identifier in a box. Contracts see the identifier.
/// Rule: this project's own.
#[derive(Drop)]
pub struct BoxedId {
    id: Box<Id>,
}

impl Model for BoxedId {
    ghost use Rattle.std.specs.Prelude.{ℕ, List};

    ghost Value = { List ℕ };

    ghost view = { λ a. a.id.value };
}

impl BoxedId {
    ghost use Rattle.std.specs.Prelude.{◌≡◌, IfOk};

    /// Puts an identifier in a box. On want of memory it returns `AllocError`.
    /// Rule: this project's own.
    pub fn new(alloc: Global, id: Id) -> Result<Self, AllocError>
        ensures { IfOk result (λ r. r ≡ id) }
    {
        let id = Box::new(alloc, id)?;
        Ok(BoxedId { id })
    }

    /// Returns the identifier.
    /// Rule: this project's own.
    pub fn id(&self) -> &Id
        ensures { result.now ≡ self.now }
    {
        &self.id
    }
}
