use snow_base::Id;
use std::alloc::{AllocError, Global};
use std::marker::Model;
use std::slice;

// Most blocks have one child at most, which stands here itself, so that it takes no memory.
#[derive(Debug, Drop)]
enum Form {
    Few(Option<Id>),
    Several(Vec<Id>),
}

/// The children of a block, in order of issue.
#[derive(Debug, Drop)]
pub(crate) struct Children {
    form: Form,
}

impl Model for Children {
    ghost use Rattle.std.specs.Prelude.{ℕ, List};
    ghost use Rattle.snow_tree.specs.Kept.Children.{shown_children};

    ghost Value = { List (List ℕ) };

    ghost view = { λ a. shown_children a.form };
}

impl Children {
    ghost use Rattle.std.specs.Prelude.{◌≡◌, ◌-◌, [], ◌∷◌, ◌++◌, length, take, OnOk, OnErr};

    /// Returns no child. It takes no memory.
    pub(crate) fn new() -> Self
        ensures { result ≡ [] }
    {
        Children {
            form: Form::Few(None),
        }
    }

    /// Appends a child. The first one stands in place. On want of memory all stays as it was.
    pub(crate) fn push(&mut self, alloc: Global, id: Id) -> Result<(), AllocError>
        ensures ok { OnOk result (self.new ≡ self.old ++ id ∷ []) }
        ensures err { OnErr result (self.new ≡ self.old) }
    {
        match &mut self.form {
            Form::Few(None) => self.form = Form::Few(Some(id)),
            Form::Few(Some(first)) => self.form = Form::Several(vec![in alloc; *first, id]?),
            Form::Several(list) => list.push(id)?,
        }
        Ok(())
    }

    /// Takes the last child out. It takes no memory.
    pub(crate) fn pop(&mut self)
        ensures { self.new ≡ take (length self.old - 1) self.old }
    {
        match &mut self.form {
            Form::Few(one) => *one = None,
            Form::Several(list) => {
                let _last = list.pop();
            }
        }
    }

    pub(crate) fn list(&self) -> &[Id]
        ensures { result.now ≡ self.now }
    {
        match &self.form {
            Form::Few(None) => &[],
            Form::Few(Some(id)) => slice::from_ref(id),
            Form::Several(list) => list.as_slice(),
        }
    }
}
