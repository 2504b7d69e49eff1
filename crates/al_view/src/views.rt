// Lists of views.
ghost use Rattle.std.specs.Prelude.{◌≡◌, [], ◌∷◌, ◌++◌, IfOk, OnOk, OnErr, is_ok, if◌then◌else◌};

use crate::view::View;
use std::alloc::{AllocError, Global};
use std::marker::Model;

/// Views in order.
pub struct Views {
    views: Vec<View>,
}

// It is written out so that a crate above drops a value by this one call and needn't prove again how each part is dropped.
impl Drop for Views {
    fn drop(self) {
        let Views { views: _ } = self;
    }
}

impl Model for Views {
    ghost use Rattle.std.specs.Prelude.{List};
    ghost use Rattle.al_view.specs.declared.view.ViewKind.{ViewKind};

    ghost Value = { List ViewKind };

    ghost view = { λ a. a.views.items };
}

impl Views {
    /// A list without views. It takes no memory.
    pub fn new(alloc: Global) -> Self
        ensures { result ≡ [] }
    {
        Views {
            views: Vec::new(alloc),
        }
    }

    /// The views, in their order.
    pub fn as_slice(&self) -> &[View]
        ensures { result.now ≡ self.now }
    {
        self.views.as_slice()
    }

    /// Adds a view at the end.
    ///
    /// # Errors
    ///
    /// `AllocError` if the allocator refuses memory. Nothing has changed then.
    pub fn push(&mut self, view: View) -> Result<(), AllocError>
        ensures { self.new ≡ (if is_ok result then self.old ++ view ∷ [] else self.old) }
    {
        self.views.push(view)?;
        Ok(())
    }

    /// Adds other views at the end, in their order. They are shared, not copied.
    ///
    /// # Errors
    ///
    /// `AllocError` if the allocator refuses memory. What the list then has isn't specified.
    pub fn append(&mut self, others: &[View]) -> Result<(), AllocError>
        ensures { OnOk result (self.new ≡ self.old ++ others.now) }
    {
        for view in others {
            let view = view.share()?;
            self.push(view)?;
        }
        Ok(())
    }

    /// A list of the same views. They are shared, not copied.
    ///
    /// # Errors
    ///
    /// `AllocError` if the allocator refuses memory.
    pub fn copy(&self, alloc: Global) -> Result<Self, AllocError>
        ensures { IfOk result (λ copy. copy ≡ self.now) }
    {
        let mut copy = Views::new(alloc);
        copy.append(self.as_slice())?;
        Ok(copy)
    }
}
