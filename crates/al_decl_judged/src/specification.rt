// What comes before a body's `is`.
use al_base::Name;
use al_view::{Mode, Seq, Subtype};

/// A formal parameter as it is written (ARM 6.1(15)).
pub struct Formal {
    /// The name in lower case.
    pub name: Name,
    /// The mode.
    pub mode: Mode,
    /// The subtype, if its mark has no fault of its own.
    pub subtype: Option<Subtype>,
}

impl Drop for Formal {
    fn drop(self) {
        let Formal {
            name: _,
            mode: _,
            subtype: _,
        } = self;
    }
}

/// What a subprogram returns.
pub enum Returned {
    /// Nothing: it is a procedure.
    NoValue,
    /// A value of this subtype: it is a function. The subtype is missing if its mark has a fault of its own.
    Value(Option<Subtype>),
}

impl Drop for Returned {
    fn drop(self) {
        match self {
            Returned::NoValue => {}
            Returned::Value(_) => {}
        }
    }
}

/// A specification, without its name (ARM 6.1(4)).
pub struct Specification {
    /// The formal parameters, in source order.
    pub formals: Seq<Formal>,
    /// What it returns.
    pub returned: Returned,
}

impl Drop for Specification {
    fn drop(self) {
        let Specification {
            formals: _,
            returned: _,
        } = self;
    }
}

/// What kind of body it is, without its name.
pub enum BodyHead {
    /// The body of a subprogram, or its stub (ARM 6.3, 10.1.3).
    Subprogram(Specification),
    /// The body of an entry (ARM 9.5.2(5)).
    Entry,
    /// The body of a task (ARM 9.1(6)).
    Task,
    /// The body of a protected object (ARM 9.4(7)).
    Protected,
}

impl Drop for BodyHead {
    fn drop(self) {
        match self {
            BodyHead::Subprogram(_) => {}
            BodyHead::Entry => {}
            BodyHead::Task => {}
            BodyHead::Protected => {}
        }
    }
}
