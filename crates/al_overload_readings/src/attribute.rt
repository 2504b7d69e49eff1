// Names of attributes.
ghost use Rattle.std.specs.Prelude.{◌≡◌};
ghost use Rattle.al_overload_readings.specs.Attributes.{attribute_named};

/// An attribute of scalar subtypes or of arrays (ARM 3.5, 3.5.5, 3.6.2).
#[derive(Clone, Copy)]
pub enum Attribute {
    /// First.
    First,
    /// Last.
    Last,
    /// Length.
    Length,
    /// Pos.
    Pos,
    /// Val.
    Val,
    /// Succ.
    Succ,
    /// Pred.
    Pred,
    /// Image.
    Image,
    /// Any other name.
    Unknown,
}

/// The attribute of that name, in lower case.
#[tactic(auto, unfolding(crate::specs::Attributes::attribute_named))]
pub fn attribute_named(name: &[u8]) -> Attribute
    ensures { result ≡ attribute_named name.now }
{
    if b"first".as_slice() == name {
        Attribute::First
    } else if b"last".as_slice() == name {
        Attribute::Last
    } else if b"length".as_slice() == name {
        Attribute::Length
    } else if b"pos".as_slice() == name {
        Attribute::Pos
    } else if b"val".as_slice() == name {
        Attribute::Val
    } else if b"succ".as_slice() == name {
        Attribute::Succ
    } else if b"pred".as_slice() == name {
        Attribute::Pred
    } else if b"image".as_slice() == name {
        Attribute::Image
    } else {
        Attribute::Unknown
    }
}
