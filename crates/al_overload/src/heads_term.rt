// Terms (ARM 4.1 to 4.7).
ghost use Rattle.std.specs.Prelude.{◌≡◌, map};
ghost use Rattle.al_overload.specs.Terms.{TermTree as terms};
ghost use Rattle.al_overload.specs.TermViews.{term_model, terms_of};

use al_base::{Name, Place};
use al_view::{Bounds, StaticValue, SubtypeView, Views};
use al_view_typed::{BinaryOperator, Conversion, ShortCircuit, UnaryOperator};

/// An expression whose names have been looked up: each name has with it what is visible under it.
pub enum Term {
    /// A numeric literal (ARM 2.4).
    Number {
        place: Place,
        value: StaticValue,
    },
    /// A string literal with its bytes (ARM 2.6).
    Text {
        place: Place,
        bytes: Vec<u8>,
    },
    /// A name with all declarations that are visible under it, at least one, each of which may be a value or a call.
    Named {
        place: Place,
        views: Views,
    },
    /// A component of what comes before the dot, which is no package and no construct round the place (ARM 4.1.3).
    Selected {
        prefix: Box<Term>,
        name: Name,
    },
    /// What is in parentheses after a name: indexes of an array, or arguments of a call (ARM 4.1.1, 6.4).
    Applied {
        name: Box<Term>,
        arguments: Vec<Term>,
    },
    /// `S'First` or `S'Last`; for an array the subtype is its index subtype (ARM 3.5(12, 13), 3.6.2).
    Bound {
        place: Place,
        subtype: SubtypeView,
        is_last: bool,
    },
    /// `A'Length`, by the bounds of the array's index (ARM 3.6.2).
    Length {
        place: Place,
        bounds: Bounds,
    },
    /// A type conversion (ARM 4.6). Its operand is a complete context of its own.
    Conversion {
        place: Place,
        subtype: SubtypeView,
        operand: Box<Term>,
    },
    /// A qualified expression (ARM 4.7). Its operand is a group, an aggregate or others: a context of its own.
    Qualified {
        place: Place,
        subtype: SubtypeView,
        operand: Box<Term>,
    },
    /// `S'Pos (X)`, `S'Val (X)`, `S'Succ (X)`, `S'Pred (X)` (ARM 3.5, 3.5.5): the argument belongs to the context round it.
    Attribute {
        place: Place,
        conversion: Conversion,
        subtype: SubtypeView,
        argument: Box<Term>,
    },
    /// `S'Image (X)` (ARM 3.5): the argument is a context of its own.
    Image {
        place: Place,
        subtype: SubtypeView,
        argument: Box<Term>,
    },
    /// An operator before its operand, with all that is visible under its sign.
    Prefixed {
        place: Place,
        operator: UnaryOperator,
        views: Views,
        operand: Box<Term>,
    },
    /// An operator between its operands, with all that is visible under its sign.
    Infix {
        operator: BinaryOperator,
        views: Views,
        left: Box<Term>,
        right: Box<Term>,
    },
    /// `left & right` of what Put writes.
    Concatenation {
        left: Box<Term>,
        right: Box<Term>,
    },
    ShortCircuit {
        form: ShortCircuit,
        left: Box<Term>,
        right: Box<Term>,
    },
    /// `value [not] in subtype` (ARM 4.5.2); for a Range attribute the subtype is the array's index subtype.
    Member {
        value: Box<Term>,
        is_negated: bool,
        subtype: SubtypeView,
    },
    /// `value [not] in low .. high` (ARM 4.5.2).
    RangeMember {
        value: Box<Term>,
        is_negated: bool,
        low: Box<Term>,
        high: Box<Term>,
    },
    /// A term in parentheses, with the place of the left one.
    Group {
        place: Place,
        inner: Box<Term>,
    },
    /// A positional aggregate of two values or more, with the place of its parenthesis (ARM 4.3.3).
    Aggregate {
        place: Place,
        components: Vec<Term>,
    },
    /// `(others => component)` (ARM 4.3.3).
    Others {
        place: Place,
        component: Box<Term>,
    },
    /// What fits nothing: an unknown attribute, Range as a value, a conversion of several values.
    Nothing {
        place: Place,
    },
}

// A chain of operators, selectors or indexes leans to the left. The loop drops what a term begins with, and a call drops all else, so that
// no chain takes more stack than its nesting needs.
impl Drop for Term {
    fn drop(mut self) {
        loop {
            match self {
                Term::Selected { prefix, name: _ } => self = Box::into_inner(prefix),
                Term::Applied { name, arguments: _ } => self = Box::into_inner(name),
                Term::Infix {
                    operator: _,
                    views: _,
                    left,
                    right: _,
                } => self = Box::into_inner(left),
                Term::Concatenation { left, right: _ } => self = Box::into_inner(left),
                Term::ShortCircuit {
                    form: _,
                    left,
                    right: _,
                } => self = Box::into_inner(left),
                Term::Member {
                    value,
                    is_negated: _,
                    subtype: _,
                } => self = Box::into_inner(value),
                Term::RangeMember {
                    value,
                    is_negated: _,
                    low: _,
                    high: _,
                } => self = Box::into_inner(value),
                Term::Number { place: _, value: _ } => return,
                Term::Text { place: _, bytes: _ } => return,
                Term::Named { place: _, views: _ } => return,
                Term::Bound {
                    place: _,
                    subtype: _,
                    is_last: _,
                } => return,
                Term::Length {
                    place: _,
                    bounds: _,
                } => return,
                Term::Conversion {
                    place: _,
                    subtype: _,
                    operand: _,
                } => return,
                Term::Qualified {
                    place: _,
                    subtype: _,
                    operand: _,
                } => return,
                Term::Attribute {
                    place: _,
                    conversion: _,
                    subtype: _,
                    argument: _,
                } => return,
                Term::Image {
                    place: _,
                    subtype: _,
                    argument: _,
                } => return,
                Term::Prefixed {
                    place: _,
                    operator: _,
                    views: _,
                    operand: _,
                } => return,
                Term::Group { place: _, inner: _ } => return,
                Term::Aggregate {
                    place: _,
                    components: _,
                } => return,
                Term::Others {
                    place: _,
                    component: _,
                } => return,
                Term::Nothing { place: _ } => return,
            }
        }
    }
}

impl Term {
    /// A numeric literal with its value.
    #[tactic(auto, using(crate::proofs::TermsMade::number_made))]
    pub fn number(place: Place, value: StaticValue) -> Term
        ensures { term_model result ≡ terms.NumberTerm place value }
    {
        Term::Number { place, value }
    }

    /// A string literal with its bytes.
    #[tactic(auto, using(crate::proofs::TermsMade::text_made))]
    pub fn text(place: Place, bytes: Vec<u8>) -> Term
        ensures { term_model result ≡ terms.TextTerm place bytes.items }
    {
        Term::Text { place, bytes }
    }

    /// A name with the declarations that are visible under it.
    #[tactic(auto, using(crate::proofs::TermsMade::named_made))]
    pub fn named(place: Place, views: Views) -> Term
        ensures { term_model result ≡ terms.NamedTerm place views }
    {
        Term::Named { place, views }
    }

    /// A component with that name of what comes before the dot.
    #[tactic(auto, using(crate::proofs::TermsMade::selected_made))]
    pub fn selected(prefix: Box<Term>, name: Name) -> Term
        ensures { term_model result ≡ terms.SelectedTerm (term_model prefix.value) name }
    {
        Term::Selected { prefix, name }
    }

    /// Indexes or arguments after a name.
    #[tactic(auto, using(crate::proofs::TermsMade::applied_made))]
    pub fn applied(name: Box<Term>, arguments: Vec<Term>) -> Term
        ensures { term_model result ≡ terms.AppliedTerm (term_model name.value) (terms_of (map term_model arguments.items)) }
    {
        Term::Applied { name, arguments }
    }

    /// The first or the last value of a subtype.
    #[tactic(auto, using(crate::proofs::TermsMade::bound_made))]
    pub fn bound(place: Place, subtype: SubtypeView, is_last: bool) -> Term
        ensures { term_model result ≡ terms.BoundTerm place subtype is_last }
    {
        Term::Bound {
            place,
            subtype,
            is_last,
        }
    }

    /// The length of an array whose index has these bounds.
    #[tactic(auto, using(crate::proofs::TermsMade::length_made))]
    pub fn length(place: Place, bounds: Bounds) -> Term
        ensures { term_model result ≡ terms.LengthTerm place bounds }
    {
        Term::Length { place, bounds }
    }

    /// A type conversion.
    #[tactic(auto, using(crate::proofs::TermsMade::conversion_made))]
    pub fn conversion(place: Place, subtype: SubtypeView, operand: Box<Term>) -> Term
        ensures { term_model result ≡ terms.ConversionTerm place subtype (term_model operand.value) }
    {
        Term::Conversion {
            place,
            subtype,
            operand,
        }
    }

    /// A qualified expression.
    #[tactic(auto, using(crate::proofs::TermsMade::qualified_made))]
    pub fn qualified(place: Place, subtype: SubtypeView, operand: Box<Term>) -> Term
        ensures { term_model result ≡ terms.QualifiedTerm place subtype (term_model operand.value) }
    {
        Term::Qualified {
            place,
            subtype,
            operand,
        }
    }

    /// `S'Pos (X)`, `S'Val (X)`, `S'Succ (X)` or `S'Pred (X)`.
    #[tactic(auto, using(crate::proofs::TermsMade::attribute_made))]
    pub fn attribute(
        place: Place,
        conversion: Conversion,
        subtype: SubtypeView,
        argument: Box<Term>,
    ) -> Term
        ensures { term_model result ≡ terms.AttributeTerm place conversion subtype (term_model argument.value) }
    {
        Term::Attribute {
            place,
            conversion,
            subtype,
            argument,
        }
    }

    /// `S'Image (X)`.
    #[tactic(auto, using(crate::proofs::TermsMade::image_made))]
    pub fn image(place: Place, subtype: SubtypeView, argument: Box<Term>) -> Term
        ensures { term_model result ≡ terms.ImageTerm place subtype (term_model argument.value) }
    {
        Term::Image {
            place,
            subtype,
            argument,
        }
    }

    /// An operator before its operand, with the declarations that are visible under its sign.
    #[tactic(auto, using(crate::proofs::TermsMade::prefixed_made))]
    pub fn prefixed(place: Place, operator: UnaryOperator, views: Views, operand: Box<Term>) -> Term
        ensures { term_model result ≡ terms.PrefixedTerm place operator views (term_model operand.value) }
    {
        Term::Prefixed {
            place,
            operator,
            views,
            operand,
        }
    }

    /// An operator between its operands, with the declarations that are visible under its sign.
    #[tactic(auto, using(crate::proofs::TermsMade::infix_made))]
    pub fn infix(operator: BinaryOperator, views: Views, left: Box<Term>, right: Box<Term>) -> Term
        ensures { term_model result ≡ terms.InfixTerm operator views (term_model left.value) (term_model right.value) }
    {
        Term::Infix {
            operator,
            views,
            left,
            right,
        }
    }

    /// `left & right`.
    #[tactic(auto, using(crate::proofs::TermsMade::concatenation_made))]
    pub fn concatenation(left: Box<Term>, right: Box<Term>) -> Term
        ensures { term_model result ≡ terms.ConcatenationTerm (term_model left.value) (term_model right.value) }
    {
        Term::Concatenation { left, right }
    }

    /// `left and then right` or `left or else right`.
    #[tactic(auto, using(crate::proofs::TermsMade::short_circuit_made))]
    pub fn short_circuit(form: ShortCircuit, left: Box<Term>, right: Box<Term>) -> Term
        ensures { term_model result ≡ terms.ShortCircuitTerm form (term_model left.value) (term_model right.value) }
    {
        Term::ShortCircuit { form, left, right }
    }

    /// `value [not] in subtype`.
    #[tactic(auto, using(crate::proofs::TermsMade::member_made))]
    pub fn member(value: Box<Term>, is_negated: bool, subtype: SubtypeView) -> Term
        ensures { term_model result ≡ terms.MemberTerm (term_model value.value) is_negated subtype }
    {
        Term::Member {
            value,
            is_negated,
            subtype,
        }
    }

    /// `value [not] in low .. high`.
    #[tactic(auto, using(crate::proofs::TermsMade::range_member_made))]
    pub fn range_member(value: Box<Term>, is_negated: bool, low: Box<Term>, high: Box<Term>) -> Term
        ensures { term_model result ≡ terms.RangeMemberTerm (term_model value.value) is_negated (term_model low.value) (term_model high.value) }
    {
        Term::RangeMember {
            value,
            is_negated,
            low,
            high,
        }
    }

    /// A term in parentheses.
    #[tactic(auto, using(crate::proofs::TermsMade::group_made))]
    pub fn group(place: Place, inner: Box<Term>) -> Term
        ensures { term_model result ≡ terms.GroupTerm place (term_model inner.value) }
    {
        Term::Group { place, inner }
    }

    /// A positional aggregate.
    #[tactic(auto, using(crate::proofs::TermsMade::aggregate_made))]
    pub fn aggregate(place: Place, components: Vec<Term>) -> Term
        ensures { term_model result ≡ terms.AggregateTerm place (terms_of (map term_model components.items)) }
    {
        Term::Aggregate { place, components }
    }

    /// `(others => component)`.
    #[tactic(auto, using(crate::proofs::TermsMade::others_made))]
    pub fn others(place: Place, component: Box<Term>) -> Term
        ensures { term_model result ≡ terms.OthersTerm place (term_model component.value) }
    {
        Term::Others { place, component }
    }

    /// What fits nothing.
    #[tactic(auto, using(crate::proofs::TermsMade::nothing_made))]
    pub fn nothing(place: Place) -> Term
        ensures { term_model result ≡ terms.NothingTerm place }
    {
        Term::Nothing { place }
    }
}
