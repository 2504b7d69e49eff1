// Laws of heads.
ghost use Rattle.al_overload.specs.Laws.{AggregatesStandWhereAllowed, IndexesTakeOneValue, NothingFromNothing, NumbersAreUniversal, NumbersNeedNoOperator, NumbersNeedNoSign};

/// An operator of numbers alone means the same whatever is visible under its sign (ARM 4.5).
#[tactic(auto, using(crate::proofs::LawLemmas::numbers_need_no_operator, crate::proofs::LawLemmas::numbers_need_no_sign))]
pub fn numbers_need_no_operator()
    ensures operator { NumbersNeedNoOperator }
    ensures sign { NumbersNeedNoSign }
{}

/// An expression of numbers alone may be a value of any integer type, and nothing else (ARM 3.4.1(7)).
#[tactic(auto, using(crate::proofs::LawLemmas::numbers_are_universal))]
pub fn numbers_are_universal()
    ensures { NumbersAreUniversal }
{}

/// An aggregate fits nothing unless one is allowed.
#[tactic(auto, using(crate::proofs::LawLemmas::aggregates_stand_where_allowed))]
pub fn aggregates_stand_where_allowed()
    ensures { AggregatesStandWhereAllowed }
{}

/// An index of a part of an object takes one value (ARM 4.1.1).
#[tactic(auto, using(crate::proofs::LawLemmas::indexes_take_one_value))]
pub fn indexes_take_one_value()
    ensures { IndexesTakeOneValue }
{}

/// An expression whose head has no candidate that gives this has no interpretation as it (ARM 8.6).
#[tactic(auto, using(crate::proofs::LawLemmas::nothing_from_nothing))]
pub fn nothing_from_nothing()
    ensures { NothingFromNothing }
{}
