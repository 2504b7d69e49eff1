//! Laws of the binder's answers, as contracts of functions without code.
ghost use Rattle.al_bind.specs.Bound.{OneElaboration, OneFault, OrderOrFault};
ghost use Rattle.al_bind.specs.Obeys.{OrderObeys};

/// The binder's answer depends only on the library and the main unit: the order, what is missing, or the lines of the cycle.
pub fn bound_is_one()
    ensures order { OneElaboration }
    ensures fault { OneFault }
    ensures apart { OrderOrFault }
{}

/// The order obeys every dependence and every pragma: if x is elaborated after y for any reason, and the two are no pair, y comes before x (ARM
/// 10.2(9), 10.2.1(17)).
pub fn order_obeys()
    ensures { OrderObeys }
{}
