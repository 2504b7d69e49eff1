//! What is known of the orders that builds give in every session over Ada units, for every checker. The function does nothing of its own.
ghost use Rattle.al_session.specs.Orders.{BuildsObey};

use crate::builds_are_right;
use crate::text_laws::orders_of_texts_obey;
use al_query_outcome::UnitCheck;

/// Whatever the commands were, the elaboration order of the last build obeys every dependence and every pragma of its files, whether there is an
/// image or not (ARM 10.2(9), 10.2.1).
pub fn builds_obey<C: UnitCheck>()
    ensures { BuildsObey C.meaning C.Text.header }
{
    orders_of_texts_obey();
    builds_are_right::<C>();
}
