//! What is known of elaboration orders, as a contract of a function without code of its own.
ghost use Rattle.al_session.specs.TextOrders.{OrdersOfTextsObey};

use al_bind::laws::pairs_stay_together;
use al_bind::order_laws::order_obeys;
use al_engine_files::laws::texts_are_headed;

/// Whatever the files hold, an elaboration order obeys every dependence and every pragma: if x is elaborated after y for any reason, and the two are
/// no pair, y comes before x (ARM 10.2(9), 10.2.1(17)). The body of a pair under Elaborate_Body comes right after its declaration (ARM 10.2.1(26)).
pub fn orders_of_texts_obey()
    ensures { OrdersOfTextsObey }
{
    order_obeys();
    pairs_stay_together();
    texts_are_headed();
}
