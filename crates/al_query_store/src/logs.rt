// The answers of a log, entered in an index and taken out again.
ghost use Rattle.std.specs.Prelude.{◌≡◌, ◌||◌, ◌&&◌, not, true, false, nat_eq, OnOk, OnErr};
ghost use Rattle.al_query.specs.declared.query.Query.{Query};
ghost use Rattle.al_query_store.specs.declared.place.Place.{Place};
ghost use Rattle.al_query_store.specs.Reads.{reads};
ghost use Rattle.al_query_store.specs.Stored.{in_log};

use crate::{Place, Readers};
use al_base::NoMemory;
use al_query::ReadLog;

/// Takes the answers of an entry's log out of the index. It takes no memory.
pub(crate) fn withdraw(readers: &mut Readers, log: &ReadLog, key: usize)
    ensures { (q : Query) (p : Place) → reads readers.new q p ≡ (reads readers.old q p && not (nat_eq key p.entry && in_log log.now q p.at)) }
{
    for i in 0..log.len() {
        if let Some((query, _)) = log.at(i) {
            readers.remove(query, Place { entry: key, at: i });
        }
    }
}

/// Enters the answers of an entry's log in the index, which has none of that entry.
pub(crate) fn enter(readers: &mut Readers, log: &ReadLog, key: usize) -> Result<(), NoMemory>
    requires { (q : Query) (p : Place) → nat_eq key p.entry ≡ true → reads readers.old q p ≡ false }
    ensures ok { OnOk result ((q : Query) (p : Place) → reads readers.new q p ≡ (reads readers.old q p || (nat_eq key p.entry && in_log log.now q p.at))) }
    ensures err { OnErr result ((q : Query) (p : Place) → reads readers.new q p ≡ reads readers.old q p) }
{
    for i in 0..log.len() {
        if let Some((query, _)) = log.at(i) {
            let Ok(()) = readers.add(query, Place { entry: key, at: i }) else {
                withdraw(readers, log, key);
                return Err(NoMemory);
            };
        }
    }
    Ok(())
}
