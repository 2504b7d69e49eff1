// What a name of identifiers means at a place.
ghost use Rattle.std.specs.Prelude.{◌≡◌, IfOk};
ghost use Rattle.al_meant.specs.Found.{found_under};
ghost use Rattle.al_meant.specs.Meanings.{AreMeant};
ghost use Rattle.al_tree.specs.ExpressionViews.{expression_model};

use crate::asked::Asked;
use al_base::{NoMemory, UnitKey};
use al_overload_lookup::{Names, key_of, names};
use al_query::{Answers, ReadLog, Recorder};
use al_scope::Scope;
use al_tree::Expression;
use al_view::Views;
use std::alloc::Global;

/// The declarations that a name may mean.
pub struct Found {
    pub views: Views,
    /// The questions that were asked of other units to find them, with the answers.
    pub log: ReadLog,
}

impl Drop for Found {
    fn drop(self) {
        let Found { views: _, log: _ } = self;
    }
}

// What was found under the whole name.
fn found_under(alloc: Global, names: &Names, name: &Expression) -> Result<Views, NoMemory>
    ensures { IfOk result (λ views. views ≡ found_under names.now (expression_model name.now)) }
{
    let mut views = Views::new(alloc);
    if let Some(key) = key_of(alloc, name)? {
        views.append(names.visible.views(key.as_slice()))?;
    }
    Ok(views)
}

/// All declarations that a name of identifiers may mean at a place where these packages are mentioned, under the answers of a table, and no other.
///
/// # Errors
///
/// `NoMemory` if the allocator refuses memory.
pub fn all_meant<A: Answers>(
    alloc: Global,
    table: &A,
    scope: &Scope,
    packages: &[UnitKey],
    name: &Expression,
) -> Result<Found, NoMemory>
    ensures { IfOk result (λ found. AreMeant (A.table table.now) scope.now packages.now (expression_model name.now) found.views) }
{
    let mut recorder = Recorder::new(alloc, Asked { table });
    let names = names(alloc, scope, packages, name, &mut recorder)?;
    let views = found_under(alloc, &names, name)?;
    let log = recorder.into_log();
    Ok(Found { views, log })
}
