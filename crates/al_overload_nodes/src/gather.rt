// Parts of an expression that are collected into a list.
ghost use Rattle.std.specs.Prelude.{◌≡◌, OnOk, option_map};
ghost use Rattle.al_base_fault.specs.Judging.{map_ok};
ghost use Rattle.al_view_typed.specs.ExpressionViews.{actual_model, value_model};
ghost use Rattle.al_overload_nodes.specs.Gathering.{no_parts, with_part};
ghost use Rattle.al_overload_nodes.specs.Views.{actuals_model, values_model};

use al_base::NoMemory;
use al_base_fault::{CheckResult, Fault, earlier};
use al_view_typed::{Actual, CheckedValue};
use std::alloc::Global;

/// Actual parameters: what fails in them, what is wrong, and those that are right.
#[derive(Drop)]
pub struct Actuals {
    /// The first static failure in them.
    pub failure: Option<Fault>,
    /// The first fault in them.
    pub fault: Option<Fault>,
    /// The actual parameters that are right, in order.
    pub items: Vec<Actual>,
}

/// Values: what fails in them, what is wrong, and those that are right.
#[derive(Drop)]
pub struct Values {
    /// The first static failure in them.
    pub failure: Option<Fault>,
    /// The first fault in them.
    pub fault: Option<Fault>,
    /// The values that are right, in order.
    pub items: Vec<CheckedValue>,
}

impl Actuals {
    /// No actual parameters. It takes no memory.
    pub fn none(alloc: Global) -> Actuals
        ensures { actuals_model result ≡ no_parts }
    {
        Actuals {
            failure: None,
            fault: None,
            items: Vec::new(alloc),
        }
    }

    /// Adds an actual parameter, with what fails in it.
    /// # Errors
    /// `NoMemory` if the allocator refuses memory.
    pub fn add(
        &mut self,
        failure: Option<Fault>,
        actual: CheckResult<Actual>,
    ) -> Result<(), NoMemory>
        ensures { OnOk result (actuals_model self.new ≡ with_part (actuals_model self.old) failure (map_ok actual_model actual)) }
    {
        match actual {
            Ok(actual) => self.items.push(actual)?,
            Err(fault) => self.fault = earlier(self.fault, Some(fault)),
        }
        self.failure = earlier(self.failure, failure);
        Ok(())
    }
}

impl Values {
    /// No values. It takes no memory.
    pub fn none(alloc: Global) -> Values
        ensures { values_model result ≡ no_parts }
    {
        Values {
            failure: None,
            fault: None,
            items: Vec::new(alloc),
        }
    }

    /// Adds a value, with what fails in it.
    /// # Errors
    /// `NoMemory` if the allocator refuses memory.
    pub fn add(
        &mut self,
        failure: Option<Fault>,
        value: CheckResult<CheckedValue>,
    ) -> Result<(), NoMemory>
        ensures { OnOk result (values_model self.new ≡ with_part (values_model self.old) failure (map_ok value_model value)) }
    {
        match value {
            Ok(value) => self.items.push(value)?,
            Err(fault) => self.fault = earlier(self.fault, Some(fault)),
        }
        self.failure = earlier(self.failure, failure);
        Ok(())
    }
}
