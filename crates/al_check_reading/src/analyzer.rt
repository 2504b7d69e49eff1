// The analyzer of Ada units, which the walk over a unit calls.
ghost use Rattle.std.specs.Prelude.{◌≡◌};
ghost use Rattle.al_tree.specs.Lexemes.{place_label};
ghost use Rattle.al_check_reading.specs.Ada.{incomplete_here};

use crate::{choices, ranges, values};
use al_base::{NoMemory, Place};
use al_base_fault::{CheckResult, CheckRule, Fault};
use al_check_declared::{
    declare_object, declare_task, declared, enter_body, enter_object, enter_private, entry_head,
    inner_head, leave_object, nested_subprogram, no_place, open_stub, task_head, whole_head,
    whole_subprogram,
};
use al_check_here::{
    CheckState, declare_parameter, enter_block, enter_loop, enter_statements, labelled,
    leave_block, leave_innermost, returns_in,
};
use al_query::{Answers, Recorder};
use al_stmts::{BodyExtent, Choice, LoopRange, LoopWords, ReturnContext, Selector};
use al_stmts_right_choices::are_right;
use al_stmts_text::{Analyzer, CallEffect};
use al_tree::{
    Choice as ChoiceOfText, CommonDeclaration, DiscreteRange, Expression, Identifier,
    OperationBody, ProtectedDefinition, Specification, TaskDeclaration,
};
use al_view::{Bounds, Seq};
use al_view_typed::{Typed, TypedBody, TypedDeclaration, TypedStatement};
use std::alloc::Global;

/// E302 at the end of a package's declaration, if a private type has no full declaration (ARM 7.3(4)).
fn incomplete_here(state: &CheckState, end: Place) -> Option<Fault>
    ensures { result ≡ incomplete_here state.now (place_label end) }
{
    if state.env.scope.is_incomplete() {
        return Some(Fault {
            place: end,
            rule: CheckRule::MissingCompletion,
        });
    }
    None
}

/// Judges the declarations, statements and expressions of a unit at the place that the check has reached, by the answers of a recorder.
pub struct AdaAnalyzer<A: Answers> {
    /// The state of the check.
    pub state: CheckState,
    /// What is asked, and what was asked.
    pub recorder: Recorder<A>,
}

impl<A: Answers + Drop> Drop for AdaAnalyzer<A> {
    fn drop(self) {
        let AdaAnalyzer {
            state: _,
            recorder: _,
        } = self;
    }
}

impl<A: Answers> AdaAnalyzer<A> {
    ghost use Rattle.std.specs.Prelude.{◌≡◌};

    /// An analyzer at the start of a unit.
    pub fn new(state: CheckState, recorder: Recorder<A>) -> Self
        ensures state { result.state ≡ state }
        ensures recorder { result.recorder ≡ recorder }
    {
        AdaAnalyzer { state, recorder }
    }

    /// The state of the check, and what was asked. It takes no memory.
    pub fn into_parts(self) -> (CheckState, Recorder<A>)
        ensures { result ≡ (self.state, self.recorder) }
    {
        let AdaAnalyzer { state, recorder } = self;
        (state, recorder)
    }

    fn alloc(&self) -> Global {
        self.state.unit.labeller.alloc
    }
}

#[tactic(auto, unfolding(crate::specs::Ada::ada))]
impl<A: Answers> Analyzer for AdaAnalyzer<A> {
    ghost use Rattle.al_check_reading.specs.Ada.{ada};

    type Environment = CheckState;

    type Asked = A;

    ghost env = { λ r. r.state };

    ghost asked = { λ r. r.recorder.asked };

    ghost log = { λ r. r.recorder.log };

    ghost reading = { ada };

    fn condition(&mut self, expression: &Expression) -> Result<CheckResult<Typed>, NoMemory> {
        values::condition(&mut self.state, expression, &mut self.recorder)
    }

    fn moment(&mut self, expression: &Expression) -> Result<CheckResult<Typed>, NoMemory> {
        values::moment(&mut self.state, expression, &mut self.recorder)
    }

    fn target(&mut self, expression: &Expression) -> Result<CheckResult<Typed>, NoMemory> {
        values::target(&mut self.state, expression, &mut self.recorder)
    }

    fn source(
        &mut self,
        target: &Expression,
        value: &Expression,
    ) -> Result<CheckResult<Typed>, NoMemory> {
        values::source(&mut self.state, target, value, &mut self.recorder)
    }

    fn call_effect(&mut self, name: &Expression) -> Result<CheckResult<CallEffect>, NoMemory> {
        values::call_effect(&mut self.state, name, &mut self.recorder)
    }

    fn result_value(&mut self, expression: &Expression) -> Result<CheckResult<Typed>, NoMemory> {
        values::result_value(&mut self.state, expression, &mut self.recorder)
    }

    fn selector(&mut self, expression: &Expression) -> Result<CheckResult<Typed>, NoMemory> {
        values::selector(&mut self.state, expression, &mut self.recorder)
    }

    fn whole(&mut self, selector: &Expression) -> Result<Bounds, NoMemory> {
        choices::whole(&self.state, selector, &mut self.recorder)
    }

    fn choice(
        &mut self,
        selector: &Expression,
        choice: &ChoiceOfText,
    ) -> Result<CheckResult<Choice>, NoMemory> {
        choices::choice(&self.state, selector, choice, &mut self.recorder)
    }

    fn are_right(
        &mut self,
        selector: Selector,
        alternatives: &[Seq<Choice>],
    ) -> Result<bool, NoMemory> {
        are_right(self.alloc(), alternatives, selector)
    }

    fn word(&mut self) -> Result<u32, NoMemory> {
        Ok(self.state.word())
    }

    fn with_word(&mut self) -> Result<(), NoMemory> {
        self.state.take_word();
        Ok(())
    }

    fn loop_entered(&mut self, parameter: &Identifier) -> Result<(), NoMemory> {
        enter_loop(self.alloc(), &mut self.state, parameter)
    }

    fn loop_range(&mut self, range: &DiscreteRange) -> Result<CheckResult<LoopRange>, NoMemory> {
        ranges::loop_range(&mut self.state, range, &mut self.recorder)
    }

    fn with_parameter(
        &mut self,
        parameter: &Identifier,
        range: &LoopRange,
        words: LoopWords,
    ) -> Result<(), NoMemory> {
        declare_parameter(self.alloc(), &mut self.state, parameter, range, words)
    }

    fn block_entered(&mut self) -> Result<(), NoMemory> {
        enter_block(self.alloc(), &mut self.state)
    }

    fn left(&mut self) -> Result<(), NoMemory> {
        leave_block(&mut self.state);
        Ok(())
    }

    fn declared(
        &mut self,
        declaration: &CommonDeclaration,
    ) -> Result<CheckResult<Vec<TypedDeclaration>>, NoMemory> {
        declared(&mut self.state, declaration, &mut self.recorder)
    }

    fn subprogram(
        &mut self,
        specification: &Specification,
    ) -> Result<CheckResult<Vec<TypedDeclaration>>, NoMemory> {
        if self.state.is_nowhere() {
            return no_place(&mut self.state);
        }
        if self.state.is_whole() {
            return whole_subprogram(&mut self.state, specification, &mut self.recorder);
        }
        nested_subprogram(&mut self.state, specification, &mut self.recorder)
    }

    fn stub(
        &mut self,
        specification: &Specification,
        _separate: Place,
    ) -> Result<CheckResult<Vec<TypedDeclaration>>, NoMemory> {
        if self.state.is_nowhere() {
            return no_place(&mut self.state);
        }
        open_stub(&mut self.state, specification, &mut self.recorder)
    }

    fn single_task(
        &mut self,
        task: &TaskDeclaration,
    ) -> Result<CheckResult<Vec<TypedDeclaration>>, NoMemory> {
        if self.state.is_nowhere() {
            return no_place(&mut self.state);
        }
        declare_task(&mut self.state, task, &mut self.recorder)
    }

    fn single_object(
        &mut self,
        opening: Place,
        object: &ProtectedDefinition,
    ) -> Result<CheckResult<Vec<TypedDeclaration>>, NoMemory> {
        if self.state.is_nowhere() {
            return no_place(&mut self.state);
        }
        let line = opening.line as usize;
        declare_object(&mut self.state, line, object, &mut self.recorder)
    }

    fn missing(&mut self, end: Place) -> Result<Option<Fault>, NoMemory> {
        Ok(self.state.env.uncompleted.missing_fault(end))
    }

    fn head(
        &mut self,
        specification: &Specification,
    ) -> Result<CheckResult<Vec<TypedDeclaration>>, NoMemory> {
        if self.state.is_nowhere() {
            return no_place(&mut self.state);
        }
        if self.state.is_whole() {
            return whole_head(&mut self.state, specification, &mut self.recorder);
        }
        inner_head(&mut self.state, specification, &mut self.recorder)
    }

    fn task_head(
        &mut self,
        name: &Identifier,
    ) -> Result<CheckResult<Vec<TypedDeclaration>>, NoMemory> {
        if self.state.is_nowhere() {
            return no_place(&mut self.state);
        }
        task_head(&mut self.state, name, &mut self.recorder)
    }

    fn entry_head(
        &mut self,
        name: &Identifier,
        barrier: &Expression,
    ) -> Result<CheckResult<Vec<TypedDeclaration>>, NoMemory> {
        if self.state.is_nowhere() {
            return no_place(&mut self.state);
        }
        entry_head(&mut self.state, name, barrier, &mut self.recorder)
    }

    fn body_entered(&mut self) -> Result<(), NoMemory> {
        enter_body(&mut self.state, &mut self.recorder)
    }

    fn returns(&mut self) -> Result<ReturnContext, NoMemory> {
        Ok(returns_in(&self.state))
    }

    fn body(
        &mut self,
        extent: BodyExtent,
        declarations: Vec<TypedDeclaration>,
        statements: Vec<TypedStatement>,
    ) -> Result<TypedBody, NoMemory> {
        labelled(self.alloc(), &self.state, extent, declarations, statements)
    }

    fn body_left(&mut self) -> Result<(), NoMemory> {
        leave_innermost(&mut self.state);
        Ok(())
    }

    fn object_entered(
        &mut self,
        opening: Place,
        name: &Identifier,
        operations: &[OperationBody],
    ) -> Result<CheckResult<Vec<TypedDeclaration>>, NoMemory> {
        if self.state.is_nowhere() {
            return no_place(&mut self.state);
        }
        let line = opening.line as usize;
        enter_object(&mut self.state, line, name, operations, &mut self.recorder)
    }

    fn object_left(&mut self) -> Result<(), NoMemory> {
        leave_object(&mut self.state);
        Ok(())
    }

    fn incomplete(&mut self, end: Place) -> Result<Option<Fault>, NoMemory> {
        Ok(incomplete_here(&self.state, end))
    }

    fn private_entered(&mut self) -> Result<(), NoMemory> {
        enter_private(&mut self.state, &mut self.recorder)
    }

    fn statements_entered(&mut self) -> Result<(), NoMemory> {
        enter_statements(&mut self.state);
        Ok(())
    }
}
