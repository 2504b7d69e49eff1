// The trait of those who read the parts of declarations at a place.
use al_base::NoMemory;
use al_base_fault::CheckResult;
use al_query::{Answers, Recorder};
use al_scope::Scope;
use al_tree::{CompoundName, DiscreteRange, Expression, SubtypeIndication};
use al_view::SubtypeView;
use al_view_typed::Typed;
use std::alloc::Global;

/// Reads marks, subtype indications and expressions of declarations at a place. It asks a recorder; each call gives, under every table that
/// agrees with the log as it returns, what the reading of that table gives. The words of temporaries aren't numbered.
pub trait PartAnalyzer {
    ghost use Rattle.std.specs.Prelude.{◌≡◌, IfOk};
    ghost use Rattle.al_base_fault.specs.Judging.{map_ok};
    ghost use Rattle.al_query.specs.Reads.{FromAnswers};
    ghost use Rattle.al_query.specs.declared.answer.AnswerKind.{AnswerKind};
    ghost use Rattle.al_query.specs.declared.query.Query.{Query};
    ghost use Rattle.al_tree.specs.DeclarationViews.{compound_model, discrete_range_model, indication_model};
    ghost use Rattle.al_tree.specs.ExpressionViews.{expression_model};
    ghost use Rattle.al_view_typed.specs.ExpressionViews.{typed_model};
    ghost use Rattle.al_decl.specs.PartReadings.{PartReading};

    /// The results of reading under a table.
    ghost reading: { Self → (Query → AnswerKind) → PartReading };

    /// The subtype that a mark denotes (ARM 3.2.2(4)).
    /// # Errors
    /// `NoMemory` if the allocator refuses memory. The inner error is the first rule that the mark breaks.
    fn mark<A: Answers>(
        &self,
        alloc: Global,
        scope: &Scope,
        mark: &CompoundName,
        recorder: &mut Recorder<A>,
    ) -> Result<CheckResult<SubtypeView>, NoMemory>
        ensures asked { recorder.new.asked ≡ recorder.old.asked }
        ensures answered { IfOk result (λ checked. FromAnswers recorder.old.log recorder.new.log (λ t. checked ≡ (reading self.now t).mark scope.now (compound_model mark.now))) };

    /// The subtype of a subtype indication (ARM 3.2.2).
    /// # Errors
    /// `NoMemory` if the allocator refuses memory. The inner error is the first rule that the indication breaks.
    fn indication<A: Answers>(
        &self,
        alloc: Global,
        scope: &Scope,
        indication: &SubtypeIndication,
        recorder: &mut Recorder<A>,
    ) -> Result<CheckResult<SubtypeView>, NoMemory>
        ensures asked { recorder.new.asked ≡ recorder.old.asked }
        ensures answered { IfOk result (λ checked. FromAnswers recorder.old.log recorder.new.log (λ t. checked ≡ (reading self.now t).indication scope.now (indication_model indication.now))) };

    /// The index subtype of an array (ARM 3.6).
    /// # Errors
    /// `NoMemory` if the allocator refuses memory. The inner error is the first rule that the index breaks.
    fn index<A: Answers>(
        &self,
        alloc: Global,
        scope: &Scope,
        index: &DiscreteRange,
        recorder: &mut Recorder<A>,
    ) -> Result<CheckResult<SubtypeView>, NoMemory>
        ensures asked { recorder.new.asked ≡ recorder.old.asked }
        ensures answered { IfOk result (λ checked. FromAnswers recorder.old.log recorder.new.log (λ t. checked ≡ (reading self.now t).index scope.now (discrete_range_model index.now))) };

    /// The initial value of objects of this subtype (ARM 3.3.1).
    /// # Errors
    /// `NoMemory` if the allocator refuses memory. The inner error is the first rule that the value breaks.
    fn value<A: Answers>(
        &self,
        alloc: Global,
        scope: &Scope,
        of: &SubtypeView,
        value: &Expression,
        recorder: &mut Recorder<A>,
    ) -> Result<CheckResult<Typed>, NoMemory>
        ensures asked { recorder.new.asked ≡ recorder.old.asked }
        ensures answered { IfOk result (λ checked. FromAnswers recorder.old.log recorder.new.log (λ t. map_ok typed_model checked ≡ (reading self.now t).value scope.now of.now (expression_model value.now))) };

    /// The value of named numbers (ARM 3.3.2).
    /// # Errors
    /// `NoMemory` if the allocator refuses memory. The inner error is the first rule that the value breaks.
    fn number<A: Answers>(
        &self,
        alloc: Global,
        scope: &Scope,
        value: &Expression,
        recorder: &mut Recorder<A>,
    ) -> Result<CheckResult<Typed>, NoMemory>
        ensures asked { recorder.new.asked ≡ recorder.old.asked }
        ensures answered { IfOk result (λ checked. FromAnswers recorder.old.log recorder.new.log (λ t. map_ok typed_model checked ≡ (reading self.now t).number scope.now (expression_model value.now))) };

    /// A bound of an integer type (ARM 3.5.4(5)).
    /// # Errors
    /// `NoMemory` if the allocator refuses memory. The inner error is the first rule that the bound breaks.
    fn bound<A: Answers>(
        &self,
        alloc: Global,
        scope: &Scope,
        bound: &Expression,
        recorder: &mut Recorder<A>,
    ) -> Result<CheckResult<Typed>, NoMemory>
        ensures asked { recorder.new.asked ≡ recorder.old.asked }
        ensures answered { IfOk result (λ checked. FromAnswers recorder.old.log recorder.new.log (λ t. map_ok typed_model checked ≡ (reading self.now t).bound scope.now (expression_model bound.now))) };

    /// The value of aspect Priority of a task or a protected object (ARM D.1(15 to 17)).
    /// # Errors
    /// `NoMemory` if the allocator refuses memory. The inner error is the first rule that the value breaks.
    fn priority<A: Answers>(
        &self,
        alloc: Global,
        scope: &Scope,
        value: &Expression,
        recorder: &mut Recorder<A>,
    ) -> Result<CheckResult<Typed>, NoMemory>
        ensures asked { recorder.new.asked ≡ recorder.old.asked }
        ensures answered { IfOk result (λ checked. FromAnswers recorder.old.log recorder.new.log (λ t. map_ok typed_model checked ≡ (reading self.now t).priority scope.now (expression_model value.now))) };
}
