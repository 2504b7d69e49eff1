// The trait of those who read expressions and declarations at a place.
use al_base::{NoMemory, Place};
use al_base_fault::{CheckResult, Fault};
use al_stmts::{BodyExtent, Choice, LoopRange, LoopWords, ReturnContext, Selector};
use al_tree::{
    Choice as ChoiceOfText, CommonDeclaration, DiscreteRange, Expression, Identifier,
    OperationBody, ProtectedDefinition, Specification, TaskDeclaration,
};
use al_view::{Bounds, Seq};
use al_view_typed::{Piece, Typed, TypedBody, TypedCall, TypedDeclaration, TypedStatement};

/// What a statement that is a name alone does.
#[derive(Drop)]
pub enum CallEffect {
    /// A call of a procedure or an entry (ARM 6.4, 9.5.3).
    Called(TypedCall),
    /// Put, Put_Line or New_Line (ARM A.10.5, A.10.7): what is put, and whether the line ends then.
    Put(Vec<Piece>, bool),
}

/// Reads expressions and declarations at a place, in source order. It asks a recorder, and keeps how far the check has come. Each call asks
/// the same units as the calls before it, and gives, under every table that agrees with the log as it returns, what the reading of that
/// table gives.
pub trait Analyzer {
    ghost use Rattle.std.specs.Prelude.{◌≡◌, List, IfOk, OnOk, map};
    ghost use Rattle.al_base_fault.specs.Judging.{map_ok};
    ghost use Rattle.al_query.specs.Reads.{FromAnswers};
    ghost use Rattle.al_query.specs.declared.answer.AnswerKind.{AnswerKind};
    ghost use Rattle.al_query.specs.declared.query.Query.{Query};
    ghost use Rattle.al_stmts.specs.LoopForms.{range_model};
    ghost use Rattle.al_tree.specs.DeclarationViews.{common_model, discrete_range_model, protected_model, specification_model, task_model};
    ghost use Rattle.al_tree.specs.ExpressionViews.{expression_model};
    ghost use Rattle.al_tree.specs.Lexemes.{identifier_label, place_label};
    ghost use Rattle.al_tree.specs.StatementViews.{choice_model, operation_bodies_of, operation_body_model};
    ghost use Rattle.al_view_typed.specs.ExpressionViews.{typed_model};
    ghost use Rattle.al_view_typed.specs.StatementViews.{statement_model};
    ghost use Rattle.al_view_typed.specs.UnitTrees.{body_model};
    ghost use Rattle.al_stmts_text.specs.PerformedViews.{call_effect_model};
    ghost use Rattle.al_stmts.specs.Readings.{Reading, giving};
    ghost use Rattle.al_stmts.specs.Views.{effects_model};

    /// How far a check has come.
    type Environment;

    /// The answers that are asked for.
    type Asked;

    ghost env: { Self → Self.Environment };

    ghost asked: { Self → Self.Asked };

    /// The questions that were asked, with their answers.
    ghost log: { Self → List (Query × AnswerKind) };

    /// The results of reading under a table.
    ghost reading: { (Query → AnswerKind) → Reading Self.Environment };

    /// A condition (ARM 5.3, 5.5, 5.7).
    /// # Errors
    /// `NoMemory` if the allocator refuses memory. The inner error is the first rule that is broken.
    fn condition(&mut self, expression: &Expression) -> Result<CheckResult<Typed>, NoMemory>
        ensures asked { asked self.new ≡ asked self.old }
        ensures answered { IfOk result (λ checked. FromAnswers (log self.old) (log self.new) (λ t. (env self.new, map_ok typed_model checked) ≡ (reading t).condition (env self.old) (expression_model expression.now))) };

    /// The moment of a `delay until` (ARM 9.6).
    /// # Errors
    /// `NoMemory` if the allocator refuses memory. The inner error is the first rule that is broken.
    fn moment(&mut self, expression: &Expression) -> Result<CheckResult<Typed>, NoMemory>
        ensures asked { asked self.new ≡ asked self.old }
        ensures answered { IfOk result (λ checked. FromAnswers (log self.old) (log self.new) (λ t. (env self.new, map_ok typed_model checked) ≡ (reading t).moment (env self.old) (expression_model expression.now))) };

    /// The target of an assignment (ARM 5.2).
    /// # Errors
    /// `NoMemory` if the allocator refuses memory. The inner error is the first rule that is broken.
    fn target(&mut self, expression: &Expression) -> Result<CheckResult<Typed>, NoMemory>
        ensures asked { asked self.new ≡ asked self.old }
        ensures answered { IfOk result (λ checked. FromAnswers (log self.old) (log self.new) (λ t. (env self.new, map_ok typed_model checked) ≡ (reading t).target (env self.old) (expression_model expression.now))) };

    /// The value that is assigned to a target that is right.
    /// # Errors
    /// `NoMemory` if the allocator refuses memory. The inner error is the first rule that is broken.
    fn source(
        &mut self,
        target: &Expression,
        value: &Expression,
    ) -> Result<CheckResult<Typed>, NoMemory>
        ensures asked { asked self.new ≡ asked self.old }
        ensures answered { IfOk result (λ checked. FromAnswers (log self.old) (log self.new) (λ t. (env self.new, map_ok typed_model checked) ≡ (reading t).source (env self.old) (expression_model target.now) (expression_model value.now))) };

    /// What a name alone does (ARM 6.4, 9.5.3).
    /// # Errors
    /// `NoMemory` if the allocator refuses memory. The inner error is the first rule that is broken.
    fn call_effect(&mut self, name: &Expression) -> Result<CheckResult<CallEffect>, NoMemory>
        ensures asked { asked self.new ≡ asked self.old }
        ensures answered { IfOk result (λ checked. FromAnswers (log self.old) (log self.new) (λ t. (env self.new, map_ok call_effect_model checked) ≡ (reading t).call_effect (env self.old) (expression_model name.now))) };

    /// The value that the innermost function returns (ARM 6.5).
    /// # Errors
    /// `NoMemory` if the allocator refuses memory. The inner error is the first rule that is broken.
    fn result_value(&mut self, expression: &Expression) -> Result<CheckResult<Typed>, NoMemory>
        ensures asked { asked self.new ≡ asked self.old }
        ensures answered { IfOk result (λ checked. FromAnswers (log self.old) (log self.new) (λ t. (env self.new, map_ok typed_model checked) ≡ (reading t).result (env self.old) (expression_model expression.now))) };

    /// The selector of a case statement (ARM 5.4).
    /// # Errors
    /// `NoMemory` if the allocator refuses memory. The inner error is the first rule that is broken.
    fn selector(&mut self, expression: &Expression) -> Result<CheckResult<Typed>, NoMemory>
        ensures asked { asked self.new ≡ asked self.old }
        ensures answered { IfOk result (λ checked. FromAnswers (log self.old) (log self.new) (λ t. (env self.new, map_ok typed_model checked) ≡ (reading t).selector (env self.old) (expression_model expression.now))) };

    /// The bounds of the type of a selector.
    /// # Errors
    /// `NoMemory` if the allocator refuses memory.
    fn whole(&mut self, selector: &Expression) -> Result<Bounds, NoMemory>
        ensures asked { asked self.new ≡ asked self.old }
        ensures answered { IfOk result (λ found. FromAnswers (log self.old) (log self.new) (λ t. (env self.new, found) ≡ giving (env self.old) ((reading t).whole (env self.old) (expression_model selector.now)))) };

    /// A choice of a case statement, with its selector (ARM 5.4).
    /// # Errors
    /// `NoMemory` if the allocator refuses memory. The inner error is the first rule that is broken.
    fn choice(
        &mut self,
        selector: &Expression,
        choice: &ChoiceOfText,
    ) -> Result<CheckResult<Choice>, NoMemory>
        ensures asked { asked self.new ≡ asked self.old }
        ensures answered { IfOk result (λ checked. FromAnswers (log self.old) (log self.new) (λ t. (env self.new, checked) ≡ giving (env self.old) ((reading t).choice (env self.old) (expression_model selector.now) (choice_model choice.now)))) };

    /// Whether the choices of a case statement are right for what they are compared with (ARM 5.4(5 to 10)).
    /// # Errors
    /// `NoMemory` if the allocator refuses memory.
    fn are_right(
        &mut self,
        selector: Selector,
        alternatives: &[Seq<Choice>],
    ) -> Result<bool, NoMemory>
        ensures asked { asked self.new ≡ asked self.old }
        ensures answered { IfOk result (λ found. FromAnswers (log self.old) (log self.new) (λ t. (env self.new, found) ≡ giving (env self.old) ((reading t).are_right selector alternatives.now))) };

    /// The next word of the frame.
    /// # Errors
    /// `NoMemory` if the allocator refuses memory.
    fn word(&mut self) -> Result<u32, NoMemory>
        ensures asked { asked self.new ≡ asked self.old }
        ensures answered { IfOk result (λ found. FromAnswers (log self.old) (log self.new) (λ t. (env self.new, found) ≡ giving (env self.old) ((reading t).word (env self.old)))) };

    /// Takes the next word of the frame.
    /// # Errors
    /// `NoMemory` if the allocator refuses memory.
    fn with_word(&mut self) -> Result<(), NoMemory>
        ensures asked { asked self.new ≡ asked self.old }
        ensures answered { OnOk result (FromAnswers (log self.old) (log self.new) (λ t. env self.new ≡ (reading t).with_word (env self.old))) };

    /// Enters the region of a for loop, in which its parameter is begun (ARM 8.1, 8.3(16)).
    /// # Errors
    /// `NoMemory` if the allocator refuses memory.
    fn loop_entered(&mut self, parameter: &Identifier) -> Result<(), NoMemory>
        ensures asked { asked self.new ≡ asked self.old }
        ensures answered { OnOk result (FromAnswers (log self.old) (log self.new) (λ t. env self.new ≡ (reading t).loop_entered (env self.old) (identifier_label parameter.now))) };

    /// The range of a for loop (ARM 5.5(4)).
    /// # Errors
    /// `NoMemory` if the allocator refuses memory. The inner error is the first rule that is broken.
    fn loop_range(&mut self, range: &DiscreteRange) -> Result<CheckResult<LoopRange>, NoMemory>
        ensures asked { asked self.new ≡ asked self.old }
        ensures answered { IfOk result (λ checked. FromAnswers (log self.old) (log self.new) (λ t. (env self.new, map_ok range_model checked) ≡ (reading t).loop_range (env self.old) (discrete_range_model range.now))) };

    /// Declares the parameter of a for loop whose range is right (ARM 5.5(9)).
    /// # Errors
    /// `NoMemory` if the allocator refuses memory.
    fn with_parameter(
        &mut self,
        parameter: &Identifier,
        range: &LoopRange,
        words: LoopWords,
    ) -> Result<(), NoMemory>
        ensures asked { asked self.new ≡ asked self.old }
        ensures answered { OnOk result (FromAnswers (log self.old) (log self.new) (λ t. env self.new ≡ (reading t).with_parameter (env self.old) (identifier_label parameter.now) (range_model range.now) words)) };

    /// Enters the region of a block (ARM 8.1).
    /// # Errors
    /// `NoMemory` if the allocator refuses memory.
    fn block_entered(&mut self) -> Result<(), NoMemory>
        ensures asked { asked self.new ≡ asked self.old }
        ensures answered { OnOk result (FromAnswers (log self.old) (log self.new) (λ t. env self.new ≡ (reading t).block_entered (env self.old))) };

    /// Leaves the region of a loop or a block.
    /// # Errors
    /// `NoMemory` if the allocator refuses memory.
    fn left(&mut self) -> Result<(), NoMemory>
        ensures asked { asked self.new ≡ asked self.old }
        ensures answered { OnOk result (FromAnswers (log self.old) (log self.new) (λ t. env self.new ≡ (reading t).left (env self.old))) };

    /// A declaration, a pragma or a use clause: what it does at its place.
    /// # Errors
    /// `NoMemory` if the allocator refuses memory. The inner error is the first rule that is broken.
    fn declared(
        &mut self,
        declaration: &CommonDeclaration,
    ) -> Result<CheckResult<Vec<TypedDeclaration>>, NoMemory>
        ensures asked { asked self.new ≡ asked self.old }
        ensures answered { IfOk result (λ checked. FromAnswers (log self.old) (log self.new) (λ t. (env self.new, map_ok effects_model checked) ≡ (reading t).declared (env self.old) (common_model declaration.now))) };

    /// The declaration of a subprogram (ARM 6.1).
    /// # Errors
    /// `NoMemory` if the allocator refuses memory. The inner error is the first rule that is broken.
    fn subprogram(
        &mut self,
        specification: &Specification,
    ) -> Result<CheckResult<Vec<TypedDeclaration>>, NoMemory>
        ensures asked { asked self.new ≡ asked self.old }
        ensures answered { IfOk result (λ checked. FromAnswers (log self.old) (log self.new) (λ t. (env self.new, map_ok effects_model checked) ≡ (reading t).subprogram (env self.old) (specification_model specification.now))) };

    /// The stub of a subprogram, with the place of `separate` (ARM 10.1.3).
    /// # Errors
    /// `NoMemory` if the allocator refuses memory. The inner error is the first rule that is broken.
    fn stub(
        &mut self,
        specification: &Specification,
        separate: Place,
    ) -> Result<CheckResult<Vec<TypedDeclaration>>, NoMemory>
        ensures asked { asked self.new ≡ asked self.old }
        ensures answered { IfOk result (λ checked. FromAnswers (log self.old) (log self.new) (λ t. (env self.new, map_ok effects_model checked) ≡ (reading t).stub (env self.old) (specification_model specification.now) (place_label separate))) };

    /// A task (ARM 9.1).
    /// # Errors
    /// `NoMemory` if the allocator refuses memory. The inner error is the first rule that is broken.
    fn single_task(
        &mut self,
        task: &TaskDeclaration,
    ) -> Result<CheckResult<Vec<TypedDeclaration>>, NoMemory>
        ensures asked { asked self.new ≡ asked self.old }
        ensures answered { IfOk result (λ checked. FromAnswers (log self.old) (log self.new) (λ t. (env self.new, map_ok effects_model checked) ≡ (reading t).single_task (env self.old) (task_model task.now))) };

    /// A protected object, with the place of `protected` (ARM 9.4).
    /// # Errors
    /// `NoMemory` if the allocator refuses memory. The inner error is the first rule that is broken.
    fn single_object(
        &mut self,
        opening: Place,
        object: &ProtectedDefinition,
    ) -> Result<CheckResult<Vec<TypedDeclaration>>, NoMemory>
        ensures asked { asked self.new ≡ asked self.old }
        ensures answered { IfOk result (λ checked. FromAnswers (log self.old) (log self.new) (λ t. (env self.new, map_ok effects_model checked) ≡ (reading t).single_object (env self.old) (place_label opening) (protected_model object.now))) };

    /// The fault at the end of a part, if a declaration of it still waits for its body.
    /// # Errors
    /// `NoMemory` if the allocator refuses memory.
    fn missing(&mut self, end: Place) -> Result<Option<Fault>, NoMemory>
        ensures asked { asked self.new ≡ asked self.old }
        ensures answered { IfOk result (λ found. FromAnswers (log self.old) (log self.new) (λ t. (env self.new, found) ≡ giving (env self.old) ((reading t).missing (env self.old) (place_label end)))) };

    /// What comes before `is` of a subprogram's body (ARM 6.3): what the body does at its place.
    /// # Errors
    /// `NoMemory` if the allocator refuses memory. The inner error is the first rule that is broken.
    fn head(
        &mut self,
        specification: &Specification,
    ) -> Result<CheckResult<Vec<TypedDeclaration>>, NoMemory>
        ensures asked { asked self.new ≡ asked self.old }
        ensures answered { IfOk result (λ checked. FromAnswers (log self.old) (log self.new) (λ t. (env self.new, map_ok effects_model checked) ≡ (reading t).head (env self.old) (specification_model specification.now))) };

    /// What comes before the `is` of a task's body (ARM 9.1): what the body does at its place.
    /// # Errors
    /// `NoMemory` if the allocator refuses memory. The inner error is the first rule that is broken.
    fn task_head(
        &mut self,
        name: &Identifier,
    ) -> Result<CheckResult<Vec<TypedDeclaration>>, NoMemory>
        ensures asked { asked self.new ≡ asked self.old }
        ensures answered { IfOk result (λ checked. FromAnswers (log self.old) (log self.new) (λ t. (env self.new, map_ok effects_model checked) ≡ (reading t).task_head (env self.old) (identifier_label name.now))) };

    /// What comes before the `is` of an entry's body (ARM 9.5.2): what the body does at its place.
    /// # Errors
    /// `NoMemory` if the allocator refuses memory. The inner error is the first rule that is broken.
    fn entry_head(
        &mut self,
        name: &Identifier,
        barrier: &Expression,
    ) -> Result<CheckResult<Vec<TypedDeclaration>>, NoMemory>
        ensures asked { asked self.new ≡ asked self.old }
        ensures answered { IfOk result (λ checked. FromAnswers (log self.old) (log self.new) (λ t. (env self.new, map_ok effects_model checked) ≡ (reading t).entry_head (env self.old) (identifier_label name.now) (expression_model barrier.now))) };

    /// Enters the region of the body whose head was read last.
    /// # Errors
    /// `NoMemory` if the allocator refuses memory.
    fn body_entered(&mut self) -> Result<(), NoMemory>
        ensures asked { asked self.new ≡ asked self.old }
        ensures answered { OnOk result (FromAnswers (log self.old) (log self.new) (λ t. env self.new ≡ (reading t).body_entered (env self.old))) };

    /// The body that return statements are in (ARM 6.5).
    /// # Errors
    /// `NoMemory` if the allocator refuses memory.
    fn returns(&mut self) -> Result<ReturnContext, NoMemory>
        ensures asked { asked self.new ≡ asked self.old }
        ensures answered { IfOk result (λ found. FromAnswers (log self.old) (log self.new) (λ t. (env self.new, found) ≡ giving (env self.old) ((reading t).returns (env self.old)))) };

    /// The innermost body with its labels, after what is inside it.
    /// # Errors
    /// `NoMemory` if the allocator refuses memory.
    fn body(
        &mut self,
        extent: BodyExtent,
        declarations: Vec<TypedDeclaration>,
        statements: Vec<TypedStatement>,
    ) -> Result<TypedBody, NoMemory>
        ensures asked { asked self.new ≡ asked self.old }
        ensures answered { IfOk result (λ found. FromAnswers (log self.old) (log self.new) (λ t. (env self.new, body_model found) ≡ giving (env self.old) ((reading t).body (env self.old) extent (effects_model declarations) (map statement_model statements.items)))) };

    /// Leaves the region of a body.
    /// # Errors
    /// `NoMemory` if the allocator refuses memory.
    fn body_left(&mut self) -> Result<(), NoMemory>
        ensures asked { asked self.new ≡ asked self.old }
        ensures answered { OnOk result (FromAnswers (log self.old) (log self.new) (λ t. env self.new ≡ (reading t).body_left (env self.old))) };

    /// A protected body up to its operations (ARM 9.4), with the place of `protected`: enters their region, in which they wait for their
    /// bodies. The result is what the body does at its place.
    /// # Errors
    /// `NoMemory` if the allocator refuses memory. The inner error is the first rule that is broken.
    fn object_entered(
        &mut self,
        opening: Place,
        name: &Identifier,
        operations: &[OperationBody],
    ) -> Result<CheckResult<Vec<TypedDeclaration>>, NoMemory>
        ensures asked { asked self.new ≡ asked self.old }
        ensures answered { IfOk result (λ checked. FromAnswers (log self.old) (log self.new) (λ t. (env self.new, map_ok effects_model checked) ≡ (reading t).object_entered (env self.old) (place_label opening) (identifier_label name.now) (operation_bodies_of (map operation_body_model operations.now)))) };

    /// Leaves the region of a protected body.
    /// # Errors
    /// `NoMemory` if the allocator refuses memory.
    fn object_left(&mut self) -> Result<(), NoMemory>
        ensures asked { asked self.new ≡ asked self.old }
        ensures answered { OnOk result (FromAnswers (log self.old) (log self.new) (λ t. env self.new ≡ (reading t).object_left (env self.old))) };

    /// The fault at the end of a package's declaration, if a private type has no full declaration (ARM 7.3(4)).
    /// # Errors
    /// `NoMemory` if the allocator refuses memory.
    fn incomplete(&mut self, end: Place) -> Result<Option<Fault>, NoMemory>
        ensures asked { asked self.new ≡ asked self.old }
        ensures answered { IfOk result (λ found. FromAnswers (log self.old) (log self.new) (λ t. (env self.new, found) ≡ giving (env self.old) ((reading t).incomplete (env self.old) (place_label end)))) };

    /// From here on the private parts of the ancestors are seen (ARM 8.2(5)).
    /// # Errors
    /// `NoMemory` if the allocator refuses memory.
    fn private_entered(&mut self) -> Result<(), NoMemory>
        ensures asked { asked self.new ≡ asked self.old }
        ensures answered { OnOk result (FromAnswers (log self.old) (log self.new) (λ t. env self.new ≡ (reading t).private_entered (env self.old))) };

    /// Enters the statements of a package's body, which are elaborated with the unit.
    /// # Errors
    /// `NoMemory` if the allocator refuses memory.
    fn statements_entered(&mut self) -> Result<(), NoMemory>
        ensures asked { asked self.new ≡ asked self.old }
        ensures answered { OnOk result (FromAnswers (log self.old) (log self.new) (λ t. env self.new ≡ (reading t).statements_entered (env self.old))) };
}
