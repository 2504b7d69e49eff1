// The walk of a check once more, with somebody who watches it.
use crate::watch::Watch;
use al_base::{NoMemory, Place, UnitKey};
use al_base_fault::{CheckResult, Fault};
use al_check::state_at;
use al_check_here::CheckState;
use al_check_reading::AdaAnalyzer;
use al_check_start::check_unit;
use al_meant::Asked;
use al_overload_lookup::first_place;
use al_query::{Answers, Recorder};
use al_stmts::{BodyExtent, Choice, LoopRange, LoopWords, ReturnContext, Selector};
use al_stmts_text::{Analyzer, CallEffect};
use al_tree::{
    Choice as ChoiceOfText, CommonDeclaration, CompilationUnit, DiscreteRange, Expression,
    FormalPart, Identifier, IdentifierName, Identifiers, OperationBody, ProtectedDefinition,
    Specification, TaskDeclaration, TypeDefinition,
};
use al_view::{Bounds, Seq, Symbol};
use al_view_typed::{
    DeclarationForm, Typed, TypedBody, TypedCall, TypedDeclaration, TypedStatement,
};
use std::alloc::Global;

/// Reads as the check does, and says so to the one who watches.
pub(crate) struct WatchedAnalyzer<'a, A: Answers, W: Watch> {
    alloc: Global,
    inner: AdaAnalyzer<Asked<'a, A>>,
    watch: W,
    /// The formal parameters of the last head, which its body declares.
    formals: Vec<Identifier>,
}

impl<'a, A: Answers, W: Watch + Drop> Drop for WatchedAnalyzer<'a, A, W> {
    fn drop(self) {
        let WatchedAnalyzer {
            alloc: _,
            inner: _,
            watch: _,
            formals: _,
        } = self;
    }
}

fn add_names<'a>(list: &mut Vec<&'a Identifier>, names: &'a Identifiers) -> Result<(), NoMemory> {
    list.push(&names.first)?;
    for name in names.others.as_slice() {
        list.push(name)?;
    }
    Ok(())
}

// The identifiers that a declaration declares.
fn names_in<'a>(
    alloc: Global,
    declaration: &'a CommonDeclaration,
) -> Result<Vec<&'a Identifier>, NoMemory> {
    let mut list = Vec::new(alloc);
    match declaration {
        CommonDeclaration::Object(of) => add_names(&mut list, &of.names)?,
        CommonDeclaration::Type(of) => {
            list.push(&of.name)?;
            if let TypeDefinition::Enumeration(_, literals) = &of.definition {
                add_names(&mut list, literals)?;
            }
        }
        CommonDeclaration::Subtype(of) => list.push(&of.name)?,
        CommonDeclaration::Use(_) => {}
        CommonDeclaration::Pragma(_) => {}
    }
    Ok(list)
}

// Where a declaration begins, or its name.
fn place_in(declaration: &CommonDeclaration) -> Place {
    match declaration {
        CommonDeclaration::Object(of) => of.names.first.place,
        CommonDeclaration::Type(of) => of.name.place,
        CommonDeclaration::Subtype(of) => of.name.place,
        CommonDeclaration::Use(of) => of.names.first.first.place,
        CommonDeclaration::Pragma(of) => of.name.place,
    }
}

fn specification_place(specification: &Specification) -> Place {
    match specification {
        Specification::Procedure(place, _, _) => *place,
        Specification::Function(_, name, _, _, _) => name.first.place,
    }
}

// The name that a specification declares, which is the last of its identifiers.
fn name_of(specification: &Specification) -> &Identifier {
    let name = match specification {
        Specification::Procedure(_, name, _) => name,
        Specification::Function(_, name, _, _, _) => name,
    };
    match name.selectors.as_slice() {
        [.., last] => last,
        [] => &name.first,
    }
}

fn formals_of(specification: &Specification) -> Option<&FormalPart> {
    let part = match specification {
        Specification::Procedure(_, _, part) => part,
        Specification::Function(_, _, part, _, _) => part,
    };
    part.as_ref()
}

fn copied(alloc: Global, identifier: &Identifier) -> Result<Identifier, NoMemory> {
    Ok(Identifier {
        name: IdentifierName::of_spelling(alloc, identifier.name.as_slice())?,
        place: identifier.place,
    })
}

fn add_copies(
    alloc: Global,
    list: &mut Vec<Identifier>,
    names: &Identifiers,
) -> Result<(), NoMemory> {
    list.push(copied(alloc, &names.first)?)?;
    for name in names.others.as_slice() {
        list.push(copied(alloc, name)?)?;
    }
    Ok(())
}

// The formal parameters of a specification.
fn formals_in(alloc: Global, specification: &Specification) -> Result<Vec<Identifier>, NoMemory> {
    let mut list = Vec::new(alloc);
    if let Some(part) = formals_of(specification) {
        add_copies(alloc, &mut list, &part.first.names)?;
        for formal in part.others.as_slice() {
            add_copies(alloc, &mut list, &formal.names)?;
        }
    }
    Ok(list)
}

impl<'a, A: Answers, W: Watch + Drop> WatchedAnalyzer<'a, A, W> {
    fn into_watch(self) -> W {
        let WatchedAnalyzer {
            alloc: _,
            inner: _,
            watch,
            formals: _,
        } = self;
        watch
    }
}

fn begins_at<W: Watch>(
    watch: &mut W,
    state: &CheckState,
    expression: &Expression,
) -> Result<(), NoMemory> {
    watch.begins(state, first_place(expression), &[])
}

fn judged<W: Watch>(watch: &mut W, checked: &CheckResult<Typed>) {
    if let Ok(typed) = checked {
        watch.judged(typed);
    }
}

// The bounds of a loop's range are judged.
fn range_judged<W: Watch>(watch: &mut W, checked: &CheckResult<LoopRange>) {
    if let Ok(range) = checked {
        watch.judged(&range.low);
        watch.judged(&range.high);
    }
}

// The initial values of objects are judged.
fn judged_in<W: Watch>(watch: &mut W, checked: &CheckResult<Vec<TypedDeclaration>>) {
    if let Ok(declarations) = checked {
        for declaration in declarations.as_slice() {
            if let DeclarationForm::Objects {
                places: _,
                words: _,
                value: Some(value),
            } = &declaration.form
            {
                watch.judged(&value.value);
            }
        }
    }
}

fn called<W: Watch>(watch: &mut W, name: &Expression, checked: &CheckResult<CallEffect>) {
    if let Ok(CallEffect::Called(call)) = checked {
        watch.called(first_place(name), call);
    }
}

// The innermost body begins.
fn headed<W: Watch>(watch: &mut W, state: &CheckState) {
    if let Some(body) = state.bodies.innermost() {
        watch.headed(&body.symbol);
    }
}

// The innermost body ends here.
fn ended<W: Watch>(watch: &mut W, state: &CheckState, end: Place) {
    if let Some(body) = state.bodies.innermost() {
        watch.ended(end, &body.symbol);
    }
}

// The formal parameters of the last head are declared now.
fn formals_declared<W: Watch>(
    alloc: Global,
    watch: &mut W,
    state: &CheckState,
    formals: &[Identifier],
) -> Result<(), NoMemory> {
    let mut names = Vec::new(alloc);
    for formal in formals {
        names.push(formal)?;
    }
    watch.declared(state, names.as_slice())
}

impl<'a, A: Answers, W: Watch> Analyzer for WatchedAnalyzer<'a, A, W> {
    ghost use Rattle.al_check_reading.specs.Ada.{ada};

    type Environment = CheckState;

    type Asked = Asked<'a, A>;

    ghost env = { λ r. r.inner.state };

    ghost asked = { λ r. r.inner.recorder.asked };

    ghost log = { λ r. r.inner.recorder.log };

    ghost reading = { ada };

    fn condition(&mut self, expression: &Expression) -> Result<CheckResult<Typed>, NoMemory> {
        begins_at(&mut self.watch, &self.inner.state, expression)?;
        let checked = self.inner.condition(expression)?;
        judged(&mut self.watch, &checked);
        Ok(checked)
    }

    fn moment(&mut self, expression: &Expression) -> Result<CheckResult<Typed>, NoMemory> {
        begins_at(&mut self.watch, &self.inner.state, expression)?;
        let checked = self.inner.moment(expression)?;
        judged(&mut self.watch, &checked);
        Ok(checked)
    }

    fn target(&mut self, expression: &Expression) -> Result<CheckResult<Typed>, NoMemory> {
        begins_at(&mut self.watch, &self.inner.state, expression)?;
        let checked = self.inner.target(expression)?;
        judged(&mut self.watch, &checked);
        Ok(checked)
    }

    fn source(
        &mut self,
        target: &Expression,
        value: &Expression,
    ) -> Result<CheckResult<Typed>, NoMemory> {
        begins_at(&mut self.watch, &self.inner.state, value)?;
        let checked = self.inner.source(target, value)?;
        judged(&mut self.watch, &checked);
        Ok(checked)
    }

    fn call_effect(&mut self, name: &Expression) -> Result<CheckResult<CallEffect>, NoMemory> {
        begins_at(&mut self.watch, &self.inner.state, name)?;
        let checked = self.inner.call_effect(name)?;
        called(&mut self.watch, name, &checked);
        Ok(checked)
    }

    fn result_value(&mut self, expression: &Expression) -> Result<CheckResult<Typed>, NoMemory> {
        begins_at(&mut self.watch, &self.inner.state, expression)?;
        let checked = self.inner.result_value(expression)?;
        judged(&mut self.watch, &checked);
        Ok(checked)
    }

    fn selector(&mut self, expression: &Expression) -> Result<CheckResult<Typed>, NoMemory> {
        begins_at(&mut self.watch, &self.inner.state, expression)?;
        let checked = self.inner.selector(expression)?;
        judged(&mut self.watch, &checked);
        Ok(checked)
    }

    fn whole(&mut self, selector: &Expression) -> Result<Bounds, NoMemory> {
        self.inner.whole(selector)
    }

    fn choice(
        &mut self,
        selector: &Expression,
        choice: &ChoiceOfText,
    ) -> Result<CheckResult<Choice>, NoMemory> {
        self.inner.choice(selector, choice)
    }

    fn are_right(
        &mut self,
        selector: Selector,
        alternatives: &[Seq<Choice>],
    ) -> Result<bool, NoMemory> {
        self.inner.are_right(selector, alternatives)
    }

    fn word(&mut self) -> Result<u32, NoMemory> {
        self.inner.word()
    }

    fn with_word(&mut self) -> Result<(), NoMemory> {
        self.inner.with_word()
    }

    fn loop_entered(&mut self, parameter: &Identifier) -> Result<(), NoMemory> {
        self.watch
            .begins(&self.inner.state, parameter.place, &[parameter])?;
        self.inner.loop_entered(parameter)
    }

    fn loop_range(&mut self, range: &DiscreteRange) -> Result<CheckResult<LoopRange>, NoMemory> {
        let checked = self.inner.loop_range(range)?;
        range_judged(&mut self.watch, &checked);
        Ok(checked)
    }

    fn with_parameter(
        &mut self,
        parameter: &Identifier,
        range: &LoopRange,
        words: LoopWords,
    ) -> Result<(), NoMemory> {
        self.inner.with_parameter(parameter, range, words)?;
        self.watch.declared(&self.inner.state, &[parameter])
    }

    fn block_entered(&mut self) -> Result<(), NoMemory> {
        self.inner.block_entered()
    }

    fn left(&mut self) -> Result<(), NoMemory> {
        self.inner.left()
    }

    fn declared(
        &mut self,
        declaration: &CommonDeclaration,
    ) -> Result<CheckResult<Vec<TypedDeclaration>>, NoMemory> {
        let names = names_in(self.alloc, declaration)?;
        self.watch
            .begins(&self.inner.state, place_in(declaration), names.as_slice())?;
        let checked = self.inner.declared(declaration)?;
        self.watch.declared(&self.inner.state, names.as_slice())?;
        judged_in(&mut self.watch, &checked);
        Ok(checked)
    }

    fn subprogram(
        &mut self,
        specification: &Specification,
    ) -> Result<CheckResult<Vec<TypedDeclaration>>, NoMemory> {
        let name = name_of(specification);
        self.watch.begins(
            &self.inner.state,
            specification_place(specification),
            &[name],
        )?;
        let checked = self.inner.subprogram(specification)?;
        self.watch.declared(&self.inner.state, &[name])?;
        Ok(checked)
    }

    fn stub(
        &mut self,
        specification: &Specification,
        separate: Place,
    ) -> Result<CheckResult<Vec<TypedDeclaration>>, NoMemory> {
        let name = name_of(specification);
        self.watch.begins(
            &self.inner.state,
            specification_place(specification),
            &[name],
        )?;
        let checked = self.inner.stub(specification, separate)?;
        self.watch.declared(&self.inner.state, &[name])?;
        Ok(checked)
    }

    fn single_task(
        &mut self,
        task: &TaskDeclaration,
    ) -> Result<CheckResult<Vec<TypedDeclaration>>, NoMemory> {
        self.watch
            .begins(&self.inner.state, task.opening, &[&task.name])?;
        let checked = self.inner.single_task(task)?;
        self.watch.declared(&self.inner.state, &[&task.name])?;
        Ok(checked)
    }

    fn single_object(
        &mut self,
        opening: Place,
        object: &ProtectedDefinition,
    ) -> Result<CheckResult<Vec<TypedDeclaration>>, NoMemory> {
        self.watch
            .begins(&self.inner.state, opening, &[&object.name])?;
        let checked = self.inner.single_object(opening, object)?;
        self.watch.declared(&self.inner.state, &[&object.name])?;
        Ok(checked)
    }

    fn missing(&mut self, end: Place) -> Result<Option<Fault>, NoMemory> {
        self.inner.missing(end)
    }

    fn head(
        &mut self,
        specification: &Specification,
    ) -> Result<CheckResult<Vec<TypedDeclaration>>, NoMemory> {
        let name = name_of(specification);
        self.formals = formals_in(self.alloc, specification)?;
        self.watch.begins(
            &self.inner.state,
            specification_place(specification),
            &[name],
        )?;
        let checked = self.inner.head(specification)?;
        self.watch.declared(&self.inner.state, &[name])?;
        Ok(checked)
    }

    fn task_head(
        &mut self,
        name: &Identifier,
    ) -> Result<CheckResult<Vec<TypedDeclaration>>, NoMemory> {
        self.watch.begins(&self.inner.state, name.place, &[])?;
        self.inner.task_head(name)
    }

    fn entry_head(
        &mut self,
        name: &Identifier,
        barrier: &Expression,
    ) -> Result<CheckResult<Vec<TypedDeclaration>>, NoMemory> {
        self.watch.begins(&self.inner.state, name.place, &[])?;
        self.inner.entry_head(name, barrier)
    }

    fn body_entered(&mut self) -> Result<(), NoMemory> {
        self.inner.body_entered()?;
        headed(&mut self.watch, &self.inner.state);
        let formals = std::mem::replace(&mut self.formals, Vec::new(self.alloc));
        formals_declared(
            self.alloc,
            &mut self.watch,
            &self.inner.state,
            formals.as_slice(),
        )
    }

    fn returns(&mut self) -> Result<ReturnContext, NoMemory> {
        self.inner.returns()
    }

    fn body(
        &mut self,
        extent: BodyExtent,
        declarations: Vec<TypedDeclaration>,
        statements: Vec<TypedStatement>,
    ) -> Result<TypedBody, NoMemory> {
        ended(&mut self.watch, &self.inner.state, extent.end);
        self.inner.body(extent, declarations, statements)
    }

    fn body_left(&mut self) -> Result<(), NoMemory> {
        self.inner.body_left()
    }

    fn object_entered(
        &mut self,
        opening: Place,
        name: &Identifier,
        operations: &[OperationBody],
    ) -> Result<CheckResult<Vec<TypedDeclaration>>, NoMemory> {
        self.watch.begins(&self.inner.state, name.place, &[])?;
        self.inner.object_entered(opening, name, operations)
    }

    fn object_left(&mut self) -> Result<(), NoMemory> {
        self.inner.object_left()
    }

    fn incomplete(&mut self, end: Place) -> Result<Option<Fault>, NoMemory> {
        self.inner.incomplete(end)
    }

    fn private_entered(&mut self) -> Result<(), NoMemory> {
        self.inner.private_entered()
    }

    fn statements_entered(&mut self) -> Result<(), NoMemory> {
        self.inner.statements_entered()
    }
}

/// Walks over a unit that is read as this tree, by the answers of a table. If its context clause has an error, there is nothing to watch.
///
/// # Errors
///
/// `NoMemory` if the allocator refuses memory.
pub(crate) fn watched<A: Answers, W: Watch + Drop>(
    alloc: Global,
    unit: &UnitKey,
    tree: &CompilationUnit,
    table: &A,
    watch: W,
) -> Result<W, NoMemory> {
    let mut recorder = Recorder::new(alloc, Asked { table });
    let Some(state) = state_at(alloc, unit, tree, &mut recorder)? else {
        return Ok(watch);
    };
    let mut analyzer = WatchedAnalyzer {
        alloc,
        inner: AdaAnalyzer::new(state, recorder),
        watch,
        formals: Vec::new(alloc),
    };
    let inside = check_unit(&mut analyzer, alloc, &tree.item)?;
    drop(inside);
    Ok(analyzer.into_watch())
}
