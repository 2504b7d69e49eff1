// Statements with their labels (ARM 5, 6.4, 6.5, 9.6).
ghost use Rattle.std.specs.Prelude.{◌≡◌, map, option_map};
ghost use Rattle.al_view_typed.specs.DeclarationTrees.{declaration_model};
ghost use Rattle.al_view_typed.specs.ExpressionViews.{call_model, name_model, typed_model, value_model};
ghost use Rattle.al_view_typed.specs.StatementTrees.{StatementTree as statement_trees, StatementFormTree as form_trees, BranchTree as branch_trees, AlternativeTree as alternative_trees};
ghost use Rattle.al_view_typed.specs.StatementViews.{alternative_model, alternatives_of, branch_model, branches_of, piece_model, scheme_model, statement_form_model, statement_model, statements_of};

use crate::declaration::TypedDeclaration;
use crate::expression::{CheckedValue, Typed, TypedCall, TypedName};
use al_base::Name;
use al_view::{Bounds, Seq};

/// What `Put` and `Put_Line` put (ARM A.10.7): their argument is made of pieces with `&` between them.
pub enum Piece {
    /// The bytes of a string literal.
    Text(Seq<u8>),
    /// `S'Image (value)` of an integer type (ARM 3.5(35)).
    IntegerImage(Typed),
    /// `S'Image (value)` of an enumeration type, with the names of its literals in upper case, by position, each of at most 255
    /// bytes.
    EnumerationImage { value: Typed, names: Seq<Name> },
}

impl Drop for Piece {
    fn drop(self) {
        match self {
            Piece::Text(_) => {}
            Piece::IntegerImage(_) => {}
            Piece::EnumerationImage { value: _, names: _ } => {}
        }
    }
}

/// How often a loop goes round (ARM 5.5).
pub enum LoopScheme {
    /// A loop without an iteration scheme.
    Forever,
    /// A loop that goes on while the condition holds.
    While(Typed),
    /// A loop from one bound to the other, with the range of the mark before `range`, and the two words of the frame that keep the
    /// parameter and the last value that it is to have.
    For {
        is_reverse: bool,
        low: Typed,
        high: Typed,
        mark: Option<Bounds>,
        parameter: u32,
        last: u32,
    },
}

impl Drop for LoopScheme {
    fn drop(self) {
        match self {
            LoopScheme::Forever => {}
            LoopScheme::While(_) => {}
            LoopScheme::For {
                is_reverse: _,
                low: _,
                high: _,
                mark: _,
                parameter: _,
                last: _,
            } => {}
        }
    }
}

/// A statement with the line of its first token.
#[cycle(statement)]
pub struct TypedStatement {
    /// The line of its first token, from 1.
    pub line: usize,
    /// What it is.
    pub form: StatementForm,
}

impl Drop for TypedStatement {
    #[cycle(drop)]
    fn drop(self) {
        let TypedStatement { line: _, form: _ } = self;
    }
}

/// What a statement does.
#[cycle(statement)]
pub enum StatementForm {
    /// A null statement (ARM 5.1(6)).
    Null,
    /// An assignment to a target of so many words (ARM 5.2).
    Assignment {
        target: TypedName,
        words: u32,
        value: CheckedValue,
    },
    /// A call of a procedure or an entry (ARM 6.4, 9.5.3).
    Call(TypedCall),
    /// Put, Put_Line and New_Line (ARM A.10.5, A.10.7): what is put, and whether the line ends then.
    Put {
        pieces: Vec<Piece>,
        ends_line: bool,
    },
    /// A return statement (ARM 6.5), with the value of a function and its number of words.
    Return {
        value: Option<CheckedValue>,
        words: u32,
    },
    /// An exit statement (ARM 5.7): how many loops are between it and the loop that is left, and its condition.
    Exit {
        loops: u32,
        condition: Option<Typed>,
    },
    /// `delay until moment` (ARM 9.6)
    Delay(Typed),
    /// An if statement (ARM 5.3), with no statements after `else` if there is no `else`.
    If {
        branches: Vec<Branch>,
        otherwise: Vec<TypedStatement>,
    },
    /// A case statement (ARM 5.4), with the word of the frame that keeps the selector's value, and with no other statements if
    /// there is no `others`.
    Case {
        selector: Typed,
        slot: u32,
        alternatives: Vec<Alternative>,
        otherwise: Vec<TypedStatement>,
    },
    /// ARM 5.5
    Loop {
        scheme: LoopScheme,
        statements: Vec<TypedStatement>,
    },
    /// ARM 5.6
    Block {
        declarations: Vec<TypedDeclaration>,
        statements: Vec<TypedStatement>,
    },
}

impl Drop for StatementForm {
    #[cycle(drop)]
    fn drop(self) {
        match self {
            StatementForm::Null => {}
            StatementForm::Assignment {
                target: _,
                words: _,
                value: _,
            } => {}
            StatementForm::Call(_) => {}
            StatementForm::Put {
                pieces: _,
                ends_line: _,
            } => {}
            StatementForm::Return { value: _, words: _ } => {}
            StatementForm::Exit {
                loops: _,
                condition: _,
            } => {}
            StatementForm::Delay(_) => {}
            StatementForm::If {
                branches: _,
                otherwise: _,
            } => {}
            StatementForm::Case {
                selector: _,
                slot: _,
                alternatives: _,
                otherwise: _,
            } => {}
            StatementForm::Loop {
                scheme: _,
                statements: _,
            } => {}
            StatementForm::Block {
                declarations: _,
                statements: _,
            } => {}
        }
    }
}

/// A condition and what is done if it holds (ARM 5.3), with the line of `if` or `elsif`.
#[cycle(statement)]
pub struct Branch {
    /// The line of `if` or `elsif`, from 1.
    pub line: usize,
    /// The condition.
    pub condition: Typed,
    /// What is done if the condition holds.
    pub statements: Vec<TypedStatement>,
}

impl Drop for Branch {
    #[cycle(drop)]
    fn drop(self) {
        let Branch {
            line: _,
            condition: _,
            statements: _,
        } = self;
    }
}

/// What is done for some values of a selector (ARM 5.4).
#[cycle(statement)]
pub struct Alternative {
    /// The ranges of its values.
    pub choices: Seq<Bounds>,
    /// What is done for these values.
    pub statements: Vec<TypedStatement>,
}

impl Drop for Alternative {
    #[cycle(drop)]
    fn drop(self) {
        let Alternative {
            choices: _,
            statements: _,
        } = self;
    }
}

impl TypedStatement {
    /// A statement with the line of its first token.
    #[tactic(auto, using(crate::proofs::StatementsMade::statement_made))]
    pub fn new(line: usize, form: StatementForm) -> TypedStatement
        ensures { statement_model result ≡ statement_trees.Numbered line (statement_form_model form) }
    {
        TypedStatement { line, form }
    }
}

impl StatementForm {
    /// `null;`
    #[tactic(auto, using(crate::proofs::StatementsMade::null_made))]
    pub fn null() -> StatementForm
        ensures { statement_form_model result ≡ form_trees.NullStatement }
    {
        StatementForm::Null
    }

    /// `target := value;`
    #[tactic(auto, using(crate::proofs::StatementsMade::assignment_made))]
    pub fn assignment(target: TypedName, words: u32, value: CheckedValue) -> StatementForm
        ensures { statement_form_model result ≡ form_trees.AssignmentStatement (name_model target) words (value_model value) }
    {
        StatementForm::Assignment {
            target,
            words,
            value,
        }
    }

    /// A call of a procedure or an entry.
    #[tactic(auto, using(crate::proofs::StatementsMade::call_made))]
    pub fn call(call: TypedCall) -> StatementForm
        ensures { statement_form_model result ≡ form_trees.CallStatement (call_model call) }
    {
        StatementForm::Call(call)
    }

    /// What is put, and whether the line ends then.
    #[tactic(auto, using(crate::proofs::StatementsMade::put_made))]
    pub fn put(pieces: Vec<Piece>, ends_line: bool) -> StatementForm
        ensures { statement_form_model result ≡ form_trees.PutStatement (map piece_model pieces.items) ends_line }
    {
        StatementForm::Put { pieces, ends_line }
    }

    /// `return [value];`
    #[tactic(auto, using(crate::proofs::StatementsMade::return_made))]
    pub fn returning(value: Option<CheckedValue>, words: u32) -> StatementForm
        ensures { statement_form_model result ≡ form_trees.ReturnStatement (option_map value_model value) words }
    {
        StatementForm::Return { value, words }
    }

    /// `exit [name] [when condition];`
    #[tactic(auto, using(crate::proofs::StatementsMade::exit_made))]
    pub fn exit(loops: u32, condition: Option<Typed>) -> StatementForm
        ensures { statement_form_model result ≡ form_trees.ExitStatement loops (option_map typed_model condition) }
    {
        StatementForm::Exit { loops, condition }
    }

    /// `delay until moment;`
    #[tactic(auto, using(crate::proofs::StatementsMade::delay_made))]
    pub fn delay(moment: Typed) -> StatementForm
        ensures { statement_form_model result ≡ form_trees.DelayStatement (typed_model moment) }
    {
        StatementForm::Delay(moment)
    }

    /// Branches, and what is done if no condition holds.
    #[tactic(auto, using(crate::proofs::StatementsMade::if_made))]
    pub fn branching(branches: Vec<Branch>, otherwise: Vec<TypedStatement>) -> StatementForm
        ensures { statement_form_model result ≡ form_trees.IfStatement (branches_of (map branch_model branches.items)) (statements_of (map statement_model otherwise.items)) }
    {
        StatementForm::If {
            branches,
            otherwise,
        }
    }

    /// Alternatives of a selector's values, and what is done for others.
    #[tactic(auto, using(crate::proofs::StatementsMade::case_made))]
    pub fn case(
        selector: Typed,
        slot: u32,
        alternatives: Vec<Alternative>,
        otherwise: Vec<TypedStatement>,
    ) -> StatementForm
        ensures { statement_form_model result ≡ form_trees.CaseStatement (typed_model selector) slot (alternatives_of (map alternative_model alternatives.items)) (statements_of (map statement_model otherwise.items)) }
    {
        StatementForm::Case {
            selector,
            slot,
            alternatives,
            otherwise,
        }
    }

    /// A loop.
    #[tactic(auto, using(crate::proofs::StatementsMade::loop_made))]
    pub fn looping(scheme: LoopScheme, statements: Vec<TypedStatement>) -> StatementForm
        ensures { statement_form_model result ≡ form_trees.LoopStatement (scheme_model scheme) (statements_of (map statement_model statements.items)) }
    {
        StatementForm::Loop { scheme, statements }
    }

    /// A block.
    #[tactic(auto, using(crate::proofs::StatementsMade::block_made))]
    pub fn block(
        declarations: Vec<TypedDeclaration>,
        statements: Vec<TypedStatement>,
    ) -> StatementForm
        ensures { statement_form_model result ≡ form_trees.BlockStatement (map declaration_model declarations.items) (statements_of (map statement_model statements.items)) }
    {
        StatementForm::Block {
            declarations,
            statements,
        }
    }
}

impl Branch {
    /// `if` or `elsif`, on that line, `condition then statements`
    #[tactic(auto, using(crate::proofs::StatementsMade::branch_made))]
    pub fn new(line: usize, condition: Typed, statements: Vec<TypedStatement>) -> Branch
        ensures { branch_model result ≡ branch_trees.Branch line (typed_model condition) (statements_of (map statement_model statements.items)) }
    {
        Branch {
            line,
            condition,
            statements,
        }
    }
}

impl Alternative {
    /// `when choices => statements`
    #[tactic(auto, using(crate::proofs::StatementsMade::alternative_made))]
    pub fn new(choices: Seq<Bounds>, statements: Vec<TypedStatement>) -> Alternative
        ensures { alternative_model result ≡ alternative_trees.Alternative choices (statements_of (map statement_model statements.items)) }
    {
        Alternative {
            choices,
            statements,
        }
    }
}
