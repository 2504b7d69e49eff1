// What the next token begins.
ghost use Rattle.al_tree_grammar.specs.Grammar.Rule.{Opt};
ghost use Rattle.al_tree_grammar.specs.Reading.{begins, first};
ghost use Rattle.al_tree_syntax.specs.Constructs.{Construct as constructs};
ghost use Rattle.al_tree_syntax.specs.Declarations.{common_rule, declaration_rule, initial_rule, item_rule, object_rule, operation_body_rule, operation_rule, protected_rule, specification_rule, subprogram_rule, subtype_rule, task_rule, type_rule, typed_rule, use_rule};
ghost use Rattle.al_tree_syntax.specs.Expressions.{expression_rule, name_rest_rule};
ghost use Rattle.al_tree_syntax.specs.Notation.{opens, the, ◌∣◌, ◌⨾◌};
ghost use Rattle.al_tree_syntax.specs.Statements.{loop_rule, statement_rule};
ghost use Rattle.al_tree_syntax.specs.Symbols.{Symbol as symbols};
ghost use Rattle.al_tree_syntax.specs.Units.{context_rule, package_rule};
ghost use Rattle.al_tree.specs.Lexemes.{lexemes};
ghost use Rattle.std.specs.Prelude.{◌≡◌};

use crate::is_next;
use crate::step::is_any_next;
use al_lex::Token;
use al_tree::Symbol;

/// The next token begins a statement.
#[tactic(auto, unfolding(al_tree_syntax::specs::Statements::statement_rule, al_tree_syntax::specs::Expressions::identifier_rule, al_tree_syntax::specs::Statements::return_rule, al_tree_syntax::specs::Statements::exit_rule, al_tree_syntax::specs::Statements::delay_rule, al_tree_syntax::specs::Statements::loop_rule, al_tree_syntax::specs::Statements::block_rule))]
pub(crate) fn is_statement_next(source: &[u8], tokens: &[Token]) -> bool
    ensures { result ≡ begins (first statement_rule) (lexemes source.now tokens.now) }
{
    is_any_next(
        source,
        tokens,
        &[
            Symbol::Null,
            Symbol::Identifier,
            Symbol::Return,
            Symbol::Exit,
            Symbol::Delay,
            Symbol::If,
            Symbol::Case,
            Symbol::Loop,
            Symbol::While,
            Symbol::For,
            Symbol::Declare,
            Symbol::Begin,
        ],
    )
}

/// The next token goes on with a name or ends it, in a call or an assignment.
#[tactic(auto, unfolding(al_tree_syntax::specs::Expressions::name_rest_rule, al_tree_syntax::specs::Declarations::initial_rule))]
pub(crate) fn is_rest_next(source: &[u8], tokens: &[Token]) -> bool
    ensures { result ≡ begins (first (name_rest_rule ⨾ Opt initial_rule ⨾ the symbols.Semicolon)) (lexemes source.now tokens.now) }
{
    is_any_next(
        source,
        tokens,
        &[
            Symbol::Dot,
            Symbol::LeftParenthesis,
            Symbol::Apostrophe,
            Symbol::Assign,
            Symbol::Semicolon,
        ],
    )
}

/// The next token begins a loop.
#[tactic(auto, unfolding(al_tree_syntax::specs::Statements::loop_rule))]
pub(crate) fn is_loop_next(source: &[u8], tokens: &[Token]) -> bool
    ensures { result ≡ begins (first loop_rule) (lexemes source.now tokens.now) }
{
    is_any_next(source, tokens, &[Symbol::Loop, Symbol::While, Symbol::For])
}

/// The next token begins a declaration or body in a declarative part.
#[tactic(auto, unfolding(al_tree_syntax::specs::Declarations::item_rule, al_tree_syntax::specs::Declarations::specification_rule, al_tree_syntax::specs::Declarations::common_rule, al_tree_syntax::specs::Declarations::object_rule, al_tree_syntax::specs::Declarations::type_rule, al_tree_syntax::specs::Declarations::subtype_rule, al_tree_syntax::specs::Declarations::use_rule, al_tree_syntax::specs::Declarations::pragma_rule, al_tree_syntax::specs::Expressions::identifiers_rule, al_tree_syntax::specs::Expressions::identifier_rule))]
pub(crate) fn is_item_next(source: &[u8], tokens: &[Token]) -> bool
    ensures { result ≡ begins (first item_rule) (lexemes source.now tokens.now) }
{
    is_any_next(
        source,
        tokens,
        &[
            Symbol::Identifier,
            Symbol::Type,
            Symbol::Subtype,
            Symbol::Use,
            Symbol::Pragma,
            Symbol::Procedure,
            Symbol::Function,
            Symbol::Task,
            Symbol::Protected,
        ],
    )
}

/// The next token begins a subprogram's declaration, stub or body.
#[tactic(auto, unfolding(al_tree_syntax::specs::Declarations::specification_rule))]
pub(crate) fn is_subprogram_next(source: &[u8], tokens: &[Token]) -> bool
    ensures { result ≡ begins (first (specification_rule ⨾ subprogram_rule)) (lexemes source.now tokens.now) }
{
    is_any_next(source, tokens, &[Symbol::Procedure, Symbol::Function])
}

/// The next token begins what is after `task` in a declaration.
#[tactic(auto, unfolding(al_tree_syntax::specs::Declarations::task_rule, al_tree_syntax::specs::Expressions::identifier_rule))]
pub(crate) fn is_task_next(source: &[u8], tokens: &[Token]) -> bool
    ensures { result ≡ begins (first task_rule) (lexemes source.now tokens.now) }
{
    is_next(source, tokens, Symbol::Identifier)
}

/// The next token begins what is after `protected` in a declaration.
#[tactic(auto, unfolding(al_tree_syntax::specs::Declarations::protected_rule, al_tree_syntax::specs::Expressions::identifier_rule))]
pub(crate) fn is_protected_next(source: &[u8], tokens: &[Token]) -> bool
    ensures { result ≡ begins (first protected_rule) (lexemes source.now tokens.now) }
{
    is_next(source, tokens, Symbol::Identifier)
}

/// The next token begins a body in a protected body.
#[tactic(auto, unfolding(al_tree_syntax::specs::Declarations::operation_body_rule, al_tree_syntax::specs::Declarations::specification_rule))]
pub(crate) fn is_operation_body_next(source: &[u8], tokens: &[Token]) -> bool
    ensures { result ≡ begins (first operation_body_rule) (lexemes source.now tokens.now) }
{
    is_any_next(
        source,
        tokens,
        &[Symbol::Procedure, Symbol::Function, Symbol::Entry],
    )
}

/// The next token begins the body of a subprogram.
#[tactic(auto, unfolding(al_tree_syntax::specs::Declarations::specification_rule))]
pub(crate) fn is_subprogram_body_next(source: &[u8], tokens: &[Token]) -> bool
    ensures { result ≡ begins (first (specification_rule ⨾ opens symbols.Is constructs.SubprogramBody)) (lexemes source.now tokens.now) }
{
    is_any_next(source, tokens, &[Symbol::Procedure, Symbol::Function])
}

/// The next token begins an item of a context clause.
#[tactic(auto, unfolding(al_tree_syntax::specs::Units::context_rule, al_tree_syntax::specs::Declarations::use_rule, al_tree_syntax::specs::Declarations::pragma_rule))]
pub(crate) fn is_context_next(source: &[u8], tokens: &[Token]) -> bool
    ensures { result ≡ begins (first context_rule) (lexemes source.now tokens.now) }
{
    is_any_next(source, tokens, &[Symbol::With, Symbol::Use, Symbol::Pragma])
}

/// The next token begins what is after `package` in a declaration.
#[tactic(auto, unfolding(al_tree_syntax::specs::Units::package_rule, al_tree_syntax::specs::Expressions::compound_name_rule, al_tree_syntax::specs::Expressions::identifier_rule))]
pub(crate) fn is_declaration_of_package_next(source: &[u8], tokens: &[Token]) -> bool
    ensures { result ≡ begins (first package_rule) (lexemes source.now tokens.now) }
{
    is_next(source, tokens, Symbol::Identifier)
}

/// The next token begins a library subprogram.
#[tactic(auto, unfolding(al_tree_syntax::specs::Declarations::specification_rule))]
pub(crate) fn is_subprogram_item_next(source: &[u8], tokens: &[Token]) -> bool
    ensures { result ≡ begins (first (specification_rule ⨾ (the symbols.Semicolon ∣ opens symbols.Is constructs.SubprogramBody))) (lexemes source.now tokens.now) }
{
    is_any_next(source, tokens, &[Symbol::Procedure, Symbol::Function])
}

/// The next token begins the specification of a subprogram.
#[tactic(auto, unfolding(al_tree_syntax::specs::Declarations::specification_rule))]
pub(crate) fn is_specification_next(source: &[u8], tokens: &[Token]) -> bool
    ensures { result ≡ begins (first specification_rule) (lexemes source.now tokens.now) }
{
    is_any_next(source, tokens, &[Symbol::Procedure, Symbol::Function])
}

/// The next token begins the declaration of a subprogram.
#[tactic(auto, unfolding(al_tree_syntax::specs::Declarations::specification_rule))]
pub(crate) fn is_subprogram_declaration_next(source: &[u8], tokens: &[Token]) -> bool
    ensures { result ≡ begins (first (specification_rule ⨾ the symbols.Semicolon)) (lexemes source.now tokens.now) }
{
    is_any_next(source, tokens, &[Symbol::Procedure, Symbol::Function])
}

/// The next token begins an operation of a protected declaration.
#[tactic(auto, unfolding(al_tree_syntax::specs::Declarations::operation_rule, al_tree_syntax::specs::Declarations::specification_rule))]
pub(crate) fn is_operation_next(source: &[u8], tokens: &[Token]) -> bool
    ensures { result ≡ begins (first operation_rule) (lexemes source.now tokens.now) }
{
    is_any_next(
        source,
        tokens,
        &[Symbol::Procedure, Symbol::Function, Symbol::Entry],
    )
}

/// The next token begins a declaration that packages and bodies have alike.
#[tactic(auto, unfolding(al_tree_syntax::specs::Declarations::common_rule, al_tree_syntax::specs::Declarations::object_rule, al_tree_syntax::specs::Declarations::type_rule, al_tree_syntax::specs::Declarations::subtype_rule, al_tree_syntax::specs::Declarations::use_rule, al_tree_syntax::specs::Declarations::pragma_rule, al_tree_syntax::specs::Expressions::identifiers_rule, al_tree_syntax::specs::Expressions::identifier_rule))]
pub(crate) fn is_common_next(source: &[u8], tokens: &[Token]) -> bool
    ensures { result ≡ begins (first common_rule) (lexemes source.now tokens.now) }
{
    is_any_next(
        source,
        tokens,
        &[
            Symbol::Identifier,
            Symbol::Type,
            Symbol::Subtype,
            Symbol::Use,
            Symbol::Pragma,
        ],
    )
}

/// The next token begins a declaration of a package.
#[tactic(auto, unfolding(al_tree_syntax::specs::Declarations::declaration_rule, al_tree_syntax::specs::Declarations::specification_rule, al_tree_syntax::specs::Declarations::common_rule, al_tree_syntax::specs::Declarations::object_rule, al_tree_syntax::specs::Declarations::type_rule, al_tree_syntax::specs::Declarations::subtype_rule, al_tree_syntax::specs::Declarations::use_rule, al_tree_syntax::specs::Declarations::pragma_rule, al_tree_syntax::specs::Expressions::identifiers_rule, al_tree_syntax::specs::Expressions::identifier_rule))]
pub(crate) fn is_declaration_next(source: &[u8], tokens: &[Token]) -> bool
    ensures { result ≡ begins (first declaration_rule) (lexemes source.now tokens.now) }
{
    is_any_next(
        source,
        tokens,
        &[
            Symbol::Identifier,
            Symbol::Type,
            Symbol::Subtype,
            Symbol::Use,
            Symbol::Pragma,
            Symbol::Procedure,
            Symbol::Function,
            Symbol::Task,
            Symbol::Protected,
        ],
    )
}

/// The next token begins an expression.
#[tactic(auto, unfolding(al_tree_syntax::specs::Expressions::expression_rule, al_tree_syntax::specs::Expressions::relation_rule, al_tree_syntax::specs::Expressions::simple_expression_rule, al_tree_syntax::specs::Expressions::term_rule, al_tree_syntax::specs::Expressions::factor_rule, al_tree_syntax::specs::Expressions::primary_rule, al_tree_syntax::specs::Expressions::name_rule, al_tree_syntax::specs::Expressions::parentheses_rule, al_tree_syntax::specs::Expressions::identifier_rule))]
pub(crate) fn is_expression_next(source: &[u8], tokens: &[Token]) -> bool
    ensures { result ≡ begins (first expression_rule) (lexemes source.now tokens.now) }
{
    is_any_next(
        source,
        tokens,
        &[
            Symbol::Plus,
            Symbol::Minus,
            Symbol::Number,
            Symbol::StringLiteral,
            Symbol::Identifier,
            Symbol::LeftParenthesis,
            Symbol::Abs,
            Symbol::Not,
        ],
    )
}

/// The next token begins the type of an object.
#[tactic(auto, unfolding(al_tree_syntax::specs::Declarations::typed_rule, al_tree_syntax::specs::Declarations::subtype_indication_rule, al_tree_syntax::specs::Declarations::array_rule, al_tree_syntax::specs::Expressions::compound_name_rule, al_tree_syntax::specs::Expressions::identifier_rule))]
pub(crate) fn is_type_next(source: &[u8], tokens: &[Token]) -> bool
    ensures { result ≡ begins (first typed_rule) (lexemes source.now tokens.now) }
{
    is_any_next(source, tokens, &[Symbol::Identifier, Symbol::Array])
}

/// The next token begins an object or number declaration.
#[tactic(auto, unfolding(al_tree_syntax::specs::Declarations::object_rule, al_tree_syntax::specs::Expressions::identifiers_rule, al_tree_syntax::specs::Expressions::identifier_rule))]
pub(crate) fn is_object_next(source: &[u8], tokens: &[Token]) -> bool
    ensures { result ≡ begins (first object_rule) (lexemes source.now tokens.now) }
{
    is_next(source, tokens, Symbol::Identifier)
}

/// The next token begins a type declaration.
#[tactic(auto, unfolding(al_tree_syntax::specs::Declarations::type_rule))]
pub(crate) fn is_type_declaration_next(source: &[u8], tokens: &[Token]) -> bool
    ensures { result ≡ begins (first type_rule) (lexemes source.now tokens.now) }
{
    is_next(source, tokens, Symbol::Type)
}

/// The next token begins a subtype declaration.
#[tactic(auto, unfolding(al_tree_syntax::specs::Declarations::subtype_rule))]
pub(crate) fn is_subtype_declaration_next(source: &[u8], tokens: &[Token]) -> bool
    ensures { result ≡ begins (first subtype_rule) (lexemes source.now tokens.now) }
{
    is_next(source, tokens, Symbol::Subtype)
}

/// The next token begins a use clause.
#[tactic(auto, unfolding(al_tree_syntax::specs::Declarations::use_rule))]
pub(crate) fn is_use_next(source: &[u8], tokens: &[Token]) -> bool
    ensures { result ≡ begins (first use_rule) (lexemes source.now tokens.now) }
{
    is_next(source, tokens, Symbol::Use)
}
