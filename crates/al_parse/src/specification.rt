// Specifications, and the declarations of packages (ARM 6.1, 7.1, 9.1, 9.4).
ghost use Rattle.al_tree_grammar.specs.Grammar.{each, maybe};
ghost use Rattle.al_tree_grammar.specs.Grammar.Rule.{Many, Opt};
ghost use Rattle.al_parse.specs.Parses.{Gives, reading};
ghost use Rattle.al_tree_syntax.specs.Constructs.{Construct as constructs, place};
ghost use Rattle.al_tree_syntax.specs.DeclarationTrees.{aspect_tokens, declaration_tokens, end_name_tokens, formal_part_tokens, formal_tokens, identifier_token, protected_component_tokens, protected_operation_tokens, protected_private_tokens, protected_tokens, specification_tokens};
ghost use Rattle.al_tree_syntax.specs.Declarations.{aspect_rule, declaration_rule, element_rule, formal_rule, formals_rule, operation_rule, protected_rule, specification_rule, task_rule};
ghost use Rattle.al_tree_syntax.specs.Expressions.{identifier_rule};
ghost use Rattle.al_tree_syntax.specs.Notation.{any, the, ◌⨾◌};
ghost use Rattle.al_tree_syntax.specs.Rules.{grammar};
ghost use Rattle.al_tree_syntax.specs.StatementTrees.{named_end_tokens};
ghost use Rattle.al_tree_syntax.specs.Symbols.{Symbol as symbols};
ghost use Rattle.al_tree_syntax.specs.Words.{word};
ghost use Rattle.al_tree.specs.DeclarationViews.{aspect_model, declaration_model, formal_part_model, formal_model, protected_component_model, protected_operation_model, protected_private_model, protected_model, specification_model};
ghost use Rattle.al_tree.specs.Lexemes.{identifier_label, lexemes};
ghost use Rattle.al_tree.specs.StatementViews.{named_end_model};
ghost use Rattle.std.specs.Prelude.{[], map, option_map, ◌++◌, ◌∷◌};

use crate::declaration::{common_declaration, initial, subtype_indication};
use crate::start::{
    is_common_next, is_declaration_next, is_operation_next, is_specification_next,
    is_subprogram_declaration_next,
};
use crate::step::flag;
use crate::{
    Stop, append, compound_name, enter_at, expect, expression, identifier, identifiers, is_next,
    read_or_drop, skip, skip_at, word_at,
};
use al_lex::Token;
use al_tree::{
    Aspect, Declaration, Formal, FormalPart, Identifier, NamedEnd, ProtectedComponent,
    ProtectedDefinition, ProtectedOperation, ProtectedPrivatePart, Specification, Symbol,
    TaskDeclaration,
};
use std::alloc::Global;

/// `names : [in] [out] mark` (ARM 6.1)
#[tactic(auto, unfolding(al_tree_syntax::specs::Declarations::formal_rule, al_tree_syntax::specs::Expressions::identifiers_rule, al_tree_syntax::specs::Expressions::identifier_rule, al_tree_syntax::specs::Expressions::compound_name_rule))]
fn formal<'a>(
    alloc: Global,
    source: &[u8],
    tokens: &'a [Token],
) -> Result<(Formal, &'a [Token]), Stop>
    ensures { Gives (λ x. formal_tokens (formal_model x.0)) (λ x. lexemes source.now x.1.now) result (lexemes source.now tokens.now) (reading 0 formal_rule (lexemes source.now tokens.now)) }
{
    let (names, rest) = identifiers(alloc, source, tokens)?;
    let rest = read_or_drop!(expect(source, rest, Symbol::Colon), names);
    let (is_in, rest) = flag(source, rest, Symbol::In);
    let (is_out, rest) = flag(source, rest, Symbol::Out);
    let (mark, rest) = read_or_drop!(compound_name(alloc, source, rest), names);
    Ok((
        Formal {
            names,
            is_in,
            is_out,
            mark,
        },
        rest,
    ))
}

/// `{; formal}`
fn more_formals<'a>(
    alloc: Global,
    source: &[u8],
    tokens: &'a [Token],
) -> Result<(Vec<Formal>, &'a [Token]), Stop>
    ensures { Gives (λ x. each (λ y. word symbols.Semicolon ∷ formal_tokens y) (map formal_model x.0.items)) (λ x. lexemes source.now x.1.now) result (lexemes source.now tokens.now) (reading 0 (Many (the symbols.Semicolon ⨾ formal_rule)) (lexemes source.now tokens.now)) }
{
    let mut items = Vec::new(alloc);
    let mut rest = tokens;
    'more: while let Some(after) = skip(source, rest, Symbol::Semicolon) {
        let (next, after) = formal(alloc, source, after)?;
        append(&mut items, next)?;
        rest = after;
    }
    Ok((items, rest))
}

/// What comes after the parenthesis of a formal part.
#[tactic(auto, unfolding(al_tree_syntax::specs::Rules::grammar, al_tree_syntax::specs::Rules::inside, al_tree_syntax::specs::Constructs::construct_at, al_tree_syntax::specs::Declarations::formal_rule, al_tree_syntax::specs::Expressions::identifiers_rule, al_tree_syntax::specs::Expressions::identifier_rule, al_tree_syntax::specs::Expressions::compound_name_rule))]
fn formals<'a>(
    alloc: Global,
    source: &[u8],
    depth: u32,
    tokens: &'a [Token],
) -> Result<(Formal, Vec<Formal>, &'a [Token]), Stop>
    ensures { Gives (λ x. formal_tokens (formal_model x.0) ++ (each (λ f. word symbols.Semicolon ∷ formal_tokens f) (map formal_model x.1.items) ++ word symbols.RightParenthesis ∷ [])) (λ x. lexemes source.now x.2.now) result (lexemes source.now tokens.now) (reading depth (grammar (place constructs.FormalPart)) (lexemes source.now tokens.now)) }
{
    let (first, rest) = formal(alloc, source, tokens)?;
    let (others, rest) = read_or_drop!(more_formals(alloc, source, rest), first);
    let rest = read_or_drop!(
        expect(source, rest, Symbol::RightParenthesis),
        (first, others)
    );
    Ok((first, others, rest))
}

/// `[(formal {; formal})]`
#[tactic(auto, unfolding(al_tree_syntax::specs::Declarations::formals_rule))]
fn formal_part<'a>(
    alloc: Global,
    source: &[u8],
    depth: u32,
    tokens: &'a [Token],
) -> Result<(Option<FormalPart>, &'a [Token]), Stop>
    ensures { Gives (λ x. maybe formal_part_tokens (option_map formal_part_model x.0)) (λ x. lexemes source.now x.1.now) result (lexemes source.now tokens.now) (reading depth formals_rule (lexemes source.now tokens.now)) }
{
    if !is_next(source, tokens, Symbol::LeftParenthesis) {
        return Ok((None, tokens));
    }
    let (inner, opening, rest) = enter_at(source, depth, tokens, Symbol::LeftParenthesis)?;
    let (first, others, rest) = formals(alloc, source, inner, rest)?;
    Ok((
        Some(FormalPart {
            opening,
            first,
            others,
        }),
        rest,
    ))
}

/// The specification of a subprogram (ARM 6.1).
#[tactic(auto, unfolding(al_tree_syntax::specs::Declarations::specification_rule, al_tree_syntax::specs::Expressions::compound_name_rule, al_tree_syntax::specs::Expressions::identifier_rule))]
pub(crate) fn specification<'a>(
    alloc: Global,
    source: &[u8],
    depth: u32,
    tokens: &'a [Token],
) -> Result<(Specification, &'a [Token]), Stop>
    ensures { Gives (λ x. specification_tokens (specification_model x.0)) (λ x. lexemes source.now x.1.now) result (lexemes source.now tokens.now) (reading depth specification_rule (lexemes source.now tokens.now)) }
{
    if let Some((opening, rest)) = skip_at(source, tokens, Symbol::Procedure) {
        let (name, rest) = compound_name(alloc, source, rest)?;
        let (formals, rest) = read_or_drop!(formal_part(alloc, source, depth, rest), name);
        return Ok((Specification::Procedure(opening, name, formals), rest));
    }
    let (opening, rest) = word_at(source, tokens, Symbol::Function)?;
    let (name, rest) = compound_name(alloc, source, rest)?;
    let (formals, rest) = read_or_drop!(formal_part(alloc, source, depth, rest), name);
    let (closing, rest) = read_or_drop!(word_at(source, rest, Symbol::Return), (name, formals));
    let (mark, rest) = read_or_drop!(compound_name(alloc, source, rest), (name, formals));
    Ok((
        Specification::Function(opening, name, formals, closing, mark),
        rest,
    ))
}

/// `[with name => value]` (ARM 13.1.1)
#[tactic(auto, unfolding(al_tree_syntax::specs::Declarations::aspect_rule, al_tree_syntax::specs::Expressions::identifier_rule))]
fn aspect<'a>(
    alloc: Global,
    source: &[u8],
    depth: u32,
    tokens: &'a [Token],
) -> Result<(Option<Aspect>, &'a [Token]), Stop>
    ensures { Gives (λ x. maybe aspect_tokens (option_map aspect_model x.0)) (λ x. lexemes source.now x.1.now) result (lexemes source.now tokens.now) (reading depth aspect_rule (lexemes source.now tokens.now)) }
{
    match skip(source, tokens, Symbol::With) {
        None => Ok((None, tokens)),
        Some(rest) => {
            let (name, rest) = identifier(alloc, source, rest)?;
            let rest = read_or_drop!(expect(source, rest, Symbol::Arrow), name);
            let (value, rest) = read_or_drop!(expression(alloc, source, depth, rest), name);
            Ok((Some(Aspect { name, value }), rest))
        }
    }
}

/// What comes after the `task` of a declaration (ARM 9.1).
#[tactic(auto, unfolding(al_tree_syntax::specs::Declarations::task_rule, al_tree_syntax::specs::Expressions::identifier_rule))]
pub(crate) fn task_declaration<'a>(
    alloc: Global,
    source: &[u8],
    depth: u32,
    tokens: &'a [Token],
) -> Result<(Identifier, Option<Aspect>, &'a [Token]), Stop>
    ensures { Gives (λ x. identifier_token (identifier_label x.0) ∷ (maybe aspect_tokens (option_map aspect_model x.1) ++ word symbols.Semicolon ∷ [])) (λ x. lexemes source.now x.2.now) result (lexemes source.now tokens.now) (reading depth task_rule (lexemes source.now tokens.now)) }
{
    let (name, rest) = identifier(alloc, source, tokens)?;
    let (aspect, rest) = read_or_drop!(aspect(alloc, source, depth, rest), name);
    let rest = read_or_drop!(expect(source, rest, Symbol::Semicolon), (name, aspect));
    Ok((name, aspect, rest))
}

/// An operation of a protected declaration (ARM 9.4).
#[tactic(auto, unfolding(al_tree_syntax::specs::Declarations::operation_rule, al_tree_syntax::specs::Declarations::specification_rule, al_tree_syntax::specs::Expressions::identifier_rule))]
fn operation<'a>(
    alloc: Global,
    source: &[u8],
    depth: u32,
    tokens: &'a [Token],
) -> Result<(ProtectedOperation, &'a [Token]), Stop>
    ensures { Gives (λ x. protected_operation_tokens (protected_operation_model x.0)) (λ x. lexemes source.now x.1.now) result (lexemes source.now tokens.now) (reading depth operation_rule (lexemes source.now tokens.now)) }
{
    if is_specification_next(source, tokens) {
        let (specification, rest) = specification(alloc, source, depth, tokens)?;
        let rest = read_or_drop!(expect(source, rest, Symbol::Semicolon), specification);
        return Ok((ProtectedOperation::Subprogram(specification), rest));
    }
    let (opening, rest) = word_at(source, tokens, Symbol::Entry)?;
    let (name, rest) = identifier(alloc, source, rest)?;
    let rest = read_or_drop!(expect(source, rest, Symbol::Semicolon), name);
    Ok((ProtectedOperation::Entry(opening, name), rest))
}

/// The operations of a protected declaration.
fn operations<'a>(
    alloc: Global,
    source: &[u8],
    depth: u32,
    tokens: &'a [Token],
) -> Result<(Vec<ProtectedOperation>, &'a [Token]), Stop>
    ensures { Gives (λ x. each protected_operation_tokens (map protected_operation_model x.0.items)) (λ x. lexemes source.now x.1.now) result (lexemes source.now tokens.now) (reading depth (Many operation_rule) (lexemes source.now tokens.now)) }
{
    let mut items = Vec::new(alloc);
    let mut rest = tokens;
    'more: while is_operation_next(source, rest) {
        let (next, after) = operation(alloc, source, depth, rest)?;
        append(&mut items, next)?;
        rest = after;
    }
    Ok((items, rest))
}

/// A component of a protected object (ARM 9.4).
#[tactic(auto, unfolding(al_tree_syntax::specs::Declarations::element_rule, al_tree_syntax::specs::Expressions::identifiers_rule, al_tree_syntax::specs::Expressions::identifier_rule))]
fn protected_component<'a>(
    alloc: Global,
    source: &[u8],
    depth: u32,
    tokens: &'a [Token],
) -> Result<(ProtectedComponent, &'a [Token]), Stop>
    ensures { Gives (λ x. protected_component_tokens (protected_component_model x.0)) (λ x. lexemes source.now x.1.now) result (lexemes source.now tokens.now) (reading depth element_rule (lexemes source.now tokens.now)) }
{
    let (names, rest) = identifiers(alloc, source, tokens)?;
    let rest = read_or_drop!(expect(source, rest, Symbol::Colon), names);
    let (indication, rest) = read_or_drop!(subtype_indication(alloc, source, depth, rest), names);
    let (initial, rest) = read_or_drop!(initial(alloc, source, depth, rest), (names, indication));
    let rest = read_or_drop!(
        expect(source, rest, Symbol::Semicolon),
        (names, indication, initial)
    );
    Ok((
        ProtectedComponent {
            names,
            indication,
            initial,
        },
        rest,
    ))
}

/// The components of a protected object.
fn protected_components<'a>(
    alloc: Global,
    source: &[u8],
    depth: u32,
    tokens: &'a [Token],
) -> Result<(Vec<ProtectedComponent>, &'a [Token]), Stop>
    ensures { Gives (λ x. each protected_component_tokens (map protected_component_model x.0.items)) (λ x. lexemes source.now x.1.now) result (lexemes source.now tokens.now) (reading depth (Many element_rule) (lexemes source.now tokens.now)) }
{
    let mut items = Vec::new(alloc);
    let mut rest = tokens;
    'more: while is_next(source, rest, Symbol::Identifier) {
        let (next, after) = protected_component(alloc, source, depth, rest)?;
        append(&mut items, next)?;
        rest = after;
    }
    Ok((items, rest))
}

/// `[private {component}]`
fn protected_private_part<'a>(
    alloc: Global,
    source: &[u8],
    depth: u32,
    tokens: &'a [Token],
) -> Result<(Option<ProtectedPrivatePart>, &'a [Token]), Stop>
    ensures { Gives (λ x. maybe protected_private_tokens (option_map protected_private_model x.0)) (λ x. lexemes source.now x.1.now) result (lexemes source.now tokens.now) (reading depth (Opt (any symbols.Private ⨾ Many element_rule)) (lexemes source.now tokens.now)) }
{
    match skip_at(source, tokens, Symbol::Private) {
        None => Ok((None, tokens)),
        Some((opening, rest)) => {
            let (components, rest) = protected_components(alloc, source, depth, rest)?;
            Ok((
                Some(ProtectedPrivatePart {
                    opening,
                    components,
                }),
                rest,
            ))
        }
    }
}

/// `[name]`
#[tactic(auto, unfolding(al_tree_syntax::specs::Expressions::identifier_rule))]
pub(crate) fn end_name<'a>(
    alloc: Global,
    source: &[u8],
    tokens: &'a [Token],
) -> Result<(Option<Identifier>, &'a [Token]), Stop>
    ensures { Gives (λ x. end_name_tokens (option_map identifier_label x.0)) (λ x. lexemes source.now x.1.now) result (lexemes source.now tokens.now) (reading 0 (Opt identifier_rule) (lexemes source.now tokens.now)) }
{
    if !is_next(source, tokens, Symbol::Identifier) {
        return Ok((None, tokens));
    }
    let (name, rest) = identifier(alloc, source, tokens)?;
    Ok((Some(name), rest))
}

/// `end [name];`
#[tactic(auto, unfolding(al_tree_syntax::specs::Expressions::identifier_rule))]
pub(crate) fn named_end<'a>(
    alloc: Global,
    source: &[u8],
    tokens: &'a [Token],
) -> Result<(NamedEnd, &'a [Token]), Stop>
    ensures { Gives (λ x. named_end_tokens (named_end_model x.0)) (λ x. lexemes source.now x.1.now) result (lexemes source.now tokens.now) (reading 0 (any symbols.End ⨾ Opt identifier_rule ⨾ the symbols.Semicolon) (lexemes source.now tokens.now)) }
{
    let (end, rest) = word_at(source, tokens, Symbol::End)?;
    let (end_name, rest) = end_name(alloc, source, rest)?;
    let rest = read_or_drop!(expect(source, rest, Symbol::Semicolon), end_name);
    Ok((NamedEnd { end, end_name }, rest))
}

/// What comes after the `is` of a protected declaration.
#[tactic(auto, unfolding(al_tree_syntax::specs::Expressions::identifier_rule))]
fn protected_parts<'a>(
    alloc: Global,
    source: &[u8],
    depth: u32,
    tokens: &'a [Token],
) -> Result<
    (
        Vec<ProtectedOperation>,
        Option<ProtectedPrivatePart>,
        NamedEnd,
        &'a [Token],
    ),
    Stop,
>
    ensures { Gives (λ x. each protected_operation_tokens (map protected_operation_model x.0.items) ++ (maybe protected_private_tokens (option_map protected_private_model x.1) ++ named_end_tokens (named_end_model x.2))) (λ x. lexemes source.now x.3.now) result (lexemes source.now tokens.now) (reading depth (Many operation_rule ⨾ Opt (any symbols.Private ⨾ Many element_rule) ⨾ any symbols.End ⨾ Opt identifier_rule ⨾ the symbols.Semicolon) (lexemes source.now tokens.now)) }
{
    let (operations, rest) = operations(alloc, source, depth, tokens)?;
    let (private_part, rest) = read_or_drop!(
        protected_private_part(alloc, source, depth, rest),
        operations
    );
    let (end, rest) = read_or_drop!(named_end(alloc, source, rest), (operations, private_part));
    Ok((operations, private_part, end, rest))
}

/// What comes after `protected` in a declaration (ARM 9.4).
#[tactic(auto, unfolding(al_tree_syntax::specs::Declarations::protected_rule, al_tree_syntax::specs::Expressions::identifier_rule))]
pub(crate) fn protected_definition<'a>(
    alloc: Global,
    source: &[u8],
    depth: u32,
    tokens: &'a [Token],
) -> Result<(ProtectedDefinition, &'a [Token]), Stop>
    ensures { Gives (λ x. protected_tokens (protected_model x.0)) (λ x. lexemes source.now x.1.now) result (lexemes source.now tokens.now) (reading depth protected_rule (lexemes source.now tokens.now)) }
{
    let (name, rest) = identifier(alloc, source, tokens)?;
    let (aspect, rest) = read_or_drop!(aspect(alloc, source, depth, rest), name);
    let rest = read_or_drop!(expect(source, rest, Symbol::Is), (name, aspect));
    let (operations, private_part, NamedEnd { end, end_name }, rest) = read_or_drop!(
        protected_parts(alloc, source, depth, rest),
        (name, aspect)
    );
    Ok((
        ProtectedDefinition {
            name,
            aspect,
            operations,
            private_part,
            end,
            end_name,
        },
        rest,
    ))
}

/// What comes after the `protected` of a package's declaration.
#[tactic(auto, unfolding(al_tree_syntax::specs::Rules::grammar, al_tree_syntax::specs::Rules::inside, al_tree_syntax::specs::Constructs::construct_at))]
fn protected_declaration<'a>(
    alloc: Global,
    source: &[u8],
    depth: u32,
    tokens: &'a [Token],
) -> Result<(ProtectedDefinition, &'a [Token]), Stop>
    ensures { Gives (λ x. protected_tokens (protected_model x.0)) (λ x. lexemes source.now x.1.now) result (lexemes source.now tokens.now) (reading depth (grammar (place constructs.ProtectedDeclaration)) (lexemes source.now tokens.now)) }
{
    let (definition, rest) = protected_definition(alloc, source, depth, tokens)?;
    Ok((definition, rest))
}

/// A declaration of a package (ARM 7.1).
#[tactic(auto, unfolding(al_tree_syntax::specs::Declarations::declaration_rule))]
fn declaration<'a>(
    alloc: Global,
    source: &[u8],
    depth: u32,
    tokens: &'a [Token],
) -> Result<(Declaration, &'a [Token]), Stop>
    ensures { Gives (λ x. declaration_tokens (declaration_model x.0)) (λ x. lexemes source.now x.1.now) result (lexemes source.now tokens.now) (reading depth declaration_rule (lexemes source.now tokens.now)) }
{
    if is_common_next(source, tokens) {
        let (declaration, rest) = common_declaration(alloc, source, depth, tokens)?;
        return Ok((Declaration::Common(declaration), rest));
    }
    if is_subprogram_declaration_next(source, tokens) {
        let (specification, rest) = specification(alloc, source, depth, tokens)?;
        let rest = read_or_drop!(expect(source, rest, Symbol::Semicolon), specification);
        return Ok((Declaration::Subprogram(specification), rest));
    }
    if let Some((opening, rest)) = skip_at(source, tokens, Symbol::Task) {
        let (name, aspect, rest) = task_declaration(alloc, source, depth, rest)?;
        return Ok((
            Declaration::Task(TaskDeclaration {
                opening,
                name,
                aspect,
            }),
            rest,
        ));
    }
    let (inner, opening, rest) = enter_at(source, depth, tokens, Symbol::Protected)?;
    let (definition, rest) = protected_declaration(alloc, source, inner, rest)?;
    Ok((Declaration::Protected(opening, definition), rest))
}

/// Declarations of a package.
pub(crate) fn declarations<'a>(
    alloc: Global,
    source: &[u8],
    depth: u32,
    tokens: &'a [Token],
) -> Result<(Vec<Declaration>, &'a [Token]), Stop>
    ensures { Gives (λ x. each declaration_tokens (map declaration_model x.0.items)) (λ x. lexemes source.now x.1.now) result (lexemes source.now tokens.now) (reading depth (Many declaration_rule) (lexemes source.now tokens.now)) }
{
    let mut items = Vec::new(alloc);
    let mut rest = tokens;
    'more: while is_declaration_next(source, rest) {
        let (next, after) = declaration(alloc, source, depth, rest)?;
        append(&mut items, next)?;
        rest = after;
    }
    Ok((items, rest))
}
