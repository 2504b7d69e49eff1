// Declarations that packages and bodies have alike (ARM 2.8, 3, 8.4).
ghost use Rattle.al_tree_grammar.specs.Grammar.{each, maybe};
ghost use Rattle.al_tree_grammar.specs.Grammar.Rule.{Many, Opt};
ghost use Rattle.al_parse.specs.Parses.{Gives, reading};
ghost use Rattle.al_tree_syntax.specs.Constructs.{Construct as constructs, place};
ghost use Rattle.al_tree_syntax.specs.DeclarationTrees.{array_tokens, common_tokens, component_tokens, components_tokens, compounds_tokens, discrete_range_tokens, identifiers_tokens, initial_tokens, object_form_tokens, object_tokens, object_type_tokens, pragma_arguments_tokens, pragma_tokens, range_tokens, subtype_indication_tokens, subtype_tokens, type_definition_tokens, type_tokens, use_tokens};
ghost use Rattle.al_tree_syntax.specs.Declarations.{array_rule, common_rule, component_rule, initial_rule, object_rule, pragma_rule, subtype_indication_rule, subtype_rule, type_rule, typed_rule, use_rule};
ghost use Rattle.al_tree_syntax.specs.Expressions.{range_rule};
ghost use Rattle.al_tree_syntax.specs.Notation.{any, opens, opens_at, the, ◌∣◌, ◌⨾◌};
ghost use Rattle.al_tree_syntax.specs.Rules.{grammar};
ghost use Rattle.al_tree_syntax.specs.Symbols.{Symbol as symbols};
ghost use Rattle.al_tree_syntax.specs.Words.{labelled, word};
ghost use Rattle.al_tree.specs.DeclarationViews.{array_model, boxed_range_model, common_model, component_model, components_model, compounds_model, discrete_range_model, identifiers_model, indication_model, object_form_model, object_model, object_type_model, pragma_arguments_model, pragma_model, subtype_model, type_definition_model, type_model, use_model};
ghost use Rattle.al_tree.specs.ExpressionViews.{expression_model};
ghost use Rattle.al_tree.specs.Lexemes.{lexemes, place_label};
ghost use Rattle.std.specs.Prelude.{[], map, option_map, ◌++◌, ◌∷◌};

use crate::start::{
    is_object_next, is_subtype_declaration_next, is_type_declaration_next, is_type_next,
    is_use_next,
};
use crate::step::flag;
use crate::{
    Stop, append, boxed, compound_name, compound_names, discrete_range, enter, enter_at, expect,
    expression, identifier, identifiers, is_next, range, read_or_drop, skip, word_at,
};
use al_base::Place;
use al_lex::Token;
use al_tree::{
    ArrayDefinition, CommonDeclaration, ComponentDeclaration, Components, CompoundNames,
    DiscreteRange, Expression, Identifiers, ObjectDeclaration, ObjectForm, ObjectType, Pragma,
    PragmaArguments, Range, SubtypeDeclaration, SubtypeIndication, Symbol, TypeDeclaration,
    TypeDefinition, UseClause,
};
use std::alloc::Global;

/// `[range low .. high]`
#[tactic(auto, unfolding(al_tree_syntax::specs::Expressions::range_rule))]
fn constraint<'a>(
    alloc: Global,
    source: &[u8],
    depth: u32,
    tokens: &'a [Token],
) -> Result<(Option<Box<Range>>, &'a [Token]), Stop>
    ensures { Gives (λ x. maybe range_tokens (option_map boxed_range_model x.0)) (λ x. lexemes source.now x.1.now) result (lexemes source.now tokens.now) (reading depth (Opt range_rule) (lexemes source.now tokens.now)) }
{
    if !is_next(source, tokens, Symbol::Range) {
        return Ok((None, tokens));
    }
    let (constraint, rest) = range(alloc, source, depth, tokens)?;
    Ok((Some(constraint), rest))
}

/// `mark [range low .. high]` (ARM 3.2.2)
#[tactic(auto, unfolding(al_tree_syntax::specs::Declarations::subtype_indication_rule, al_tree_syntax::specs::Expressions::compound_name_rule, al_tree_syntax::specs::Expressions::identifier_rule))]
pub(crate) fn subtype_indication<'a>(
    alloc: Global,
    source: &[u8],
    depth: u32,
    tokens: &'a [Token],
) -> Result<(SubtypeIndication, &'a [Token]), Stop>
    ensures { Gives (λ x. subtype_indication_tokens (indication_model x.0)) (λ x. lexemes source.now x.1.now) result (lexemes source.now tokens.now) (reading depth subtype_indication_rule (lexemes source.now tokens.now)) }
{
    let (mark, rest) = compound_name(alloc, source, tokens)?;
    let (constraint, rest) = read_or_drop!(constraint(alloc, source, depth, rest), mark);
    Ok((SubtypeIndication { mark, constraint }, rest))
}

/// The index of an array, after its parenthesis.
#[tactic(auto, unfolding(al_tree_syntax::specs::Rules::grammar, al_tree_syntax::specs::Rules::inside, al_tree_syntax::specs::Constructs::construct_at))]
fn array_index<'a>(
    alloc: Global,
    source: &[u8],
    depth: u32,
    tokens: &'a [Token],
) -> Result<(DiscreteRange, &'a [Token]), Stop>
    ensures { Gives (λ x. discrete_range_tokens (discrete_range_model x.0) ++ word symbols.RightParenthesis ∷ []) (λ x. lexemes source.now x.1.now) result (lexemes source.now tokens.now) (reading depth (grammar (place constructs.ArrayIndex)) (lexemes source.now tokens.now)) }
{
    let (index, rest) = discrete_range(alloc, source, depth, tokens)?;
    let rest = read_or_drop!(expect(source, rest, Symbol::RightParenthesis), index);
    Ok((index, rest))
}

/// `array (index) of component` (ARM 3.6)
fn array_of<'a>(
    alloc: Global,
    source: &[u8],
    depth: u32,
    tokens: &'a [Token],
) -> Result<(ArrayDefinition, &'a [Token]), Stop>
    ensures { Gives (λ x. array_tokens (array_model x.0)) (λ x. lexemes source.now x.1.now) result (lexemes source.now tokens.now) (reading depth (the symbols.Array ⨾ opens_at symbols.LeftParenthesis constructs.ArrayIndex ⨾ the symbols.Of ⨾ subtype_indication_rule) (lexemes source.now tokens.now)) }
{
    let rest = expect(source, tokens, Symbol::Array)?;
    let (inner, opening, rest) = enter_at(source, depth, rest, Symbol::LeftParenthesis)?;
    let (index, rest) = array_index(alloc, source, inner, rest)?;
    let rest = read_or_drop!(expect(source, rest, Symbol::Of), index);
    let (component, rest) = read_or_drop!(subtype_indication(alloc, source, depth, rest), index);
    Ok((
        ArrayDefinition {
            opening,
            index,
            component,
        },
        rest,
    ))
}

/// An array type's definition (ARM 3.6), if one more construct may be open.
fn array_definition<'a>(
    alloc: Global,
    source: &[u8],
    depth: u32,
    tokens: &'a [Token],
) -> Result<(ArrayDefinition, &'a [Token]), Stop>
    ensures { Gives (λ x. array_tokens (array_model x.0)) (λ x. lexemes source.now x.1.now) result (lexemes source.now tokens.now) (reading depth array_rule (lexemes source.now tokens.now)) }
{
    if depth == 0 {
        return Err(Stop::Fault(tokens.len()));
    }
    let (array, rest) = array_of(alloc, source, depth, tokens)?;
    Ok((array, rest))
}

/// `[:= expression]`
#[tactic(auto, unfolding(al_tree_syntax::specs::Declarations::initial_rule))]
pub(crate) fn initial<'a>(
    alloc: Global,
    source: &[u8],
    depth: u32,
    tokens: &'a [Token],
) -> Result<(Option<Expression>, &'a [Token]), Stop>
    ensures { Gives (λ x. maybe initial_tokens (option_map expression_model x.0)) (λ x. lexemes source.now x.1.now) result (lexemes source.now tokens.now) (reading depth (Opt initial_rule) (lexemes source.now tokens.now)) }
{
    match skip(source, tokens, Symbol::Assign) {
        None => Ok((None, tokens)),
        Some(rest) => {
            let (value, rest) = expression(alloc, source, depth, rest)?;
            Ok((Some(value), rest))
        }
    }
}

/// A subtype, or the definition of an array that has no name.
#[tactic(auto, unfolding(al_tree_syntax::specs::Declarations::subtype_indication_rule, al_tree_syntax::specs::Expressions::compound_name_rule, al_tree_syntax::specs::Expressions::identifier_rule))]
fn object_type<'a>(
    alloc: Global,
    source: &[u8],
    depth: u32,
    tokens: &'a [Token],
) -> Result<(ObjectType, &'a [Token]), Stop>
    ensures { Gives (λ x. object_type_tokens (object_type_model x.0)) (λ x. lexemes source.now x.1.now) result (lexemes source.now tokens.now) (reading depth (subtype_indication_rule ∣ array_rule) (lexemes source.now tokens.now)) }
{
    if is_next(source, tokens, Symbol::Identifier) {
        let (indication, rest) = subtype_indication(alloc, source, depth, tokens)?;
        return Ok((ObjectType::Named(indication), rest));
    }
    let (array, rest) = array_definition(alloc, source, depth, tokens)?;
    Ok((ObjectType::Array(boxed(alloc, array)?), rest))
}

/// The type of an object and perhaps its value.
#[tactic(auto, unfolding(al_tree_syntax::specs::Declarations::typed_rule))]
fn typed<'a>(
    alloc: Global,
    source: &[u8],
    depth: u32,
    tokens: &'a [Token],
) -> Result<(ObjectType, Option<Expression>, &'a [Token]), Stop>
    ensures { Gives (λ x. object_type_tokens (object_type_model x.0) ++ maybe initial_tokens (option_map expression_model x.1)) (λ x. lexemes source.now x.2.now) result (lexemes source.now tokens.now) (reading depth typed_rule (lexemes source.now tokens.now)) }
{
    let (of, rest) = object_type(alloc, source, depth, tokens)?;
    let (value, rest) = read_or_drop!(initial(alloc, source, depth, rest), of);
    Ok((of, value, rest))
}

/// What comes after the colon of an object or number declaration.
#[tactic(auto, unfolding(al_tree_syntax::specs::Declarations::initial_rule))]
fn object_form<'a>(
    alloc: Global,
    source: &[u8],
    depth: u32,
    tokens: &'a [Token],
) -> Result<(ObjectForm, &'a [Token]), Stop>
    ensures { Gives (λ x. object_form_tokens (object_form_model x.0)) (λ x. lexemes source.now x.1.now) result (lexemes source.now tokens.now) (reading depth (typed_rule ∣ the symbols.Constant ⨾ (initial_rule ∣ typed_rule)) (lexemes source.now tokens.now)) }
{
    if is_type_next(source, tokens) {
        let (of, value, rest) = typed(alloc, source, depth, tokens)?;
        return Ok((ObjectForm::Typed(false, of, value), rest));
    }
    let rest = expect(source, tokens, Symbol::Constant)?;
    if let Some(after) = skip(source, rest, Symbol::Assign) {
        let (value, rest) = expression(alloc, source, depth, after)?;
        return Ok((ObjectForm::Number(value), rest));
    }
    let (of, value, rest) = typed(alloc, source, depth, rest)?;
    Ok((ObjectForm::Typed(true, of, value), rest))
}

/// The declaration of objects or numbers (ARM 3.3.1, 3.3.2).
#[tactic(auto, unfolding(al_tree_syntax::specs::Declarations::object_rule, al_tree_syntax::specs::Expressions::identifiers_rule, al_tree_syntax::specs::Expressions::identifier_rule))]
fn object_declaration<'a>(
    alloc: Global,
    source: &[u8],
    depth: u32,
    tokens: &'a [Token],
) -> Result<(ObjectDeclaration, &'a [Token]), Stop>
    ensures { Gives (λ x. object_tokens (object_model x.0)) (λ x. lexemes source.now x.1.now) result (lexemes source.now tokens.now) (reading depth object_rule (lexemes source.now tokens.now)) }
{
    let (names, rest) = identifiers(alloc, source, tokens)?;
    let rest = read_or_drop!(expect(source, rest, Symbol::Colon), names);
    let (form, rest) = read_or_drop!(object_form(alloc, source, depth, rest), names);
    let rest = read_or_drop!(expect(source, rest, Symbol::Semicolon), (names, form));
    Ok((ObjectDeclaration { names, form }, rest))
}

/// A component of a record (ARM 3.8).
#[tactic(auto, unfolding(al_tree_syntax::specs::Declarations::component_rule, al_tree_syntax::specs::Expressions::identifiers_rule, al_tree_syntax::specs::Expressions::identifier_rule))]
fn component<'a>(
    alloc: Global,
    source: &[u8],
    depth: u32,
    tokens: &'a [Token],
) -> Result<(ComponentDeclaration, &'a [Token]), Stop>
    ensures { Gives (λ x. component_tokens (component_model x.0)) (λ x. lexemes source.now x.1.now) result (lexemes source.now tokens.now) (reading depth component_rule (lexemes source.now tokens.now)) }
{
    let (names, rest) = identifiers(alloc, source, tokens)?;
    let rest = read_or_drop!(expect(source, rest, Symbol::Colon), names);
    let (indication, rest) = read_or_drop!(subtype_indication(alloc, source, depth, rest), names);
    let rest = read_or_drop!(expect(source, rest, Symbol::Semicolon), (names, indication));
    Ok((ComponentDeclaration { names, indication }, rest))
}

/// `{component}`
fn more_components<'a>(
    alloc: Global,
    source: &[u8],
    depth: u32,
    tokens: &'a [Token],
) -> Result<(Vec<ComponentDeclaration>, &'a [Token]), Stop>
    ensures { Gives (λ x. each component_tokens (map component_model x.0.items)) (λ x. lexemes source.now x.1.now) result (lexemes source.now tokens.now) (reading depth (Many component_rule) (lexemes source.now tokens.now)) }
{
    let mut items = Vec::new(alloc);
    let mut rest = tokens;
    'more: while is_next(source, rest, Symbol::Identifier) {
        let (next, after) = component(alloc, source, depth, rest)?;
        append(&mut items, next)?;
        rest = after;
    }
    Ok((items, rest))
}

/// The components of a record, one at least, or `null;`.
#[tactic(auto, unfolding(al_tree_syntax::specs::Declarations::component_rule, al_tree_syntax::specs::Expressions::identifiers_rule, al_tree_syntax::specs::Expressions::identifier_rule))]
fn components<'a>(
    alloc: Global,
    source: &[u8],
    depth: u32,
    tokens: &'a [Token],
) -> Result<(Components, &'a [Token]), Stop>
    ensures { Gives (λ x. components_tokens (components_model x.0)) (λ x. lexemes source.now x.1.now) result (lexemes source.now tokens.now) (reading depth (component_rule ⨾ Many component_rule ∣ the symbols.Null ⨾ the symbols.Semicolon) (lexemes source.now tokens.now)) }
{
    if is_next(source, tokens, Symbol::Identifier) {
        let (first, rest) = component(alloc, source, depth, tokens)?;
        let (others, rest) = read_or_drop!(more_components(alloc, source, depth, rest), first);
        return Ok((Components::Declared(first, others), rest));
    }
    let rest = expect(source, tokens, Symbol::Null)?;
    let rest = expect(source, rest, Symbol::Semicolon)?;
    Ok((Components::Null, rest))
}

/// What comes after `record` (ARM 3.8).
#[tactic(auto, unfolding(al_tree_syntax::specs::Rules::grammar, al_tree_syntax::specs::Rules::inside, al_tree_syntax::specs::Constructs::construct_at))]
fn record_definition<'a>(
    alloc: Global,
    source: &[u8],
    depth: u32,
    tokens: &'a [Token],
) -> Result<(Components, Place, &'a [Token]), Stop>
    ensures { Gives (λ x. components_tokens (components_model x.0) ++ labelled symbols.End (place_label x.1) ∷ word symbols.Record ∷ []) (λ x. lexemes source.now x.2.now) result (lexemes source.now tokens.now) (reading depth (grammar (place constructs.RecordDefinition)) (lexemes source.now tokens.now)) }
{
    let (components, rest) = components(alloc, source, depth, tokens)?;
    let (end, rest) = read_or_drop!(word_at(source, rest, Symbol::End), components);
    let rest = read_or_drop!(expect(source, rest, Symbol::Record), components);
    Ok((components, end, rest))
}

/// What comes after the parenthesis of an enumeration type (ARM 3.5.1).
#[tactic(auto, unfolding(al_tree_syntax::specs::Rules::grammar, al_tree_syntax::specs::Rules::inside, al_tree_syntax::specs::Constructs::construct_at, al_tree_syntax::specs::Expressions::identifiers_rule, al_tree_syntax::specs::Expressions::identifier_rule))]
fn enumeration_literals<'a>(
    alloc: Global,
    source: &[u8],
    depth: u32,
    tokens: &'a [Token],
) -> Result<(Identifiers, &'a [Token]), Stop>
    ensures { Gives (λ x. identifiers_tokens (identifiers_model x.0) ++ word symbols.RightParenthesis ∷ []) (λ x. lexemes source.now x.1.now) result (lexemes source.now tokens.now) (reading depth (grammar (place constructs.EnumerationLiterals)) (lexemes source.now tokens.now)) }
{
    let (literals, rest) = identifiers(alloc, source, tokens)?;
    let rest = read_or_drop!(expect(source, rest, Symbol::RightParenthesis), literals);
    Ok((literals, rest))
}

/// What comes after `is` in a type declaration (ARM 3.2.1).
#[tactic(auto, unfolding(al_tree_syntax::specs::Expressions::range_rule, al_tree_syntax::specs::Declarations::array_rule))]
fn type_definition<'a>(
    alloc: Global,
    source: &[u8],
    depth: u32,
    tokens: &'a [Token],
) -> Result<(TypeDefinition, &'a [Token]), Stop>
    ensures { Gives (λ x. type_definition_tokens (type_definition_model x.0)) (λ x. lexemes source.now x.1.now) result (lexemes source.now tokens.now) (reading depth (range_rule ∣ the symbols.Null ⨾ the symbols.Record ∣ any symbols.Private ∣ opens_at symbols.LeftParenthesis constructs.EnumerationLiterals ∣ array_rule ∣ opens symbols.Record constructs.RecordDefinition) (lexemes source.now tokens.now)) }
{
    if is_next(source, tokens, Symbol::Range) {
        let (range, rest) = range(alloc, source, depth, tokens)?;
        return Ok((TypeDefinition::Integer(range), rest));
    }
    if let Some(rest) = skip(source, tokens, Symbol::Null) {
        let rest = expect(source, rest, Symbol::Record)?;
        return Ok((TypeDefinition::NullRecord, rest));
    }
    if is_next(source, tokens, Symbol::Private) {
        let (place, rest) = word_at(source, tokens, Symbol::Private)?;
        return Ok((TypeDefinition::Private(place), rest));
    }
    if is_next(source, tokens, Symbol::LeftParenthesis) {
        let (inner, opening, rest) = enter_at(source, depth, tokens, Symbol::LeftParenthesis)?;
        let (literals, rest) = enumeration_literals(alloc, source, inner, rest)?;
        return Ok((TypeDefinition::Enumeration(opening, literals), rest));
    }
    if is_next(source, tokens, Symbol::Array) {
        let (array, rest) = array_definition(alloc, source, depth, tokens)?;
        return Ok((TypeDefinition::Array(boxed(alloc, array)?), rest));
    }
    let (inner, rest) = enter(source, depth, tokens, Symbol::Record)?;
    let (components, end, rest) = record_definition(alloc, source, inner, rest)?;
    Ok((TypeDefinition::Record(components, end), rest))
}

/// ARM 3.2.1
#[tactic(auto, unfolding(al_tree_syntax::specs::Declarations::type_rule, al_tree_syntax::specs::Expressions::identifier_rule))]
fn type_declaration<'a>(
    alloc: Global,
    source: &[u8],
    depth: u32,
    tokens: &'a [Token],
) -> Result<(TypeDeclaration, &'a [Token]), Stop>
    ensures { Gives (λ x. type_tokens (type_model x.0)) (λ x. lexemes source.now x.1.now) result (lexemes source.now tokens.now) (reading depth type_rule (lexemes source.now tokens.now)) }
{
    let rest = expect(source, tokens, Symbol::Type)?;
    let (name, rest) = identifier(alloc, source, rest)?;
    let rest = read_or_drop!(expect(source, rest, Symbol::Is), name);
    let (definition, rest) = read_or_drop!(type_definition(alloc, source, depth, rest), name);
    let rest = read_or_drop!(expect(source, rest, Symbol::Semicolon), (name, definition));
    Ok((TypeDeclaration { name, definition }, rest))
}

/// ARM 3.2.2
#[tactic(auto, unfolding(al_tree_syntax::specs::Declarations::subtype_rule, al_tree_syntax::specs::Expressions::identifier_rule))]
fn subtype_declaration<'a>(
    alloc: Global,
    source: &[u8],
    depth: u32,
    tokens: &'a [Token],
) -> Result<(SubtypeDeclaration, &'a [Token]), Stop>
    ensures { Gives (λ x. subtype_tokens (subtype_model x.0)) (λ x. lexemes source.now x.1.now) result (lexemes source.now tokens.now) (reading depth subtype_rule (lexemes source.now tokens.now)) }
{
    let rest = expect(source, tokens, Symbol::Subtype)?;
    let (name, rest) = identifier(alloc, source, rest)?;
    let rest = read_or_drop!(expect(source, rest, Symbol::Is), name);
    let (indication, rest) = read_or_drop!(subtype_indication(alloc, source, depth, rest), name);
    let rest = read_or_drop!(expect(source, rest, Symbol::Semicolon), (name, indication));
    Ok((SubtypeDeclaration { name, indication }, rest))
}

/// `use [type] names;` (ARM 8.4)
#[tactic(auto, unfolding(al_tree_syntax::specs::Declarations::use_rule, al_tree_syntax::specs::Expressions::compound_names_rule, al_tree_syntax::specs::Expressions::compound_name_rule, al_tree_syntax::specs::Expressions::identifier_rule))]
pub(crate) fn use_clause<'a>(
    alloc: Global,
    source: &[u8],
    tokens: &'a [Token],
) -> Result<(UseClause, &'a [Token]), Stop>
    ensures { Gives (λ x. use_tokens (use_model x.0)) (λ x. lexemes source.now x.1.now) result (lexemes source.now tokens.now) (reading 0 use_rule (lexemes source.now tokens.now)) }
{
    let rest = expect(source, tokens, Symbol::Use)?;
    let (of_type, rest) = flag(source, rest, Symbol::Type);
    let (names, rest) = compound_names(alloc, source, rest)?;
    let rest = read_or_drop!(expect(source, rest, Symbol::Semicolon), names);
    Ok((UseClause { of_type, names }, rest))
}

/// The names of a pragma, after their parenthesis.
#[tactic(auto, unfolding(al_tree_syntax::specs::Rules::grammar, al_tree_syntax::specs::Rules::inside, al_tree_syntax::specs::Constructs::construct_at, al_tree_syntax::specs::Expressions::compound_names_rule, al_tree_syntax::specs::Expressions::compound_name_rule, al_tree_syntax::specs::Expressions::identifier_rule))]
fn argument_names<'a>(
    alloc: Global,
    source: &[u8],
    depth: u32,
    tokens: &'a [Token],
) -> Result<(CompoundNames, &'a [Token]), Stop>
    ensures { Gives (λ x. compounds_tokens (compounds_model x.0) ++ word symbols.RightParenthesis ∷ []) (λ x. lexemes source.now x.1.now) result (lexemes source.now tokens.now) (reading depth (grammar (place constructs.PragmaArguments)) (lexemes source.now tokens.now)) }
{
    let (names, rest) = compound_names(alloc, source, tokens)?;
    let rest = read_or_drop!(expect(source, rest, Symbol::RightParenthesis), names);
    Ok((names, rest))
}

/// `[(names)]`
fn pragma_arguments<'a>(
    alloc: Global,
    source: &[u8],
    depth: u32,
    tokens: &'a [Token],
) -> Result<(Option<PragmaArguments>, &'a [Token]), Stop>
    ensures { Gives (λ x. maybe pragma_arguments_tokens (option_map pragma_arguments_model x.0)) (λ x. lexemes source.now x.1.now) result (lexemes source.now tokens.now) (reading depth (Opt (opens_at symbols.LeftParenthesis constructs.PragmaArguments)) (lexemes source.now tokens.now)) }
{
    if !is_next(source, tokens, Symbol::LeftParenthesis) {
        return Ok((None, tokens));
    }
    let (inner, opening, rest) = enter_at(source, depth, tokens, Symbol::LeftParenthesis)?;
    let (names, rest) = argument_names(alloc, source, inner, rest)?;
    Ok((Some(PragmaArguments { opening, names }), rest))
}

/// ARM 2.8
#[tactic(auto, unfolding(al_tree_syntax::specs::Declarations::pragma_rule, al_tree_syntax::specs::Expressions::identifier_rule))]
pub(crate) fn pragma<'a>(
    alloc: Global,
    source: &[u8],
    depth: u32,
    tokens: &'a [Token],
) -> Result<(Pragma, &'a [Token]), Stop>
    ensures { Gives (λ x. pragma_tokens (pragma_model x.0)) (λ x. lexemes source.now x.1.now) result (lexemes source.now tokens.now) (reading depth pragma_rule (lexemes source.now tokens.now)) }
{
    let rest = expect(source, tokens, Symbol::Pragma)?;
    let (name, rest) = identifier(alloc, source, rest)?;
    let (arguments, rest) = read_or_drop!(pragma_arguments(alloc, source, depth, rest), name);
    let rest = read_or_drop!(expect(source, rest, Symbol::Semicolon), (name, arguments));
    Ok((Pragma { name, arguments }, rest))
}

/// A declaration that packages and bodies have alike.
#[tactic(auto, unfolding(al_tree_syntax::specs::Declarations::common_rule, al_tree_syntax::specs::Declarations::use_rule, al_tree_syntax::specs::Expressions::compound_names_rule, al_tree_syntax::specs::Expressions::compound_name_rule, al_tree_syntax::specs::Expressions::identifier_rule))]
pub(crate) fn common_declaration<'a>(
    alloc: Global,
    source: &[u8],
    depth: u32,
    tokens: &'a [Token],
) -> Result<(CommonDeclaration, &'a [Token]), Stop>
    ensures { Gives (λ x. common_tokens (common_model x.0)) (λ x. lexemes source.now x.1.now) result (lexemes source.now tokens.now) (reading depth common_rule (lexemes source.now tokens.now)) }
{
    if is_object_next(source, tokens) {
        let (object, rest) = object_declaration(alloc, source, depth, tokens)?;
        return Ok((CommonDeclaration::Object(object), rest));
    }
    if is_type_declaration_next(source, tokens) {
        let (declaration, rest) = type_declaration(alloc, source, depth, tokens)?;
        return Ok((CommonDeclaration::Type(declaration), rest));
    }
    if is_subtype_declaration_next(source, tokens) {
        let (declaration, rest) = subtype_declaration(alloc, source, depth, tokens)?;
        return Ok((CommonDeclaration::Subtype(declaration), rest));
    }
    if is_use_next(source, tokens) {
        let (clause, rest) = use_clause(alloc, source, tokens)?;
        return Ok((CommonDeclaration::Use(clause), rest));
    }
    let (pragma, rest) = pragma(alloc, source, depth, tokens)?;
    Ok((CommonDeclaration::Pragma(pragma), rest))
}
