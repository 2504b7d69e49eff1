// Compilation units (ARM 7.1, 7.2, 10.1).
ghost use Rattle.al_tree_grammar.specs.Grammar.{each, maybe};
ghost use Rattle.al_tree_grammar.specs.Grammar.Rule.{Many, Opt};
ghost use Rattle.al_parse.specs.Parses.{Gives, reading};
ghost use Rattle.al_tree_syntax.specs.Constructs.{Construct as constructs, place};
ghost use Rattle.al_tree_syntax.specs.DeclarationTrees.{compound_tokens, declaration_tokens};
ghost use Rattle.al_tree_syntax.specs.Declarations.{declaration_rule, item_rule, specification_rule};
ghost use Rattle.al_tree_syntax.specs.Expressions.{compound_name_rule};
ghost use Rattle.al_tree_syntax.specs.Notation.{any, opens, opens_at, the, ◌∣◌, ◌⨾◌};
ghost use Rattle.al_tree_syntax.specs.Rules.{grammar};
ghost use Rattle.al_tree_syntax.specs.StatementTrees.{compound_end_tokens, item_tokens};
ghost use Rattle.al_tree_syntax.specs.Statements.{statements_rule};
ghost use Rattle.al_tree_syntax.specs.Symbols.{Symbol as symbols};
ghost use Rattle.al_tree_syntax.specs.UnitTrees.{context_tokens, library_item_tokens, package_body_tokens, package_statements_tokens, package_tokens, private_part_tokens, tokens_of};
ghost use Rattle.al_tree_syntax.specs.Units.{context_rule, library_item_rule, package_body_rule, package_rule, unit_rule};
ghost use Rattle.al_tree_syntax.specs.Words.{labelled, word};
ghost use Rattle.al_tree.specs.DeclarationViews.{compound_model, declaration_model};
ghost use Rattle.al_tree.specs.Lexemes.{lexemes, place_label};
ghost use Rattle.al_tree.specs.StatementViews.{compound_end_model, item_model};
ghost use Rattle.al_tree.specs.UnitViews.{context_model, library_item_model, package_body_model, package_model, package_statements_model, private_part_model, unit_model};
ghost use Rattle.std.specs.Prelude.{[], map, option_map, ◌++◌, ◌∷◌};

use crate::body::{items, proper_body, statements, subprogram_body};
use crate::declaration::{pragma, use_clause};
use crate::specification::{declarations, specification};
use crate::start::{
    is_context_next, is_declaration_of_package_next, is_subprogram_declaration_next,
    is_subprogram_item_next, is_use_next,
};
use crate::statement::compound_end;
use crate::{
    Stop, append, compound_name, compound_names, enter, enter_at, expect, is_next, read_or_drop,
    skip, skip_at, word_at,
};
use al_base::Place;
use al_lex::Token;
use al_tree::{
    CompilationUnit, CompoundEnd, CompoundName, ContextItem, Declaration, Item, LibraryItem,
    PackageBody, PackageDeclaration, PackageStatements, PrivatePart, Symbol,
};
use std::alloc::Global;

/// A with clause, a use clause or a pragma (ARM 10.1.2).
#[tactic(auto, unfolding(al_tree_syntax::specs::Units::context_rule, al_tree_syntax::specs::Declarations::use_rule, al_tree_syntax::specs::Expressions::compound_names_rule, al_tree_syntax::specs::Expressions::compound_name_rule, al_tree_syntax::specs::Expressions::identifier_rule))]
fn context_item<'a>(
    alloc: Global,
    source: &[u8],
    depth: u32,
    tokens: &'a [Token],
) -> Result<(ContextItem, &'a [Token]), Stop>
    ensures { Gives (λ x. context_tokens (context_model x.0)) (λ x. lexemes source.now x.1.now) result (lexemes source.now tokens.now) (reading depth context_rule (lexemes source.now tokens.now)) }
{
    if let Some(rest) = skip(source, tokens, Symbol::With) {
        let (names, rest) = compound_names(alloc, source, rest)?;
        let rest = read_or_drop!(expect(source, rest, Symbol::Semicolon), names);
        return Ok((ContextItem::With(names), rest));
    }
    if is_use_next(source, tokens) {
        let (clause, rest) = use_clause(alloc, source, tokens)?;
        return Ok((ContextItem::Use(clause), rest));
    }
    let (pragma, rest) = pragma(alloc, source, depth, tokens)?;
    Ok((ContextItem::Pragma(pragma), rest))
}

/// A context clause.
fn context_items<'a>(
    alloc: Global,
    source: &[u8],
    depth: u32,
    tokens: &'a [Token],
) -> Result<(Vec<ContextItem>, &'a [Token]), Stop>
    ensures { Gives (λ x. each context_tokens (map context_model x.0.items)) (λ x. lexemes source.now x.1.now) result (lexemes source.now tokens.now) (reading depth (Many context_rule) (lexemes source.now tokens.now)) }
{
    let mut items = Vec::new(alloc);
    let mut rest = tokens;
    'more: while is_context_next(source, rest) {
        let (next, after) = context_item(alloc, source, depth, rest)?;
        append(&mut items, next)?;
        rest = after;
    }
    Ok((items, rest))
}

/// `[private {declaration}]`
fn private_part<'a>(
    alloc: Global,
    source: &[u8],
    depth: u32,
    tokens: &'a [Token],
) -> Result<(Option<PrivatePart>, &'a [Token]), Stop>
    ensures { Gives (λ x. maybe private_part_tokens (option_map private_part_model x.0)) (λ x. lexemes source.now x.1.now) result (lexemes source.now tokens.now) (reading depth (Opt (any symbols.Private ⨾ Many declaration_rule)) (lexemes source.now tokens.now)) }
{
    match skip_at(source, tokens, Symbol::Private) {
        None => Ok((None, tokens)),
        Some((opening, rest)) => {
            let (declarations, rest) = declarations(alloc, source, depth, rest)?;
            Ok((
                Some(PrivatePart {
                    opening,
                    declarations,
                }),
                rest,
            ))
        }
    }
}

/// What comes after the `is` of a package's declaration.
#[tactic(auto, unfolding(al_tree_syntax::specs::Expressions::compound_name_rule, al_tree_syntax::specs::Expressions::identifier_rule))]
fn package_parts<'a>(
    alloc: Global,
    source: &[u8],
    depth: u32,
    tokens: &'a [Token],
) -> Result<
    (
        Vec<Declaration>,
        Option<PrivatePart>,
        CompoundEnd,
        &'a [Token],
    ),
    Stop,
>
    ensures { Gives (λ x. each declaration_tokens (map declaration_model x.0.items) ++ (maybe private_part_tokens (option_map private_part_model x.1) ++ compound_end_tokens (compound_end_model x.2))) (λ x. lexemes source.now x.3.now) result (lexemes source.now tokens.now) (reading depth (Many declaration_rule ⨾ Opt (any symbols.Private ⨾ Many declaration_rule) ⨾ any symbols.End ⨾ Opt compound_name_rule ⨾ the symbols.Semicolon) (lexemes source.now tokens.now)) }
{
    let (visible, rest) = declarations(alloc, source, depth, tokens)?;
    let (private_part, rest) = read_or_drop!(private_part(alloc, source, depth, rest), visible);
    let (end, rest) = read_or_drop!(compound_end(alloc, source, rest), (visible, private_part));
    Ok((visible, private_part, end, rest))
}

/// What a package's declaration has after `package` (ARM 7.1).
#[tactic(auto, unfolding(al_tree_syntax::specs::Units::package_rule, al_tree_syntax::specs::Expressions::compound_name_rule, al_tree_syntax::specs::Expressions::identifier_rule))]
fn package_declaration<'a>(
    alloc: Global,
    source: &[u8],
    depth: u32,
    tokens: &'a [Token],
) -> Result<(PackageDeclaration, &'a [Token]), Stop>
    ensures { Gives (λ x. package_tokens (package_model x.0)) (λ x. lexemes source.now x.1.now) result (lexemes source.now tokens.now) (reading depth package_rule (lexemes source.now tokens.now)) }
{
    let (name, rest) = compound_name(alloc, source, tokens)?;
    let rest = expect(source, rest, Symbol::Is)?;
    let (visible, private_part, end, rest) = package_parts(alloc, source, depth, rest)?;
    Ok((
        PackageDeclaration {
            name,
            visible,
            private_part,
            end,
        },
        rest,
    ))
}

/// `[begin statements]`
fn package_statements<'a>(
    alloc: Global,
    source: &[u8],
    depth: u32,
    tokens: &'a [Token],
) -> Result<(Option<PackageStatements>, &'a [Token]), Stop>
    ensures { Gives (λ x. maybe package_statements_tokens (option_map package_statements_model x.0)) (λ x. lexemes source.now x.1.now) result (lexemes source.now tokens.now) (reading depth (Opt (any symbols.Begin ⨾ statements_rule)) (lexemes source.now tokens.now)) }
{
    match skip_at(source, tokens, Symbol::Begin) {
        None => Ok((None, tokens)),
        Some((opening, rest)) => {
            let (statements, rest) = statements(alloc, source, depth, rest)?;
            Ok((
                Some(PackageStatements {
                    opening,
                    statements,
                }),
                rest,
            ))
        }
    }
}

/// What comes after the name of a package's body.
#[tactic(auto, unfolding(al_tree_syntax::specs::Expressions::compound_name_rule, al_tree_syntax::specs::Expressions::identifier_rule))]
fn package_body_parts<'a>(
    alloc: Global,
    source: &[u8],
    depth: u32,
    tokens: &'a [Token],
) -> Result<
    (
        Vec<Item>,
        Option<PackageStatements>,
        CompoundEnd,
        &'a [Token],
    ),
    Stop,
>
    ensures { Gives (λ x. word symbols.Is ∷ (each (λ i. item_tokens (item_model i)) x.0.items ++ (maybe package_statements_tokens (option_map package_statements_model x.1) ++ compound_end_tokens (compound_end_model x.2)))) (λ x. lexemes source.now x.3.now) result (lexemes source.now tokens.now) (reading depth (the symbols.Is ⨾ Many item_rule ⨾ Opt (any symbols.Begin ⨾ statements_rule) ⨾ any symbols.End ⨾ Opt compound_name_rule ⨾ the symbols.Semicolon) (lexemes source.now tokens.now)) }
{
    let rest = expect(source, tokens, Symbol::Is)?;
    let (items, rest) = items(alloc, source, depth, rest)?;
    let (statements, rest) = read_or_drop!(package_statements(alloc, source, depth, rest), items);
    let (end, rest) = read_or_drop!(compound_end(alloc, source, rest), (items, statements));
    Ok((items, statements, end, rest))
}

/// What a package's body has after `package body` (ARM 7.2).
#[tactic(auto, unfolding(al_tree_syntax::specs::Units::package_body_rule, al_tree_syntax::specs::Expressions::compound_name_rule, al_tree_syntax::specs::Expressions::identifier_rule))]
fn package_body<'a>(
    alloc: Global,
    source: &[u8],
    depth: u32,
    tokens: &'a [Token],
) -> Result<(PackageBody, &'a [Token]), Stop>
    ensures { Gives (λ x. package_body_tokens (package_body_model x.0)) (λ x. lexemes source.now x.1.now) result (lexemes source.now tokens.now) (reading depth package_body_rule (lexemes source.now tokens.now)) }
{
    let (name, rest) = compound_name(alloc, source, tokens)?;
    let (items, statements, end, rest) = package_body_parts(alloc, source, depth, rest)?;
    Ok((PackageBody::new(name, items, statements, end), rest))
}

/// The name of a subunit's parent, after its parenthesis (ARM 10.1.3).
#[tactic(auto, unfolding(al_tree_syntax::specs::Rules::grammar, al_tree_syntax::specs::Rules::inside, al_tree_syntax::specs::Constructs::construct_at, al_tree_syntax::specs::Expressions::compound_name_rule, al_tree_syntax::specs::Expressions::identifier_rule))]
fn parent_name<'a>(
    alloc: Global,
    source: &[u8],
    depth: u32,
    tokens: &'a [Token],
) -> Result<(CompoundName, &'a [Token]), Stop>
    ensures { Gives (λ x. compound_tokens (compound_model x.0) ++ word symbols.RightParenthesis ∷ []) (λ x. lexemes source.now x.1.now) result (lexemes source.now tokens.now) (reading depth (grammar (place constructs.ParentName)) (lexemes source.now tokens.now)) }
{
    let (name, rest) = compound_name(alloc, source, tokens)?;
    let rest = read_or_drop!(expect(source, rest, Symbol::RightParenthesis), name);
    Ok((name, rest))
}

/// The declaration of a private library unit.
#[tactic(auto, unfolding(al_tree_syntax::specs::Rules::grammar, al_tree_syntax::specs::Rules::inside, al_tree_syntax::specs::Constructs::construct_at))]
fn private_item<'a>(
    alloc: Global,
    source: &[u8],
    depth: u32,
    tokens: &'a [Token],
) -> Result<(LibraryItem, &'a [Token]), Stop>
    ensures { Gives (λ x. library_item_tokens (library_item_model x.0)) (λ x. lexemes source.now x.1.now) result (lexemes source.now tokens.now) (reading depth (any symbols.Private ⨾ (specification_rule ⨾ the symbols.Semicolon ∣ opens_at symbols.Package constructs.PackageDeclaration)) (lexemes source.now tokens.now)) }
{
    let (opening, rest) = word_at(source, tokens, Symbol::Private)?;
    if is_subprogram_declaration_next(source, rest) {
        let (specification, rest) = specification(alloc, source, depth, rest)?;
        let rest = read_or_drop!(expect(source, rest, Symbol::Semicolon), specification);
        return Ok((LibraryItem::Subprogram(Some(opening), specification), rest));
    }
    let (inner, package, rest) = enter_at(source, depth, rest, Symbol::Package)?;
    let (declaration, rest) = package_declaration(alloc, source, inner, rest)?;
    Ok((
        LibraryItem::Package(Some(opening), package, declaration),
        rest,
    ))
}

/// The declaration or body of a library subprogram.
#[tactic(auto, unfolding(al_tree_syntax::specs::Rules::grammar, al_tree_syntax::specs::Rules::inside, al_tree_syntax::specs::Constructs::construct_at))]
fn subprogram_item<'a>(
    alloc: Global,
    source: &[u8],
    depth: u32,
    tokens: &'a [Token],
) -> Result<(LibraryItem, &'a [Token]), Stop>
    ensures { Gives (λ x. library_item_tokens (library_item_model x.0)) (λ x. lexemes source.now x.1.now) result (lexemes source.now tokens.now) (reading depth (specification_rule ⨾ (the symbols.Semicolon ∣ opens symbols.Is constructs.SubprogramBody)) (lexemes source.now tokens.now)) }
{
    let (specification, rest) = specification(alloc, source, depth, tokens)?;
    if let Some(rest) = skip(source, rest, Symbol::Semicolon) {
        return Ok((LibraryItem::Subprogram(None, specification), rest));
    }
    let (inner, rest) = read_or_drop!(enter(source, depth, rest, Symbol::Is), specification);
    let (body, rest) = read_or_drop!(subprogram_body(alloc, source, inner, rest), specification);
    Ok((LibraryItem::Body(specification, body), rest))
}

/// What comes after `package`: a declaration or a body.
#[tactic(auto, unfolding(al_tree_syntax::specs::Rules::grammar, al_tree_syntax::specs::Rules::inside, al_tree_syntax::specs::Constructs::construct_at))]
fn package_item<'a>(
    alloc: Global,
    source: &[u8],
    depth: u32,
    opening: Place,
    tokens: &'a [Token],
) -> Result<(LibraryItem, &'a [Token]), Stop>
    ensures { Gives (λ x. library_item_tokens (library_item_model x.0)) (λ x. lexemes source.now x.1.now) result (labelled symbols.Package (place_label opening) ∷ lexemes source.now tokens.now) (reading depth (grammar (place constructs.PackageUnit)) (lexemes source.now tokens.now)) }
{
    if is_declaration_of_package_next(source, tokens) {
        let (declaration, rest) = package_declaration(alloc, source, depth, tokens)?;
        return Ok((LibraryItem::Package(None, opening, declaration), rest));
    }
    let rest = expect(source, tokens, Symbol::Body)?;
    let (body, rest) = package_body(alloc, source, depth, rest)?;
    Ok((LibraryItem::PackageBody(opening, body), rest))
}

/// ARM 10.1.3
#[tactic(auto, unfolding(al_tree_syntax::specs::Rules::grammar, al_tree_syntax::specs::Rules::inside, al_tree_syntax::specs::Constructs::construct_at))]
fn subunit<'a>(
    alloc: Global,
    source: &[u8],
    depth: u32,
    tokens: &'a [Token],
) -> Result<(LibraryItem, &'a [Token]), Stop>
    ensures { Gives (λ x. library_item_tokens (library_item_model x.0)) (λ x. lexemes source.now x.1.now) result (lexemes source.now tokens.now) (reading depth (any symbols.Separate ⨾ opens_at symbols.LeftParenthesis constructs.ParentName ⨾ specification_rule ⨾ opens symbols.Is constructs.SubprogramBody) (lexemes source.now tokens.now)) }
{
    let (opening, rest) = word_at(source, tokens, Symbol::Separate)?;
    let (inner, parenthesis, rest) = enter_at(source, depth, rest, Symbol::LeftParenthesis)?;
    let (parent, rest) = parent_name(alloc, source, inner, rest)?;
    let (specification, body, rest) = read_or_drop!(
        proper_body(alloc, source, depth, rest),
        parent
    );
    Ok((
        LibraryItem::Subunit(opening, parenthesis, parent, specification, body),
        rest,
    ))
}

/// A library unit's declaration or body, or a subunit (ARM 10.1.1, 10.1.3).
#[tactic(auto, unfolding(al_tree_syntax::specs::Units::library_item_rule))]
fn library_item<'a>(
    alloc: Global,
    source: &[u8],
    depth: u32,
    tokens: &'a [Token],
) -> Result<(LibraryItem, &'a [Token]), Stop>
    ensures { Gives (λ x. library_item_tokens (library_item_model x.0)) (λ x. lexemes source.now x.1.now) result (lexemes source.now tokens.now) (reading depth library_item_rule (lexemes source.now tokens.now)) }
{
    if is_next(source, tokens, Symbol::Private) {
        let (item, rest) = private_item(alloc, source, depth, tokens)?;
        return Ok((item, rest));
    }
    if is_subprogram_item_next(source, tokens) {
        let (item, rest) = subprogram_item(alloc, source, depth, tokens)?;
        return Ok((item, rest));
    }
    if is_next(source, tokens, Symbol::Package) {
        let (inner, opening, rest) = enter_at(source, depth, tokens, Symbol::Package)?;
        let (item, rest) = package_item(alloc, source, inner, opening, rest)?;
        return Ok((item, rest));
    }
    let (item, rest) = subunit(alloc, source, depth, tokens)?;
    Ok((item, rest))
}

/// A context clause, and a library item.
fn parts_of_unit<'a>(
    alloc: Global,
    source: &[u8],
    depth: u32,
    tokens: &'a [Token],
) -> Result<(CompilationUnit, &'a [Token]), Stop>
    ensures { Gives (λ x. tokens_of (unit_model x.0)) (λ x. lexemes source.now x.1.now) result (lexemes source.now tokens.now) (reading depth (Many context_rule ⨾ library_item_rule) (lexemes source.now tokens.now)) }
{
    let (context, rest) = context_items(alloc, source, depth, tokens)?;
    let (item, rest) = read_or_drop!(library_item(alloc, source, depth, rest), context);
    Ok((CompilationUnit::new(context, item), rest))
}

/// A compilation unit (ARM 10.1.1), if one more construct may be open, and the tokens after it. `depth` is how many more constructs
/// may be open.
///
/// # Errors
/// `Fault` with the number of tokens that are left where no compilation unit goes on; `Memory` if the allocator refuses memory.
pub fn compilation_unit<'a>(
    alloc: Global,
    source: &[u8],
    depth: u32,
    tokens: &'a [Token],
) -> Result<(CompilationUnit, &'a [Token]), Stop>
    ensures { Gives (λ x. tokens_of (unit_model x.0)) (λ x. lexemes source.now x.1.now) result (lexemes source.now tokens.now) (reading depth unit_rule (lexemes source.now tokens.now)) }
{
    if depth == 0 {
        return Err(Stop::Fault(tokens.len()));
    }
    let (unit, rest) = parts_of_unit(alloc, source, depth, tokens)?;
    Ok((unit, rest))
}
