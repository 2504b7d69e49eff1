// The walk over the item of a compilation unit.
ghost use Rattle.std.specs.Prelude.{◌≡◌, IfOk, OnOk, Some, map, option_map};
ghost use Rattle.al_query.specs.Reads.{FromAnswers};
ghost use Rattle.al_tree.specs.DeclarationViews.{compound_model, declaration_model};
ghost use Rattle.al_tree.specs.Lexemes.{place_label};
ghost use Rattle.al_tree.specs.StatementViews.{compound_end_model};
ghost use Rattle.al_tree.specs.UnitViews.{library_item_model, package_body_model, package_model, package_statements_model, private_part_model};
ghost use Rattle.al_stmts.specs.Steps.{ended_by};
ghost use Rattle.al_stmts.specs.Units.{declaration_walked, declarations_walked, package_body_walked, package_inside, package_walked, parts_completed, parts_walked, private_walked, unit_walked};
ghost use Rattle.al_stmts.specs.Walking.{end_of_compound, part_after};
ghost use Rattle.al_stmts.specs.WalkedViews.{inside_model, part_model};

use al_base::{NoMemory, Place};
use al_stmts::{
    Enclosing, EnclosingBody, ReturnContext, WalkedInside, WalkedPart, end_of_compound,
};
use al_stmts_text::{
    Analyzer, check_after, check_body, check_items, close_part, complete_parts, declared_item,
    object_item, subprogram_item, task_item,
};
use al_tree::{
    CompoundEnd, CompoundName, Declaration, LibraryItem, PackageBody, PackageDeclaration,
    PackageStatements, PrivatePart,
};
use std::alloc::Global;

/// The context of return statements in the statements of a package's body.
const PACKAGE: ReturnContext = ReturnContext {
    body: EnclosingBody::Package,
    words: 0,
    bounds: None,
};

/// Checks a declaration of a package.
fn check_declaration<R: Analyzer>(
    analyzer: &mut R,
    alloc: Global,
    declaration: &Declaration,
) -> Result<WalkedPart, NoMemory>
    ensures asked { R.asked analyzer.new ≡ R.asked analyzer.old }
    ensures answered { IfOk result (λ done. FromAnswers (R.log analyzer.old) (R.log analyzer.new) (λ t. (R.env analyzer.new, part_model done) ≡ declaration_walked (R.reading t) (R.env analyzer.old) (declaration_model declaration.now))) }
{
    match declaration {
        Declaration::Common(common) => declared_item(analyzer, alloc, common),
        Declaration::Subprogram(specification) => subprogram_item(analyzer, alloc, specification),
        Declaration::Task(task) => task_item(analyzer, alloc, task),
        Declaration::Protected(opening, object) => {
            object_item(analyzer, alloc, object, *opening)
        }
    }
}

/// Checks declarations of a package, one after another until the list of errors has ended.
fn check_declarations<R: Analyzer>(
    analyzer: &mut R,
    alloc: Global,
    declarations: &[Declaration],
    so_far: &mut WalkedPart,
) -> Result<(), NoMemory>
    ensures asked { R.asked analyzer.new ≡ R.asked analyzer.old }
    ensures answered { OnOk result (FromAnswers (R.log analyzer.old) (R.log analyzer.new) (λ t. (R.env analyzer.new, part_model so_far.new) ≡ part_after (R.env analyzer.old, part_model so_far.old) (declarations_walked (R.reading t) (R.env analyzer.old) (map declaration_model declarations.now)))) }
{
    for declaration in declarations {
        if so_far.is_ended() {
            return Ok(());
        }
        let one = check_declaration(analyzer, alloc, declaration)?;
        so_far.add(one)?;
    }
    Ok(())
}

/// Checks the private part of a package. From its begin on, the private parts of the ancestors are visible (ARM 8.2(5)).
fn check_private<R: Analyzer>(
    analyzer: &mut R,
    alloc: Global,
    private_part: &Option<PrivatePart>,
    so_far: &mut WalkedPart,
) -> Result<(), NoMemory>
    ensures asked { R.asked analyzer.new ≡ R.asked analyzer.old }
    ensures answered { OnOk result (FromAnswers (R.log analyzer.old) (R.log analyzer.new) (λ t. (R.env analyzer.new, part_model so_far.new) ≡ part_after (R.env analyzer.old, part_model so_far.old) (private_walked (R.reading t) (R.env analyzer.old) (option_map private_part_model private_part.now)))) }
{
    match private_part {
        Some(part) => {
            if so_far.is_ended() {
                return Ok(());
            }
            analyzer.private_entered()?;
            check_declarations(analyzer, alloc, &part.declarations, so_far)
        }
        None => Ok(()),
    }
}

/// Checks both parts of a package.
fn check_parts<R: Analyzer>(
    analyzer: &mut R,
    alloc: Global,
    declaration: &PackageDeclaration,
) -> Result<WalkedPart, NoMemory>
    ensures asked { R.asked analyzer.new ≡ R.asked analyzer.old }
    ensures answered { IfOk result (λ done. FromAnswers (R.log analyzer.old) (R.log analyzer.new) (λ t. (R.env analyzer.new, part_model done) ≡ parts_walked (R.reading t) (R.env analyzer.old) (package_model declaration.now))) }
{
    let mut so_far = WalkedPart::new(alloc);
    check_declarations(analyzer, alloc, &declaration.visible, &mut so_far)?;
    match check_private(analyzer, alloc, &declaration.private_part, &mut so_far) {
        Ok(()) => Ok(so_far),
        Err(error) => Err(error),
    }
}

/// Adds the error in the name at the end of a unit, if there is one.
fn ended(
    alloc: Global,
    inside: WalkedInside,
    name: &CompoundName,
    end: &CompoundEnd,
) -> Result<WalkedInside, NoMemory>
    ensures { IfOk result (λ done. inside_model done ≡ ended_by (inside_model inside) (end_of_compound (compound_model name.now) (compound_end_model end.now).end_name)) }
{
    let mut inside = inside;
    match end_of_compound(alloc, name, &end.end_name) {
        Ok(fault) => {
            inside.end(fault);
            Ok(inside)
        }
        Err(error) => Err(error),
    }
}

/// Checks both parts of a package, and its end.
fn completed_parts<R: Analyzer>(
    analyzer: &mut R,
    alloc: Global,
    declaration: &PackageDeclaration,
) -> Result<WalkedPart, NoMemory>
    ensures asked { R.asked analyzer.new ≡ R.asked analyzer.old }
    ensures answered { IfOk result (λ done. FromAnswers (R.log analyzer.old) (R.log analyzer.new) (λ t. (R.env analyzer.new, part_model done) ≡ parts_completed (R.reading t) (parts_walked (R.reading t) (R.env analyzer.old) (package_model declaration.now)) (package_model declaration.now).end.end)) }
{
    let mut part = check_parts(analyzer, alloc, declaration)?;
    complete_parts(analyzer, &mut part, declaration.end.end)?;
    Ok(part)
}

/// Checks a package (ARM 7.1). What waits for completion at its end is left to its body.
fn check_package<R: Analyzer>(
    analyzer: &mut R,
    alloc: Global,
    declaration: &PackageDeclaration,
) -> Result<WalkedInside, NoMemory>
    ensures asked { R.asked analyzer.new ≡ R.asked analyzer.old }
    ensures answered { IfOk result (λ done. FromAnswers (R.log analyzer.old) (R.log analyzer.new) (λ t. (R.env analyzer.new, inside_model done) ≡ package_walked (R.reading t) (R.env analyzer.old) (package_model declaration.now))) }
{
    let part = completed_parts(analyzer, alloc, declaration)?;
    let inside = part.without_statements(alloc)?;
    ended(alloc, inside, &declaration.name, &declaration.end)
}

/// Checks the statements of a package's body after its declarative part. No return statement is allowed among them (ARM 6.5(5)).
fn check_package_statements<R: Analyzer>(
    analyzer: &mut R,
    alloc: Global,
    part: WalkedPart,
    statements: &PackageStatements,
) -> Result<WalkedInside, NoMemory>
    ensures asked { R.asked analyzer.new ≡ R.asked analyzer.old }
    ensures answered { IfOk result (λ done. FromAnswers (R.log analyzer.old) (R.log analyzer.new) (λ t. (R.env analyzer.new, inside_model done) ≡ package_inside (R.reading t) (R.env analyzer.old, part_model part) (place_label statements.now.opening) (Some (package_statements_model statements.now)))) }
{
    let mut part = part;
    close_part(analyzer, &mut part, statements.opening)?;
    analyzer.statements_entered()?;
    let mut enclosing = Enclosing::new(alloc, PACKAGE);
    check_after(analyzer, &mut enclosing, &statements.statements, part)
}

/// Checks the statements of a package's body, or its end if it has no statements. E302 is there if a declaration still waits for completion.
fn check_package_inside<R: Analyzer>(
    analyzer: &mut R,
    alloc: Global,
    part: WalkedPart,
    end: Place,
    statements: &Option<PackageStatements>,
) -> Result<WalkedInside, NoMemory>
    ensures asked { R.asked analyzer.new ≡ R.asked analyzer.old }
    ensures answered { IfOk result (λ done. FromAnswers (R.log analyzer.old) (R.log analyzer.new) (λ t. (R.env analyzer.new, inside_model done) ≡ package_inside (R.reading t) (R.env analyzer.old, part_model part) (place_label end) (option_map package_statements_model statements.now))) }
{
    match statements {
        Some(statements) => check_package_statements(analyzer, alloc, part, statements),
        None => {
            let mut part = part;
            close_part(analyzer, &mut part, end)?;
            part.without_statements(alloc)
        }
    }
}

/// Checks the body of a package (ARM 7.2).
fn check_package_body<R: Analyzer>(
    analyzer: &mut R,
    alloc: Global,
    body: &PackageBody,
) -> Result<WalkedInside, NoMemory>
    ensures asked { R.asked analyzer.new ≡ R.asked analyzer.old }
    ensures answered { IfOk result (λ done. FromAnswers (R.log analyzer.old) (R.log analyzer.new) (λ t. (R.env analyzer.new, inside_model done) ≡ package_body_walked (R.reading t) (R.env analyzer.old) (package_body_model body.now))) }
{
    let mut part = WalkedPart::new(alloc);
    check_items(analyzer, alloc, &body.items, &mut part)?;
    let inside = check_package_inside(analyzer, alloc, part, body.end.end, &body.statements)?;
    ended(alloc, inside, &body.name, &body.end)
}

/// Checks the item of a compilation unit, after its context clause (ARM 10.1.1, 10.1.3).
///
/// # Errors
/// `NoMemory` if the allocator refuses memory.
pub fn check_unit<R: Analyzer>(
    analyzer: &mut R,
    alloc: Global,
    item: &LibraryItem,
) -> Result<WalkedInside, NoMemory>
    ensures asked { R.asked analyzer.new ≡ R.asked analyzer.old }
    ensures answered { IfOk result (λ done. FromAnswers (R.log analyzer.old) (R.log analyzer.new) (λ t. (R.env analyzer.new, inside_model done) ≡ unit_walked (R.reading t) (R.env analyzer.old) (library_item_model item.now))) }
{
    match item {
        LibraryItem::Subprogram(_, specification) => {
            let part = subprogram_item(analyzer, alloc, specification)?;
            part.without_statements(alloc)
        }
        LibraryItem::Package(_, _, declaration) => check_package(analyzer, alloc, declaration),
        LibraryItem::Body(specification, body) => {
            let part = check_body(analyzer, alloc, body, specification)?;
            part.without_statements(alloc)
        }
        LibraryItem::PackageBody(_, body) => check_package_body(analyzer, alloc, body),
        LibraryItem::Subunit(_, _, _, specification, body) => {
            let part = check_body(analyzer, alloc, body, specification)?;
            part.without_statements(alloc)
        }
    }
}
