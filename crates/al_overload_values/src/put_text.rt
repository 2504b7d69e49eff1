// What Put and Put_Line put (ARM A.10.7).
ghost use Rattle.std.specs.Prelude.{◌≡◌, ◌+◌, ◌<◌, ◌++◌, ◌∷◌, [], IfOk, OnOk, map, None, Ok, Err, sum_by};
ghost use Rattle.al_base_fault.specs.Judging.{map_ok};
ghost use Rattle.al_overload_nodes.specs.Contexts.{term_checked};
ghost use Rattle.al_overload.specs.Meanings.{nothing_fits};
ghost use Rattle.al_overload.specs.declared.context.Context.TheVariants as contexts;
ghost use Rattle.al_overload.specs.TermViews.{term_model, terms_of};
ghost use Rattle.al_view_typed.specs.ExpressionViews.{typed_model};
ghost use Rattle.al_view_typed.specs.StatementTrees.PieceTree.{TextPiece};
ghost use Rattle.al_view_typed.specs.StatementViews.{piece_model};
ghost use Rattle.al_overload_nodes.specs.Gathering.{Parts, no_parts, with_part};
ghost use Rattle.al_overload_values.specs.Puts.{argument_read, arguments_of, image, image_checked, image_of, text_read, upper};
ghost use Rattle.al_overload_values.specs.Seen.{pieces_model};
ghost use Rattle.al_overload_values.specs.Worklists.{IsBelow, all_read, room, stepped};
ghost use Rattle.al_view_typed.specs.StatementTrees.{PieceTree};
ghost use Rattle.al_overload_nodes.specs.Leaves.{mark_type};

use al_base::{Name, NoMemory, Place};
use al_base_fault::{CheckResult, Fault, earlier};
use al_overload::{Context, Term, first_place, nothing_fits, value_type};
use al_overload_nodes::{Labeller, check_term};
use al_view::{Seq, SubtypeView, TypeDefinition};
use al_view_typed::{Piece, Typed};
use std::alloc::Global;

/// Pieces of a string expression: what is wrong, and those that are right.
#[derive(Drop)]
pub(crate) struct Pieces {
    pub(crate) failure: Option<Fault>,
    pub(crate) fault: Option<Fault>,
    pub(crate) items: Vec<Piece>,
}

impl Pieces {
    pub(crate) fn none(alloc: Global) -> Pieces
        ensures { pieces_model result ≡ no_parts }
    {
        Pieces {
            failure: None,
            fault: None,
            items: Vec::new(alloc),
        }
    }

    fn add(&mut self, piece: CheckResult<Piece>) -> Result<(), NoMemory>
        ensures { OnOk result (pieces_model self.new ≡ with_part (pieces_model self.old) None (map_ok piece_model piece)) }
    {
        match piece {
            Ok(piece) => self.items.push(piece)?,
            Err(fault) => self.fault = earlier(self.fault, Some(fault)),
        }
        self.failure = earlier(self.failure, None);
        Ok(())
    }
}

/// A name in upper case.
fn upper(alloc: Global, name: &[u8]) -> Result<Name, NoMemory>
    ensures { IfOk result (λ image. image ≡ upper name.now) }
{
    let mut bytes = Vec::from_slice(alloc, name)?;
    bytes.make_ascii_uppercase();
    Ok(Name::new(bytes))
}

/// Appends an image.
fn push_image(alloc: Global, name: &[u8], images: &mut Seq<Name>) -> Result<(), NoMemory>
    ensures { OnOk result (images.new ≡ images.old ++ upper name.now ∷ []) }
{
    let image = upper(alloc, name)?;
    images.push(image)?;
    Ok(())
}

/// The images of literals by their names (ARM 3.5(32)).
fn images(alloc: Global, names: &[Name]) -> Result<Seq<Name>, NoMemory>
    ensures { IfOk result (λ images. images ≡ map upper names.now) }
{
    let mut images = Seq::empty(alloc);
    for name in names {
        push_image(alloc, name.as_slice(), &mut images)?;
    }
    Ok(images)
}

/// The image of a value of a subtype whose type has this definition.
fn image_of(
    alloc: Global,
    mark: &SubtypeView,
    value: Typed,
    definition: &TypeDefinition,
) -> Result<Piece, NoMemory>
    ensures { IfOk result (λ piece. piece_model piece ≡ image_of mark.now (typed_model value) definition.now) }
{
    match definition {
        TypeDefinition::Enumeration { .. } => {
            match images(alloc, mark.literals.as_slice()) {
                Ok(names) => Ok(Piece::EnumerationImage { value, names }),
                Err(lack) => Err(lack),
            }
        }
        TypeDefinition::Integer(_) => Ok(Piece::IntegerImage(value)),
        TypeDefinition::Array { .. } => Ok(Piece::IntegerImage(value)),
        TypeDefinition::Record(_) => Ok(Piece::IntegerImage(value)),
        TypeDefinition::Time => Ok(Piece::IntegerImage(value)),
        TypeDefinition::Private => Ok(Piece::IntegerImage(value)),
    }
}

fn image(labeller: &Labeller, mark: &SubtypeView, value: Typed) -> Result<Piece, NoMemory>
    ensures { IfOk result (λ piece. piece_model piece ≡ image mark.now (typed_model value)) }
{
    let standard = &labeller.predefined.standard;
    match standard.type_of(&mark.types, &mark.subtype.base) {
        Some(of) => image_of(labeller.alloc, mark, value, &of.definition),
        None => Ok(Piece::IntegerImage(value)),
    }
}

/// The argument of `mark'Image (argument)`, which is a context of its own.
fn check_argument(
    labeller: &Labeller,
    mark: &SubtypeView,
    argument: &Term,
) -> Result<CheckResult<Typed>, NoMemory>
    ensures { IfOk result (λ value. map_ok typed_model value ≡ term_checked labeller.now.predefined labeller.now.own (contexts.ImageArgument (mark_type mark.now)) None mark.now.types (term_model argument.now)) }
{
    let standard = &labeller.predefined.standard;
    let of = value_type(labeller.alloc, standard, &mark.types, &mark.subtype.base)?;
    let context = Context::ImageArgument(of);
    let value = check_term(labeller, &context, &None, &mark.types, argument);
    drop(context);
    value
}

/// `mark'Image (argument)`.
fn check_image(
    labeller: &Labeller,
    mark: &SubtypeView,
    argument: &Term,
) -> Result<CheckResult<Piece>, NoMemory>
    ensures { IfOk result (λ piece. map_ok piece_model piece ≡ image_checked labeller.now.predefined labeller.now.own mark.now (term_model argument.now)) }
{
    match check_argument(labeller, mark, argument)? {
        Ok(value) => {
            let piece = image(labeller, mark, value)?;
            Ok(Ok(piece))
        }
        Err(fault) => Ok(Err(fault)),
    }
}

fn text_piece(alloc: Global, bytes: &[u8]) -> Result<CheckResult<Piece>, NoMemory>
    ensures { IfOk result (λ piece. map_ok piece_model piece ≡ Ok (TextPiece bytes.now)) }
{
    let bytes = Seq::new(Vec::from_slice(alloc, bytes)?);
    Ok(Ok(Piece::Text(bytes)))
}

/// A step into a string expression.
#[derive(Drop)]
enum Step<'a> {
    /// Both operands of `&`.
    Both(&'a Term, &'a Term),
    /// What is in parentheses.
    Inside(&'a Term),
    Found(CheckResult<Piece>),
}

/// The fault of what fits nothing.
fn misfit(place: Place) -> CheckResult<Piece>
    ensures { map_ok piece_model result ≡ Err (nothing_fits place) }
{
    Err(nothing_fits(place))
}

/// A step into a string expression.
#[tactic(auto, using(al_overload_nodes::proofs::TermsSeen::terms_made, crate::proofs::Worklists::left_below, crate::proofs::Worklists::right_below, crate::proofs::Worklists::inner_below))]
fn step_into<'a>(labeller: &Labeller, term: &'a Term) -> Result<Step<'a>, NoMemory>
    ensures read { IfOk result (λ s. (pieces : Parts PieceTree) → stepped labeller.now.predefined labeller.now.own s pieces ≡ text_read labeller.now.predefined labeller.now.own (term_model term.now) pieces) }
    ensures below { IfOk result (λ s. IsBelow term.now s) }
{
    match term {
        Term::Text { place: _, bytes } => {
            let piece = text_piece(labeller.alloc, bytes.as_slice())?;
            Ok(Step::Found(piece))
        }
        Term::Image {
            place: _,
            subtype,
            argument,
        } => {
            let piece = check_image(labeller, subtype, argument)?;
            Ok(Step::Found(piece))
        }
        Term::Concatenation { left, right } => Ok(Step::Both(left, right)),
        Term::Group { place: _, inner } => Ok(Step::Inside(inner)),
        Term::Number { place, .. } => Ok(Step::Found(misfit(*place))),
        Term::Named { place, .. } => Ok(Step::Found(misfit(*place))),
        Term::Selected { prefix, .. } => Ok(Step::Found(misfit(first_place(prefix)))),
        Term::Applied { name, .. } => Ok(Step::Found(misfit(first_place(name)))),
        Term::Bound { place, .. } => Ok(Step::Found(misfit(*place))),
        Term::Length { place, .. } => Ok(Step::Found(misfit(*place))),
        Term::Conversion { place, .. } => Ok(Step::Found(misfit(*place))),
        Term::Qualified { place, .. } => Ok(Step::Found(misfit(*place))),
        Term::Attribute { place, .. } => Ok(Step::Found(misfit(*place))),
        Term::Prefixed { place, .. } => Ok(Step::Found(misfit(*place))),
        Term::Infix { left, .. } => Ok(Step::Found(misfit(first_place(left)))),
        Term::ShortCircuit { left, .. } => Ok(Step::Found(misfit(first_place(left)))),
        Term::Member { value, .. } => Ok(Step::Found(misfit(first_place(value)))),
        Term::RangeMember { value, .. } => Ok(Step::Found(misfit(first_place(value)))),
        Term::Aggregate { place, .. } => Ok(Step::Found(misfit(*place))),
        Term::Others { place, .. } => Ok(Step::Found(misfit(*place))),
        Term::Nothing { place } => Ok(Step::Found(misfit(*place))),
    }
}

/// Reads what comes next: its piece, or the operands in it, which wait.
#[tactic(auto, using(crate::proofs::Worklists::last_read, crate::proofs::Worklists::last_room, crate::proofs::Worklists::some, crate::proofs::Worklists::one_within, crate::proofs::Worklists::two_within))]
fn advance<'a>(
    labeller: &Labeller,
    next: &'a Term,
    waiting: &mut Vec<&'a Term>,
    pieces: &mut Pieces,
) -> Result<(), NoMemory>
    ensures read { OnOk result (all_read labeller.now.predefined labeller.now.own (map (λ t. term_model t.now) waiting.new.items) (pieces_model pieces.new) ≡ all_read labeller.now.predefined labeller.now.own (map (λ t. term_model t.now) waiting.old.items) (text_read labeller.now.predefined labeller.now.own (term_model next.now) (pieces_model pieces.old))) }
    ensures less { OnOk result (sum_by (λ t. room t.now) waiting.new.items < sum_by (λ t. room t.now) waiting.old.items + room next.now) }
{
    match step_into(labeller, next)? {
        Step::Both(left, right) => {
            waiting.push(right)?;
            waiting.push(left)?;
            Ok(())
        }
        Step::Inside(inner) => {
            waiting.push(inner)?;
            Ok(())
        }
        Step::Found(piece) => pieces.add(piece),
    }
}

/// The pieces of a string expression, in source order. Operands wait in a list, so that a chain of `&` takes no stack.
#[tactic(auto, using(crate::proofs::Worklists::last_read, crate::proofs::Worklists::last_room))]
fn read_text(labeller: &Labeller, term: &Term, pieces: &mut Pieces) -> Result<(), NoMemory>
    ensures { OnOk result (pieces_model pieces.new ≡ text_read labeller.now.predefined labeller.now.own (term_model term.now) (pieces_model pieces.old)) }
{
    let mut waiting = Vec::new(labeller.alloc);
    waiting.push(term)?;
    while let Some(next) = waiting.pop() {
        advance(labeller, next, &mut waiting, pieces)?;
    }
    Ok(())
}

/// The pieces of the first argument, if there is one.
fn read_argument(labeller: &Labeller, arguments: &[Term]) -> Result<Pieces, NoMemory>
    ensures { IfOk result (λ pieces. pieces_model pieces ≡ argument_read labeller.now.predefined labeller.now.own (terms_of (map term_model arguments.now))) }
{
    match arguments {
        [] => Ok(Pieces::none(labeller.alloc)),
        [first, ..] => {
            let mut pieces = Pieces::none(labeller.alloc);
            read_text(labeller, first, &mut pieces)?;
            Ok(pieces)
        }
    }
}

/// The pieces that a call puts.
#[tactic(auto, using(al_overload_nodes::proofs::TermsSeen::terms_made))]
pub(crate) fn read_pieces(labeller: &Labeller, call: &Term) -> Result<Pieces, NoMemory>
    ensures { IfOk result (λ pieces. pieces_model pieces ≡ argument_read labeller.now.predefined labeller.now.own (arguments_of (term_model call.now))) }
{
    match call {
        Term::Applied { name: _, arguments } => read_argument(labeller, arguments.as_slice()),
        Term::Number { .. } => Ok(Pieces::none(labeller.alloc)),
        Term::Text { .. } => Ok(Pieces::none(labeller.alloc)),
        Term::Named { .. } => Ok(Pieces::none(labeller.alloc)),
        Term::Selected { .. } => Ok(Pieces::none(labeller.alloc)),
        Term::Bound { .. } => Ok(Pieces::none(labeller.alloc)),
        Term::Length { .. } => Ok(Pieces::none(labeller.alloc)),
        Term::Conversion { .. } => Ok(Pieces::none(labeller.alloc)),
        Term::Qualified { .. } => Ok(Pieces::none(labeller.alloc)),
        Term::Attribute { .. } => Ok(Pieces::none(labeller.alloc)),
        Term::Image { .. } => Ok(Pieces::none(labeller.alloc)),
        Term::Prefixed { .. } => Ok(Pieces::none(labeller.alloc)),
        Term::Infix { .. } => Ok(Pieces::none(labeller.alloc)),
        Term::Concatenation { .. } => Ok(Pieces::none(labeller.alloc)),
        Term::ShortCircuit { .. } => Ok(Pieces::none(labeller.alloc)),
        Term::Member { .. } => Ok(Pieces::none(labeller.alloc)),
        Term::RangeMember { .. } => Ok(Pieces::none(labeller.alloc)),
        Term::Group { .. } => Ok(Pieces::none(labeller.alloc)),
        Term::Aggregate { .. } => Ok(Pieces::none(labeller.alloc)),
        Term::Others { .. } => Ok(Pieces::none(labeller.alloc)),
        Term::Nothing { .. } => Ok(Pieces::none(labeller.alloc)),
    }
}
