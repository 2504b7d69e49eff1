// What the predefined packages declare.
ghost use Rattle.std.specs.Prelude.{◌≡◌, [], codes, IfOk, OnOk, Some, None};
ghost use Rattle.al_view.specs.declared.types.TypeDefinition.TheVariants.{Time};
ghost use Rattle.al_view.specs.Interfaces.{with_view};
ghost use Rattle.al_view_predefined.specs.declared.operators.OperatorProfile.TheVariants.{Later};
ghost use Rattle.al_view_predefined.specs.declared.operators.OperatorSymbol.TheVariants.{Plus};
ghost use Rattle.al_view_predefined.specs.Operators.{predefined_symbol, time_span, whole_type, with_operator};
ghost use Rattle.al_view_predefined.specs.Predefined.{item, milliseconds, predefined, predefined_subprogram, real_time, real_time_name, span_types, text_io, text_io_name, time, time_types, with_text_procedure, with_time_function};
ghost use Rattle.al_view_predefined.specs.Standard.{of_type, scalar};

use crate::operators::{
    OperatorProfile, OperatorSymbol, declare_operator, one_operand, predefined_symbol,
    whole_standard, whole_type,
};
use crate::standard::{declare_type, no_names, no_types, scalar, standard_package};
use al_base::NoMemory;
use al_view::{
    CallKind, Interface, Parameter, Profile, Seq, SubprogramView, Symbol, TypeDefinition, Types,
    View, ViewKind,
};
use std::alloc::Global;

/// What the predefined package of this name in lower case declares, if there is one (ARM A(2)).
///
/// # Errors
///
/// `NoMemory` if the allocator refuses memory.
pub fn predefined_package(alloc: Global, name: &[u8]) -> Result<Option<Interface>, NoMemory>
    ensures { IfOk result (λ found. found ≡ predefined name.now) }
{
    if name == b"standard".as_slice() {
        let standard = standard_package(alloc)?;
        return Ok(Some(standard));
    }
    if name == b"ada".as_slice() {
        return Ok(Some(Interface::new(alloc)));
    }
    if name == b"ada.text_io".as_slice() {
        let text_io = text_io(alloc)?;
        return Ok(Some(text_io));
    }
    if name == b"ada.real_time".as_slice() {
        let real_time = real_time(alloc)?;
        return Ok(Some(real_time));
    }
    Ok(None)
}

fn predefined_subprogram(
    alloc: Global,
    symbol: Symbol,
    profile: Profile,
    types: Types,
) -> Result<View, NoMemory>
    ensures { IfOk result (λ view. view ≡ predefined_subprogram symbol profile.parameters profile.result types) }
{
    let subprogram = SubprogramView {
        symbol,
        profile,
        types,
        call: CallKind::Predefined,
        flag: None,
    };
    let view = View::new(alloc, ViewKind::OfSubprogram(subprogram))?;
    Ok(view)
}

fn text_procedure(alloc: Global, parameters: Seq<Parameter>, name: &[u8]) -> Result<View, NoMemory>
    ensures { IfOk result (λ view. view ≡ predefined_subprogram (predefined_symbol text_io_name name.now) parameters None []) }
{
    let symbol = predefined_symbol(alloc, b"ada.text_io", name)?;
    let types = no_types(alloc)?;
    let profile = Profile {
        parameters,
        result: None,
    };
    let view = predefined_subprogram(alloc, symbol, profile, types)?;
    Ok(view)
}

/// Declares one more procedure of `Ada.Text_IO`.
fn declare_procedure(
    alloc: Global,
    interface: &mut Interface,
    parameters: Seq<Parameter>,
    name: &[u8],
) -> Result<(), NoMemory>
    ensures { OnOk result (interface.new ≡ with_text_procedure parameters interface.old name.now) }
{
    let view = text_procedure(alloc, parameters, name)?;
    interface.declare(name, view)?;
    Ok(())
}

/// The parameter of what puts out a string.
fn item(alloc: Global) -> Result<Seq<Parameter>, NoMemory>
    ensures { IfOk result (λ parameters. parameters ≡ item) }
{
    let subtype = whole_standard(alloc, b"string")?;
    let parameters = one_operand(alloc, b"item", subtype)?;
    Ok(parameters)
}

fn text_io(alloc: Global) -> Result<Interface, NoMemory>
    ensures { IfOk result (λ interface. interface ≡ text_io) }
{
    let mut interface = Interface::new(alloc);
    declare_text_io(alloc, &mut interface)?;
    Ok(interface)
}

fn declare_text_io(alloc: Global, interface: &mut Interface) -> Result<(), NoMemory>
    ensures { OnOk result (interface.new ≡ with_text_procedure [] (with_text_procedure item (with_text_procedure item interface.old (codes "put")) (codes "put_line")) (codes "new_line")) }
{
    declare_procedure(alloc, interface, item(alloc)?, b"put")?;
    declare_procedure(alloc, interface, item(alloc)?, b"put_line")?;
    declare_procedure(alloc, interface, Seq::empty(alloc), b"new_line")?;
    Ok(())
}

fn giving(alloc: Global, parameters: Seq<Parameter>, gives: &Symbol) -> Result<Profile, NoMemory>
    ensures { IfOk result (λ profile. profile ≡ record { parameters = parameters; result = Some (whole_type gives.now) }) }
{
    let subtype = whole_type(alloc, gives)?;
    Ok(Profile {
        parameters,
        result: Some(subtype),
    })
}

fn time_function(
    alloc: Global,
    profile: Profile,
    types: &Types,
    name: &[u8],
) -> Result<View, NoMemory>
    ensures { IfOk result (λ view. view ≡ predefined_subprogram (predefined_symbol real_time_name name.now) profile.parameters profile.result types.now) }
{
    let symbol = predefined_symbol(alloc, b"ada.real_time", name)?;
    let types = types.share()?;
    let view = predefined_subprogram(alloc, symbol, profile, types)?;
    Ok(view)
}

/// Declares one more function of `Ada.Real_Time`.
fn declare_function(
    alloc: Global,
    interface: &mut Interface,
    parameters: Seq<Parameter>,
    gives: &Symbol,
    types: &Types,
    name: &[u8],
) -> Result<(), NoMemory>
    ensures { OnOk result (interface.new ≡ with_time_function parameters gives.now types.now interface.old name.now) }
{
    let profile = giving(alloc, parameters, gives)?;
    let view = time_function(alloc, profile, types, name)?;
    interface.declare(name, view)?;
    Ok(())
}

/// The parameter of `Milliseconds`.
fn milliseconds(alloc: Global) -> Result<Seq<Parameter>, NoMemory>
    ensures { IfOk result (λ parameters. parameters ≡ milliseconds) }
{
    let subtype = whole_standard(alloc, b"integer")?;
    let parameters = one_operand(alloc, b"ms", subtype)?;
    Ok(parameters)
}

/// `Clock`, and the sum of a moment and a span, after both types.
fn declare_time_functions(
    alloc: Global,
    interface: &mut Interface,
    time: &Symbol,
    times: &Types,
) -> Result<(), NoMemory>
    ensures { OnOk result (interface.new ≡ with_operator time.now times.now Later [] (with_time_function [] time.now times.now interface.old (codes "clock")) Plus) }
{
    let none = Seq::empty(alloc);
    declare_function(alloc, interface, none, time, times, b"clock")?;
    let elsewhere = Interface::new(alloc);
    let later = OperatorProfile::Later;
    let plus = OperatorSymbol::Plus;
    declare_operator(alloc, &elsewhere, interface, time, times, later, plus)?;
    Ok(())
}

/// `Milliseconds`, which gives a span.
fn declare_milliseconds(
    alloc: Global,
    interface: &mut Interface,
    span: &Symbol,
    spans: &Types,
) -> Result<(), NoMemory>
    ensures { OnOk result (interface.new ≡ with_time_function milliseconds span.now spans.now interface.old (codes "milliseconds")) }
{
    let ms = milliseconds(alloc)?;
    declare_function(alloc, interface, ms, span, spans, b"milliseconds")?;
    Ok(())
}

/// Both types, and then the functions.
fn declare_times(
    alloc: Global,
    interface: &mut Interface,
    time: &Symbol,
    span: &Symbol,
    times: &Types,
    spans: &Types,
) -> Result<(), NoMemory>
    ensures { OnOk result (interface.new ≡ with_time_function milliseconds span.now spans.now (with_operator time.now times.now Later [] (with_time_function [] time.now times.now (with_view (with_view interface.old (codes "time") (of_type times.now [])) (codes "time_span") (of_type spans.now [])) (codes "clock")) Plus) (codes "milliseconds")) }
{
    declare_type(alloc, interface, times, no_names(alloc)?, b"time")?;
    declare_type(alloc, interface, spans, no_names(alloc)?, b"time_span")?;
    declare_time_functions(alloc, interface, time, times)?;
    declare_milliseconds(alloc, interface, span, spans)?;
    Ok(())
}

/// A type of time: its symbol and its types.
fn time_type(alloc: Global, name: &[u8]) -> Result<(Symbol, Types), NoMemory>
    ensures { IfOk result (λ made. made ≡ (predefined_symbol real_time_name name.now, scalar (predefined_symbol real_time_name name.now) Time)) }
{
    let symbol = predefined_symbol(alloc, b"ada.real_time", name)?;
    let types = scalar(alloc, &symbol, TypeDefinition::Time)?;
    Ok((symbol, types))
}

/// Declares Time_Span, after Time, and the functions.
fn declare_spans(
    alloc: Global,
    interface: &mut Interface,
    time: &Symbol,
    times: &Types,
) -> Result<(), NoMemory>
    ensures { OnOk result (interface.new ≡ with_time_function milliseconds time_span span_types (with_operator time.now times.now Later [] (with_time_function [] time.now times.now (with_view (with_view interface.old (codes "time") (of_type times.now [])) (codes "time_span") (of_type span_types [])) (codes "clock")) Plus) (codes "milliseconds")) }
{
    let (span, spans) = time_type(alloc, b"time_span")?;
    let declared = declare_times(alloc, interface, time, &span, times, &spans);
    drop((span, spans));
    declared
}

fn declare_real_time(alloc: Global, interface: &mut Interface) -> Result<(), NoMemory>
    ensures { OnOk result (interface.new ≡ with_time_function milliseconds time_span span_types (with_operator time time_types Later [] (with_time_function [] time time_types (with_view (with_view interface.old (codes "time") (of_type time_types [])) (codes "time_span") (of_type span_types [])) (codes "clock")) Plus) (codes "milliseconds")) }
{
    let (time, times) = time_type(alloc, b"time")?;
    let declared = declare_spans(alloc, interface, &time, &times);
    drop((time, times));
    declared
}

fn real_time(alloc: Global) -> Result<Interface, NoMemory>
    ensures { IfOk result (λ interface. interface ≡ real_time) }
{
    let mut interface = Interface::new(alloc);
    declare_real_time(alloc, &mut interface)?;
    Ok(interface)
}
