//! Functions: their rules, and their variables.

ghost use Rattle.std.specs.Prelude.{◌≡◌, ◌<◌, OnOk, length};
ghost use Rattle.om_parser_tree.specs.Tree.{statements};
ghost use Rattle.om_parser_tree.specs.View.{view_function, view_head};
ghost use Rattle.om_scope_rules.specs.Checks.{Checks, ChecksExactly};
ghost use Rattle.om_scope_rules.specs.Proper.{AreProper};
ghost use Rattle.om_scope_rules.specs.Scopes.{after_optional, after_parameter, returns_value, signature_eq, signature_of, with_local};
ghost use Rattle.om_scope_rules.specs.UnitRules.{definition_breaches, flow_of, head_breaches, is_other_main, is_redeclared, optional_breaches, parameter_breaches, prototype_breaches};
ghost use Rattle.om_scope_rules.specs.StatementRules.{redeclared_breaches};
ghost use Rattle.om_scope_tree.specs.declared.resolved.Shape.TheVariants.{Scalar};
ghost use Rattle.om_scope.specs.Parameters.{AppendsParameter, AppendsParameters, ChecksOptionals, ChecksParameters};
ghost use Rattle.om_scope.specs.Parameters.{DeclaresOptionals, DeclaresParameters, ResolvesFunction, ResolvesInside};
ghost use Rattle.om_scope.specs.Resolving.{DeclaresHead, DefinesHead, parameters_in};

use crate::statement::resolve_statements;
use om_lexer::{FaultCode, SourceResult};
use om_parser_tree::{Function, FunctionHead, Name, Parameter, Parameters, ResultType};
use om_scope_parts::{Separated, check_new, copy_of, local_of, refuse_if};
use om_scope_rules::{FUNCTION_LIMIT, Flow, Meaning, PARAMETER_LIMIT, Signature, head_first};
use om_scope_symbols::Symbols;
use om_scope_tree::{LocalVariable, ResolvedFunction, ResolvedStatement, Shape};
use om_seq::{AllocResult, Seq};
use std::alloc::Global;

// Whether a function returns an `int`.
fn returns_value(kind: &ResultType) -> bool
    ensures { result ≡ returns_value kind.now }
{
    matches!(kind, ResultType::Int(_))
}

// How many parameters there are.
fn parameter_count<N>(parameters: &Parameters<N>) -> usize
    ensures { result ≡ length (parameters_in parameters.now) }
{
    match parameters {
        Parameters::Nothing => 0,
        Parameters::Void(_) => 0,
        Parameters::Listed { rest, .. } => rest.len() + 1,
    }
}

// What calls of a function need and give.
fn signature_of<N>(head: &FunctionHead<N>) -> Signature
    ensures { result ≡ signature_of (view_head head.now) }
{
    Signature {
        returns: returns_value(&head.result),
        parameters: parameter_count(&head.parameters),
    }
}

// Whether two functions are called alike.
fn are_alike(one: Signature, other: Signature) -> bool
    ensures { result ≡ signature_eq one other }
{
    (if one.returns {
        other.returns
    } else {
        !other.returns
    }) && one.parameters == other.parameters
}

// Whether a function of this signature was declared before as something else.
fn is_redeclared(signature: Signature, earlier: Option<Meaning>) -> bool
    ensures { result ≡ is_redeclared signature earlier }
{
    let Some(earlier) = earlier else {
        return false;
    };
    !matches!(earlier, Meaning::Function(other) if are_alike(other, signature))
}

// Whether it is `main`, but not `int main(void)`.
fn is_other_main(name: &[u8], signature: Signature) -> bool
    ensures { result ≡ is_other_main name.now signature }
{
    let asks = Signature {
        returns: true,
        parameters: 0,
    };
    name == b"main".as_slice() && !are_alike(signature, asks)
}

// The name and the signature of a function: S8, S9.
fn check_head<N>(symbols: &Symbols, head: &FunctionHead<N>) -> SourceResult<()>
    ensures { ChecksExactly result (head_breaches symbols.now (view_head head.now)) }
{
    let signature = signature_of(head);
    let name = head.name.text.as_slice();
    let redeclared = is_redeclared(signature, symbols.meaning_here(name));
    refuse_if(redeclared, FaultCode::Redeclared, head.name.span.start)?;
    let other = is_other_main(name, signature);
    refuse_if(other, FaultCode::Misuse, head.name.span.start)
}

// Declares a function, unless an earlier declaration did.
fn declare_head<N>(alloc: Global, symbols: &mut Symbols, head: &FunctionHead<N>) -> AllocResult<()>
    ensures { DeclaresHead result symbols.old symbols.new head.now }
{
    let name = head.name.text.as_slice();
    if symbols.is_declared(name) {
        return Ok(());
    }
    symbols.declare_function(alloc, name, signature_of(head))
}

// Declares the name of a parameter: S8.
fn declare_parameter_name(alloc: Global, symbols: &mut Symbols, name: &Name) -> SourceResult<()>
    ensures checked { Checks result (redeclared_breaches symbols.old name.now) }
    ensures in_scope { OnOk result (symbols.new ≡ with_local symbols.old name.now Scalar) }
{
    check_new(symbols, name)?;
    symbols.declare_local(alloc, name, Shape::Scalar)?;
    Ok(())
}

// Declares a parameter of a definition behind so many others: S8, S11.
fn declare_parameter(
    alloc: Global,
    symbols: &mut Symbols,
    parameters: &mut Vec<LocalVariable>,
    before: usize,
    parameter: &Parameter<Name>,
) -> SourceResult<()>
    ensures checked { Checks result (parameter_breaches (before, symbols.old) parameter.now) }
    ensures in_scope { OnOk result (symbols.new ≡ after_parameter symbols.old parameter.now) }
    ensures resolved { AppendsParameter result parameters.old parameters.new parameter.now }
    ensures few { OnOk result (before < PARAMETER_LIMIT) }
{
    refuse_if(
        PARAMETER_LIMIT <= before,
        FaultCode::TooMany,
        parameter.int.start,
    )?;
    declare_parameter_name(alloc, symbols, &parameter.name)?;
    parameters.push(local_of(alloc, &parameter.name)?)?;
    Ok(())
}

// Declares the parameters of a definition.
fn declare_parameters(
    alloc: Global,
    symbols: &mut Symbols,
    found: &mut Vec<LocalVariable>,
    parameters: &Parameters<Name>,
) -> SourceResult<()>
    ensures checked { ChecksParameters result symbols.old parameters.now }
    ensures in_scope { DeclaresParameters result symbols.old symbols.new parameters.now }
    ensures resolved { AppendsParameters result found.old found.new parameters.now }
{
    let Parameters::Listed { first, rest } = parameters else {
        return Ok(());
    };
    let mut before = 0;
    for parameter in Separated::new(first, rest.as_slice()) {
        declare_parameter(alloc, symbols, found, before, parameter)?;
        before += 1;
    }
    Ok(())
}

// Declares a parameter of a prototype, if it has a name, behind so many others: S8, S11.
fn declare_optional(
    alloc: Global,
    symbols: &mut Symbols,
    before: usize,
    parameter: &Parameter<Option<Name>>,
) -> SourceResult<()>
    ensures checked { Checks result (optional_breaches (before, symbols.old) parameter.now) }
    ensures in_scope { OnOk result (symbols.new ≡ after_optional symbols.old parameter.now) }
    ensures few { OnOk result (before < PARAMETER_LIMIT) }
{
    refuse_if(
        PARAMETER_LIMIT <= before,
        FaultCode::TooMany,
        parameter.int.start,
    )?;
    let Some(name) = &parameter.name else {
        return Ok(());
    };
    declare_parameter_name(alloc, symbols, name)
}

// Declares the parameters of a prototype.
fn declare_optionals(
    alloc: Global,
    symbols: &mut Symbols,
    parameters: &Parameters<Option<Name>>,
) -> SourceResult<()>
    ensures checked { ChecksOptionals result symbols.old parameters.now }
    ensures in_scope { DeclaresOptionals result symbols.old symbols.new parameters.now }
{
    let Parameters::Listed { first, rest } = parameters else {
        return Ok(());
    };
    let mut before = 0;
    for parameter in Separated::new(first, rest.as_slice()) {
        declare_optional(alloc, symbols, before, parameter)?;
        before += 1;
    }
    Ok(())
}

/// A function that is declared and not defined.
pub fn check_prototype(
    alloc: Global,
    symbols: &mut Symbols,
    head: &FunctionHead<Option<Name>>,
) -> SourceResult<()>
    ensures checked { Checks result (prototype_breaches symbols.old (view_head head.now)) }
    ensures in_scope { DeclaresHead result symbols.old symbols.new head.now }
{
    check_head(symbols, head)?;
    declare_head(alloc, symbols, head)?;
    symbols.enter(alloc)?;
    declare_optionals(alloc, symbols, &head.parameters)?;
    symbols.leave();
    Ok(())
}

// That a definition is not one too many, that of no function before, and keeps the rules of its name.
fn check_definition(symbols: &Symbols, head: &FunctionHead<Name>) -> SourceResult<()>
    ensures { ChecksExactly result (definition_breaches symbols.now (view_head head.now)) }
{
    // Three count as defined before any source: `printf` and the two calls of OpenMP.
    let full = symbols.defined_count() >= FUNCTION_LIMIT + 3;
    refuse_if(full, FaultCode::TooMany, head_first(head).start)?;
    let defined = symbols.is_defined(head.name.text.as_slice());
    refuse_if(defined, FaultCode::Redeclared, head.name.span.start)?;
    check_head(symbols, head)
}

// What a function's statements may do.
fn flow_of(head: &FunctionHead<Name>) -> Flow
    ensures { result ≡ flow_of (view_head head.now) }
{
    Flow {
        may_break: false,
        may_continue: false,
        returns: returns_value(&head.result),
        in_construct: false,
        is_closed: false,
        parallel: None,
    }
}

// Begins the definition of a function: its name is declared and defined.
fn begin_definition(
    alloc: Global,
    symbols: &mut Symbols,
    head: &FunctionHead<Name>,
) -> SourceResult<()>
    ensures checked { Checks result (definition_breaches symbols.old (view_head head.now)) }
    ensures in_scope { DefinesHead result symbols.old symbols.new head.now }
{
    check_definition(symbols, head)?;
    declare_head(alloc, symbols, head)?;
    symbols.define(alloc, head.name.text.as_slice())?;
    Ok(())
}

// The parameters and the statements of a function, in a scope of their own.
fn resolve_inside(
    alloc: Global,
    symbols: &mut Symbols,
    parameters: &mut Vec<LocalVariable>,
    function: &Function,
) -> SourceResult<Vec<ResolvedStatement>>
    requires proper { AreProper (statements (view_function function.now).body.items) }
    ensures found { ResolvesInside result symbols.old (view_function function.now) }
    ensures in_scope { OnOk result (symbols.new ≡ symbols.old) }
    ensures parameters { AppendsParameters result parameters.old parameters.new
        function.now.head.parameters }
{
    symbols.enter(alloc)?;
    declare_parameters(alloc, symbols, parameters, &function.head.parameters)?;
    let flow = flow_of(&function.head);
    let body = resolve_statements(alloc, symbols, flow, function.body.items.as_slice())?;
    symbols.leave();
    Ok(body)
}

/// The definition of a function.
pub fn resolve_function(
    alloc: Global,
    symbols: &mut Symbols,
    function: &Function,
) -> SourceResult<ResolvedFunction>
    requires proper { AreProper (statements (view_function function.now).body.items) }
    ensures found { ResolvesFunction result symbols.old (view_function function.now) }
    ensures in_scope { DefinesHead result symbols.old symbols.new function.now.head }
{
    begin_definition(alloc, symbols, &function.head)?;
    let name = copy_of(alloc, &function.head.name)?;
    let mut parameters = Vec::new(alloc);
    let body = resolve_inside(alloc, symbols, &mut parameters, function)?;
    Ok(ResolvedFunction {
        name,
        name_at: function.head.name.span.start,
        first: head_first(&function.head),
        returns: returns_value(&function.head.result),
        parameters: Seq::of(parameters),
        body,
        closing_line: function.body.close_brace.line,
    })
}
