//! Uses of names: what a name has to be declared as, and the variable or the function that it means, or a
//! refusal where a rule is broken.

ghost use Rattle.std.specs.Prelude.{◌≡◌, [], OnOk, IfErr, Some};
ghost use Rattle.om_scope_rules.specs.Checks.{ChecksExactly};
ghost use Rattle.om_scope_rules.specs.ExpressionRules.{array_breaches, call_breaches, is_array, is_copied_array};
ghost use Rattle.om_scope_rules.specs.ExpressionRules.{is_miscalled, is_printf, is_scalar, is_undeclared};
ghost use Rattle.om_scope_rules.specs.ExpressionRules.{misused_array_breaches, misused_scalar_breaches};
ghost use Rattle.om_scope_rules.specs.ExpressionRules.{scalar_breaches, undeclared_breaches, unlisted_breaches};
ghost use Rattle.om_scope_rules.specs.Outcomes.{Finds};
ghost use Rattle.om_scope_rules.specs.Resolution.{callee_named, variable_named, variable_of};
ghost use Rattle.om_scope_rules.specs.Faults.{breach_if, first_of};

use crate::symbols::Symbols;
use om_lexer::{FaultCode, SourceFault, SourceResult};
use om_parser_tree::Name;
use om_scope_rules::Meaning;
use om_scope_tree::{Shape, Variable};

/// S7 at a name.
pub fn check_declared(symbols: &Symbols, name: &Name) -> SourceResult<()>
    ensures { ChecksExactly result (undeclared_breaches symbols.now name.now) }
{
    let meaning = symbols.meaning_of(name.text.as_slice());
    let broken = is_undeclared(symbols, name.text.as_slice(), meaning);
    refuse_if(broken, FaultCode::Undeclared, name.span.start)
}

// Whether a name of this meaning is undeclared, or a function that is never defined.
fn is_undeclared(symbols: &Symbols, name: &[u8], meaning: Option<Meaning>) -> bool
    ensures { result ≡ is_undeclared symbols.now name.now meaning }
{
    let Some(meaning) = meaning else {
        return true;
    };
    matches!(meaning, Meaning::Function(_)) && symbols.definition_of(name).is_none()
}

/// Whether it is one `int`.
pub fn is_scalar(meaning: Option<Meaning>) -> bool
    ensures { result ≡ is_scalar meaning }
{
    matches!(meaning, Some(Meaning::Variable(_, Shape::Scalar)))
}

// Whether it is an array.
fn is_array(meaning: Option<Meaning>) -> bool
    ensures { result ≡ is_array meaning }
{
    matches!(meaning, Some(Meaning::Variable(_, Shape::Array)))
}

/// Whether it is `printf`.
pub fn is_printf(meaning: Option<Meaning>) -> bool
    ensures { result ≡ is_printf meaning }
{
    matches!(meaning, Some(Meaning::Printf))
}

/// Whether it is an array of which a `task` round the place would make a copy.
pub fn is_copied_array(symbols: &Symbols, name: &[u8]) -> bool
    ensures { result ≡ is_copied_array symbols.now name.now }
{
    is_array(symbols.meaning_of(name)) && symbols.is_copied(name)
}

/// S9 at a place.
pub fn misuse(at: u32) -> SourceFault
    ensures { result ≡ record { code = FaultCode.Misuse; at = at } }
{
    SourceFault {
        code: FaultCode::Misuse,
        at,
    }
}

/// The variable of a name that is used as a scalar: S7, S9, S13.
pub fn resolve_scalar(symbols: &Symbols, name: &Name) -> SourceResult<Variable>
    ensures checked { ChecksExactly result (scalar_breaches symbols.now name.now) }
    ensures resolved { Finds (λ found. found) result (variable_named symbols.now name.now) }
{
    check_declared(symbols, name)?;
    let meaning = symbols.meaning_of(name.text.as_slice());
    let variable = scalar_meant(meaning, name.span.start)?;
    check_is_listed(symbols, name)?;
    Ok(variable)
}

// The variable of a name of this meaning that is used as a scalar at a place: S9.
fn scalar_meant(meaning: Option<Meaning>, at: u32) -> SourceResult<Variable>
    ensures checked { ChecksExactly result (misused_scalar_breaches meaning at) }
    ensures resolved { Finds (λ found. found) result (variable_of meaning) }
{
    match meaning {
        Some(Meaning::Variable(variable, Shape::Scalar)) => Ok(variable),
        _ => Err(misuse(at)),
    }
}

// A variable that the constructs round the place have to list: S13.
fn check_is_listed(symbols: &Symbols, name: &Name) -> SourceResult<()>
    ensures { ChecksExactly result (unlisted_breaches symbols.now name.now) }
{
    let broken = symbols.is_unlisted(name.text.as_slice());
    refuse_if(broken, FaultCode::Unlisted, name.span.start)
}

/// The variable of a name that is used as an array: S7, S9, S13.
pub fn resolve_array(symbols: &Symbols, name: &Name) -> SourceResult<Variable>
    ensures checked { ChecksExactly result (array_breaches symbols.now name.now) }
    ensures resolved { Finds (λ found. found) result (variable_named symbols.now name.now) }
{
    check_declared(symbols, name)?;
    let text = name.text.as_slice();
    let variable = array_meant(
        symbols.meaning_of(text),
        symbols.is_copied(text),
        name.span.start,
    )?;
    check_is_listed(symbols, name)?;
    Ok(variable)
}

// The variable of a name of this meaning that is used as an array at a place, which a `task` would
// copy or not: S9.
fn array_meant(meaning: Option<Meaning>, is_copied: bool, at: u32) -> SourceResult<Variable>
    ensures checked { ChecksExactly result (misused_array_breaches meaning is_copied at) }
    ensures resolved { Finds (λ found. found) result (variable_of meaning) }
{
    if is_copied {
        return Err(misuse(at));
    }
    match meaning {
        Some(Meaning::Variable(variable, Shape::Array)) => Ok(variable),
        _ => Err(misuse(at)),
    }
}

/// The place of a called function among the definitions: S7, S9.
pub fn resolve_callee(
    symbols: &Symbols,
    for_value: bool,
    name: &Name,
    count: usize,
) -> SourceResult<usize>
    ensures checked { ChecksExactly result (call_breaches symbols.now for_value name.now count) }
    ensures resolved { Finds (λ found. found) result (callee_named symbols.now name.now) }
{
    check_called(symbols, for_value, name, count)?;
    match symbols.definition_of(name.text.as_slice()) {
        Some(place) => Ok(place),
        None => unreachable!(),
    }
}

// A name that is called with so many values: S7, S9.
fn check_called(symbols: &Symbols, for_value: bool, name: &Name, count: usize) -> SourceResult<()>
    ensures { ChecksExactly result (call_breaches symbols.now for_value name.now count) }
{
    check_declared(symbols, name)?;
    let meaning = symbols.meaning_of(name.text.as_slice());
    let broken = is_miscalled(for_value, name.text.as_slice(), count, meaning);
    refuse_if(broken, FaultCode::Misuse, name.span.start)
}

// Whether a call with so many values is wrong.
fn is_miscalled(for_value: bool, name: &[u8], count: usize, meaning: Option<Meaning>) -> bool
    ensures { result ≡ is_miscalled for_value name.now count meaning }
{
    match meaning {
        Some(Meaning::Function(signature)) => {
            name == b"main".as_slice()
                || signature.parameters != count
                || (for_value && !signature.returns)
        }
        _ => true,
    }
}

/// A refusal with this code at a byte, where a rule is broken.
pub fn refuse_if(broken: bool, code: FaultCode, at: u32) -> SourceResult<()>
    ensures kept { OnOk result (breach_if broken code at ≡ []) }
    ensures refused { IfErr result (λ fault. first_of (breach_if broken code at) ≡ Some fault) }
{
    if broken {
        return Err(SourceFault { code, at });
    }
    Ok(())
}
