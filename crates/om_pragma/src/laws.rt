//! Laws of directives and of their refusals, over the definitions alone.

ghost use Rattle.std.specs.Prelude.{◌≡◌, ℕ, ◌≤◌, List, length, None, Result, Some};
ghost use Rattle.om_lexer.specs.declared.fault.FaultCode.{FaultCode};
ghost use Rattle.om_lexer.specs.declared.fault.SourceFault.{SourceFault};
ghost use Rattle.om_lexer.specs.declared.token.Token.{Token};
ghost use Rattle.om_pragma.specs.declared.tree.Directive.{Directive};
ghost use Rattle.om_pragma.specs.Expressions.{expressions, IsClosed};
ghost use Rattle.om_pragma.specs.Reading.{directive_at, expression_before};
ghost use Rattle.om_pragma.specs.Refusals.{ClausesStand, EndsOnce, IsAnswer, IsWordFault};
ghost use Rattle.om_pragma.specs.Spelling.{directive_spelling};
ghost use Rattle.om_pragma.specs.Table.{IsDirective, IsDirectiveOf};
ghost use Rattle.om_pragma.specs.Values.{StandsAsValue, IsFirstValue};

/// Two directives that have the same tokens are one.
pub fn one_directive()
    ensures { (d other : Directive (List Token)) → IsDirective IsClosed d →
        IsDirective IsClosed other →
        directive_spelling (λ e. e) d ≡ directive_spelling (λ e. e) other → d ≡ other }
{}

/// A directive has one expression at most.
pub fn one_expression()
    ensures { (d : Directive (List Token)) → IsDirective IsClosed d → length (expressions d) ≤ 1 }
{}

/// Each clause of a directive stands where a clause is expected.
pub fn clauses_stand()
    ensures { ClausesStand }
{}

/// S5 and S6 stand at one place at most, and at none in a directive.
pub fn one_fault()
    ensures only { (tokens : List Token) (code other : FaultCode) (at place : ℕ) →
        IsWordFault tokens code at → IsWordFault tokens other place → (code ≡ other)
        × (at ≡ place) }
    ensures in_no_directive { (tokens : List Token) (code : FaultCode) (at : ℕ)
        (d : Directive (List Token)) → IsWordFault tokens code at → ¬ IsDirectiveOf tokens d }
{}

/// Tokens are a directive or none, and that for one reason at one place. Where a line's end stands
/// last, reading from the left gives it: so a reader of whole sources may read lines in this way.
pub fn one_answer()
    ensures only { (tokens : List Token)
        (answer other : Result (Directive (List Token)) SourceFault) →
        IsAnswer tokens answer → IsAnswer tokens other → answer ≡ other }
    ensures is_read { (tokens : List Token) → EndsOnce tokens →
        IsAnswer tokens (directive_at tokens) }
{}

/// Reading tokens from the left gives the first expression that stands in the parentheses of a
/// clause and ends before a place, or none where none does.
pub fn first_value()
    ensures only { (tokens inside : List Token) (place : ℕ) →
        expression_before place tokens ≡ Some inside → IsFirstValue tokens place inside }
    ensures found { (tokens inside : List Token) (place : ℕ) → IsFirstValue tokens place inside →
        expression_before place tokens ≡ Some inside }
    ensures absent { (tokens inside : List Token) (place : ℕ) →
        expression_before place tokens ≡ None → ¬ StandsAsValue tokens place inside }
{}
