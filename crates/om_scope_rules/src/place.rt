//! Where a part of a tree begins.

ghost use Rattle.std.specs.Prelude.{◌≡◌};
ghost use Rattle.om_parser_tree.specs.View.{view_expression, view_head, view_statement};
ghost use Rattle.om_scope_rules.specs.Places.{expression_first, expression_start, head_first, statement_first, statement_start};

use om_lexer::Span;
use om_parser_tree::{Expression, FunctionHead, ResultType, Statement};

/// The span of an expression's first token.
pub fn expression_first(expression: &Expression) -> Span
    ensures { result ≡ expression_first (view_expression expression.now) }
{
    match expression {
        Expression::Name(name) => name.span,
        Expression::Constant(number) => number.span,
        Expression::Text(text) => text.span,
        Expression::Paren {
            open_paren: left,
            ..
        } => *left,
        Expression::Index { name, .. } => name.span,
        Expression::Call { name, .. } => name.span,
        Expression::Prefix {
            operator_span: at,
            ..
        } => *at,
        Expression::Postfix { operand, .. } => expression_first(operand),
        Expression::Binary { left, .. } => expression_first(left),
        Expression::Conditional { condition, .. } => expression_first(condition),
        Expression::Assign { target, .. } => expression_first(target),
    }
}

/// The byte of an expression's first token.
pub fn expression_start(expression: &Expression) -> u32
    ensures { result ≡ expression_start (view_expression expression.now) }
{
    expression_first(expression).start
}

/// The span of a statement's first token.
pub fn statement_first(statement: &Statement) -> Span
    ensures { result ≡ statement_first (view_statement statement.now) }
{
    match statement {
        Statement::Declaration(declaration) => declaration.int,
        Statement::Block {
            open_brace: left,
            ..
        } => *left,
        Statement::Empty(semicolon) => *semicolon,
        Statement::Expression {
            value: expression,
            ..
        } => expression_first(expression),
        Statement::If { word: at, .. } => *at,
        Statement::IfElse { word: at, .. } => *at,
        Statement::While { word: at, .. } => *at,
        Statement::Do { word: at, .. } => *at,
        Statement::For { head, .. } => head.word,
        Statement::Return { word: at, .. } => *at,
        Statement::Break { word: at, .. } => *at,
        Statement::Continue { word: at, .. } => *at,
        Statement::Construct { directive, .. } => directive.hash,
        Statement::StandAlone(directive) => directive.hash,
        Statement::Sections { directive, .. } => directive.hash,
    }
}

/// The byte of a statement's first token.
pub fn statement_start(statement: &Statement) -> u32
    ensures { result ≡ statement_start (view_statement statement.now) }
{
    statement_first(statement).start
}

/// The span of a function's first token.
pub fn head_first<N>(head: &FunctionHead<N>) -> Span
    ensures { result ≡ head_first (view_head head.now) }
{
    match head.result {
        ResultType::Int(at) => at,
        ResultType::Void(at) => at,
    }
}
