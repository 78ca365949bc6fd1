//! Canonical loops (OpenMP API 5.2, section 4.4.1), of the forms that are supported, and how each goes
//! through its values. That section also allows `!=`, the bound on the left of its comparison, and a step
//! that is no constant.

ghost use Rattle.std.specs.Prelude.{◌≡◌, ◌≤◌, option_map};
ghost use Rattle.om_parser_tree.specs.View.{view_for_head, view_for_start, view_statement};
ghost use Rattle.om_scope_rules.specs.LoopViews.{StartsAs, begun_by_declarators, begun_by_variable, tree_of};
ghost use Rattle.om_scope_rules.specs.LoopViews.{view_bound, view_loop};
ghost use Rattle.om_scope_rules.specs.Loops as loops;

use om_lexer::Span;
use om_parser_tree::{
    ArrayLength, AssignOperator, BinaryOperator, Declarator, Expression, ForHead, ForStart,
    Initializer, Name, PostfixOperator, PrefixOperator, Statement,
};

/// Whether a loop's variable grows or shrinks.
#[derive(Clone, Copy)]
pub enum Direction {
    Up,
    Down,
}

/// What a loop adds to its variable.
#[derive(Clone, Copy)]
pub struct Step {
    pub direction: Direction,
    /// Above 0 where the variable grows, else below 0.
    pub value: i32,
}

/// What a loop begins with.
#[derive(Clone, Copy)]
pub struct LoopStart<'a> {
    pub variable: &'a Name,
    /// Whether the loop declares its variable.
    pub is_declared: bool,
    /// The variable's first value.
    pub from: &'a Expression,
}

// Where a loop ends.
#[derive(Clone, Copy)]
struct Bound<'a> {
    comparison: BinaryOperator,
    direction: Direction,
    to: &'a Expression,
}

/// A loop in canonical form.
#[derive(Clone, Copy)]
pub struct Loop<'a> {
    /// The word `for`.
    pub at: Span,
    pub start: LoopStart<'a>,
    /// `<`, `<=`, `>` or `>=`; `!=` is unsupported.
    pub comparison: BinaryOperator,
    /// The bound that its variable is compared with.
    pub to: &'a Expression,
    /// What is added to it: above 0 where it grows, else below 0.
    pub step: i32,
}

// The name that an expression is.
fn name_in(expression: &Expression) -> Option<&Name>
    ensures { option_map (λ name. name.now) result ≡ loops.name_in (tree_of expression.now) }
{
    let Expression::Name(name) = expression else {
        return None;
    };
    Some(name)
}

// Whether an expression is this name.
fn is_named(expression: &Expression, name: &[u8]) -> bool
    ensures { result ≡ loops.is_named (tree_of expression.now) name.now }
{
    let Expression::Name(found) = expression else {
        return false;
    };
    found.text.as_slice() == name
}

// So much, with its sign.
fn signed(direction: Direction, value: u32) -> i32
    requires { value ≤ 2147483647 }
    ensures { result ≡ loops.signed direction value }
{
    match direction {
        Direction::Up => value as i32,
        Direction::Down => -(value as i32),
    }
}

// A step of 1.
fn one_step(direction: Direction) -> Step
    ensures { result ≡ loops.one_step direction }
{
    let value = signed(direction, 1);
    Step { direction, value }
}

// A step of so much: 1 or more.
fn step_of(direction: Direction, value: u32) -> Option<Step>
    ensures { result ≡ loops.step_of direction value }
{
    if 0 < value && value <= 2147483647 {
        let value = signed(direction, value);
        Some(Step { direction, value })
    } else {
        None
    }
}

// The step by an expression, which is a constant of 1 or more.
fn stride_in(direction: Direction, expression: &Expression) -> Option<Step>
    ensures { result ≡ loops.stride_in direction (tree_of expression.now) }
{
    let Expression::Constant(number) = expression else {
        return None;
    };
    step_of(direction, number.value)
}

// What `target = value` begins a loop with.
fn set_start<'a>(
    operator: AssignOperator,
    target: &'a Expression,
    value: &'a Expression,
) -> Option<LoopStart<'a>>
    ensures { StartsAs result (loops.set_start operator (tree_of target.now) (tree_of value.now)) }
{
    let AssignOperator::Set = operator else {
        return None;
    };
    let variable = name_in(target)?;
    Some(LoopStart {
        variable,
        is_declared: false,
        from: value,
    })
}

// What an expression begins a loop with.
fn assigned_start(expression: &Expression) -> Option<LoopStart<'_>>
    ensures { StartsAs result (loops.assigned_start (tree_of expression.now)) }
{
    let Expression::Assign {
        target,
        operator,
        value,
        ..
    } = expression
    else {
        return None;
    };
    set_start(*operator, target, value)
}

// What a variable begins a loop with.
fn initialized_start<'a>(
    variable: &'a Name,
    array: &Option<ArrayLength>,
    initializer: &'a Option<Initializer<Expression>>,
) -> Option<LoopStart<'a>>
    ensures { StartsAs result (begun_by_variable variable.now array.now initializer.now) }
{
    let None = array else {
        return None;
    };
    let initializer = initializer.as_ref()?;
    Some(LoopStart {
        variable,
        is_declared: true,
        from: &initializer.value,
    })
}

// What a declaration begins a loop with.
fn declared_start<'a>(
    first: &'a Declarator<Expression>,
    rest: &[(Span, Declarator<Expression>)],
) -> Option<LoopStart<'a>>
    ensures { StartsAs result (begun_by_declarators first.now rest.now) }
{
    let [] = rest else {
        return None;
    };
    initialized_start(&first.name, &first.array, &first.initializer)
}

// What a `for` begins its loop with.
fn start_of(start: &ForStart) -> Option<LoopStart<'_>>
    ensures { StartsAs result (loops.start_of (view_for_start start.now)) }
{
    match start {
        ForStart::Nothing(_) => None,
        ForStart::Expression {
            value: expression,
            ..
        } => assigned_start(expression),
        ForStart::Declaration(declaration) => {
            declared_start(&declaration.first, declaration.rest.as_slice())
        }
    }
}

// Which way a comparison lets a variable go.
fn comparison_direction(operator: BinaryOperator) -> Option<Direction>
    ensures { result ≡ loops.comparison_direction operator }
{
    Some(match operator {
        BinaryOperator::Less | BinaryOperator::LessEqual => Direction::Up,
        BinaryOperator::Greater | BinaryOperator::GreaterEqual => Direction::Down,
        _ => return None,
    })
}

// The bound that a comparison of a variable has.
fn compared<'a>(operator: BinaryOperator, to: &'a Expression) -> Option<Bound<'a>>
    ensures { option_map view_bound result ≡ loops.compared operator (tree_of to.now) }
{
    let direction = comparison_direction(operator)?;
    Some(Bound {
        comparison: operator,
        direction,
        to,
    })
}

// The bound that a condition gives a variable.
fn bound_of<'a>(condition: &'a Expression, name: &[u8]) -> Option<Bound<'a>>
    ensures { option_map view_bound result ≡ loops.bound_of (tree_of condition.now) name.now }
{
    let Expression::Binary {
        left,
        operator,
        right,
        ..
    } = condition
    else {
        return None;
    };
    if is_named(left, name) {
        compared(*operator, right)
    } else {
        None
    }
}

// The step by `++` or `--` before the variable.
fn prefix_step(operator: PrefixOperator) -> Option<Step>
    ensures { result ≡ loops.prefix_step operator }
{
    let direction = match operator {
        PrefixOperator::Increment => Direction::Up,
        PrefixOperator::Decrement => Direction::Down,
        _ => return None,
    };
    Some(one_step(direction))
}

// The step by `++` or `--` behind it.
fn postfix_step(operator: PostfixOperator) -> Step
    ensures { result ≡ loops.postfix_step operator }
{
    match operator {
        PostfixOperator::Increment => one_step(Direction::Up),
        PostfixOperator::Decrement => one_step(Direction::Down),
    }
}

// The step by a sum with the variable, `i + c` or `c + i`.
fn added_step(left: &Expression, right: &Expression, name: &[u8]) -> Option<Step>
    ensures { result ≡ loops.added_step (tree_of left.now) (tree_of right.now) name.now }
{
    if is_named(left, name) {
        stride_in(Direction::Up, right)
    } else if is_named(right, name) {
        stride_in(Direction::Up, left)
    } else {
        None
    }
}

// The step by `i - c`.
fn subtracted_step(left: &Expression, right: &Expression, name: &[u8]) -> Option<Step>
    ensures { result ≡ loops.subtracted_step (tree_of left.now) (tree_of right.now) name.now }
{
    if is_named(left, name) {
        stride_in(Direction::Down, right)
    } else {
        None
    }
}

// The step by `i + c`, `c + i` or `i - c`.
fn sum_step(
    operator: BinaryOperator,
    left: &Expression,
    right: &Expression,
    name: &[u8],
) -> Option<Step>
    ensures { result ≡ loops.sum_step operator (tree_of left.now) (tree_of right.now) name.now }
{
    match operator {
        BinaryOperator::Add => added_step(left, right, name),
        BinaryOperator::Subtract => subtracted_step(left, right, name),
        _ => None,
    }
}

// The step to a value.
fn value_step(value: &Expression, name: &[u8]) -> Option<Step>
    ensures { result ≡ loops.value_step (tree_of value.now) name.now }
{
    let Expression::Binary {
        left,
        operator,
        right,
        ..
    } = value
    else {
        return None;
    };
    sum_step(*operator, left, right, name)
}

// The step by an assignment to the variable.
fn assigned_step(operator: AssignOperator, value: &Expression, name: &[u8]) -> Option<Step>
    ensures { result ≡ loops.assigned_step operator (tree_of value.now) name.now }
{
    match operator {
        AssignOperator::Set => value_step(value, name),
        AssignOperator::Add => stride_in(Direction::Up, value),
        AssignOperator::Subtract => stride_in(Direction::Down, value),
        _ => None,
    }
}

// A loop's step.
fn step_in(step: &Expression, name: &[u8]) -> Option<Step>
    ensures { result ≡ loops.step_in (tree_of step.now) name.now }
{
    let (variable, stepped) = match step {
        Expression::Prefix {
            operator,
            operand,
            ..
        } => (operand, prefix_step(*operator)),
        Expression::Postfix {
            operand,
            operator,
            ..
        } => (operand, Some(postfix_step(*operator))),
        Expression::Assign {
            target,
            operator,
            value,
            ..
        } => (target, assigned_step(*operator, value, name)),
        _ => return None,
    };
    if is_named(variable, name) {
        stepped
    } else {
        None
    }
}

// Whether a variable grows.
fn is_up(direction: Direction) -> bool
    ensures { result ≡ loops.is_up direction }
{
    matches!(direction, Direction::Up)
}

// Whether two go the same way.
fn same_direction(one: Direction, other: Direction) -> bool
    ensures { result ≡ loops.same_direction one other }
{
    if is_up(one) {
        is_up(other)
    } else {
        !is_up(other)
    }
}

// The loop of a `for`, where it is canonical.
fn loop_of(head: &ForHead) -> Option<Loop<'_>>
    ensures { option_map view_loop result ≡ loops.loop_of (view_for_head head.now) }
{
    let start = start_of(&head.start)?;
    let condition = head.condition.as_ref()?;
    let step = head.step.as_ref()?;
    let name = start.variable.text.as_slice();
    let bound = bound_of(condition, name)?;
    let step = step_in(step, name)?;
    if same_direction(bound.direction, step.direction) {
        Some(Loop {
            at: head.word,
            start,
            comparison: bound.comparison,
            to: bound.to,
            step: step.value,
        })
    } else {
        None
    }
}

/// The loop that a statement is, where it is a canonical one (OpenMP API 5.2, section 4.4.1): its
/// variable, bound and step; nothing where it is another statement.
pub fn loop_in(statement: &Statement) -> Option<Loop<'_>>
    ensures { option_map view_loop result ≡ loops.loop_in (view_statement statement.now) }
{
    let Statement::For { head, .. } = statement else {
        return None;
    };
    loop_of(head)
}
