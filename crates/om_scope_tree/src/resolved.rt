//! The resolved tree: every use has its variable, and no name need be looked up again.

use om_lexer::Span;
use om_parser_tree::{AssignOperator, BinaryOperator, PostfixOperator};
use om_pragma::{ReductionOperator, ScheduleKind, ValueClause};
use om_seq::Seq;

/// A variable of the program.
#[derive(Clone, Copy, PartialEq, Eq)]
pub enum Variable {
    /// The global of this number. Globals are numbered from 0 in the order of their declarations.
    Global(u32),
    /// The variable of a function that is declared, or copied, at this byte of the source.
    Local(u32),
}

/// Whether a variable is one `int` or an array of them (C17 6.7.6.2).
#[derive(Clone, Copy)]
pub enum Shape {
    Scalar,
    Array,
}

/// A global variable (C17 6.9.2).
#[derive(Drop)]
pub struct GlobalVariable {
    /// Its letters, digits and `_`.
    pub name: Seq<u8>,
    /// The byte of the source where its declaration names it.
    pub at: u32,
    /// How many elements it has, where it is an array.
    pub length: Option<u32>,
    /// What it holds at the start: its initializer, or 0 where it has none.
    pub initial: i32,
}

/// A variable of a function: a parameter, a declared one, or a copy that a construct makes.
#[derive(Drop)]
pub struct LocalVariable {
    /// Its letters, digits and `_`.
    pub name: Seq<u8>,
    /// The byte of the source where its declaration, or the clause that asks for the copy, names it.
    pub at: u32,
}

/// An operator before its operand (C17 6.5.3.3).
#[derive(Clone, Copy, PartialEq, Eq)]
pub enum UnaryOperator {
    /// `+`, whose value is that of its operand.
    Plus,
    /// `-`
    Negate,
    /// `!`
    Not,
}

/// An expression (C17 6.5). Its parentheses are gone.
#[derive(Drop)]
pub enum ResolvedExpression {
    Constant(i32),
    /// The value of a variable.
    Variable(Variable),
    /// The value of the element of an array at an index.
    Element {
        array: Variable,
        index: Box<ResolvedExpression>,
    },
    /// A call (C17 6.5.2.2).
    Call {
        /// The number of the function that is called.
        function: usize,
        values: Vec<ResolvedExpression>,
    },
    /// `omp_get_thread_num()` (OpenMP API 5.2, section 18.2.4).
    ThreadNumber,
    /// `omp_get_num_threads()` (OpenMP API 5.2, section 18.2.2).
    TeamSize,
    /// A call of `printf`.
    Print {
        format: Seq<u8>,
        /// What it writes, one for each `%d` of the format.
        values: Vec<ResolvedExpression>,
    },
    Unary {
        operator: UnaryOperator,
        operand: Box<ResolvedExpression>,
    },
    Binary {
        left: Box<ResolvedExpression>,
        operator: BinaryOperator,
        right: Box<ResolvedExpression>,
    },
    /// `c ? a : b` (C17 6.5.15).
    Conditional {
        condition: Box<ResolvedExpression>,
        /// The value where the condition holds.
        value: Box<ResolvedExpression>,
        /// The value where it doesn't.
        other: Box<ResolvedExpression>,
    },
    /// An assignment to a variable (C17 6.5.16). `++x` is `x += 1` (C17 6.5.3.1).
    Assign {
        variable: Variable,
        operator: AssignOperator,
        value: Box<ResolvedExpression>,
    },
    /// An assignment to the element of an array at an index.
    AssignElement {
        array: Variable,
        index: Box<ResolvedExpression>,
        operator: AssignOperator,
        value: Box<ResolvedExpression>,
    },
    /// `x++` or `x--` (C17 6.5.2.4).
    Postfix {
        variable: Variable,
        operator: PostfixOperator,
    },
    /// The same of the element of an array at an index.
    PostfixElement {
        array: Variable,
        index: Box<ResolvedExpression>,
        operator: PostfixOperator,
    },
}

/// A declared variable of a function (C17 6.7).
#[derive(Drop)]
pub struct ResolvedDeclarator {
    pub variable: LocalVariable,
    /// How many elements it has, where it is an array.
    pub length: Option<u32>,
    /// What it begins as; without it, it is unset.
    pub initial: Option<ResolvedExpression>,
}

/// How the copy of a variable begins, and what becomes of it (OpenMP API 5.2, sections 5.4 and 5.5).
#[derive(Clone, Copy, PartialEq, Eq)]
pub enum CopyKind {
    /// It begins unset.
    Private,
    /// It begins with the original's value.
    Firstprivate,
    /// It begins with the operator's identity, and is combined into the original.
    Reduction(ReductionOperator),
}

/// What a clause says, in the order of the text: one of these for each listed variable.
#[derive(Drop)]
pub enum ResolvedClause {
    /// The value of `num_threads` or `filter`.
    Value {
        clause: ValueClause,
        value: ResolvedExpression,
    },
    /// This variable is shared.
    Shared(Variable),
    /// Inside of the construct the copy of this variable is meant.
    Copied {
        kind: CopyKind,
        original: Variable,
        copy: LocalVariable,
    },
}

/// How a region takes a variable from outside that none of its clauses copies.
#[derive(Clone, Copy, PartialEq, Eq)]
pub enum Taking {
    /// Inside and outside it is one variable.
    Shared,
    /// Inside it is a copy, which begins with its value (OpenMP API 5.2, section 5.1.1).
    Firstprivate,
}

/// A variable of the function that a region uses and that is declared outside of it.
#[derive(Clone, Copy)]
pub struct Capture {
    /// Where the variable is declared: see [`Variable::Local`].
    pub variable: u32,
    pub taking: Taking,
}

/// What gives the iterations of a loop to threads (OpenMP API 5.2, section 11.5.3).
#[derive(Clone, Copy)]
pub struct ResolvedSchedule {
    pub kind: ScheduleKind,
    /// How many iterations a chunk has, at least 1, where a clause says so.
    pub chunk: Option<u32>,
}

/// A loop in canonical form (OpenMP API 5.2, section 4.4.1).
#[derive(Drop)]
pub struct ResolvedLoop {
    /// The span of its `for`.
    pub at: Span,
    /// The copy of the loop's variable that each iteration has.
    pub variable: LocalVariable,
    /// Its first value.
    pub from: ResolvedExpression,
    /// `<`, `<=`, `>` or `>=`; `!=` is unsupported.
    pub comparison: BinaryOperator,
    /// What it is compared with.
    pub to: ResolvedExpression,
    /// What is added to it: above 0 where it is compared by `<` or `<=`, else below 0.
    pub step: i32,
    pub schedule: ResolvedSchedule,
}

/// What a `for` begins with (C17 6.8.5.3).
#[derive(Drop)]
pub enum ResolvedStart {
    Nothing,
    Expression(ResolvedExpression),
    Declaration(Vec<ResolvedDeclarator>),
}

/// What stands in the parentheses of a `for` (C17 6.8.5.3).
#[derive(Drop)]
pub struct ResolvedHead {
    pub start: ResolvedStart,
    /// What is asked before each turn; without it, each turn is made.
    pub condition: Option<ResolvedExpression>,
    /// What is done behind each turn.
    pub step: Option<ResolvedExpression>,
}

/// A construct that has a body of its own in the code.
#[derive(Clone, Copy)]
pub enum RegionKind {
    /// `parallel`, whose body each thread of a team runs.
    Parallel,
    /// `task`, whose body a task runs.
    Task,
}

/// A construct that makes no team and no task, and is for no loop.
#[derive(Drop)]
pub enum ConstructKind {
    /// `single`
    Single {
        nowait: bool,
    },
    /// `masked`, or `master`.
    Masked,
    /// `critical`
    Critical {
        /// Its letters, digits and `_`, where it has a name.
        name: Option<Seq<u8>>,
    },
    /// `atomic read` or `atomic write`, whose statement is an assignment.
    Atomic {
        access: AtomicAccess,
    },
    /// `taskgroup`
    Taskgroup,
}

/// What the assignment of an `atomic` does in one (OpenMP API 5.2, section 15.8.4).
#[derive(Clone, Copy)]
pub enum AtomicAccess {
    /// `read`: it loads the variable on its right.
    Read,
    /// `write`: it stores into the variable on its left.
    Write,
}

/// The operator of an atomic update.
#[derive(Clone, Copy, PartialEq, Eq)]
pub enum UpdateOperator {
    /// `+`
    Add,
    /// `-`
    Subtract,
    /// `*`
    Multiply,
    /// `/`
    Divide,
}

/// On which side of its operator an atomic update has the old value of its target.
#[derive(Clone, Copy, PartialEq, Eq)]
pub enum Side {
    /// `x = x op e`, and so `x op= e`, `x++` and its like.
    Left,
    /// `x = e op x`
    Right,
}

/// The statement of an `atomic` that updates (OpenMP API 5.2, section 15.8.4).
#[derive(Drop)]
pub struct ResolvedUpdate {
    /// The span of the first token of the statement.
    pub at: Span,
    /// The variable that is updated, or the array whose element is.
    pub variable: Variable,
    /// Which element of an array is updated.
    pub index: Option<ResolvedExpression>,
    pub operator: UpdateOperator,
    /// Where the target stands.
    pub side: Side,
    /// What stands on the other side: 1 in `x++` and its like. The target does not stand in it.
    pub operand: ResolvedExpression,
}

/// A directive that stands alone.
#[derive(Drop)]
pub enum StandAlone {
    Barrier,
    Taskwait,
    Taskyield,
    /// `flush`, and what it lists.
    Flush(Seq<Variable>),
}

/// A part of `sections` (OpenMP API 5.2, section 11.3): one statement at least.
#[derive(Drop)]
#[cycle(statement)]
pub struct ResolvedPart {
    pub items: Vec<ResolvedStatement>,
}

/// A statement (C17 6.8). `at` is the span of its first token. What is large is in a box, so that a
/// short statement takes little memory.
#[derive(Drop)]
#[cycle(statement)]
pub enum ResolvedStatement {
    Declaration {
        at: Span,
        declarators: Vec<ResolvedDeclarator>,
    },
    Block {
        at: Span,
        items: Vec<ResolvedStatement>,
    },
    Empty(Span),
    Expression {
        at: Span,
        value: ResolvedExpression,
    },
    If {
        at: Span,
        condition: ResolvedExpression,
        then: Box<ResolvedStatement>,
    },
    IfElse {
        at: Span,
        condition: ResolvedExpression,
        /// The statement where the condition holds.
        then: Box<ResolvedStatement>,
        /// The statement where it doesn't.
        other: Box<ResolvedStatement>,
    },
    While {
        at: Span,
        condition: ResolvedExpression,
        body: Box<ResolvedStatement>,
    },
    Do {
        at: Span,
        body: Box<ResolvedStatement>,
        condition: ResolvedExpression,
    },
    For {
        at: Span,
        head: Box<ResolvedHead>,
        body: Box<ResolvedStatement>,
    },
    Return {
        at: Span,
        value: Option<ResolvedExpression>,
    },
    Break(Span),
    Continue(Span),
    /// `parallel` or `task`
    Region {
        at: Span,
        kind: RegionKind,
        clauses: Vec<ResolvedClause>,
        /// What it takes from outside.
        captures: Seq<Capture>,
        body: Box<ResolvedStatement>,
    },
    /// `for`
    Loop {
        at: Span,
        clauses: Vec<ResolvedClause>,
        nowait: bool,
        repeated: Box<ResolvedLoop>,
        /// What the loop repeats.
        body: Box<ResolvedStatement>,
    },
    /// `sections`
    Sections {
        at: Span,
        clauses: Vec<ResolvedClause>,
        nowait: bool,
        parts: Vec<ResolvedPart>,
    },
    Construct {
        at: Span,
        kind: ConstructKind,
        clauses: Vec<ResolvedClause>,
        body: Box<ResolvedStatement>,
    },
    /// `atomic` that updates, with its statement.
    Update {
        at: Span,
        update: Box<ResolvedUpdate>,
    },
    StandAlone {
        at: Span,
        directive: StandAlone,
    },
}

/// A function (C17 6.9.1).
#[derive(Drop)]
pub struct ResolvedFunction {
    pub name: Seq<u8>,
    /// The byte of the source where its name stands.
    pub name_at: u32,
    /// The span of the first token of its definition.
    pub first: Span,
    /// Whether it returns an `int`; else nothing.
    pub returns: bool,
    pub parameters: Seq<LocalVariable>,
    pub body: Vec<ResolvedStatement>,
    /// The line of the brace that closes its body.
    pub closing_line: u32,
}

/// A whole source, resolved.
pub struct Resolved {
    /// The globals, in the order of their numbers.
    pub globals: Seq<GlobalVariable>,
    /// The functions, in the order of their definitions, which is that of their numbers.
    pub functions: Vec<ResolvedFunction>,
}

// By hand: other crates call this, and do not prove anew how each part is dropped.
impl Drop for Resolved {
    fn drop(self) {
        let Resolved { globals, functions } = self;
        drop(globals);
        drop(functions);
    }
}
