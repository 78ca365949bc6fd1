//! The tree of a source, and how large that of an accepted one is at most. It keeps the span of each of its
//! tokens.

use om_lexer::Span;
use om_pragma::{Directive, Name, Number};
use om_seq::Seq;

/// How deep parentheses and brackets may nest in an expression, with those of its statement or clause.
pub const NESTING_LIMIT: usize = 128;

/// How many tokens a whole expression may have.
pub const TOKEN_LIMIT: usize = 4096;

/// How deep blocks may nest.
pub const BLOCK_LIMIT: usize = 128;

/// How many statements may stand round a statement, the function's block among them.
pub const STATEMENT_LIMIT: usize = 1024;

/// A string literal where it stands.
#[derive(Drop)]
pub struct Text {
    /// The characters that it stands for.
    pub value: Seq<u8>,
    pub span: Span,
}

/// An operator before its operand (C17 6.5.3).
#[derive(Clone, Copy, PartialEq, Eq)]
pub enum PrefixOperator {
    /// `+`
    Plus,
    /// `-`
    Minus,
    /// `!`
    Not,
    /// `++`
    Increment,
    /// `--`
    Decrement,
}

/// An operator behind its operand (C17 6.5.2.4).
#[derive(Clone, Copy, PartialEq, Eq)]
pub enum PostfixOperator {
    /// `++`
    Increment,
    /// `--`
    Decrement,
}

/// An operator between two operands (C17 6.5.5 to 6.5.14).
#[derive(Clone, Copy, PartialEq, Eq)]
pub enum BinaryOperator {
    /// `||`
    Or,
    /// `&&`
    And,
    /// `==`
    Equal,
    /// `!=`
    NotEqual,
    /// `<`
    Less,
    /// `>`
    Greater,
    /// `<=`
    LessEqual,
    /// `>=`
    GreaterEqual,
    /// `+`
    Add,
    /// `-`
    Subtract,
    /// `*`
    Multiply,
    /// `/`
    Divide,
    /// `%`
    Remainder,
}

/// An operator that assigns (C17 6.5.16).
#[derive(Clone, Copy, PartialEq, Eq)]
pub enum AssignOperator {
    /// `=`
    Set,
    /// `+=`
    Add,
    /// `-=`
    Subtract,
    /// `*=`
    Multiply,
    /// `/=`
    Divide,
    /// `%=`
    Remainder,
}

/// An argument of a call, and before it the span of its comma, which the first lacks.
pub type Argument = (Option<Span>, Expression);

/// An expression (C17 6.5). The spans are those of the tokens round its parts.
#[derive(Drop)]
pub enum Expression {
    Name(Name),
    Constant(Number),
    /// The format of `printf`, its first argument.
    Text(Text),
    /// An expression in parentheses.
    Paren {
        open_paren: Span,
        inner: Box<Expression>,
        close_paren: Span,
    },
    /// An element of an array: its name, and its index in brackets.
    Index {
        name: Name,
        open_bracket: Span,
        index: Box<Expression>,
        close_bracket: Span,
    },
    /// A call: the function's name, and the arguments in parentheses.
    Call {
        name: Name,
        open_paren: Span,
        arguments: Vec<Argument>,
        close_paren: Span,
    },
    Prefix {
        operator: PrefixOperator,
        operator_span: Span,
        operand: Box<Expression>,
    },
    Postfix {
        operand: Box<Expression>,
        operator: PostfixOperator,
        operator_span: Span,
    },
    Binary {
        left: Box<Expression>,
        operator: BinaryOperator,
        operator_span: Span,
        right: Box<Expression>,
    },
    Conditional {
        condition: Box<Expression>,
        question: Span,
        /// The value where the condition holds.
        value: Box<Expression>,
        colon: Span,
        /// The value where it doesn't.
        other: Box<Expression>,
    },
    Assign {
        target: Box<Expression>,
        operator: AssignOperator,
        operator_span: Span,
        value: Box<Expression>,
    },
}

/// The length of an array in its brackets.
#[derive(Clone, Copy)]
pub struct ArrayLength {
    pub open_bracket: Span,
    pub size: Number,
    pub close_bracket: Span,
}

/// A number, perhaps behind a minus: what a global may hold at the start (C17 6.6).
#[derive(Clone, Copy)]
pub struct SignedNumber {
    /// The span of the minus.
    pub minus: Option<Span>,
    pub number: Number,
}

/// What a declared variable holds at the start (C17 6.7.9): an `I`.
#[derive(Drop)]
pub struct Initializer<I> {
    pub equal: Span,
    pub value: I,
}

/// A declared variable (C17 6.7.6): of an array its length, else perhaps an initializer.
#[derive(Drop)]
pub struct Declarator<I> {
    pub name: Name,
    pub array: Option<ArrayLength>,
    pub initializer: Option<Initializer<I>>,
}

/// A declaration of `int` variables (C17 6.7). They start with an [`Expression`] in a block or a
/// `for`, and with a [`SignedNumber`] at file scope.
#[derive(Drop)]
pub struct Declaration<I> {
    /// The span of `int`.
    pub int: Span,
    pub first: Declarator<I>,
    /// Each further declarator, behind the span of its comma.
    pub rest: Vec<(Span, Declarator<I>)>,
    pub semicolon: Span,
}

/// An expression in the parentheses behind `if` or `while`.
#[derive(Drop)]
pub struct Condition {
    pub open_paren: Span,
    pub value: Expression,
    pub close_paren: Span,
}

/// What a `for` begins with, up to its first semicolon (C17 6.8.5.3).
#[derive(Drop)]
pub enum ForStart {
    /// Nothing but the semicolon.
    Nothing(Span),
    Expression { value: Expression, semicolon: Span },
    Declaration(Declaration<Expression>),
}

/// A `for` up to its closing parenthesis (C17 6.8.5.3).
#[derive(Drop)]
pub struct ForHead {
    /// The span of `for`.
    pub word: Span,
    pub open_paren: Span,
    pub start: ForStart,
    pub condition: Option<Expression>,
    pub semicolon: Span,
    pub step: Option<Expression>,
    pub close_paren: Span,
}

/// A part of `sections` (OpenMP API 5.2, section 11.3).
#[derive(Drop)]
#[cycle(statement)]
pub struct Part {
    /// The `section` that begins it, which the first part may lack.
    pub section: Option<Box<Directive<Expression>>>,
    /// One item at least, of which none is a declaration.
    pub items: Vec<Statement>,
}

/// A statement or another item of a block (C17 6.8), each word and mark by its span. What is large
/// is in a box, so that a short statement takes little memory.
#[derive(Drop)]
#[cycle(statement)]
pub enum Statement {
    /// A declaration, which stands only directly in a block.
    Declaration(Box<Declaration<Expression>>),
    Block {
        open_brace: Span,
        items: Vec<Statement>,
        close_brace: Span,
    },
    /// A semicolon alone.
    Empty(Span),
    Expression {
        value: Box<Expression>,
        semicolon: Span,
    },
    /// An `if` without `else`.
    If {
        word: Span,
        condition: Box<Condition>,
        body: Box<Statement>,
    },
    IfElse {
        word: Span,
        condition: Box<Condition>,
        /// The statement where the condition holds.
        body: Box<Statement>,
        else_word: Span,
        /// The statement where it doesn't.
        else_body: Box<Statement>,
    },
    While {
        word: Span,
        condition: Box<Condition>,
        body: Box<Statement>,
    },
    Do {
        word: Span,
        body: Box<Statement>,
        while_word: Span,
        condition: Box<Condition>,
        semicolon: Span,
    },
    For {
        head: Box<ForHead>,
        body: Box<Statement>,
    },
    Return {
        word: Span,
        value: Option<Box<Expression>>,
        semicolon: Span,
    },
    Break {
        word: Span,
        semicolon: Span,
    },
    Continue {
        word: Span,
        semicolon: Span,
    },
    /// A directive and the statement that it is for.
    Construct {
        directive: Box<Directive<Expression>>,
        body: Box<Statement>,
    },
    /// A directive that is for no statement.
    StandAlone(Box<Directive<Expression>>),
    /// `sections` or `parallel sections`, and in braces its parts, one at least.
    Sections {
        directive: Box<Directive<Expression>>,
        open_brace: Span,
        parts: Vec<Part>,
        close_brace: Span,
    },
}

/// The block of a function (C17 6.8.2).
#[derive(Drop)]
pub struct Block {
    pub open_brace: Span,
    pub items: Vec<Statement>,
    pub close_brace: Span,
}

/// What a function returns.
#[derive(Clone, Copy)]
pub enum ResultType {
    Int(Span),
    Void(Span),
}

/// A parameter (C17 6.7.6.3), whose name is an `N`.
#[derive(Drop)]
pub struct Parameter<N> {
    /// The span of `int`.
    pub int: Span,
    pub name: N,
}

/// What stands in the parentheses of a function's declaration.
#[derive(Drop)]
pub enum Parameters<N> {
    Nothing,
    Void(Span),
    Listed {
        first: Parameter<N>,
        /// Each further one behind the span of its comma.
        rest: Vec<(Span, Parameter<N>)>,
    },
}

/// A function's result, name and parameters (C17 6.7.6.3). In a definition each parameter has a
/// [`Name`], and in a prototype perhaps one.
#[derive(Drop)]
pub struct FunctionHead<N> {
    pub result: ResultType,
    pub name: Name,
    pub open_paren: Span,
    pub parameters: Parameters<N>,
    pub close_paren: Span,
}

/// The definition of a function, which names its parameters (C17 6.9.1).
#[derive(Drop)]
pub struct Function {
    pub head: FunctionHead<Name>,
    pub body: Block,
}

/// What stands at file scope (C17 6.9).
#[derive(Drop)]
pub enum Item {
    Declaration(Declaration<SignedNumber>),
    /// A function that is declared.
    Prototype {
        head: FunctionHead<Option<Name>>,
        semicolon: Span,
    },
    Function(Function),
}

/// A translation unit (C17 6.9): the whole source.
pub struct Unit {
    pub items: Vec<Item>,
    /// The span of the end of the source.
    pub end: Span,
}

// By hand: other crates call this, and do not prove anew how each part is dropped.
impl Drop for Unit {
    fn drop(self) {
        let Unit { items, end: _ } = self;
        drop(items);
    }
}
