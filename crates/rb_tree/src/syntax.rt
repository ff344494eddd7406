//! The trees of Ruby source, as they are written: one kind of node for each production of the grammar that joins parts
//! or carries words.
//!
//! A span goes from the start of a node's first token to the end of its last one. What stands in a row (suffixes,
//! arguments, arms, pieces of a string) is a flat list, in the order of the text. Brackets, separators and keywords are
//! not kept, but where a node's kind or a field says that they stood.

use srb_terms::{Boxed, Items, Name, ParamKind, Span, Words};
use std::fmt;

/// A tree of source. Copies share it.
#[cycle(trees)]
pub struct Tree {
    pub node: Boxed<Node>,
}

/// What a tree is, and its parts.
#[cycle(trees)]
#[derive(Debug)]
pub enum Node {
    /// Statements in a row. The span goes from the first to the last; that of an empty body is 0 to 0.
    Body {
        statements: Items<Tree>,
        span: Span,
    },
    /// A statement with a modifier after it, as `a if b`. Several modifiers nest to the left.
    Modified {
        statement: Tree,
        modifier: Modifier,
        condition: Tree,
        span: Span,
    },
    /// `return`, `break` or `next`, perhaps with a value. The word begins where the span does.
    Jump {
        jump: Jump,
        value: Option<Tree>,
        span: Span,
    },
    /// `target = value`. The target is a `Name`, an `InstanceVariable`, a `Constant`, or a `Post` whose last suffix is a
    /// plain call by `.` or an index.
    Assign {
        target: Tree,
        value: Tree,
        span: Span,
    },
    /// `target += value` and the like. The target is as in `Assign`, but no `Constant`.
    OperatorAssign {
        target: Tree,
        operator: Binary,
        /// The place of the operator's token.
        operator_span: Span,
        value: Tree,
        span: Span,
    },
    /// A call with arguments and no brackets, as `puts a` or `b.push c do |d| d end`. The callee is a `Name`, a plain
    /// `Yield` or `Super`, or a `Post` whose last suffix is a plain call.
    Command {
        callee: Tree,
        arguments: Items<Argument<Tree>>,
        block: Option<Boxed<Block<Tree>>>,
        span: Span,
    },
    /// `condition ? positive : negative`.
    Conditional {
        condition: Tree,
        positive: Tree,
        negative: Tree,
        span: Span,
    },
    /// An operator between two operands.
    Binary {
        operator: Binary,
        /// The place of the operator's token.
        operator_span: Span,
        left: Tree,
        right: Tree,
        span: Span,
    },
    /// An operator in front of its operand. It begins where the span does, and is one byte long.
    Unary {
        operator: Unary,
        operand: Tree,
        span: Span,
    },
    /// An operand with at least one suffix. The receiver is no `Post`.
    Post {
        receiver: Tree,
        suffixes: Items<Suffix<Tree>>,
        span: Span,
    },
    /// A whole number as it is written, with the sign that touches it.
    Whole {
        sign: Option<Sign>,
        words: Words,
        span: Span,
    },
    /// A number with a fraction as it is written, with the sign that touches it.
    Float {
        sign: Option<Sign>,
        words: Words,
        span: Span,
    },
    /// A string. Words and interpolations take turns, and words begin and end.
    Text {
        pieces: Items<Piece<Tree>>,
        span: Span,
    },
    /// A symbol. The words are what stands after the `:`.
    Symbol {
        words: Words,
        span: Span,
    },
    /// An instance variable. The name has no `@`.
    InstanceVariable {
        name: Name,
        span: Span,
    },
    /// A constant.
    Constant {
        name: Name,
        span: Span,
    },
    /// `::` and a constant.
    TopConstant {
        name: Name,
        /// The place of the constant.
        name_span: Span,
        span: Span,
    },
    /// `self`.
    SelfWord {
        span: Span,
    },
    /// `nil`.
    Nil {
        span: Span,
    },
    /// `true`.
    True {
        span: Span,
    },
    /// `false`.
    False {
        span: Span,
    },
    /// A name alone: a local variable, or a call without arguments and block.
    Name {
        name: Name,
        span: Span,
    },
    /// A call on `self` with brackets, a block or both. The arguments are `None` where no brackets stand.
    Call {
        name: Name,
        /// The place of the name.
        name_span: Span,
        arguments: Option<Items<Argument<Tree>>>,
        block: Option<Boxed<Block<Tree>>>,
        span: Span,
    },
    /// `yield`. The arguments are `None` where no brackets stand.
    Yield {
        arguments: Option<Items<Argument<Tree>>>,
        span: Span,
    },
    /// `super`. The arguments are `None` where no brackets stand.
    Super {
        arguments: Option<Items<Argument<Tree>>>,
        span: Span,
    },
    /// `[a, b]`.
    Array {
        elements: Items<Tree>,
        span: Span,
    },
    /// `{a => b, c: d}`.
    Hash {
        pairs: Items<Pair<Tree>>,
        span: Span,
    },
    /// `(body)`.
    Parens {
        body: Tree,
        span: Span,
    },
    /// `if` and `unless` with their `end`.
    If {
        test: Test,
        condition: Tree,
        body: Tree,
        /// The `elsif` arms.
        arms: Items<Arm<Tree>>,
        /// What stands after `else`.
        otherwise: Option<Tree>,
        span: Span,
    },
    /// `while` and `until` with their `end`.
    While {
        test: Test,
        condition: Tree,
        body: Tree,
        span: Span,
    },
    /// `case` with its `end`. There is at least one arm.
    Case {
        subject: Option<Tree>,
        arms: Items<When<Tree>>,
        /// What stands after `else`.
        otherwise: Option<Tree>,
        span: Span,
    },
    /// `begin` with its `end`.
    Begin {
        guarded: Boxed<Guarded<Tree>>,
        span: Span,
    },
    /// `class`.
    Class {
        path: Items<PlacedName>,
        superclass: Option<Boxed<Reference>>,
        body: Tree,
        span: Span,
    },
    /// `module`.
    Module {
        path: Items<PlacedName>,
        body: Tree,
        span: Span,
    },
    /// `def`, perhaps with a visibility in front.
    Def {
        visibility: Option<Visibility>,
        /// Whether `self.` stands before the name.
        own: bool,
        /// The name, as `add`, `add=`, `Add`, `+` or `[]=`.
        name: Name,
        /// The place of the name's tokens.
        name_span: Span,
        parameters: Items<Parameter<Tree>>,
        guarded: Boxed<Guarded<Tree>>,
        span: Span,
    },
}

/// The word of a modifier.
#[derive(Clone, Copy, PartialEq, Eq, Debug)]
pub enum Modifier {
    /// `if`.
    If,
    /// `unless`.
    Unless,
    /// `while`.
    While,
    /// `until`.
    Until,
}

/// The word of a jump.
#[derive(Clone, Copy, PartialEq, Eq, Debug)]
pub enum Jump {
    /// `return`.
    Return,
    /// `break`.
    Break,
    /// `next`.
    Next,
}

/// Which outcome of a condition leads into the body.
#[derive(Clone, Copy, PartialEq, Eq, Debug)]
pub enum Test {
    /// The body belongs to truth: `if` and `while`.
    Positive,
    /// The body belongs to falsehood: `unless` and `until`.
    Negative,
}

/// The sign of a number.
#[derive(Clone, Copy, PartialEq, Eq, Debug)]
pub enum Sign {
    /// `-`.
    Minus,
    /// `+`.
    Plus,
}

/// An operator in front of its operand.
#[derive(Clone, Copy, PartialEq, Eq, Debug)]
pub enum Unary {
    /// `-`, the method `-@`.
    Minus,
    /// `+`, the method `+@`.
    Plus,
    /// `!`.
    Not,
    /// `~`.
    Tilde,
}

/// An operator between two operands, or that of an assignment such as `+=`.
#[derive(Clone, Copy, PartialEq, Eq, Debug)]
pub enum Binary {
    /// `||`.
    Or,
    /// `&&`.
    And,
    /// `==`.
    Equal,
    /// `!=`.
    NotEqual,
    /// `===`.
    CaseEqual,
    /// `<=>`.
    Compare,
    /// `<`.
    Less,
    /// `>`.
    Greater,
    /// `<=`.
    LessEqual,
    /// `>=`.
    GreaterEqual,
    /// `|`.
    Pipe,
    /// `^`.
    Caret,
    /// `&`.
    Ampersand,
    /// `<<`.
    ShiftLeft,
    /// `>>`.
    ShiftRight,
    /// `+`.
    Plus,
    /// `-`.
    Minus,
    /// `*`.
    Star,
    /// `/`.
    Slash,
    /// `%`.
    Percent,
    /// `**`.
    Power,
}

/// How a call is joined to its receiver.
#[derive(Clone, Copy, PartialEq, Eq, Debug)]
pub enum Dot {
    /// `.`.
    Plain,
    /// `&.`, which passes over `nil`.
    Safe,
}

/// The word in front of a method that says who may call it.
#[derive(Clone, Copy, PartialEq, Eq, Debug)]
pub enum Visibility {
    /// `private`.
    Private,
    /// `protected`.
    Protected,
    /// `public`.
    Public,
    /// `private_class_method`.
    PrivateClassMethod,
}

/// What stands after an operand. `T` is the trees in it.
#[derive(Debug, Drop)]
pub enum Suffix<T> {
    /// A call, as `.name`, `&.name(a)` or `.name { b }`. The span begins at the dot.
    Call {
        dot: Dot,
        name: Name,
        /// The place of the name.
        name_span: Span,
        /// The arguments, `None` where no brackets stand.
        arguments: Option<Items<Argument<T>>>,
        block: Option<Boxed<Block<T>>>,
        span: Span,
    },
    /// `::` and a constant. The span begins at the `::`.
    Constant {
        name: Name,
        /// The place of the constant.
        name_span: Span,
        span: Span,
    },
    /// `[a, b]`. There is at least one argument.
    Index {
        arguments: Items<Argument<T>>,
        span: Span,
    },
}

/// An argument of a call.
#[derive(Debug, Drop)]
pub enum Argument<T> {
    /// By its place.
    Positional { value: T },
    /// `name: value`. The span is the label's, with its `:`.
    Keyword { name: Name, span: Span, value: T },
    /// `&value`. The span is that of the `&`.
    Block { span: Span, value: T },
}

/// A block. The span has its brackets, or its `do` and `end`.
#[derive(Debug, Drop)]
pub struct Block<T> {
    /// The names between the bars.
    pub parameters: Items<PlacedName>,
    pub body: T,
    pub span: Span,
}

/// A piece of a string.
#[derive(Debug, Drop)]
pub enum Piece<T> {
    /// What is written, perhaps nothing.
    Words { words: Words, span: Span },
    /// What stands between `#{` and `}`, a body. The span has both.
    Code { body: T, span: Span },
}

/// A pair of a hash.
#[derive(Debug, Drop)]
pub enum Pair<T> {
    /// `key => value`.
    Arrow { key: T, value: T },
    /// `name: value`. The span is the label's, with its `:`.
    Label { name: Name, span: Span, value: T },
}

/// An `elsif` arm.
#[derive(Debug, Drop)]
pub struct Arm<T> {
    pub condition: T,
    pub body: T,
}

/// A `when` arm, with at least one pattern.
#[derive(Debug, Drop)]
pub struct When<T> {
    pub patterns: Items<T>,
    pub body: T,
}

/// A name and its place: one of a path of constants, or of a block's parameters.
#[derive(Debug, Drop)]
pub struct PlacedName {
    pub name: Name,
    pub span: Span,
}

/// A reference to a superclass.
#[derive(Debug, Drop)]
pub struct Reference {
    /// Whether `::` stands in front.
    pub top: bool,
    pub path: Items<PlacedName>,
    pub span: Span,
}

/// A body with what is done where it raises an error, and after it: the body of a method, or what stands between `begin` and
/// `end`. `T` is the trees in it.
#[derive(Debug, Drop)]
pub struct Guarded<T> {
    pub body: T,
    /// The `rescue` clauses.
    pub rescues: Items<Rescue<T>>,
    /// What stands after `else`. There is none where no `rescue` stands.
    pub otherwise: Option<T>,
    /// What stands after `ensure`.
    pub ensure: Option<T>,
}

/// A `rescue` clause.
#[derive(Debug, Drop)]
pub struct Rescue<T> {
    /// The expressions after `rescue`, perhaps none.
    pub patterns: Items<T>,
    /// The variable after `=>`.
    pub variable: Option<PlacedName>,
    pub body: T,
}

/// A parameter of a method. It is none of kind `Rest`, which the profile doesn't have.
#[derive(Debug, Drop)]
pub struct Parameter<T> {
    pub kind: ParamKind,
    pub name: Name,
    /// The place of the name, a keyword's with its `:`.
    pub span: Span,
    /// What stands after `=`, or after the `:` of a keyword. It is there exactly where the kind is optional.
    pub default: Option<T>,
}

// A tree is printed as the box of its node.
impl fmt::Debug for Tree {
    #[cycle(prints)]
    fn fmt<W: fmt::Write>(&self, f: &mut fmt::Formatter<W>) -> fmt::Result {
        self.node.fmt(f)
    }
}

// It is never inlined: the drop of a node would else hold a node on the stack for each part that it drops.
impl Drop for Tree {
    #[cycle(drops)]
    #[inline(never)]
    fn drop(self) {
        let Tree { node } = self;
        drop(node);
    }
}

impl Drop for Node {
    #[cycle(drops)]
    fn drop(self) {
        match self {
            Node::Body {
                statements,
                span: _,
            } => {
                drop(statements);
            }
            Node::Modified {
                statement,
                modifier: _,
                condition,
                span: _,
            } => {
                drop(statement);
                drop(condition);
            }
            Node::Jump {
                jump: _,
                value,
                span: _,
            } => {
                drop(value);
            }
            Node::Assign {
                target,
                value,
                span: _,
            } => {
                drop(target);
                drop(value);
            }
            Node::OperatorAssign {
                target,
                operator: _,
                operator_span: _,
                value,
                span: _,
            } => {
                drop(target);
                drop(value);
            }
            Node::Command {
                callee,
                arguments,
                block,
                span: _,
            } => {
                drop(callee);
                drop(arguments);
                drop(block);
            }
            Node::Conditional {
                condition,
                positive,
                negative,
                span: _,
            } => {
                drop(condition);
                drop(positive);
                drop(negative);
            }
            Node::Binary {
                operator: _,
                operator_span: _,
                left,
                right,
                span: _,
            } => {
                drop(left);
                drop(right);
            }
            Node::Unary {
                operator: _,
                operand,
                span: _,
            } => {
                drop(operand);
            }
            Node::Post {
                receiver,
                suffixes,
                span: _,
            } => {
                drop(receiver);
                drop(suffixes);
            }
            Node::Whole {
                sign: _,
                words,
                span: _,
            } => {
                drop(words);
            }
            Node::Float {
                sign: _,
                words,
                span: _,
            } => {
                drop(words);
            }
            Node::Text { pieces, span: _ } => {
                drop(pieces);
            }
            Node::Symbol { words, span: _ } => {
                drop(words);
            }
            Node::InstanceVariable { name, span: _ } => {
                drop(name);
            }
            Node::Constant { name, span: _ } => {
                drop(name);
            }
            Node::TopConstant {
                name,
                name_span: _,
                span: _,
            } => {
                drop(name);
            }
            Node::Name { name, span: _ } => {
                drop(name);
            }
            Node::Call {
                name,
                name_span: _,
                arguments,
                block,
                span: _,
            } => {
                drop(name);
                drop(arguments);
                drop(block);
            }
            Node::Yield { arguments, span: _ } => {
                drop(arguments);
            }
            Node::Super { arguments, span: _ } => {
                drop(arguments);
            }
            Node::Array { elements, span: _ } => {
                drop(elements);
            }
            Node::Hash { pairs, span: _ } => {
                drop(pairs);
            }
            Node::Parens { body, span: _ } => {
                drop(body);
            }
            Node::If {
                test: _,
                condition,
                body,
                arms,
                otherwise,
                span: _,
            } => {
                drop(condition);
                drop(body);
                drop(arms);
                drop(otherwise);
            }
            Node::While {
                test: _,
                condition,
                body,
                span: _,
            } => {
                drop(condition);
                drop(body);
            }
            Node::Case {
                subject,
                arms,
                otherwise,
                span: _,
            } => {
                drop(subject);
                drop(arms);
                drop(otherwise);
            }
            Node::Begin { guarded, span: _ } => {
                drop(guarded);
            }
            Node::Class {
                path,
                superclass,
                body,
                span: _,
            } => {
                drop(path);
                drop(superclass);
                drop(body);
            }
            Node::Module {
                path,
                body,
                span: _,
            } => {
                drop(path);
                drop(body);
            }
            Node::Def {
                visibility: _,
                own: _,
                name,
                name_span: _,
                parameters,
                guarded,
                span: _,
            } => {
                drop(name);
                drop(parameters);
                drop(guarded);
            }
            Node::SelfWord { span: _ }
            | Node::Nil { span: _ }
            | Node::True { span: _ }
            | Node::False { span: _ } => {}
        }
    }
}
