//! The tokens of Ruby source: what the lexer makes of a text, and what the parser reads.
//!
//! A token is a kind and a place. `TokenKind` has a variant for each kind of name, number and string, for each keyword
//! and for each operator; `Shape` is the same list without words, to be copied and compared.

ghost use Rattle.std.specs.Prelude.{◌≡◌, ◌≢◌, true, false, Some, None};
ghost use Rattle.rb_tree.specs.Tokens.{shape_of, plain_kind, same_shape};

use srb_terms::{Span, Words};

/// A token: its kind, and its place in the file, in bytes.
#[derive(Debug, Drop)]
pub struct Token {
    pub kind: TokenKind,
    pub span: Span,
}

/// The kind of a token. The kind of a name, label, symbol, string or number carries its words.
#[derive(Debug, Drop)]
pub enum TokenKind {
    /// A name that begins with a lower-case letter or `_`, perhaps with `?` or `!` at its end.
    Identifier { words: Words },
    /// A name that begins with an upper-case letter.
    Constant { words: Words },
    /// `@` and a name. The words are the name.
    InstanceVariable { words: Words },
    /// A name or keyword and `:`. The words are the name.
    Label { words: Words },
    /// `:` and a name, perhaps with `=` at its end. The words are what stands after the `:`.
    Symbol { words: Words },
    /// A whole number, as it is written.
    Whole { words: Words },
    /// A number with a fraction, as it is written.
    Float { words: Words },
    /// A piece of a string: all of it, or what stands before, between or after its interpolations. The span has the
    /// quotes that stand at the string's ends. The words are what stands between, as it is written.
    Text { words: Words },
    /// The end of a line, or `;`.
    Separator,
    /// `#{`, which begins an interpolation. A `CloseBrace` ends it.
    Interpolation,
    /// `class`.
    Class,
    /// `module`.
    Module,
    /// `def`.
    Def,
    /// `end`.
    End,
    /// `if`.
    If,
    /// `elsif`.
    Elsif,
    /// `else`.
    Else,
    /// `unless`.
    Unless,
    /// `while`.
    While,
    /// `until`.
    Until,
    /// `do`.
    Do,
    /// `case`.
    Case,
    /// `when`.
    When,
    /// `then`.
    Then,
    /// `return`.
    Return,
    /// `break`.
    Break,
    /// `next`.
    Next,
    /// `self`.
    SelfWord,
    /// `nil`.
    Nil,
    /// `true`.
    True,
    /// `false`.
    False,
    /// `yield`.
    Yield,
    /// `super`.
    Super,
    /// `begin`.
    Begin,
    /// `rescue`.
    Rescue,
    /// `ensure`.
    Ensure,
    /// `+`.
    Plus,
    /// `-`.
    Minus,
    /// `*`.
    Star,
    /// `/`.
    Slash,
    /// `%`.
    Percent,
    /// `**`.
    Power,
    /// `==`.
    Equal,
    /// `!=`.
    NotEqual,
    /// `===`.
    CaseEqual,
    /// `<=>`.
    Compare,
    /// `<`.
    Less,
    /// `>`.
    Greater,
    /// `<=`.
    LessEqual,
    /// `>=`.
    GreaterEqual,
    /// `&&`.
    AndAnd,
    /// `||`.
    OrOr,
    /// `!`.
    Not,
    /// `~`.
    Tilde,
    /// `&`.
    Ampersand,
    /// `|`.
    Pipe,
    /// `^`.
    Caret,
    /// `<<`.
    ShiftLeft,
    /// `>>`.
    ShiftRight,
    /// `=`.
    Assign,
    /// `=>`.
    Arrow,
    /// `?`.
    Question,
    /// `:`.
    Colon,
    /// `::`.
    Scope,
    /// `.`.
    Dot,
    /// `&.`.
    SafeDot,
    /// `,`.
    Comma,
    /// `(`.
    OpenParen,
    /// `)`.
    CloseParen,
    /// `[`.
    OpenBracket,
    /// `]`.
    CloseBracket,
    /// `{`.
    OpenBrace,
    /// `}`.
    CloseBrace,
    /// `+=`.
    PlusAssign,
    /// `-=`.
    MinusAssign,
    /// `*=`.
    StarAssign,
    /// `/=`.
    SlashAssign,
    /// `%=`.
    PercentAssign,
    /// `**=`.
    PowerAssign,
    /// `||=`.
    OrAssign,
    /// `&&=`.
    AndAssign,
    /// `|=`.
    PipeAssign,
    /// `&=`.
    AmpersandAssign,
    /// `^=`.
    CaretAssign,
    /// `<<=`.
    ShiftLeftAssign,
    /// `>>=`.
    ShiftRightAssign,
    /// `-@`. It is an operator as a method's name alone.
    UnaryMinus,
    /// `+@`. It is an operator as a method's name alone.
    UnaryPlus,
    /// `[]`. It is an operator as a method's name alone.
    Index,
    /// `[]=`. It is an operator as a method's name alone.
    IndexAssign,
}

/// The kind of a token without its words.
#[derive(Clone, Copy, Debug, PartialEq, Eq)]
pub enum Shape {
    Identifier,
    Constant,
    InstanceVariable,
    Label,
    Symbol,
    Whole,
    Float,
    Text,
    Separator,
    Interpolation,
    Class,
    Module,
    Def,
    End,
    If,
    Elsif,
    Else,
    Unless,
    While,
    Until,
    Do,
    Case,
    When,
    Then,
    Return,
    Break,
    Next,
    SelfWord,
    Nil,
    True,
    False,
    Yield,
    Super,
    Begin,
    Rescue,
    Ensure,
    Plus,
    Minus,
    Star,
    Slash,
    Percent,
    Power,
    Equal,
    NotEqual,
    CaseEqual,
    Compare,
    Less,
    Greater,
    LessEqual,
    GreaterEqual,
    AndAnd,
    OrOr,
    Not,
    Tilde,
    Ampersand,
    Pipe,
    Caret,
    ShiftLeft,
    ShiftRight,
    Assign,
    Arrow,
    Question,
    Colon,
    Scope,
    Dot,
    SafeDot,
    Comma,
    OpenParen,
    CloseParen,
    OpenBracket,
    CloseBracket,
    OpenBrace,
    CloseBrace,
    PlusAssign,
    MinusAssign,
    StarAssign,
    SlashAssign,
    PercentAssign,
    PowerAssign,
    OrAssign,
    AndAssign,
    PipeAssign,
    AmpersandAssign,
    CaretAssign,
    ShiftLeftAssign,
    ShiftRightAssign,
    UnaryMinus,
    UnaryPlus,
    Index,
    IndexAssign,
}

impl TokenKind {
    /// The kind without its words.
    #[tactic(auto, unfolding(crate::specs::Tokens::shape_of))]
    pub fn shape(&self) -> Shape
        ensures { result ≡ shape_of self.now }
    {
        match self {
            TokenKind::Identifier { .. } => Shape::Identifier,
            TokenKind::Constant { .. } => Shape::Constant,
            TokenKind::InstanceVariable { .. } => Shape::InstanceVariable,
            TokenKind::Label { .. } => Shape::Label,
            TokenKind::Symbol { .. } => Shape::Symbol,
            TokenKind::Whole { .. } => Shape::Whole,
            TokenKind::Float { .. } => Shape::Float,
            TokenKind::Text { .. } => Shape::Text,
            TokenKind::Separator => Shape::Separator,
            TokenKind::Interpolation => Shape::Interpolation,
            TokenKind::Class => Shape::Class,
            TokenKind::Module => Shape::Module,
            TokenKind::Def => Shape::Def,
            TokenKind::End => Shape::End,
            TokenKind::If => Shape::If,
            TokenKind::Elsif => Shape::Elsif,
            TokenKind::Else => Shape::Else,
            TokenKind::Unless => Shape::Unless,
            TokenKind::While => Shape::While,
            TokenKind::Until => Shape::Until,
            TokenKind::Do => Shape::Do,
            TokenKind::Case => Shape::Case,
            TokenKind::When => Shape::When,
            TokenKind::Then => Shape::Then,
            TokenKind::Return => Shape::Return,
            TokenKind::Break => Shape::Break,
            TokenKind::Next => Shape::Next,
            TokenKind::SelfWord => Shape::SelfWord,
            TokenKind::Nil => Shape::Nil,
            TokenKind::True => Shape::True,
            TokenKind::False => Shape::False,
            TokenKind::Yield => Shape::Yield,
            TokenKind::Super => Shape::Super,
            TokenKind::Begin => Shape::Begin,
            TokenKind::Rescue => Shape::Rescue,
            TokenKind::Ensure => Shape::Ensure,
            TokenKind::Plus => Shape::Plus,
            TokenKind::Minus => Shape::Minus,
            TokenKind::Star => Shape::Star,
            TokenKind::Slash => Shape::Slash,
            TokenKind::Percent => Shape::Percent,
            TokenKind::Power => Shape::Power,
            TokenKind::Equal => Shape::Equal,
            TokenKind::NotEqual => Shape::NotEqual,
            TokenKind::CaseEqual => Shape::CaseEqual,
            TokenKind::Compare => Shape::Compare,
            TokenKind::Less => Shape::Less,
            TokenKind::Greater => Shape::Greater,
            TokenKind::LessEqual => Shape::LessEqual,
            TokenKind::GreaterEqual => Shape::GreaterEqual,
            TokenKind::AndAnd => Shape::AndAnd,
            TokenKind::OrOr => Shape::OrOr,
            TokenKind::Not => Shape::Not,
            TokenKind::Tilde => Shape::Tilde,
            TokenKind::Ampersand => Shape::Ampersand,
            TokenKind::Pipe => Shape::Pipe,
            TokenKind::Caret => Shape::Caret,
            TokenKind::ShiftLeft => Shape::ShiftLeft,
            TokenKind::ShiftRight => Shape::ShiftRight,
            TokenKind::Assign => Shape::Assign,
            TokenKind::Arrow => Shape::Arrow,
            TokenKind::Question => Shape::Question,
            TokenKind::Colon => Shape::Colon,
            TokenKind::Scope => Shape::Scope,
            TokenKind::Dot => Shape::Dot,
            TokenKind::SafeDot => Shape::SafeDot,
            TokenKind::Comma => Shape::Comma,
            TokenKind::OpenParen => Shape::OpenParen,
            TokenKind::CloseParen => Shape::CloseParen,
            TokenKind::OpenBracket => Shape::OpenBracket,
            TokenKind::CloseBracket => Shape::CloseBracket,
            TokenKind::OpenBrace => Shape::OpenBrace,
            TokenKind::CloseBrace => Shape::CloseBrace,
            TokenKind::PlusAssign => Shape::PlusAssign,
            TokenKind::MinusAssign => Shape::MinusAssign,
            TokenKind::StarAssign => Shape::StarAssign,
            TokenKind::SlashAssign => Shape::SlashAssign,
            TokenKind::PercentAssign => Shape::PercentAssign,
            TokenKind::PowerAssign => Shape::PowerAssign,
            TokenKind::OrAssign => Shape::OrAssign,
            TokenKind::AndAssign => Shape::AndAssign,
            TokenKind::PipeAssign => Shape::PipeAssign,
            TokenKind::AmpersandAssign => Shape::AmpersandAssign,
            TokenKind::CaretAssign => Shape::CaretAssign,
            TokenKind::ShiftLeftAssign => Shape::ShiftLeftAssign,
            TokenKind::ShiftRightAssign => Shape::ShiftRightAssign,
            TokenKind::UnaryMinus => Shape::UnaryMinus,
            TokenKind::UnaryPlus => Shape::UnaryPlus,
            TokenKind::Index => Shape::Index,
            TokenKind::IndexAssign => Shape::IndexAssign,
        }
    }
}

impl Shape {
    /// The kind of this shape. `None` exactly where such a kind carries words.
    #[tactic(auto, unfolding(crate::specs::Tokens::plain_kind))]
    pub fn plain(self) -> Option<TokenKind>
        ensures { result ≡ plain_kind self }
    {
        match self {
            Shape::Identifier
            | Shape::Constant
            | Shape::InstanceVariable
            | Shape::Label
            | Shape::Symbol
            | Shape::Whole
            | Shape::Float
            | Shape::Text => None,
            Shape::Separator => Some(TokenKind::Separator),
            Shape::Interpolation => Some(TokenKind::Interpolation),
            Shape::Class => Some(TokenKind::Class),
            Shape::Module => Some(TokenKind::Module),
            Shape::Def => Some(TokenKind::Def),
            Shape::End => Some(TokenKind::End),
            Shape::If => Some(TokenKind::If),
            Shape::Elsif => Some(TokenKind::Elsif),
            Shape::Else => Some(TokenKind::Else),
            Shape::Unless => Some(TokenKind::Unless),
            Shape::While => Some(TokenKind::While),
            Shape::Until => Some(TokenKind::Until),
            Shape::Do => Some(TokenKind::Do),
            Shape::Case => Some(TokenKind::Case),
            Shape::When => Some(TokenKind::When),
            Shape::Then => Some(TokenKind::Then),
            Shape::Return => Some(TokenKind::Return),
            Shape::Break => Some(TokenKind::Break),
            Shape::Next => Some(TokenKind::Next),
            Shape::SelfWord => Some(TokenKind::SelfWord),
            Shape::Nil => Some(TokenKind::Nil),
            Shape::True => Some(TokenKind::True),
            Shape::False => Some(TokenKind::False),
            Shape::Yield => Some(TokenKind::Yield),
            Shape::Super => Some(TokenKind::Super),
            Shape::Begin => Some(TokenKind::Begin),
            Shape::Rescue => Some(TokenKind::Rescue),
            Shape::Ensure => Some(TokenKind::Ensure),
            Shape::Plus => Some(TokenKind::Plus),
            Shape::Minus => Some(TokenKind::Minus),
            Shape::Star => Some(TokenKind::Star),
            Shape::Slash => Some(TokenKind::Slash),
            Shape::Percent => Some(TokenKind::Percent),
            Shape::Power => Some(TokenKind::Power),
            Shape::Equal => Some(TokenKind::Equal),
            Shape::NotEqual => Some(TokenKind::NotEqual),
            Shape::CaseEqual => Some(TokenKind::CaseEqual),
            Shape::Compare => Some(TokenKind::Compare),
            Shape::Less => Some(TokenKind::Less),
            Shape::Greater => Some(TokenKind::Greater),
            Shape::LessEqual => Some(TokenKind::LessEqual),
            Shape::GreaterEqual => Some(TokenKind::GreaterEqual),
            Shape::AndAnd => Some(TokenKind::AndAnd),
            Shape::OrOr => Some(TokenKind::OrOr),
            Shape::Not => Some(TokenKind::Not),
            Shape::Tilde => Some(TokenKind::Tilde),
            Shape::Ampersand => Some(TokenKind::Ampersand),
            Shape::Pipe => Some(TokenKind::Pipe),
            Shape::Caret => Some(TokenKind::Caret),
            Shape::ShiftLeft => Some(TokenKind::ShiftLeft),
            Shape::ShiftRight => Some(TokenKind::ShiftRight),
            Shape::Assign => Some(TokenKind::Assign),
            Shape::Arrow => Some(TokenKind::Arrow),
            Shape::Question => Some(TokenKind::Question),
            Shape::Colon => Some(TokenKind::Colon),
            Shape::Scope => Some(TokenKind::Scope),
            Shape::Dot => Some(TokenKind::Dot),
            Shape::SafeDot => Some(TokenKind::SafeDot),
            Shape::Comma => Some(TokenKind::Comma),
            Shape::OpenParen => Some(TokenKind::OpenParen),
            Shape::CloseParen => Some(TokenKind::CloseParen),
            Shape::OpenBracket => Some(TokenKind::OpenBracket),
            Shape::CloseBracket => Some(TokenKind::CloseBracket),
            Shape::OpenBrace => Some(TokenKind::OpenBrace),
            Shape::CloseBrace => Some(TokenKind::CloseBrace),
            Shape::PlusAssign => Some(TokenKind::PlusAssign),
            Shape::MinusAssign => Some(TokenKind::MinusAssign),
            Shape::StarAssign => Some(TokenKind::StarAssign),
            Shape::SlashAssign => Some(TokenKind::SlashAssign),
            Shape::PercentAssign => Some(TokenKind::PercentAssign),
            Shape::PowerAssign => Some(TokenKind::PowerAssign),
            Shape::OrAssign => Some(TokenKind::OrAssign),
            Shape::AndAssign => Some(TokenKind::AndAssign),
            Shape::PipeAssign => Some(TokenKind::PipeAssign),
            Shape::AmpersandAssign => Some(TokenKind::AmpersandAssign),
            Shape::CaretAssign => Some(TokenKind::CaretAssign),
            Shape::ShiftLeftAssign => Some(TokenKind::ShiftLeftAssign),
            Shape::ShiftRightAssign => Some(TokenKind::ShiftRightAssign),
            Shape::UnaryMinus => Some(TokenKind::UnaryMinus),
            Shape::UnaryPlus => Some(TokenKind::UnaryPlus),
            Shape::Index => Some(TokenKind::Index),
            Shape::IndexAssign => Some(TokenKind::IndexAssign),
        }
    }

    /// Whether it is this shape.
    pub fn is(self, other: Shape) -> bool
        ensures value { result ≡ same_shape self other }
        ensures same { result ≡ true → self ≡ other }
        ensures other { result ≡ false → self ≢ other }
    {
        self == other
    }
}
