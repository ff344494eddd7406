//! What kinds of tokens the weight tells apart.

ghost use Rattle.std.specs.Prelude.{◌≡◌};
ghost use Rattle.rb_weight.specs.Sorts as spec;

use rb_tree::token::Shape;

/// A kind of tokens that have the same part in the weight.
#[derive(Clone, Copy, PartialEq, Eq, Debug)]
pub enum Sort {
    /// An operand's end that closes nothing, or `return`, `break` or `next`: after it an `if` is a modifier.
    Operand,
    /// `self`, an operand's end too.
    SelfWord,
    /// `)`, `]`, `}` or `end`.
    Close,
    /// `[`, `#{`, `class`, `module`, `case` or `begin`.
    Open,
    /// `(`.
    Paren,
    /// `{`.
    Brace,
    /// `do`.
    Do,
    /// `def`.
    Def,
    /// `if` or `unless`.
    Choice,
    /// `while` or `until`.
    Loop,
    /// A line's end or `;`.
    Separator,
    /// `,`, `then`, `else`, `elsif`, `when`, `rescue` or `ensure`.
    Divider,
    /// An operator that counts, other than the next two.
    Operator,
    /// `.`.
    Dot,
    /// `=`.
    Assign,
    /// `|`.
    Pipe,
    /// A label, `=>` or `::`.
    Other,
}

/// The kind to which a token of this shape belongs.
#[tactic(auto, unfolding(crate::specs::Sorts::sort_of))]
pub fn sort_of(shape: Shape) -> Sort
    ensures { result ≡ spec.sort_of shape }
{
    match shape {
        Shape::Identifier
        | Shape::Constant
        | Shape::InstanceVariable
        | Shape::Symbol
        | Shape::Whole
        | Shape::Float
        | Shape::Text
        | Shape::Return
        | Shape::Break
        | Shape::Next
        | Shape::Nil
        | Shape::True
        | Shape::False
        | Shape::Yield
        | Shape::Super => Sort::Operand,
        Shape::SelfWord => Sort::SelfWord,
        Shape::End | Shape::CloseParen | Shape::CloseBracket | Shape::CloseBrace => Sort::Close,
        Shape::OpenBracket
        | Shape::Interpolation
        | Shape::Class
        | Shape::Module
        | Shape::Case
        | Shape::Begin => Sort::Open,
        Shape::OpenParen => Sort::Paren,
        Shape::OpenBrace => Sort::Brace,
        Shape::Do => Sort::Do,
        Shape::Def => Sort::Def,
        Shape::If | Shape::Unless => Sort::Choice,
        Shape::While | Shape::Until => Sort::Loop,
        Shape::Separator => Sort::Separator,
        Shape::Comma
        | Shape::Then
        | Shape::Else
        | Shape::Elsif
        | Shape::When
        | Shape::Rescue
        | Shape::Ensure => Sort::Divider,
        Shape::Dot => Sort::Dot,
        Shape::Assign => Sort::Assign,
        Shape::Pipe => Sort::Pipe,
        Shape::Label | Shape::Arrow | Shape::Scope => Sort::Other,
        Shape::Plus | Shape::Minus | Shape::Star | Shape::Slash | Shape::Percent | Shape::Power =>
            Sort::Operator,
        Shape::Equal
        | Shape::NotEqual
        | Shape::CaseEqual
        | Shape::Compare
        | Shape::Less
        | Shape::Greater
        | Shape::LessEqual
        | Shape::GreaterEqual => Sort::Operator,
        Shape::AndAnd
        | Shape::OrOr
        | Shape::Not
        | Shape::Tilde
        | Shape::Ampersand
        | Shape::Caret
        | Shape::ShiftLeft
        | Shape::ShiftRight => Sort::Operator,
        Shape::Question | Shape::Colon | Shape::SafeDot => Sort::Operator,
        Shape::PlusAssign
        | Shape::MinusAssign
        | Shape::StarAssign
        | Shape::SlashAssign
        | Shape::PercentAssign
        | Shape::PowerAssign
        | Shape::OrAssign
        | Shape::AndAssign
        | Shape::PipeAssign
        | Shape::AmpersandAssign
        | Shape::CaretAssign
        | Shape::ShiftLeftAssign
        | Shape::ShiftRightAssign => Sort::Operator,
        Shape::UnaryMinus | Shape::UnaryPlus | Shape::Index | Shape::IndexAssign => Sort::Operator,
    }
}
