//! The lexer's state between two steps, and the steps that change it.

ghost use Rattle.std.specs.Prelude.{◌≡◌, ◌≢◌, ◌<◌, ◌≤◌, ◌+◌, ◌-◌, ◌^◌, [], length, slice_index, IfOk, OnOk, true, false};
ghost use Rattle.std.specs.Option.{option_copied};
ghost use Rattle.std.specs.Prelude.{◌||◌, take};
ghost use Rattle.std.specs.Str.{IsUtf8};
ghost use Rattle.rb_tree.specs.Tokens.{same_shape};
ghost use Rattle.rb_lex.specs.Lexed as spec;
ghost use Rattle.rb_lex.specs.Lexed.{Gives, IsNoMemory};

use crate::LexEnd;
use crate::chars::{after, byte, is_letter};
use crate::cut::{Before, Cut, Lexeme, Look, after_operator, cut_of, is_opener, names_method};
use crate::met::Met;
use crate::piece::{Stop, is_touched, piece_of};
use rb_tree::token::{Shape, Token, TokenKind};
use srb_terms::{Items, NoMemory, Span, Words};
use std::alloc::Global;

/// A string that is open: its quote, the place where it begins, and that where its present piece does.
#[derive(Clone, Copy)]
pub struct Opened {
    pub quote: u8,
    pub opening: u32,
    pub from: u32,
}

/// What the lexer knows at a place.
#[derive(Drop)]
pub struct State {
    /// The tokens before the place.
    pub tokens: Items<Token>,
    /// How many of them stand up to and with the last that is no line's end after it.
    pub mark: usize,
    /// What is open, the innermost last: a `{`, or an interpolation, with the place where its string begins.
    pub nesting: Items<Option<u32>>,
    /// The string in which the place is.
    pub string: Option<Opened>,
    pub look: Look,
    /// What the last token that is no line's end says about the next one.
    pub last: Before,
    /// Whether a line's end here is a separator.
    pub keeps: bool,
    /// Whether a `|` is open that began block parameters.
    pub has_bars: bool,
}

impl From<NoMemory> for LexEnd {
    ghost from_gives = { λ _ end. IsNoMemory end };

    fn from(_: NoMemory) -> LexEnd {
        LexEnd::NoMemory
    }
}

/// The words of these bytes.
fn copied(alloc: Global, met: &mut Met, words: &[u8]) -> Result<Words, LexEnd>
    requires { IsUtf8 words.now }
    ensures { Gives (λ w. w) result (Ok words.now) }
{
    let text = unsafe { std::str::from_utf8_unchecked(words) };
    Ok(met.words(alloc, text)?)
}

fn is_sigiled(shape: Shape) -> bool
    ensures { result ≡ (same_shape shape Shape.InstanceVariable || same_shape shape Shape.Symbol) }
{
    shape.is(Shape::InstanceVariable) || shape.is(Shape::Symbol)
}

/// The bytes of a token that are its words.
fn words_of(shape: Shape, len: usize, z: &[u8]) -> &[u8]
    requires within { len ≤ length z.now }
    requires moves { 0 < len }
    ensures { result.now ≡ spec.words_of shape len z.now }
{
    if is_sigiled(shape) {
        after(&z[..len], 1)
    } else if shape.is(Shape::Label) {
        &z[..len - 1]
    } else {
        &z[..len]
    }
}

fn named_kind(alloc: Global, met: &mut Met, shape: Shape, words: &[u8]) -> Result<TokenKind, LexEnd>
    requires { IsUtf8 words.now }
    ensures { Gives (λ k. k) result (Ok (spec.named_kind shape words.now)) }
{
    let words = copied(alloc, met, words)?;
    Ok(named(shape, words))
}

fn named(shape: Shape, words: Words) -> TokenKind
    ensures { result ≡ spec.named_kind shape words }
{
    if shape.is(Shape::Identifier) {
        TokenKind::Identifier { words }
    } else if shape.is(Shape::Constant) {
        TokenKind::Constant { words }
    } else if shape.is(Shape::InstanceVariable) {
        TokenKind::InstanceVariable { words }
    } else if shape.is(Shape::Label) {
        TokenKind::Label { words }
    } else if shape.is(Shape::Symbol) {
        TokenKind::Symbol { words }
    } else if shape.is(Shape::Whole) {
        TokenKind::Whole { words }
    } else if shape.is(Shape::Float) {
        TokenKind::Float { words }
    } else {
        TokenKind::Text { words }
    }
}

#[tactic(auto, unfolding(crate::specs::Lexed::kind_of))]
fn kind_of(alloc: Global, met: &mut Met, shape: Shape, words: &[u8]) -> Result<TokenKind, LexEnd>
    requires { IsUtf8 words.now }
    ensures { Gives (λ k. k) result (Ok (spec.kind_of shape words.now)) }
{
    match shape.plain() {
        Some(kind) => Ok(kind),
        None => named_kind(alloc, met, shape, words),
    }
}

fn continues(shape: Shape, rest: &[u8]) -> bool
    ensures { result ≡ spec.continues shape rest.now }
{
    shape.is(Shape::SafeDot) || (shape.is(Shape::Dot) && is_letter(byte(rest, 0)))
}

/// The token as it stands after the last token, where it goes on with the line before.
fn continued(goes: bool, last: Before, lexeme: Lexeme) -> Lexeme
    ensures { result ≡ spec.continued goes last lexeme }
{
    if goes {
        Lexeme {
            before: after_operator(last, lexeme.shape),
            keeps: names_method(last),
            ..lexeme
        }
    } else {
        lexeme
    }
}

impl State {
    /// The state at the start of a text, whose tokens come into this list.
    pub fn new(alloc: Global, tokens: Vec<Token>) -> State
        requires { tokens.items ≡ [] }
        ensures { result ≡ spec.START }
    {
        State {
            tokens: Items::from_vec(tokens),
            mark: 0,
            nesting: Items::new(alloc),
            string: None,
            look: Look {
                before: Before::Plain,
                is_blank: false,
                is_fresh: true,
            },
            last: Before::Plain,
            keeps: false,
            has_bars: false,
        }
    }

    fn push(&mut self, kind: TokenKind, start: u32, end: u32) -> Result<(), LexEnd>
        ensures { Gives (λ _. self.new) result (Ok (spec.pushed kind start end self.old)) }
    {
        let span = Span { start, end };
        self.tokens.push(Token { kind, span })?;
        self.mark = self.tokens.len();
        Ok(())
    }

    fn pass_line(&mut self, at: u32) -> Result<(), LexEnd>
        requires { at < 2 ^ 31 }
        ensures { Gives (λ _. self.new) result (Ok (spec.after_line at self.old)) }
    {
        if self.keeps {
            let span = Span {
                start: at,
                end: at + 1,
            };
            self.tokens.push(Token {
                kind: TokenKind::Separator,
                span,
            })?;
            self.look.before = Before::Plain;
        }
        self.look.is_blank = true;
        self.look.is_fresh = true;
        Ok(())
    }

    fn join(&mut self, goes: bool)
        ensures { self.new ≡ spec.joined goes self.old }
    {
        if goes {
            self.tokens.truncate(self.mark);
        }
    }

    fn close(&mut self, end: u32)
        ensures { self.new ≡ spec.closed end self.old }
    {
        let last = self.nesting.len().saturating_sub(1);
        self.string = string_after(end, self.nesting.get(last));
        self.nesting.truncate(last);
    }

    fn nest(&mut self, shape: Shape, end: u32) -> Result<(), LexEnd>
        ensures { Gives (λ _. self.new) result (Ok (spec.nested shape end self.old)) }
    {
        if shape.is(Shape::OpenBrace) {
            self.nesting.push(None)?;
        } else if shape.is(Shape::CloseBrace) {
            self.close(end);
        }
        Ok(())
    }

    fn enter(&mut self, lexeme: Lexeme)
        ensures { self.new ≡ spec.entered lexeme self.old }
    {
        let is_bar = lexeme.shape.is(Shape::Pipe);
        let opens = !self.has_bars && is_opener(self.look.before);
        self.keeps = lexeme.keeps || (is_bar && self.has_bars);
        if is_bar {
            self.has_bars = opens;
        }
        self.look = Look {
            before: lexeme.before,
            is_blank: false,
            is_fresh: false,
        };
        self.last = lexeme.before;
    }

    #[tactic(auto, unfolding(crate::specs::Lexed::accepted))]
    fn accept(
        &mut self,
        alloc: Global,
        met: &mut Met,
        lexeme: Lexeme,
        at: u32,
        z: &[u8],
    ) -> Result<(), LexEnd>
        requires within { lexeme.len ≤ length z.now }
        requires moves { 0 < lexeme.len }
        requires fits { at + length z.now < 2 ^ 31 }
        requires text { IsUtf8 (spec.words_of lexeme.shape lexeme.len z.now) }
        ensures { Gives (λ _. self.new) result (Ok (spec.accepted lexeme at z.now self.old)) }
    {
        let end = at + lexeme.len as u32;
        let goes = continues(lexeme.shape, after(z, lexeme.len));
        let entering = continued(goes, self.last, lexeme);
        self.join(goes);
        let kind = kind_of(
            alloc,
            met,
            lexeme.shape,
            words_of(lexeme.shape, lexeme.len, z),
        )?;
        self.push(kind, at, end)?;
        self.enter(entering);
        self.nest(lexeme.shape, end)
    }

    #[tactic(auto, using(crate::proofs::Boundaries::token_text), unfolding(crate::specs::Lexed::code_step))]
    fn code_step(
        &mut self,
        alloc: Global,
        met: &mut Met,
        at: u32,
        z: &[u8],
    ) -> Result<usize, LexEnd>
        requires some { 0 < length z.now }
        requires fits { at + length z.now < 2 ^ 31 }
        ensures value { Gives (λ n. (n, self.new)) result (spec.code_step at z.now self.old) }
        ensures within { IfOk result (λ n. (0 < n) × (n ≤ length z.now)) }
    {
        match cut_of(self.look, z) {
            Cut::Blank { len, is_fresh } => {
                self.look.is_blank = true;
                self.look.is_fresh = is_fresh;
                Ok(len)
            }
            Cut::Line => {
                self.pass_line(at)?;
                Ok(1)
            }
            Cut::Quote => {
                self.string = Some(Opened {
                    quote: byte(z, 0),
                    opening: at,
                    from: at,
                });
                Ok(1)
            }
            Cut::Token { lexeme } => {
                self.accept(alloc, met, lexeme, at, z)?;
                Ok(lexeme.len)
            }
            Cut::Outside => Err(LexEnd::Outside { at }),
            Cut::Bad => Err(LexEnd::Bad { at }),
        }
    }

    fn leave(&mut self, is_end: bool)
        ensures { self.new ≡ spec.left is_end self.old }
    {
        let before = if is_end {
            Before::Operand
        } else {
            Before::Plain
        };
        self.string = None;
        self.look = Look {
            before,
            is_blank: false,
            is_fresh: false,
        };
        self.last = before;
        self.keeps = true;
    }

    fn push_piece(
        &mut self,
        alloc: Global,
        met: &mut Met,
        piece: &[u8],
        start: u32,
        end: u32,
    ) -> Result<(), LexEnd>
        requires { IsUtf8 piece.now }
        ensures { Gives (λ _. self.new) result (Ok (spec.pushed (TokenKind.Text piece.now) start end self.old)) }
    {
        let words = copied(alloc, met, piece)?;
        self.push(TokenKind::Text { words }, start, end)
    }

    fn quoted(
        &mut self,
        alloc: Global,
        met: &mut Met,
        opened: Opened,
        at: u32,
        len: usize,
        z: &[u8],
    ) -> Result<usize, LexEnd>
        requires within { len < length z.now }
        requires fits { at + length z.now < 2 ^ 31 }
        requires text { IsUtf8 (take len z.now) }
        ensures value { Gives (λ n. (n, self.new)) result (spec.quoted opened at len z.now self.old) }
        ensures within { IfOk result (λ n. (0 < n) × (n ≤ length z.now)) }
    {
        if is_touched(after(z, len + 1)) {
            return Err(LexEnd::Outside { at: opened.opening });
        }
        let end = at + len as u32 + 1;
        self.push_piece(alloc, met, &z[..len], opened.from, end)?;
        self.leave(true);
        Ok(len + 1)
    }

    fn interpolated(
        &mut self,
        alloc: Global,
        met: &mut Met,
        opened: Opened,
        at: u32,
        len: usize,
        z: &[u8],
    ) -> Result<usize, LexEnd>
        requires within { len + 1 < length z.now }
        requires fits { at + length z.now < 2 ^ 31 }
        requires text { IsUtf8 (take len z.now) }
        ensures value { Gives (λ n. (n, self.new)) result (spec.interpolated opened at len z.now self.old) }
        ensures within { IfOk result (λ n. (0 < n) × (n ≤ length z.now)) }
    {
        let end = at + len as u32;
        self.push_piece(alloc, met, &z[..len], opened.from, end)?;
        self.push(TokenKind::Interpolation, end, end + 2)?;
        self.nesting.push(Some(opened.opening))?;
        self.leave(false);
        Ok(len + 2)
    }

    #[tactic(auto, unfolding(crate::specs::Lexed::string_step))]
    fn string_step(
        &mut self,
        alloc: Global,
        met: &mut Met,
        opened: Opened,
        at: u32,
        z: &[u8],
    ) -> Result<usize, LexEnd>
        requires fits { at + length z.now < 2 ^ 31 }
        requires text { IsUtf8 z.now }
        requires quote { opened.quote < 128 }
        ensures value { Gives (λ n. (n, self.new)) result (spec.string_step opened at z.now self.old) }
        ensures within { IfOk result (λ n. (0 < n) × (n ≤ length z.now)) }
    {
        let piece = piece_of(opened.quote, z);
        match piece.stop {
            Stop::Quote => self.quoted(alloc, met, opened, at, piece.len, z),
            Stop::Interpolation => self.interpolated(alloc, met, opened, at, piece.len, z),
            Stop::Foreign => Err(LexEnd::Outside {
                at: at + piece.len as u32,
            }),
            Stop::End => Err(LexEnd::Bad {
                at: at + piece.len as u32,
            }),
        }
    }

    /// Takes one step from the place `at`, after which `z` stands, and answers how many bytes it takes. Words that were met before are shared.
    #[tactic(auto, unfolding(crate::specs::Lexed::step))]
    pub fn step(&mut self, alloc: Global, met: &mut Met, at: u32, z: &[u8]) -> Result<usize, LexEnd>
        requires some { 0 < length z.now }
        requires fits { at + length z.now < 2 ^ 31 }
        requires text { IsUtf8 z.now }
        requires quote { spec.IsQuoted self.old.string }
        ensures value { Gives (λ n. (n, self.new)) result (spec.step at z.now self.old) }
        ensures within { IfOk result (λ n. (0 < n) × (n ≤ length z.now)) }
    {
        match self.string {
            Some(opened) => self.string_step(alloc, met, opened, at, z),
            None => self.code_step(alloc, met, at, z),
        }
    }

    fn is_inside(&self) -> bool
        ensures { result ≡ spec.is_inside self.now.nesting }
    {
        for frame in self.nesting.as_slice() {
            if frame.is_some() {
                return true;
            }
        }
        false
    }

    /// Whether the text may end here. No string and no interpolation may be open.
    pub fn finish(&self, at: u32) -> Result<(), LexEnd>
        ensures { Gives (λ _. self.now.tokens) result (spec.finished at self.now) }
    {
        if self.string.is_some() || self.is_inside() {
            return Err(LexEnd::Bad { at });
        }
        Ok(())
    }

    /// The tokens before the place.
    pub fn into_tokens(self) -> Vec<Token>
        ensures { result.items ≡ self.tokens }
    {
        let State { tokens, .. } = self;
        tokens.into_vec()
    }
}

fn string_after(end: u32, last: Option<&Option<u32>>) -> Option<Opened>
    ensures { result ≡ spec.string_after end (option_copied last.entry) }
{
    match last {
        Some(Some(opening)) => Some(Opened {
            quote: b'"',
            opening: *opening,
            from: end,
        }),
        _ => None,
    }
}
