use srb_rules::Position;
use srb_terms::{Names, Path, Span};

/// A reference to a constant.
#[derive(Drop)]
pub struct Reference {
    /// The full names of the enclosing class and module bodies, the innermost first.
    pub scope: Names,
    /// The path as it is written. One that begins with `::` has an empty first name.
    pub path: Path,
    /// Whether ancestors are looked at.
    pub position: Position,
    /// Whether it must stand for a class or module, as the names in front of the last one of a declared path.
    pub wants_body: bool,
    /// The place of the path.
    pub span: Span,
}
