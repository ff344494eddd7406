use srb_terms::{How, Kind, Name, Names, Path, Span};
use std::fmt;

/// What a statement declares, and where. Names are full, and a scope is the list of the full names of the enclosing class and module
/// bodies, the innermost first.
#[derive(Drop)]
pub enum Declaration {
    /// A class or module: its name, and the place of its path.
    Body {
        name: Name,
        kind: Kind,
        span: Span,
    },
    /// A constant that is assigned to: its name and its place.
    Constant {
        name: Name,
        span: Span,
    },
    /// A superclass that is written: the name of its class, the scope around the class, the path as it is written, and its place.
    Superclass {
        of: Name,
        scope: Names,
        path: Path,
        span: Span,
    },
    /// An argument of `include` or `extend` that is a path of constants: the name of the class or module in whose body it stands, the
    /// scope of that body, the path as it is written, and its place.
    Mixin {
        of: Name,
        scope: Names,
        path: Path,
        how: How,
        span: Span,
    },
    /// An argument of `include` or `extend` that is none: its whole place.
    OtherMixin {
        span: Span,
    },
}

/// Names as they are printed: each after a blank.
#[derive(Clone, Copy)]
struct Printed<'a> {
    names: &'a Names,
}

impl<'a> fmt::Debug for Printed<'a> {
    fn fmt<W: fmt::Write>(&self, f: &mut fmt::Formatter<W>) -> fmt::Result {
        let mut left = self.names;
        while let Some((first, rest)) = left.split() {
            f.write_str(" ")?;
            f.write_str(first.as_str())?;
            left = rest;
        }
        Ok(())
    }
}

impl fmt::Debug for Declaration {
    fn fmt<W: fmt::Write>(&self, f: &mut fmt::Formatter<W>) -> fmt::Result {
        match self {
            Declaration::Body { name, kind, span } => write!(f, "Body {name} {kind:?} {span:?}"),
            Declaration::Constant { name, span } => write!(f, "Constant {name} {span:?}"),
            Declaration::Superclass {
                of,
                scope,
                path,
                span,
            } => {
                let scope = Printed { names: scope };
                let path = Printed { names: path };
                write!(f, "Superclass {of} scope{scope:?} path{path:?} {span:?}")
            }
            Declaration::Mixin {
                of,
                scope,
                path,
                how,
                span,
            } => {
                let scope = Printed { names: scope };
                let path = Printed { names: path };
                write!(f, "Mixin {of} scope{scope:?} path{path:?} {how:?} {span:?}")
            }
            Declaration::OtherMixin { span } => write!(f, "OtherMixin {span:?}"),
        }
    }
}
