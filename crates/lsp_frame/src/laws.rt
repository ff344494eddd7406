//! What the definitions of this crate say of one another.

ghost use Rattle.std.specs.Prelude.{◌≡◌, ◌++◌, ℕ, List, [], ◌∷◌};
ghost use Rattle.lsp_frame.specs.Head.{head_of};
ghost use Rattle.lsp_frame.specs.Bodies.{bodies_of, IsReadTo};
ghost use Rattle.lsp_frame.specs.Bodies.Ending.{Closed};
ghost use Rattle.lsp_frame.specs.Stream.{Stream, Gives};
ghost use Rattle.lsp_frame.specs.Written.{frames, AreWithin};
ghost use Rattle.lsp_frame.specs.Grammar.{HeadSays, BodiesSay, IsFrames, BreaksAt, IsLeastBreak};

/// The head that is found at the front of some bytes, or the place where they break, is that of the grammar.
pub fn heads()
    ensures { (bytes : List ℕ) → HeadSays bytes (head_of bytes) }
{}

/// The bodies of an input and its end are those of the grammar.
pub fn bodies()
    ensures { (bytes : List ℕ) → BodiesSay bytes 0 (bodies_of bytes) }
{}

/// A break is the least one: some list of frames begins with the bytes before it, and none with the byte there too,
/// unless a head has come to its limit.
pub fn breaks()
    ensures { (front rest : List ℕ) (bodies : List (List ℕ)) (size : ℕ) → IsFrames front bodies → BreaksAt rest size
        → IsLeastBreak front rest size }
{}

/// The frames that are written of some bodies have these bodies.
pub fn written()
    ensures { (bodies : List (List ℕ)) → AreWithin bodies
        → bodies_of (frames bodies) ≡ record { list = bodies; end = Closed } }
{}

/// What was read of an input, call after call, is frames of the bodies that were given, and the pending bytes after
/// them: at the start, after a call that gave a body, and after one that answered otherwise.
pub fn reads()
    ensures start { IsReadTo [] [] [] 0 }
    ensures body { (read : List ℕ) (given : List (List ℕ)) (pending : List ℕ) (at : ℕ) (new body : List ℕ) (after : Stream)
        → IsReadTo read given pending at → Gives (pending ++ new) at after body
        → IsReadTo (read ++ new) (given ++ (body ∷ [])) after.pending after.at }
    ensures other { (read : List ℕ) (given : List (List ℕ)) (pending : List ℕ) (at : ℕ) (new : List ℕ)
        → IsReadTo read given pending at → IsReadTo (read ++ new) given (pending ++ new) at }
{}
