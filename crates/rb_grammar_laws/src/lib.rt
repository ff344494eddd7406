//! Laws on the grammar and the parser: what the grammar gives to tokens is what the parser answers of them, so that no tokens
//! have two trees.
//!
//! `rb_grammar` has the other half for each form: what is read of it derives. `Begins` has what forms begin with, and `Ends` what may stand
//! after them, so that a form is read to its end and no further.
#![tactic(auto)]

ghost use Rattle.rb_grammar_laws.specs.Examples.{APART, DISORDER, EQUALITIES, HasNoTree, INNER, REPEATED, TWICE, UNDIVIDED};
ghost use Rattle.rb_grammar_laws.specs.Laws.{BodiesBegin, FormsAnswer, ParsedExactly, ProgramsAnswer, RescuedAnswer, RescuedBegin, SimpleBegin, TermsBegin};

/// The first token of a term, of a simple statement and of a body is one of these, also where a `rescue` follows the body.
pub fn forms_begin()
    ensures terms { TermsBegin }
    ensures simple { SimpleBegin }
    ensures bodies { BodiesBegin }
    ensures rescued { RescuedBegin }
{}

/// What derives as a form, before tokens that end one, is read of it; so is a body before a `rescue` that a separator or nothing
/// parts from it. So a form has one tree, and ends at one place, since one is read.
pub fn forms_answer()
    ensures read { FormsAnswer }
    ensures rescued { RescuedAnswer }
{}

/// What derives as a program is read of it, however deep it nests: so no tokens have two trees, since one is read. `rb_decl` parses tokens
/// to a tree exactly where the grammar gives it to them and they nest too deep nowhere.
pub fn programs_answer()
    ensures read { ProgramsAnswer }
    ensures exactly { ParsedExactly }
{}

/// A few lists of tokens that are no program.
pub fn examples_have_none()
    ensures equalities { HasNoTree EQUALITIES }
    ensures apart { HasNoTree APART }
    ensures disorder { HasNoTree DISORDER }
    ensures twice { HasNoTree TWICE }
    ensures inner { HasNoTree INNER }
    ensures undivided { HasNoTree UNDIVIDED }
    ensures repeated { HasNoTree REPEATED }
{}
