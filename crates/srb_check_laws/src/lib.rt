//! The laws on what loading keeps of a file and on the places of a file's errors, which rest on those of the tokens and of the grammar, without
//! which the program is built, and on what the summaries of a project's files decide.
#![tactic(auto)]

ghost use Rattle.std.specs.Prelude.{ℕ, List};
ghost use Rattle.srb_terms.specs.declared.fact.Fact.{Fact};
ghost use Rattle.srb_check.specs.Checks.{errors_of};
ghost use Rattle.srb_check_laws.specs.ArrangedExamples.{EachHasItsPlace, EachIsKeptOnce};
ghost use Rattle.srb_check_laws.specs.Loaded.{LoadedIsKept};
ghost use Rattle.srb_check_laws.specs.LoadedExamples.{BracketIsASyntaxError, ByteIsNoText, GlobalIsOutsideTheProfile, IgnoredHasNone, LastIsDeeper};
ghost use Rattle.srb_check_laws.specs.Placed.{AreAtPlaces, ErrorsStandAtTokens, ErrorsStandInTrees, FilesErrInTrees, NodesStandInTrees, TypeErrorsStandAtNodes};
ghost use Rattle.srb_check_laws.specs.PlacedExamples.{OperatorIsAPlace, ShortErrsInItsTree};
ghost use Rattle.srb_check_laws.specs.Summaries.{SummariesGiveErrors, SummariesGiveFacts, SummariesGiveTables};

/// What `load` keeps of a file is the one record that the file's bytes tell: its size is tested first, then whether it is UTF-8, then which
/// level it asks for, and then what its text is by the rules of tokens and the grammar. So each of the errors 9002, 9009, 2001, 9001 and 9008 is
/// kept exactly where the bytes have it, with its place and text, and a file with none of them has a tree, but at `ignore`.
pub fn loading_keeps_what_the_bytes_tell()
    ensures { LoadedIsKept }
{}

/// A file that is no Ruby, one outside the profile, one that nests too deep, one that is no UTF-8, and one that asks to be ignored.
pub fn examples_are_kept()
    ensures bracket { BracketIsASyntaxError }
    ensures global { GlobalIsOutsideTheProfile }
    ensures deep { LastIsDeeper }
    ensures byte { ByteIsNoText }
    ensures ignored { IgnoredHasNone }
{}

/// An error that is found twice stands in a report once, and errors go by their start, then by their end, number and text.
pub fn errors_are_arranged()
    ensures once { EachIsKeptOnce }
    ensures places { EachHasItsPlace }
{}

/// Under any facts each error of a file starts and ends at the file's start, or else where a character of UTF-8 starts or the file ends, and it
/// doesn't end before it starts.
pub fn errors_are_at_places()
    ensures { (facts : List Fact) (bytes : List ℕ) → AreAtPlaces bytes (errors_of facts bytes) }
{}

/// Under any facts each error of a program stands at its tokens.
pub fn errors_are_at_tokens()
    ensures { ErrorsStandAtTokens }
{}

/// Under any facts each error of a file that has a tree, and of a program, stands at a place that its tree carries, and each error of types at a
/// place of a node, a name or the like in it, as that of an operator is. The latter are among the former.
pub fn errors_are_at_nodes()
    ensures files { FilesErrInTrees }
    ensures programs { ErrorsStandInTrees }
    ensures types { TypeErrorsStandAtNodes }
    ensures among { NodesStandInTrees }
    ensures operator { OperatorIsAPlace }
    ensures short { ShortErrsInItsTree }
{}

/// Projects whose files have equal summaries, one after the other, have equal facts. So a symbol table that stands for the facts of one stands
/// for those of the other, and a file has the same errors in both.
pub fn equal_summaries_are_equal_facts()
    ensures facts { SummariesGiveFacts }
    ensures tables { SummariesGiveTables }
    ensures errors { SummariesGiveErrors }
{}
