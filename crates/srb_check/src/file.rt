use rb_tree::syntax::Tree;
use srb_summary::Summary;
use srb_terms::{Diag, Level};
use srb_text::Text;

/// What loading keeps of a file.
#[derive(Drop)]
pub struct FileRec {
    /// The text. `None` exactly for a file that is too large or is not UTF-8.
    pub text: Option<Text>,
    /// The level, `false` where there is no text.
    pub level: Level,
    /// The one error of a file that has no tree, but at `ignore`.
    pub error: Option<Diag>,
    /// The tree. `None` exactly at `ignore` and where there is such an error.
    pub tree: Option<Tree>,
    /// The facts that the file declares: none where there is no tree.
    pub summary: Summary,
}
