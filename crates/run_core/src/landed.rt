use lsp_msg::Out;
use run_queues::Item;
use run_watch::Step;

/// What came of errors of a file. The step is the one that was made.
#[derive(Debug, Drop)]
pub enum Landed {
    /// They were worked in, and this message is to be written.
    Shown(Step, Out),
    /// They were worked in, and nothing is to be written.
    Quiet(Step),
    /// They were thrown away.
    Dropped(Step),
    /// Nothing was done: they have to wait until the inbox was looked at, or until the files that are owed were worked on.
    Later(Item),
}
