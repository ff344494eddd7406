use srb_terms::{Diag, Items};

/// What a worker found of one file.
#[derive(Debug, Drop)]
pub struct Item {
    /// The file's number, counted from 0 in the order of the work.
    pub number: u64,
    /// The file's errors.
    pub list: Items<Diag>,
}

/// A view of the work, by which an item is right or not. Contracts alone know which.
pub trait Right: Drop {
    ghost use Rattle.run_queues.specs.declared.item.Item.{Item};

    /// Whether the item is right by the view.
    ghost right: { Self → Item → Type 0 };
}
