use crate::Item;
use std::collections::LinkedList;

/// What the queue holds: items, or the view while the queue is made.
#[derive(Drop)]
pub enum Entry<W> {
    View(W),
    Found(Item),
}

/// How far a pass has come. No value of it is made.
pub enum Stage {
    /// The queue is being made, and no view was told.
    Opening,
    /// The view lies in the queue.
    Telling,
    /// Items are put and taken.
    Working,
    /// The pass was joined away.
    Spent,
}

/// What a pass shows. No value of it is made.
pub struct Shown<W> {
    pub stage: Stage,
    /// The view, once it was told.
    pub view: Option<W>,
    /// The items that the pass gave, in order.
    pub gave: LinkedList<Item>,
    /// The items that the pass got, in order.
    pub got: LinkedList<Item>,
    /// How many puts and takes the pass may still make.
    pub left: u64,
}
