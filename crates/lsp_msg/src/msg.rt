ghost use Rattle.std.specs.Prelude.{◌≡◌, IfOk};

use crate::{Change, Id};
use srb_terms::{Items, NoMemory, Words};
use std::alloc::Global;

/// What the client says: one message, read from the body of a frame.
#[derive(Debug, Drop)]
pub enum Msg {
    /// The request `initialize`, with the root that it names, if it names one, and the position encodings that the client
    /// lists, in its order.
    Initialize {
        id: Id,
        root: Option<Words>,
        encodings: Items<Words>,
    },
    /// `textDocument/didOpen`: the document has this text.
    Opened {
        uri: Words,
        text: Words,
    },
    /// `textDocument/didChange`: the changes, in order.
    Changed {
        uri: Words,
        changes: Items<Change>,
    },
    /// `textDocument/didSave`.
    Saved {
        uri: Words,
    },
    /// `textDocument/didClose`.
    Closed {
        uri: Words,
    },
    /// The request `shutdown`.
    Shutdown {
        id: Id,
    },
    /// `exit`.
    Exit,
    /// A request of a method that isn't served.
    Unknown {
        id: Id,
    },
    /// A message that nothing follows from: a notification that isn't served, or a reply.
    Ignored,
    /// A message of a served method whose parameters can't be read. With an id it is a request.
    BadParams {
        method: Words,
        id: Option<Id>,
    },
    /// No message: the code says why, and the id is there if it could be read.
    Bad {
        code: i32,
        id: Option<Id>,
    },
}

impl Msg {
    /// A copy of this message.
    pub fn copied(&self, alloc: Global) -> Result<Msg, NoMemory>
        ensures { IfOk result (λ msg. msg ≡ self.now) }
    {
        match self {
            Msg::Initialize {
                id,
                root,
                encodings,
            } => Ok(Msg::Initialize {
                id: id.copied()?,
                root: copied_text(root)?,
                encodings: copied_texts(alloc, encodings.as_slice())?,
            }),
            Msg::Opened { uri, text } => Ok(Msg::Opened {
                uri: uri.copied()?,
                text: text.copied()?,
            }),
            Msg::Changed { uri, changes } => Ok(Msg::Changed {
                uri: uri.copied()?,
                changes: copied_changes(alloc, changes.as_slice())?,
            }),
            Msg::Saved { uri } => Ok(Msg::Saved { uri: uri.copied()? }),
            Msg::Closed { uri } => Ok(Msg::Closed { uri: uri.copied()? }),
            Msg::Shutdown { id } => Ok(Msg::Shutdown { id: id.copied()? }),
            Msg::Exit => Ok(Msg::Exit),
            Msg::Unknown { id } => Ok(Msg::Unknown { id: id.copied()? }),
            Msg::Ignored => Ok(Msg::Ignored),
            Msg::BadParams { method, id } => Ok(Msg::BadParams {
                method: method.copied()?,
                id: copied_id(id)?,
            }),
            Msg::Bad { code, id } => Ok(Msg::Bad {
                code: *code,
                id: copied_id(id)?,
            }),
        }
    }
}

fn copied_id(id: &Option<Id>) -> Result<Option<Id>, NoMemory>
    ensures { IfOk result (λ copy. copy ≡ id.now) }
{
    match id {
        None => Ok(None),
        Some(id) => Ok(Some(id.copied()?)),
    }
}

fn copied_text(text: &Option<Words>) -> Result<Option<Words>, NoMemory>
    ensures { IfOk result (λ copy. copy ≡ text.now) }
{
    match text {
        None => Ok(None),
        Some(text) => Ok(Some(text.copied()?)),
    }
}

fn copied_texts(alloc: Global, texts: &[Words]) -> Result<Items<Words>, NoMemory>
    ensures { IfOk result (λ copy. copy ≡ texts.now) }
{
    let mut copy = Items::new(alloc);
    'texts: for text in texts {
        copy.push(text.copied()?)?;
    }
    Ok(copy)
}

fn copied_changes(alloc: Global, changes: &[Change]) -> Result<Items<Change>, NoMemory>
    ensures { IfOk result (λ copy. copy ≡ changes.now) }
{
    let mut copy = Items::new(alloc);
    'changes: for change in changes {
        copy.push(change.copied()?)?;
    }
    Ok(copy)
}
