//! Replies as they are said.
ghost use Rattle.std.specs.Prelude.{◌≡◌};
ghost use Rattle.vocabulary.specs.Words.{response_item, response_of, response_word};

use crate::Word;
use atoms::{AccountReply, CounterReply, DirectoryReply, Item, MaxReply, QueueReply, SetReply};
use objects::Reply;

/// A reply as it is said: a word, a word with an item, or a number.
#[derive(Clone, Copy, Debug, PartialEq, Eq)]
pub enum Response {
    Word(Word),
    WithItem(Word, Item),
    /// A number from 0 on.
    Number(u64),
    /// A number that may be below 0.
    Signed(i64),
}

impl Response {
    /// The first word, where it isn't a number.
    pub fn word(self) -> Option<Word>
        ensures { result ≡ response_word self }
    {
        match self {
            Response::Word(word) | Response::WithItem(word, _) => Some(word),
            Response::Number(_) | Response::Signed(_) => None,
        }
    }

    /// The item, where there is one.
    pub fn item(self) -> Option<Item>
        ensures { result ≡ response_item self }
    {
        match self {
            Response::WithItem(_, item) => Some(item),
            _ => None,
        }
    }
}

/// The reply as it is said.
pub fn response_of(reply: &Reply) -> Response
    ensures { result ≡ response_of reply.now }
{
    match *reply {
        Reply::Account(AccountReply::Ok) => Response::Word(Word::Ok),
        Reply::Account(AccountReply::No) => Response::Word(Word::No),
        Reply::Account(AccountReply::Number(number)) => Response::Number(number),
        Reply::Counter(CounterReply::Ok) => Response::Word(Word::Ok),
        Reply::Counter(CounterReply::Number(number)) => Response::Signed(number),
        Reply::Set(SetReply::Added) => Response::Word(Word::Added),
        Reply::Set(SetReply::Present) => Response::Word(Word::Present),
        Reply::Set(SetReply::Removed) => Response::Word(Word::Removed),
        Reply::Set(SetReply::Absent) => Response::Word(Word::Absent),
        Reply::Set(SetReply::Yes) => Response::Word(Word::Yes),
        Reply::Set(SetReply::No) => Response::Word(Word::No),
        Reply::Set(SetReply::Number(number)) => Response::Number(number),
        Reply::Queue(QueueReply::Ok) => Response::Word(Word::Ok),
        Reply::Queue(QueueReply::Got(item)) => Response::WithItem(Word::Got, item),
        Reply::Queue(QueueReply::Empty) => Response::Word(Word::Empty),
        Reply::Queue(QueueReply::Number(number)) => Response::Number(number),
        Reply::Directory(DirectoryReply::Ok) => Response::Word(Word::Ok),
        Reply::Directory(DirectoryReply::Bound) => Response::Word(Word::Bound),
        Reply::Directory(DirectoryReply::Taken) => Response::Word(Word::Taken),
        Reply::Directory(DirectoryReply::Gone) => Response::Word(Word::Gone),
        Reply::Directory(DirectoryReply::Missing) => Response::Word(Word::Missing),
        Reply::Directory(DirectoryReply::Found(item)) => Response::WithItem(Word::Found, item),
        Reply::Max(MaxReply::Ok) => Response::Word(Word::Ok),
        Reply::Max(MaxReply::Number(number)) => Response::Number(number),
    }
}
