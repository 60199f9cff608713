//! Verbs, and calls as they are said: a verb and its arguments.
ghost use Rattle.std.specs.Prelude.{◌≡◌};
ghost use Rattle.vocabulary.specs.Words.{amount_call, has_item, has_number, has_word, is_verb_text, item_call, lone_call, pair_call, phrase_of, verb_of_text, verb_since, verb_text, verbs_of};

use crate::word::Word;
use atoms::{AccountCall, Amount, CounterCall, DirectoryCall, Item, MaxCall, QueueCall, SetCall};
use objects::{Call, Kind};

/// The verbs that take an amount.
#[derive(Clone, Copy, Debug, Drop, PartialEq, Eq)]
pub enum AmountVerb {
    Deposit,
    Withdraw,
    Add,
    Sub,
    Raise,
}

/// The verbs that take an item.
#[derive(Clone, Copy, Debug, Drop, PartialEq, Eq)]
pub enum ItemVerb {
    Insert,
    Remove,
    Has,
    Enq,
    Unbind,
    Lookup,
}

/// The verbs that take a key and an item.
#[derive(Clone, Copy, Debug, Drop, PartialEq, Eq)]
pub enum PairVerb {
    Bind,
    Put,
}

/// The verbs that take nothing.
#[derive(Clone, Copy, Debug, Drop, PartialEq, Eq)]
pub enum LoneVerb {
    Balance,
    Read,
    Size,
    Deq,
    Length,
    Top,
}

/// A call without its arguments, by what it takes.
#[derive(Clone, Copy, Debug, Drop, PartialEq, Eq)]
pub enum Verb {
    OfAmount(AmountVerb),
    OfItem(ItemVerb),
    OfPair(PairVerb),
    Alone(LoneVerb),
}

const ACCOUNT_VERBS: [Verb; 3] = [
    Verb::OfAmount(AmountVerb::Deposit),
    Verb::OfAmount(AmountVerb::Withdraw),
    Verb::Alone(LoneVerb::Balance),
];

const COUNTER_VERBS: [Verb; 3] = [
    Verb::OfAmount(AmountVerb::Add),
    Verb::OfAmount(AmountVerb::Sub),
    Verb::Alone(LoneVerb::Read),
];

const SET_VERBS: [Verb; 4] = [
    Verb::OfItem(ItemVerb::Insert),
    Verb::OfItem(ItemVerb::Remove),
    Verb::OfItem(ItemVerb::Has),
    Verb::Alone(LoneVerb::Size),
];

const QUEUE_VERBS: [Verb; 3] = [
    Verb::OfItem(ItemVerb::Enq),
    Verb::Alone(LoneVerb::Deq),
    Verb::Alone(LoneVerb::Length),
];

const DIRECTORY_VERBS: [Verb; 4] = [
    Verb::OfPair(PairVerb::Bind),
    Verb::OfPair(PairVerb::Put),
    Verb::OfItem(ItemVerb::Unbind),
    Verb::OfItem(ItemVerb::Lookup),
];

const MAX_VERBS: [Verb; 2] = [
    Verb::OfAmount(AmountVerb::Raise),
    Verb::Alone(LoneVerb::Top),
];

/// The verbs of a kind's calls.
pub fn verbs_of(kind: Kind) -> &'static [Verb]
    ensures { result.now ≡ verbs_of kind }
{
    match kind {
        Kind::Account => &ACCOUNT_VERBS,
        Kind::Counter => &COUNTER_VERBS,
        Kind::Set => &SET_VERBS,
        Kind::Queue => &QUEUE_VERBS,
        Kind::Directory => &DIRECTORY_VERBS,
        Kind::Max => &MAX_VERBS,
    }
}

impl Verb {
    /// The word for the verb.
    pub fn text(self) -> &'static str
        ensures { result.now ≡ verb_text self }
    {
        match self {
            Verb::OfAmount(AmountVerb::Deposit) => "deposit",
            Verb::OfAmount(AmountVerb::Withdraw) => "withdraw",
            Verb::OfAmount(AmountVerb::Add) => "add",
            Verb::OfAmount(AmountVerb::Sub) => "sub",
            Verb::OfAmount(AmountVerb::Raise) => "raise",
            Verb::OfItem(ItemVerb::Insert) => "insert",
            Verb::OfItem(ItemVerb::Remove) => "remove",
            Verb::OfItem(ItemVerb::Has) => "has",
            Verb::OfItem(ItemVerb::Enq) => "enq",
            Verb::OfItem(ItemVerb::Unbind) => "unbind",
            Verb::OfItem(ItemVerb::Lookup) => "lookup",
            Verb::OfPair(PairVerb::Bind) => "bind",
            Verb::OfPair(PairVerb::Put) => "put",
            Verb::Alone(LoneVerb::Balance) => "balance",
            Verb::Alone(LoneVerb::Read) => "read",
            Verb::Alone(LoneVerb::Size) => "size",
            Verb::Alone(LoneVerb::Deq) => "deq",
            Verb::Alone(LoneVerb::Length) => "length",
            Verb::Alone(LoneVerb::Top) => "top",
        }
    }

    // The first version of documents that has the verb.
    fn since(self) -> u8
        ensures { result ≡ verb_since self }
    {
        match self {
            Verb::Alone(LoneVerb::Length) => 2,
            _ => 1,
        }
    }

    // Whether the text is the word for the verb in a document of a version.
    fn is_text(self, version: u8, text: &str) -> bool
        ensures { result ≡ is_verb_text version text.now self }
    {
        self.text() == text && self.since() <= version
    }

    /// The verb of a kind that a word names in a document of a version.
    #[tactic(auto, unfolding(crate::specs::Words::verb_of_text))]
    pub fn of_text(version: u8, kind: Kind, text: &str) -> Option<Verb>
        ensures { result ≡ verb_of_text version kind text.now }
    {
        verbs_of(kind)
            .iter()
            .copied()
            .find(|verb| verb.is_text(version, text))
    }

    /// Whether a reply to the verb can begin with the word.
    pub fn has_word(self, word: Word) -> bool
        ensures { result ≡ has_word self word }
    {
        match self {
            Verb::OfAmount(AmountVerb::Withdraw) => matches!(word, Word::Ok | Word::No),
            Verb::OfAmount(_) => matches!(word, Word::Ok),
            Verb::OfItem(verb) => verb.has_word(word),
            Verb::OfPair(PairVerb::Bind) => matches!(word, Word::Bound | Word::Taken),
            Verb::OfPair(PairVerb::Put) => matches!(word, Word::Ok),
            Verb::Alone(LoneVerb::Deq) => matches!(word, Word::Got | Word::Empty),
            Verb::Alone(_) => false,
        }
    }

    /// Whether each reply to the verb is a number.
    pub fn has_number(self) -> bool
        ensures { result ≡ has_number self }
    {
        match self {
            Verb::Alone(verb) => !matches!(verb, LoneVerb::Deq),
            _ => false,
        }
    }

    /// Whether a reply to the verb can have an item.
    pub fn has_item(self) -> bool
        ensures { result ≡ has_item self }
    {
        matches!(
            self,
            Verb::Alone(LoneVerb::Deq) | Verb::OfItem(ItemVerb::Lookup)
        )
    }
}

impl AmountVerb {
    /// The call of this amount.
    pub fn call(self, amount: Amount) -> Call
        ensures { result ≡ amount_call self amount }
    {
        match self {
            AmountVerb::Deposit => Call::Account(AccountCall::Deposit(amount)),
            AmountVerb::Withdraw => Call::Account(AccountCall::Withdraw(amount)),
            AmountVerb::Add => Call::Counter(CounterCall::Add(amount)),
            AmountVerb::Sub => Call::Counter(CounterCall::Sub(amount)),
            AmountVerb::Raise => Call::Max(MaxCall::Raise(amount)),
        }
    }
}

impl ItemVerb {
    /// The call of this item.
    pub fn call(self, item: Item) -> Call
        ensures { result ≡ item_call self item }
    {
        match self {
            ItemVerb::Insert => Call::Set(SetCall::Insert(item)),
            ItemVerb::Remove => Call::Set(SetCall::Remove(item)),
            ItemVerb::Has => Call::Set(SetCall::Has(item)),
            ItemVerb::Enq => Call::Queue(QueueCall::Enq(item)),
            ItemVerb::Unbind => Call::Directory(DirectoryCall::Unbind(item)),
            ItemVerb::Lookup => Call::Directory(DirectoryCall::Lookup(item)),
        }
    }

    fn has_word(self, word: Word) -> bool
        ensures { result ≡ has_word (Verb.OfItem self) word }
    {
        match self {
            ItemVerb::Insert => matches!(word, Word::Added | Word::Present),
            ItemVerb::Remove => matches!(word, Word::Removed | Word::Absent),
            ItemVerb::Has => matches!(word, Word::Yes | Word::No),
            ItemVerb::Enq => matches!(word, Word::Ok),
            ItemVerb::Unbind => matches!(word, Word::Gone | Word::Missing),
            ItemVerb::Lookup => matches!(word, Word::Found | Word::Missing),
        }
    }
}

impl PairVerb {
    /// The call of this key and this item.
    pub fn call(self, key: Item, item: Item) -> Call
        ensures { result ≡ pair_call self key item }
    {
        match self {
            PairVerb::Bind => Call::Directory(DirectoryCall::Bind(key, item)),
            PairVerb::Put => Call::Directory(DirectoryCall::Put(key, item)),
        }
    }
}

impl LoneVerb {
    /// The call.
    pub fn call(self) -> Call
        ensures { result ≡ lone_call self }
    {
        match self {
            LoneVerb::Balance => Call::Account(AccountCall::Balance),
            LoneVerb::Read => Call::Counter(CounterCall::Read),
            LoneVerb::Size => Call::Set(SetCall::Size),
            LoneVerb::Deq => Call::Queue(QueueCall::Deq),
            LoneVerb::Length => Call::Queue(QueueCall::Length),
            LoneVerb::Top => Call::Max(MaxCall::Top),
        }
    }
}

/// A call as it is said: its verb, with what it takes. Of a pair the key comes first.
#[derive(Clone, Copy, Debug, Drop, PartialEq, Eq)]
pub enum Phrase {
    OfAmount(AmountVerb, Amount),
    OfItem(ItemVerb, Item),
    OfPair(PairVerb, Item, Item),
    Alone(LoneVerb),
}

/// The phrase of a call.
pub fn phrase_of(call: &Call) -> Phrase
    ensures { result ≡ phrase_of call.now }
{
    match *call {
        Call::Account(AccountCall::Deposit(amount)) => Phrase::OfAmount(
            AmountVerb::Deposit,
            amount,
        ),
        Call::Account(AccountCall::Withdraw(amount)) => Phrase::OfAmount(
            AmountVerb::Withdraw,
            amount,
        ),
        Call::Account(AccountCall::Balance) => Phrase::Alone(LoneVerb::Balance),
        Call::Counter(CounterCall::Add(amount)) => Phrase::OfAmount(AmountVerb::Add, amount),
        Call::Counter(CounterCall::Sub(amount)) => Phrase::OfAmount(AmountVerb::Sub, amount),
        Call::Counter(CounterCall::Read) => Phrase::Alone(LoneVerb::Read),
        Call::Set(SetCall::Insert(item)) => Phrase::OfItem(ItemVerb::Insert, item),
        Call::Set(SetCall::Remove(item)) => Phrase::OfItem(ItemVerb::Remove, item),
        Call::Set(SetCall::Has(item)) => Phrase::OfItem(ItemVerb::Has, item),
        Call::Set(SetCall::Size) => Phrase::Alone(LoneVerb::Size),
        Call::Queue(QueueCall::Enq(item)) => Phrase::OfItem(ItemVerb::Enq, item),
        Call::Queue(QueueCall::Deq) => Phrase::Alone(LoneVerb::Deq),
        Call::Queue(QueueCall::Length) => Phrase::Alone(LoneVerb::Length),
        Call::Directory(DirectoryCall::Bind(key, item)) => Phrase::OfPair(
            PairVerb::Bind,
            key,
            item,
        ),
        Call::Directory(DirectoryCall::Put(key, item)) => Phrase::OfPair(PairVerb::Put, key, item),
        Call::Directory(DirectoryCall::Unbind(key)) => Phrase::OfItem(ItemVerb::Unbind, key),
        Call::Directory(DirectoryCall::Lookup(key)) => Phrase::OfItem(ItemVerb::Lookup, key),
        Call::Max(MaxCall::Raise(amount)) => Phrase::OfAmount(AmountVerb::Raise, amount),
        Call::Max(MaxCall::Top) => Phrase::Alone(LoneVerb::Top),
    }
}
