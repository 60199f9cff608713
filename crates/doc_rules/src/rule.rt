//! The rules on the parts of a document.
ghost use Rattle.std.specs.Prelude.{◌≡◌};
ghost use Rattle.doc_rules.specs.Rules.{wrong_of, wrong_of_source};

use crate::form::Form;
use crate::subject::Subject;
use faults::Wrong;
use objects::Kind;
use vocabulary::Verb;

/// A place of an operation's array that has an item.
#[derive(Clone, Copy, Debug, Drop, PartialEq)]
pub enum OperandPlace {
    /// After the operation's word.
    Third,
    Fourth,
}

/// What is asked of the shape of a part. A version is that of the document.
#[derive(Clone, Copy, Debug, Drop)]
pub enum ShapeRule {
    /// It is an object of JSON whose members are all of a form.
    Members(Form),
    /// `ordtx` is a version.
    Version,
    /// `objects` is a list.
    Objects,
    /// `transactions` is a list.
    Transactions,
    /// `name` is a text.
    ObjectName,
    /// `kind` is a kind of the version.
    ObjectKind(u8),
    /// `start` is there.
    ObjectStart,
    /// A block is a list.
    Block,
    /// Just one member says what the step is.
    Sort,
    /// `as` is a text.
    Label,
    /// The object of an operation is a text.
    OperationObject,
    /// The word of an operation is a text.
    OperationWord,
    /// `else` of an operation is `true` or a text, where the version has it.
    Else(u8),
    /// An `if` has just one test.
    Test,
    /// `if` is a text.
    TestedLabel,
    /// `then` is there.
    Then,
    /// `sub` is there.
    Body,
    /// `handlers` is an object of JSON, where the version has handlers by reason.
    Handlers(u8),
    /// `abort` is `true`, or a text where the version has reasons.
    Abort(u8),
    /// `parallel` is a list.
    Children,
}

/// What has to be a name.
#[derive(Clone, Copy, Debug, Drop)]
pub enum NameRule {
    /// The `name` of an object.
    Object,
    /// An entry of a set or a queue.
    Entry,
    /// The key in an entry of a directory.
    PairKey,
    /// The item in an entry of a directory.
    PairItem,
    /// The label that `as` sets.
    Label,
    /// An argument of an operation.
    Argument(OperandPlace),
    /// The `item` of a test.
    TestedItem,
    /// The reasons of `handlers`.
    Handlers,
    /// The reason of an abort.
    Reason,
    /// The reason of an operation's `else`.
    Else,
}

/// What is asked of the arguments of an operation.
#[derive(Clone, Copy, Debug, Drop)]
pub enum ArgumentRule {
    /// There are as many as the verb takes.
    Count(Verb),
    /// It is an amount.
    Amount,
    /// It is a text.
    Item(OperandPlace),
}

/// What is asked of an argument that a label gives.
#[derive(Clone, Copy, Debug, Drop)]
pub enum SourceRule {
    /// It has the member `from` alone, which is a text.
    Label,
    /// The label is seen.
    Seen,
    /// What the label is of is a number.
    Number(Subject),
    /// What the label is of can have an item.
    Item(Subject),
}

/// What is asked of the test of an `if`.
#[derive(Clone, Copy, Debug, Drop)]
pub enum ConditionRule {
    /// `is` is a word that what the label is of can have.
    Word(Subject),
    /// What the label is of is a number.
    Number(Subject),
    /// `atleast` is a whole number of 64 bits.
    AtLeast,
    /// What the label is of can have an item.
    HasItem(Subject),
    /// `item` is a text.
    TestedItem,
}

/// What there may not be too many of in a document, by its version.
#[derive(Clone, Copy, Debug, Drop)]
pub enum CountRule {
    /// The bytes of the whole document.
    Bytes(u8),
    Objects(u8),
    Transactions(u8),
    /// The entries that objects start with.
    Entries(u8),
    Operations(u8),
    /// The other steps, and children.
    Nodes(u8),
}

/// What is asked of the start of an object.
#[derive(Clone, Copy, Debug, Drop)]
pub enum StartRule {
    /// An object of this kind can start with it.
    Of(Kind),
    /// An entry of a set or a queue is a text.
    Entry,
    /// No earlier entry of the set is the same.
    NewEntry,
    /// An entry of a directory is a list of two.
    Pair,
    /// The key is a text.
    PairKey,
    /// The item of the key is a text.
    PairItem,
    /// No earlier key of the directory is the same.
    NewKey,
}

/// What is asked of a document or a part of it, by what is wrong where it isn't kept.
#[derive(Clone, Copy, Debug, Drop)]
pub enum Rule {
    /// The bytes are JSON.
    Json,
    /// The part has the shape that its place asks for.
    Shape(ShapeRule),
    /// A text is a name.
    Name(u8, NameRule),
    /// No earlier object has the name.
    NewObject,
    /// An object has the name.
    KnownObject,
    /// In the version an object of this kind has the operation.
    KnownOperation(u8, Option<Kind>),
    /// An argument is what the operation takes.
    Argument(ArgumentRule),
    /// The argument at a place, which a label gives, is as it has to be.
    Source(OperandPlace, SourceRule),
    /// The label is seen.
    SeenLabel,
    /// The label is neither seen nor an earlier sibling's.
    NewLabel,
    /// A test fits its label.
    Condition(ConditionRule),
    /// A block is not too deep.
    Depth,
    /// There are not too many.
    Few(CountRule),
    /// An object can start so.
    Start(StartRule),
}

impl SourceRule {
    /// What is wrong with a document where the rule isn't kept.
    fn wrong(self) -> Wrong
        ensures { result ≡ wrong_of_source self }
    {
        match self {
            SourceRule::Label => Wrong::Argument,
            SourceRule::Seen => Wrong::UnknownLabel,
            SourceRule::Number(_) | SourceRule::Item(_) => Wrong::Condition,
        }
    }
}

impl Rule {
    /// What is wrong with a document where the rule isn't kept.
    pub fn wrong(self) -> Wrong
        ensures { result ≡ wrong_of self }
    {
        match self {
            Rule::Json => Wrong::NotJson,
            Rule::Shape(_) => Wrong::Shape,
            Rule::Name(_, _) => Wrong::Name,
            Rule::NewObject => Wrong::DuplicateObject,
            Rule::KnownObject => Wrong::UnknownObject,
            Rule::KnownOperation(_, _) => Wrong::UnknownOperation,
            Rule::Argument(_) => Wrong::Argument,
            Rule::Source(_, source) => source.wrong(),
            Rule::SeenLabel => Wrong::UnknownLabel,
            Rule::NewLabel => Wrong::DuplicateLabel,
            Rule::Condition(_) => Wrong::Condition,
            Rule::Depth => Wrong::Depth,
            Rule::Few(_) => Wrong::TooMany,
            Rule::Start(_) => Wrong::Start,
        }
    }
}
