//! Why the rules on names refuse a transaction.

ghost use Rattle.std.specs.Prelude.{◌≡◌};
ghost use Rattle.chain_names.specs.Refusals.{number_of};

/// Why the rules on names refuse a transaction.
#[derive(Clone, Copy, PartialEq, Eq, Debug)]
pub enum RuleRefusal {
    /// Two inputs or more spend the coin of a name.
    MultipleNameInputs,
    /// Two outputs or more hold a name.
    MultipleNameOutputs,
    /// An input spends the coin of a name, and the version is another than that of a name transaction.
    PlainWithNameInput,
    /// An output holds a name, and the version is another than that of a name transaction.
    PlainWithNameOutput,
    /// The version is that of a name transaction, and no output holds a name.
    NameWithoutOutput,
    /// The output that holds the name has less than the least amount.
    Greedy,
    /// A commitment that spends the coin of a name.
    NewWithNameInput,
    /// A commitment whose hash hasn't 20 bytes.
    NewWrongSize,
    /// A name is opened or updated, and no coin of a name is spent.
    UpdateWithoutInput,
    /// The name has more than 255 bytes.
    NameTooLong,
    /// The value has more than 1023 bytes.
    ValueTooLong,
    /// An update that spends a commitment.
    UpdateOfNew,
    /// An update that spends the coin of another name.
    NameMismatch,
    /// A name is opened, and the coin that is spent is no commitment.
    FirstNotFromNew,
    /// A name is opened fewer than 12 blocks after its commitment.
    Immature,
    /// The salt of the commitment has more than 20 bytes.
    RandTooLong,
    /// The commitment isn't to this salt and name.
    CommitMismatch,
    /// A name is opened that stands and isn't expired.
    NameTaken,
    /// The output is one that holds a coin already.
    DuplicateOutpoint,
}

impl RuleRefusal {
    /// The code of its reply: 10 to 28, in the order in which the refusals are looked for.
    pub fn number(self) -> u8
        ensures { result ≡ number_of self }
    {
        match self {
            RuleRefusal::MultipleNameInputs => 10,
            RuleRefusal::MultipleNameOutputs => 11,
            RuleRefusal::PlainWithNameInput => 12,
            RuleRefusal::PlainWithNameOutput => 13,
            RuleRefusal::NameWithoutOutput => 14,
            RuleRefusal::Greedy => 15,
            RuleRefusal::NewWithNameInput => 16,
            RuleRefusal::NewWrongSize => 17,
            RuleRefusal::UpdateWithoutInput => 18,
            RuleRefusal::NameTooLong => 19,
            RuleRefusal::ValueTooLong => 20,
            RuleRefusal::UpdateOfNew => 21,
            RuleRefusal::NameMismatch => 22,
            RuleRefusal::FirstNotFromNew => 23,
            RuleRefusal::Immature => 24,
            RuleRefusal::RandTooLong => 25,
            RuleRefusal::CommitMismatch => 26,
            RuleRefusal::NameTaken => 27,
            RuleRefusal::DuplicateOutpoint => 28,
        }
    }
}
