//! What is wrong with a command line that asks for nothing.
ghost use Rattle.std.specs.Prelude.{◌≡◌};

/// A form of the command line: the word of a command, with what stands behind it.
#[derive(Clone, Copy, PartialEq, Eq, Debug)]
pub enum Form {
    /// `init PROFILE HEIGHT HASH HOST`.
    Init,
    /// `init-from PROFILE HEIGHT HASH HOST`.
    InitFrom,
    /// `serve PORT PORT TURNS`.
    Serve,
    /// `replay`.
    Replay,
    /// `list ROWS`.
    Listing,
    /// `dump`.
    Dump,
    /// `selftest BLOCKS SEED`.
    SelfTest,
}

/// What a word behind that of a command is.
#[derive(Clone, Copy, PartialEq, Eq, Debug)]
pub enum Field {
    /// `regtest` or `main`.
    Profile,
    /// The height of a base's block.
    Height,
    /// The hash of a base's block, as people write it.
    Hash,
    /// The domain name of a base's host.
    Host,
    /// The number of a port.
    Port,
    /// How many polls are made.
    Turns,
    /// How many rows a page has.
    Rows,
    /// How many blocks are generated.
    Blocks,
    /// The number that they are made from.
    Seed,
}

/// What is wrong with a word.
#[derive(Clone, Copy, PartialEq, Eq, Debug)]
pub enum Wrong {
    /// There is no word at all.
    Missing,
    /// The first word asks for help.
    Help,
    /// No form begins with the first word.
    NoCommand,
    /// More or fewer words stand behind the first than this form has fields.
    Count(Form),
    /// The word isn't of this field, which stands in its place.
    Field(Field),
}

/// The first wrong word of a command line.
#[derive(Clone, Copy, PartialEq, Eq, Debug)]
pub struct WrongWord {
    /// How many words stand before it.
    pub place: usize,
    /// What is wrong with it.
    pub wrong: Wrong,
}
