//! The reader of a command line: the command that its words ask for, or the first wrong one of them.
ghost use Rattle.std.specs.Prelude.{◌≡◌, ◌⊎◌, List, [], ◌∷◌, Some, None, Ok, Err, IfOk, IfErr, codes};
ghost use Rattle.bridge_commands.specs.Words.{Asks, start_word};
ghost use Rattle.bridge_commands.specs.WrongWords.{AsksForHelp, IsNoCommand, IsReadAs, IsWrong, fields, form_word};
ghost use Rattle.bridge_commands.specs.declared.words.Command.{Command};
ghost use Rattle.bridge_commands.specs.declared.wrong.WrongWord.{WrongWord};
ghost use Rattle.bridge_commands.specs.declared.wrong.Form.TheVariants as the_form;
ghost use Rattle.bridge_commands.specs.declared.wrong.Wrong.TheVariants as wrong;

use crate::fields::{read_hash, read_host, read_profile};
use crate::numbers::{read_blocks, read_height, read_page_size, read_port, read_seed, read_turns};
use crate::wrong::{Field, Form, Wrong, WrongWord};
use domain_text::Name;
use nmc_base::{Base, Bytes, Words};

/// The ports that are served, and how many polls are made.
#[derive(Clone, Copy, PartialEq, Eq, Debug)]
pub struct Plan {
    /// The number of the UDP port.
    pub udp: u16,
    /// The number of the port that the feed connects to.
    pub feed: u16,
    /// How many polls are made.
    pub turns: u32,
}

/// A self-test.
#[derive(Clone, Copy, PartialEq, Eq, Debug)]
pub struct Trial {
    /// How many blocks are generated.
    pub blocks: u32,
    /// The number that they are made from.
    pub seed: u64,
}

/// The start list with which files are made.
#[derive(Clone, Copy, PartialEq, Eq, Debug)]
pub enum Start {
    /// None: the word `init`.
    Empty,
    /// That of the snapshot that the source has: the word `init-from`.
    Snapshot,
}

/// What a command line asks for.
#[derive(Drop)]
pub enum Command {
    /// The word `replay` alone.
    Replay,
    /// The word `list`, and how many rows a page has.
    Listing(u32),
    /// The word `dump` alone.
    Dump,
    /// The word of a start list, a profile, a height, a hash and a host: the base of the files, and the name of its host.
    Init(Start, Base, Name),
    /// The word `serve`, the numbers of two ports, and the turns.
    Serve(Plan),
    /// The word `selftest`, how many blocks, and the seed.
    SelfTest(Trial),
}

/// The form whose word this is.
fn read_form(word: &[u8]) -> Result<Form, Wrong>
    ensures found { IfOk result (λ form. word.now ≡ form_word form) }
    ensures wrong { IfErr result (λ w. ((w ≡ wrong.Help) × AsksForHelp word.now) ⊎ ((w ≡ wrong.NoCommand) × IsNoCommand word.now)) }
{
    match word {
        b"init" => Ok(Form::Init),
        b"init-from" => Ok(Form::InitFrom),
        b"serve" => Ok(Form::Serve),
        b"replay" => Ok(Form::Replay),
        b"list" => Ok(Form::Listing),
        b"dump" => Ok(Form::Dump),
        b"selftest" => Ok(Form::SelfTest),
        b"--help" | b"-h" => Err(Wrong::Help),
        _ => Err(Wrong::NoCommand),
    }
}

/// What is wrong with the word behind so many.
fn at(place: usize, wrong: Wrong) -> WrongWord
    ensures { result ≡ record { place = place; wrong = wrong } }
{
    WrongWord { place, wrong }
}

/// What was read of the word behind so many; where that is nothing, the word isn't of its field.
fn value_of<T>(found: Option<T>, place: usize, field: Field) -> Result<T, WrongWord>
    ensures value { IfOk result (λ value. found ≡ Some value) }
    ensures none { IfErr result (λ w. (found ≡ None) × (w ≡ record { place = place; wrong = wrong.Field field })) }
{
    match found {
        Some(value) => Ok(value),
        None => Err(at(place, Wrong::Field(field))),
    }
}

/// The command of a form that has no field.
fn read_alone(form: Form, command: Command, behind: &[Bytes]) -> Result<Command, WrongWord>
    requires alone { fields form ≡ [] }
    requires asks { Asks (form_word form ∷ []) command }
    ensures { IsReadAs (form_word form ∷ behind.now) result }
{
    if behind.is_empty() {
        Ok(command)
    } else {
        Err(at(0, Wrong::Count(form)))
    }
}

/// The command that makes files, by what stands behind its word.
fn read_init(form: Form, start: Start, behind: &[Bytes]) -> Result<Command, WrongWord>
    requires start { form_word form ≡ start_word start }
    requires fields { fields form ≡ fields the_form.Init }
    ensures { IsReadAs (form_word form ∷ behind.now) result }
{
    let [profile, height, hash, host] = behind else {
        return Err(at(0, Wrong::Count(form)));
    };
    let profile = value_of(read_profile(profile.as_slice()), 1, Field::Profile)?;
    let height = value_of(read_height(height.as_slice()), 2, Field::Height)?;
    let hash = value_of(read_hash(hash.as_slice()), 3, Field::Hash)?;
    let host = value_of(read_host(host.as_slice()), 4, Field::Host)?;
    let base = Base {
        profile,
        height,
        hash,
    };
    Ok(Command::Init(start, base, host))
}

/// The command `serve`, by what stands behind its word.
fn read_serve(behind: &[Bytes]) -> Result<Command, WrongWord>
    ensures { IsReadAs (codes "serve" ∷ behind.now) result }
{
    let [udp, feed, turns] = behind else {
        return Err(at(0, Wrong::Count(Form::Serve)));
    };
    let udp = value_of(read_port(udp.as_slice()), 1, Field::Port)?;
    let feed = value_of(read_port(feed.as_slice()), 2, Field::Port)?;
    let turns = value_of(read_turns(turns.as_slice()), 3, Field::Turns)?;
    Ok(Command::Serve(Plan { udp, feed, turns }))
}

/// The command `list`, by what stands behind its word.
fn read_list(behind: &[Bytes]) -> Result<Command, WrongWord>
    ensures { IsReadAs (codes "list" ∷ behind.now) result }
{
    let [rows] = behind else {
        return Err(at(0, Wrong::Count(Form::Listing)));
    };
    let rows = value_of(read_page_size(rows.as_slice()), 1, Field::Rows)?;
    Ok(Command::Listing(rows))
}

/// The command `selftest`, by what stands behind its word.
fn read_self_test(behind: &[Bytes]) -> Result<Command, WrongWord>
    ensures { IsReadAs (codes "selftest" ∷ behind.now) result }
{
    let [blocks, seed] = behind else {
        return Err(at(0, Wrong::Count(Form::SelfTest)));
    };
    let blocks = value_of(read_blocks(blocks.as_slice()), 1, Field::Blocks)?;
    let seed = value_of(read_seed(seed.as_slice()), 2, Field::Seed)?;
    Ok(Command::SelfTest(Trial { blocks, seed }))
}

/// The command of the form, by what stands behind its word.
fn read_behind(form: Form, behind: &[Bytes]) -> Result<Command, WrongWord>
    ensures { IsReadAs (form_word form ∷ behind.now) result }
{
    match form {
        Form::Init => read_init(Form::Init, Start::Empty, behind),
        Form::InitFrom => read_init(Form::InitFrom, Start::Snapshot, behind),
        Form::Serve => read_serve(behind),
        Form::Replay => read_alone(Form::Replay, Command::Replay, behind),
        Form::Listing => read_list(behind),
        Form::Dump => read_alone(Form::Dump, Command::Dump, behind),
        Form::SelfTest => read_self_test(behind),
    }
}

fn read_line(words: &[Bytes]) -> Result<Command, WrongWord>
    ensures { IsReadAs words.now result }
{
    let [word, behind @ ..] = words else {
        return Err(at(0, Wrong::Missing));
    };
    match read_form(word.as_slice()) {
        Ok(form) => read_behind(form, behind),
        Err(wrong) => Err(at(0, wrong)),
    }
}

/// The command that the words ask for; where they ask for none, the first wrong word.
pub fn read_words(words: &Words) -> Result<Command, WrongWord>
    ensures found { IfOk result (Asks words.now.items) }
    ensures one { (asked : Command) → Asks words.now.items asked → result ≡ Ok asked }
    ensures wrong { IfErr result (IsWrong words.now.items) }
    ensures first { (wrong : WrongWord) → IsWrong words.now.items wrong → result ≡ Err wrong }
{
    read_line(words.as_slice())
}
