//! Names of commands and of options.

ghost use Rattle.std.specs.Prelude.{◌≡◌, string_bytes};
ghost use Rattle.std.specs.Str.{bytes_eq};
ghost use Rattle.effs_words.specs.Options as spec;
ghost use Rattle.effs_words.specs.Words.{command_of};

/// What the first word says.
#[derive(Clone, Copy)]
pub enum CommandName {
    Run,
    Play,
    Layout,
    Check,
    Big,
    Verify,
}

/// An option of `run` and `play`.
#[derive(Clone, Copy)]
pub enum OptionName {
    Entry,
    Setup,
    Finish,
    Turns,
    Record,
    Bytes,
    Trim,
    Watch,
    Schedule,
}

/// Whether a word is this one.
fn is(word: &String, text: &str) -> bool
    ensures { result ≡ bytes_eq (string_bytes word.now) text.now }
{
    word.as_str() == text
}

/// The command that a word names.
#[tactic(auto, unfolding(crate::specs::Words::command_of))]
pub fn command_named(word: &String) -> Option<CommandName>
    ensures { result ≡ command_of (string_bytes word.now) }
{
    if is(word, "run") {
        Some(CommandName::Run)
    } else if is(word, "play") {
        Some(CommandName::Play)
    } else if is(word, "layout") {
        Some(CommandName::Layout)
    } else if is(word, "check") {
        Some(CommandName::Check)
    } else if is(word, "big") {
        Some(CommandName::Big)
    } else if is(word, "verify") {
        Some(CommandName::Verify)
    } else {
        None
    }
}

/// The option that a word names; `--schedule` is one of `play` alone.
#[tactic(auto, unfolding(crate::specs::Options::option_of))]
pub fn option_named(word: &String, play: bool) -> Option<OptionName>
    ensures { result ≡ spec.option_of play (string_bytes word.now) }
{
    if is(word, "--entry") {
        Some(OptionName::Entry)
    } else if is(word, "--setup") {
        Some(OptionName::Setup)
    } else if is(word, "--finish") {
        Some(OptionName::Finish)
    } else if is(word, "--turns") {
        Some(OptionName::Turns)
    } else if is(word, "--record") {
        Some(OptionName::Record)
    } else if is(word, "--bytes") {
        Some(OptionName::Bytes)
    } else if is(word, "--trim") {
        Some(OptionName::Trim)
    } else if is(word, "--watch") {
        Some(OptionName::Watch)
    } else if play && is(word, "--schedule") {
        Some(OptionName::Schedule)
    } else {
        None
    }
}

/// Whether the next word is the option's value, whatever it is.
pub fn takes_value(name: OptionName) -> bool
    ensures { result ≡ spec.takes_value name }
{
    match name {
        OptionName::Entry
        | OptionName::Setup
        | OptionName::Finish
        | OptionName::Turns
        | OptionName::Watch
        | OptionName::Schedule => true,
        OptionName::Record | OptionName::Bytes | OptionName::Trim => false,
    }
}
