//! The file with the settings of a journal: its text, and what a text gives.
ghost use Rattle.std.specs.Prelude.{◌≡◌, List, [], ◌∷◌, ◌++◌, codes, decimal, IfErr, IfOk, IfSome, IsUtf8, MatchOption, OnOk};
ghost use Rattle.clap.specs.Walk.{texts};
ghost use Rattle.clap.specs.Words.{Text, subcommand_rows_of};
ghost use Rattle.std.specs.Result.{result_ok};
ghost use Rattle.server_words.specs.Arguments.{arguments_entered};
ghost use Rattle.server_words.specs.Settings.{settings_given};
ghost use Rattle.upload_book.specs.declared.settings.Bounds.TheVariants.{Wide};
ghost use Rattle.server_words.specs.SettingsFile.{AreLines, IsFirstLine, IsWord, command_for, finished_words, lines, number_words, settings_asked, settings_given_by, settings_in, settings_text};

use crate::arguments::command_options;
use crate::command_line::{is_word, parsed};
use crate::difference::name_at;
use crate::fault::RunFault;
use crate::options::CommandOptions;
use crate::settings::settings_with;
use clap::ArgMatches;
use clap::error::ErrorKind;
use itoa::Buffer;
use std::alloc::{AllocError, Global};
use upload_book::{Bounds, Numbers, Settings};

/// The text of the file of these settings: all words as they would be typed, one a line. The error is that there is no memory
/// for it.
pub fn settings_text(alloc: Global, settings: &Settings) -> Result<Vec<u8>, AllocError>
    ensures { IfOk result (λ text. text.items ≡ settings_text settings.now) }
{
    let mut text = Vec::with_capacity(alloc, 1024)?;
    push_numbers(&mut text, settings.numbers())?;
    for place in 0..settings.tenant_count() {
        push_tenant(&mut text, name_at(settings, place), settings.quota(place))?;
    }
    Ok(text)
}

/// Adds the numbers, each as two lines, and the line that parts them from the tenants.
fn push_numbers(text: &mut Vec<u8>, numbers: &Numbers) -> Result<(), AllocError>
    ensures { OnOk result (text.new.items ≡ text.old.items ++ lines (number_words numbers.now)) }
{
    push_finished(text, numbers.finished_lifetime)?;
    push_option(text, b"--blocks\n", numbers.blocks)?;
    push_option(text, b"--block-size\n", numbers.block_size)?;
    push_option(text, b"--lifetime\n", numbers.lifetime)?;
    push_option(text, b"--max-size\n", numbers.max_size)?;
    push_option(text, b"--uploads\n", numbers.uploads)?;
    text.extend_from_slice(b"--\n")?;
    Ok(())
}

/// Adds the lifetime of finished uploads as two lines, where they end by themselves.
fn push_finished(text: &mut Vec<u8>, seconds: u64) -> Result<(), AllocError>
    ensures { OnOk result (text.new.items ≡ text.old.items ++ lines (finished_words seconds)) }
{
    if seconds == 0 {
        return Ok(());
    }
    push_option(text, b"--finished-lifetime\n", seconds)
}

/// Adds a line, and one with a number.
fn push_option(text: &mut Vec<u8>, line: &[u8], number: u64) -> Result<(), AllocError>
    ensures { OnOk result (text.new.items ≡ text.old.items ++ line.now ++ decimal number ++ codes "\n") }
{
    text.extend_from_slice(line)?;
    push_number(text, number)
}

/// Adds a tenant with its quota as a line.
fn push_tenant(text: &mut Vec<u8>, name: &[u8], quota: u64) -> Result<(), AllocError>
    ensures { OnOk result (text.new.items ≡ text.old.items ++ name.now ++ codes ":" ++ decimal quota ++ codes "\n") }
{
    text.extend_from_slice(name)?;
    text.extend_from_slice(b":")?;
    push_number(text, quota)
}

/// Adds a number, and the end of its line.
fn push_number(text: &mut Vec<u8>, number: u64) -> Result<(), AllocError>
    ensures { OnOk result (text.new.items ≡ text.old.items ++ decimal number ++ codes "\n") }
{
    let mut digits = Buffer::new();
    text.extend_from_slice(digits.format(number).as_bytes())?;
    text.extend_from_slice(b"\n")
}

/// The settings that the text of a file gives: those that `talk` would be asked for by its lines, or `run` where they begin with
/// its option `--finished-lifetime`, under the wide bounds, as a server may have had these. None where it gives none. The error
/// is `RunFault::Memory`.
pub fn read_settings(alloc: Global, text: &str) -> Result<Option<Settings>, RunFault>
    ensures found { IfOk result (λ found. (words : List Text) × AreLines words text.now × (found ≡ settings_given_by words)) }
    ensures fault { IfErr result (λ fault. fault ≡ RunFault.Memory) }
{
    let mut words = Vec::with_capacity(alloc, 32)?;
    push_lines(&mut words, text)?;
    let command = command_for(words.as_slice());
    put_first(&mut words, command)?;
    put_first(&mut words, "tus-server")?;
    settings_in(alloc, words.as_slice())
}

/// The command that takes these words of a file: `run` where finished uploads end by themselves, and else `talk`.
fn command_for(words: &[&str]) -> &'static str
    ensures { result.now ≡ command_for (texts words.now) }
{
    if is_word(words, 0, "--finished-lifetime") {
        "run"
    } else {
        "talk"
    }
}

/// Puts a word before the others.
fn put_first<'a>(words: &mut Vec<&'a str>, word: &'a str) -> Result<(), AllocError>
    ensures { OnOk result (texts words.new.items ≡ word.entry.now ∷ texts words.old.items) }
{
    words.insert(0, word).map_err(AllocError::from)
}

/// Adds a word.
fn push_word<'a>(words: &mut Vec<&'a str>, word: &'a str) -> Result<(), AllocError>
    ensures { OnOk result (texts words.new.items ≡ texts words.old.items ++ word.entry.now ∷ []) }
{
    words.push(word).map_err(AllocError::from)
}

/// Adds the lines of a text, without their ends. The last may lack its end.
fn push_lines<'a>(words: &mut Vec<&'a str>, text: &'a str) -> Result<(), AllocError>
    ensures { OnOk result ((more : List Text) × AreLines more text.entry.now × (texts words.new.items ≡ texts words.old.items ++ more)) }
{
    let mut rest = text;
    'lines: while let Some((line, after)) = split_line(rest) {
        push_word(words, line)?;
        rest = after;
    }
    if rest.is_empty() {
        Ok(())
    } else {
        push_word(words, rest)
    }
}

/// The first line of a text, without its end, and what stands behind that; None where no line has an end.
fn split_line(text: &str) -> Option<(&str, &str)>
    ensures line { MatchOption result (IsWord text.now) (λ parts. IsFirstLine text.now parts.0.now parts.1.now) }
    ensures rest { IfSome result (λ parts. IsUtf8 parts.1.now) }
{
    text.split_once('\n')
}

/// The settings that the words of a command line ask for, the program's name first; None where they are not taken.
/// The error is `RunFault::Memory`.
#[tactic(auto, unfolding(crate::specs::SettingsFile::settings_in))]
fn settings_in(alloc: Global, words: &[&str]) -> Result<Option<Settings>, RunFault>
    ensures found { IfOk result (λ found. found ≡ settings_in (texts words.now)) }
    ensures fault { IfErr result (λ fault. fault ≡ RunFault.Memory) }
{
    match parsed(alloc, words) {
        Ok(matches) => settings_asked(alloc, &matches),
        Err(error) => {
            if error.kind() == ErrorKind::OutOfMemory {
                Err(RunFault::Memory)
            } else {
                Ok(None)
            }
        }
    }
}

/// The settings that a server is asked for by what was found in a command line, under the wide bounds; None where that is none.
/// The error is `RunFault::Memory`.
fn settings_asked(alloc: Global, matches: &ArgMatches) -> Result<Option<Settings>, RunFault>
    ensures found { IfOk result (λ found. found ≡ settings_asked (arguments_entered (subcommand_rows_of matches.now))) }
    ensures fault { IfErr result (λ fault. fault ≡ RunFault.Memory) }
{
    match command_options(matches) {
        Some(CommandOptions::Talk(options)) => {
            settings_of(alloc, options.numbers, options.tenants)
        }
        Some(CommandOptions::Serve(options)) => {
            settings_of(alloc, options.numbers, options.tenants)
        }
        _ => Ok(None),
    }
}

/// The settings of these numbers and words under the wide bounds; None where they have a fault. The error is `RunFault::Memory`.
fn settings_of(
    alloc: Global,
    numbers: Numbers,
    words: &[&str],
) -> Result<Option<Settings>, RunFault>
    ensures found { IfOk result (λ found. found ≡ result_ok (settings_given Wide numbers (texts words.now))) }
    ensures fault { IfErr result (λ fault. fault ≡ RunFault.Memory) }
{
    match settings_with(alloc, Bounds::Wide, numbers, words) {
        Ok(settings) => Ok(Some(settings)),
        Err(RunFault::Memory) => Err(RunFault::Memory),
        Err(_) => Ok(None),
    }
}
