//! What was given to a command, of what the parser found in words.
ghost use Rattle.std.specs.Prelude.{◌≡◌, ℕ, List, IfOk, IfSome, Option, None, Some, option_map, string_bytes};
ghost use Rattle.clap.specs.Words.{Row, first_value, found_of, rows_of, subcommand_rows_of};
ghost use Rattle.command_line.specs.Options.{GivesFlag, GivesNumber, GivesNumberIfAny};

use clap::ArgMatches;
use std::alloc::{AllocError, Global};

/// What was given to the command of this name, if that is the command.
pub fn given_to<'m, 'a>(matches: &'m ArgMatches<'a>, name: &str) -> Option<&'m ArgMatches<'a>>
    ensures given { IfSome result (λ given.
        subcommand_rows_of matches.now ≡ Some (name.now, rows_of (found_of given.now))) }
    ensures none { result ≡ None → (rows : List Row) → subcommand_rows_of matches.now ≡ Some (name.now, rows) → ⊥ }
{
    matches.subcommand_matches(name)
}

/// The number of this option, if it is one from `least` to `greatest`.
pub fn small_number<'a>(given: &ArgMatches<'a>, id: &str, least: u8, greatest: u8) -> Option<u8>
    ensures given { IfSome result (GivesNumber least greatest id.now (rows_of (found_of given.now))) }
    ensures none { result ≡ None →
        (n : ℕ) → GivesNumber least greatest id.now (rows_of (found_of given.now)) n → ⊥ }
{
    let number = given.get_one::<u8>(id)?;
    if number < least {
        return None;
    }
    if greatest < number {
        return None;
    }
    Some(number)
}

/// The port of this option, if it is one from 1 to `greatest`.
pub fn port_number<'a>(given: &ArgMatches<'a>, id: &str, greatest: u16) -> Option<u16>
    ensures given { IfSome result (GivesNumber 1 greatest id.now (rows_of (found_of given.now))) }
    ensures none { result ≡ None → (n : ℕ) → GivesNumber 1 greatest id.now (rows_of (found_of given.now)) n → ⊥ }
{
    let port = given.get_one::<u16>(id)?;
    if port < 1 {
        return None;
    }
    if greatest < port {
        return None;
    }
    Some(port)
}

/// The number of this option, if it is one up to `greatest`.
pub fn large_number<'a>(given: &ArgMatches<'a>, id: &str, greatest: u64) -> Option<u64>
    ensures given { IfSome result (GivesNumber 0 greatest id.now (rows_of (found_of given.now))) }
    ensures none { result ≡ None → (n : ℕ) → GivesNumber 0 greatest id.now (rows_of (found_of given.now)) n → ⊥ }
{
    let number = given.get_one::<u64>(id)?;
    if greatest < number {
        return None;
    }
    Some(number)
}

/// The number of this option, if it is one from `least` to `greatest`.
pub fn middle_number<'a>(given: &ArgMatches<'a>, id: &str, least: u32, greatest: u32) -> Option<u32>
    ensures given { IfSome result (GivesNumber least greatest id.now (rows_of (found_of given.now))) }
    ensures none { result ≡ None →
        (n : ℕ) → GivesNumber least greatest id.now (rows_of (found_of given.now)) n → ⊥ }
{
    let number = given.get_one::<u32>(id)?;
    if number < least {
        return None;
    }
    if greatest < number {
        return None;
    }
    Some(number)
}

/// The number of this option, or that it wasn't given. None if it was given, and isn't one from `least` to `greatest`.
pub fn number_if_any<'a>(
    given: &ArgMatches<'a>,
    id: &str,
    least: u32,
    greatest: u32,
) -> Option<Option<u32>>
    ensures given { IfSome result (GivesNumberIfAny least greatest id.now (rows_of (found_of given.now))) }
    ensures none { result ≡ None →
        (number : Option ℕ) → GivesNumberIfAny least greatest id.now (rows_of (found_of given.now)) number → ⊥ }
{
    match given.get_str(id) {
        Some(_) => {
            let number = middle_number(given, id, least, greatest)?;
            Some(Some(number))
        }
        None => Some(None),
    }
}

/// Whether this option was given, which has no value.
pub fn flag_given<'a>(given: &ArgMatches<'a>, id: &str) -> bool
    ensures { GivesFlag id.now (rows_of (found_of given.now)) result }
{
    match given.get_str(id) {
        Some(text) => text == "true",
        None => false,
    }
}

/// The text of this option, if it was given.
pub fn text_given<'a>(
    alloc: Global,
    given: &ArgMatches<'a>,
    id: &str,
) -> Result<Option<String>, AllocError>
    ensures { IfOk result (λ text. option_map string_bytes text ≡ first_value (found_of given.now) id.now) }
{
    match given.get_str(id) {
        Some(text) => Ok(Some(String::from_str(alloc, text)?)),
        None => Ok(None),
    }
}
