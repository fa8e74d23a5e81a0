//! What the words after the program's name ask for.

ghost use Rattle.std.specs.Prelude.{◌≡◌, ◌≢◌, ◌↔◌, ℕ, Some, IsTrue, codes};
ghost use Rattle.std.specs.Fmt.{decimal};
ghost use Rattle.wbt_top_plain.specs.Audit.{IsAudit};
ghost use Rattle.wbt_top_plain.specs.Bulk.{IsBulk, IsBulkSize, IsRun};
ghost use Rattle.wbt_top_plain.specs.Forecast.{IsEvery, IsForecast};
ghost use Rattle.wbt_top_plain.specs.Top.{IsReplay, IsCheck, IsLaw};

use crate::number::number_within;
use crate::status::{Command, Words};
use wbt_num::MOST_PAGES;
use wbt_trace::LEAST_BULK_PAGES;

/// The longest interval of a forecast, in ticks: 10^9.
pub const MOST_EVERY: u64 = 1000000000;

/// The command that the words are, if they are one: one word, spelled as it is, or `bulk` or `forecast` and a number.
pub fn command_of(words: &Words) -> Option<Command>
    ensures replay { (result ≡ Some Command.Replay) ↔ IsReplay words.now }
    ensures check { (result ≡ Some Command.Check) ↔ IsCheck words.now }
    ensures law { (result ≡ Some Command.Law) ↔ IsLaw words.now }
    ensures run { (result ≡ Some Command.Run) ↔ IsRun words.now }
    ensures audit { (result ≡ Some Command.Audit) ↔ IsAudit words.now }
    ensures bulk { (n : ℕ) → (result ≡ Some (Command.Bulk n)) ↔ IsBulk n words.now }
    ensures forecast { (every : ℕ) → (result ≡ Some (Command.Forecast every)) ↔ IsForecast every words.now }
{
    match words.list.as_slice() {
        [word] => command_named(word.as_bytes()),
        [word, number] => command_numbered(word.as_bytes(), number.as_str()),
        _ => None,
    }
}

fn command_named(word: &[u8]) -> Option<Command>
    ensures replay { (result ≡ Some Command.Replay) ↔ (word.now ≡ codes "replay") }
    ensures check { (result ≡ Some Command.Check) ↔ (word.now ≡ codes "check") }
    ensures law { (result ≡ Some Command.Law) ↔ (word.now ≡ codes "law") }
    ensures run { (result ≡ Some Command.Run) ↔ (word.now ≡ codes "run") }
    ensures audit { (result ≡ Some Command.Audit) ↔ (word.now ≡ codes "audit") }
    ensures not_bulk { (n : ℕ) → result ≢ Some (Command.Bulk n) }
    ensures not_forecast { (every : ℕ) → result ≢ Some (Command.Forecast every) }
{
    match word {
        b"replay" => Some(Command::Replay),
        b"check" => Some(Command::Check),
        b"law" => Some(Command::Law),
        b"run" => Some(Command::Run),
        b"audit" => Some(Command::Audit),
        _ => None,
    }
}

fn command_numbered(word: &[u8], number: &str) -> Option<Command>
    ensures bulk { (n : ℕ) → (result ≡ Some (Command.Bulk n)) ↔ ((word.now ≡ codes "bulk") × (number.now ≡ decimal n) × IsBulkSize n) }
    ensures forecast { (every : ℕ) → (result ≡ Some (Command.Forecast every)) ↔ ((word.now ≡ codes "forecast") × (number.now ≡ decimal every) × IsEvery every) }
    ensures no_other { (result ≢ Some Command.Replay) × (result ≢ Some Command.Check) × (result ≢ Some Command.Law) × (result ≢ Some Command.Run) × (result ≢ Some Command.Audit) }
{
    if is_bulk(word) {
        let n = number_within(number, LEAST_BULK_PAGES, u64::from(MOST_PAGES))?;
        return Some(Command::Bulk { n });
    }
    if is_forecast(word) {
        let every = number_within(number, 1, MOST_EVERY)?;
        return Some(Command::Forecast { every });
    }
    None
}

fn is_bulk(word: &[u8]) -> bool
    ensures { IsTrue result ↔ (word.now ≡ codes "bulk") }
{
    matches!(word, b"bulk")
}

fn is_forecast(word: &[u8]) -> bool
    ensures { IsTrue result ↔ (word.now ≡ codes "forecast") }
{
    matches!(word, b"forecast")
}
