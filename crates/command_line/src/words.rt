// The commands that words are.
ghost use Rattle.std.specs.Prelude.{◌≡◌, IfOk, map, option_map, string_bytes};
ghost use Rattle.command_line.specs.Words.{command_of, solve_of, check_of, generate_of};
ghost use Rattle.command_line.specs.Orders.{order_of, AreInRange, Means};

use crate::command::{Command, UsageError};
use crate::options::read_options;
use crate::parts::{read_changes, read_count, read_file, read_number};

fn read_solve(words: &[String]) -> Option<Command<'_>>
    ensures { option_map order_of result ≡ solve_of (map string_bytes words.now) }
{
    let [model, changes, options @ ..] = words else {
        return None;
    };
    let model = read_file(model.as_str())?;
    let changes = read_changes(changes.as_str())?;
    let choice = read_options(options)?;
    Some(Command::Solve {
        model,
        changes,
        workers: choice.workers,
        nodes: choice.nodes,
        log: choice.log,
    })
}

fn read_check(words: &[String]) -> Option<Command<'_>>
    ensures { option_map order_of result ≡ check_of (map string_bytes words.now) }
{
    let [model, changes, log] = words else {
        return None;
    };
    let model = read_file(model.as_str())?;
    let changes = read_changes(changes.as_str())?;
    let log = read_file(log.as_str())?;
    Some(Command::Check {
        model,
        changes,
        log,
    })
}

fn read_gen(words: &[String]) -> Option<Command<'_>>
    ensures { option_map order_of result ≡ generate_of (map string_bytes words.now) }
{
    let [seed, columns, rows, scenarios] = words else {
        return None;
    };
    let seed = read_number(seed.as_str(), 0, u64::MAX)?;
    let columns = read_count(columns.as_str(), 1, 1000)?;
    let rows = read_count(rows.as_str(), 0, 1000)?;
    let scenarios = read_count(scenarios.as_str(), 0, 64)?;
    Some(Command::Gen {
        seed,
        columns,
        rows,
        scenarios,
    })
}

fn read_command(words: &[String]) -> Option<Command<'_>>
    ensures { option_map order_of result ≡ command_of (map string_bytes words.now) }
{
    let [verb, arguments @ ..] = words else {
        return None;
    };
    let verb = verb.as_str();
    if verb == "solve" {
        read_solve(arguments)
    } else if verb == "check" {
        read_check(arguments)
    } else if verb == "gen" {
        read_gen(arguments)
    } else {
        None
    }
}

/// The command that the words are; the program's name is not among them. A number is 1 to 20
/// digits, and a file's name a word that isn't empty and doesn't begin with `-`.
///
/// - `solve MODEL CHANGES` and options in any order, each at most once: `--workers N` (1 to 64, by
///   default 1), `--nodes K` (1 to 100,001, by default 100,001) and `--log FILE`
/// - `check MODEL CHANGES LOG`
/// - `gen SEED COLUMNS ROWS SCENARIOS`: any seed of 64 bits, 1 to 1,000 columns, at most 1,000 rows
///   and at most 64 scenarios
///
/// CHANGES may also be `-`, for no scenarios.
pub fn read_words(words: &[String]) -> Result<Command<'_>, UsageError>
    ensures means { Means (map string_bytes words.now) result }
    ensures ranges { IfOk result (λ command. AreInRange (order_of command)) }
{
    match read_command(words) {
        Some(command) => Ok(command),
        None => Err(UsageError),
    }
}
