ghost use Rattle.std.specs.Prelude.{◌≡◌, option_map, IfOk};
ghost use Rattle.clap.specs.Words.{app_of, found_of, first_value, rows_of, with_rule, FailsBy, fault_of, matches_of};
ghost use Rattle.snow_command.specs.Kept.Parsing.{AsksFor, chain_read, choice_rule, command_read, drill_read, is_drill_read, rule_read, open_rule, snowman, job_read, task_rule};
ghost use Rattle.snow_command.specs.Kept.Request.{texts};

use crate::command::{ChainName, Command, Job, RuleName};
use crate::figures::number_in;
use clap::builder::ValueParser;
use clap::error::ErrorKind;
use clap::{Arg, ArgMatches, Error};
use snow_base::limits::MOST_DRILLED;
use std::alloc::{AllocError, Global};

/// The names of the tasks.
static TASKS: [&str; 4] = ["decide", "run", "audit", "drill"];

/// The names of the chains.
static CHAINS: [&str; 3] = ["plain", "tally", "ledger"];

/// The names of the rules.
static RULES: [&str; 2] = ["snowball", "snowflake"];

/// Adds the task, as the one plain word.
fn with_task<'a>(
    alloc: Global,
    command: clap::Command<'a>,
    tasks: &'a [&'a str],
) -> Result<clap::Command<'a>, AllocError>
    ensures { IfOk result (λ r. app_of r ≡ with_rule (app_of command.entry) (task_rule tasks.entry)) }
{
    command.arg(
        Arg::new(alloc, "task")
            .required(true)
            .value_parser(ValueParser::Names(tasks)),
    )
}

/// Adds an option whose value is one of these names.
fn with_choice<'a>(
    alloc: Global,
    command: clap::Command<'a>,
    name: &'a str,
    default: &'a str,
    names: &'a [&'a str],
) -> Result<clap::Command<'a>, AllocError>
    ensures { IfOk result (λ r. app_of r ≡ with_rule (app_of command.entry) (choice_rule name.entry.now default.entry.now names.entry)) }
{
    command.arg(
        Arg::new(alloc, name)
            .long(name)
            .default_value(default)
            .value_parser(ValueParser::Names(names)),
    )
}

/// Adds an option with any value.
fn with_option<'a>(
    alloc: Global,
    command: clap::Command<'a>,
    name: &'a str,
) -> Result<clap::Command<'a>, AllocError>
    ensures { IfOk result (λ r. app_of r ≡ with_rule (app_of command.entry) (open_rule name.entry.now)) }
{
    command.arg(Arg::new(alloc, name).long(name))
}

/// Returns the description of the command line for `clap`.
fn snowman<'a>(
    alloc: Global,
    tasks: &'a [&'a str],
    chains: &'a [&'a str],
    rules: &'a [&'a str],
) -> Result<clap::Command<'a>, AllocError>
    ensures { IfOk result (λ r. app_of r ≡ snowman tasks.entry chains.entry rules.entry) }
{
    let command = clap::Command::new(alloc, "snowman");
    let command = with_task(alloc, command, tasks)?;
    let command = with_choice(alloc, command, "chain", "plain", chains)?;
    let command = with_choice(alloc, command, "rule", "snowball", rules)?;
    let command = with_option(alloc, command, "seed")?;
    with_option(alloc, command, "blocks")
}

/// Returns what `clap` finds in words.
fn matched<'a>(
    alloc: Global,
    words: &'a [String],
    tasks: &'a [&'a str],
    chains: &'a [&'a str],
    rules: &'a [&'a str],
) -> Result<ArgMatches<'a>, Error>
    ensures rows { IfOk result (λ m. rows_of (found_of m)
        ≡ matches_of (snowman tasks.entry chains.entry rules.entry) (texts words.entry.now)) }
    ensures fails { FailsBy (fault_of (snowman tasks.entry chains.entry rules.entry) (texts words.entry.now)) result }
{
    let command = snowman(alloc, tasks, chains, rules)?;
    command.try_get_matches_from(words)
}

/// Returns the command for which words in order ask: those of a request, as `order` writes them. On
/// want of memory it returns `AllocError`.
/// Rule: this project's own.
pub fn command_of_ordered(alloc: Global, words: &[String]) -> Result<Option<Command>, AllocError>
    ensures { IfOk result (AsksFor (texts words.now)) }
{
    let found = matched(
        alloc,
        words,
        TASKS.as_slice(),
        CHAINS.as_slice(),
        RULES.as_slice(),
    );
    match found {
        Ok(matches) => Ok(read(&matches)),
        Err(error) => {
            if error.kind() == ErrorKind::OutOfMemory {
                return Err(AllocError);
            }
            Ok(None)
        }
    }
}

/// Returns the command that matches ask for.
fn read(matches: &ArgMatches) -> Option<Command>
    ensures { result ≡ command_read (first_value (found_of matches.now)) }
{
    if is_drill(matches.get_str("task")) {
        return drill(
            matches.get_str("rule"),
            matches.get_str("seed"),
            matches.get_str("blocks"),
        );
    }
    if matches.get_str("seed").is_some() || matches.get_str("blocks").is_some() {
        return None;
    }
    Some(Command::Stream {
        job: job_of(matches.get_str("task")),
        chain: chain_of(matches.get_str("chain")),
        rule: rule_of(matches.get_str("rule")),
    })
}

/// Returns whether this tested name is the drill's.
fn is_drill(name: Option<&str>) -> bool
    ensures { result ≡ is_drill_read (option_map (λ s. s.now) name.entry) }
{
    match name {
        Some(name) => name == "drill",
        None => false,
    }
}

/// Returns a drill by this tested rule, which needs a seed and a number of blocks.
fn drill(rule: Option<&str>, seed: Option<&str>, blocks: Option<&str>) -> Option<Command>
    ensures { result ≡ drill_read (option_map (λ s. s.now) rule.entry) (option_map (λ s. s.now) seed.entry) (option_map (λ s. s.now) blocks.entry) }
{
    let seed = number_in(seed?, 0, u64::MAX)?;
    let blocks = number_in(blocks?, 1, MOST_DRILLED)?;
    Some(Command::Drill {
        rule: rule_of(rule),
        seed,
        blocks: blocks as u32,
    })
}

/// Returns what is done with a stream by the task of this tested name.
fn job_of(name: Option<&str>) -> Job
    ensures { result ≡ job_read (option_map (λ s. s.now) name.entry) }
{
    match name {
        Some("run") => Job::Run,
        Some("audit") => Job::Audit,
        _ => Job::Decide,
    }
}

/// Returns the chain of this tested name, or the usual one.
fn chain_of(name: Option<&str>) -> ChainName
    ensures { result ≡ chain_read (option_map (λ s. s.now) name.entry) }
{
    match name {
        Some("tally") => ChainName::Tally,
        Some("ledger") => ChainName::Ledger,
        _ => ChainName::Plain,
    }
}

/// Returns the rule of this tested name, or the usual one.
fn rule_of(name: Option<&str>) -> RuleName
    ensures { result ≡ rule_read (option_map (λ s. s.now) name.entry) }
{
    match name {
        Some("snowflake") => RuleName::Snowflake,
        _ => RuleName::Snowball,
    }
}
