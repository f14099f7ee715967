//! How the options are read from what was found in the command line.
ghost use Rattle.std.specs.Borrow.{Bor};
ghost use Rattle.std.specs.Prelude.{◌≡◌, ◌<◌, ℕ, IfSome, List, codes, false, option_map};
ghost use Rattle.clap.specs.Walk.{rows_of, texts};
ghost use Rattle.clap.specs.Words.{all_of, first_of, found_of, subcommand_rows_of};
ghost use Rattle.server_words.specs.Arguments.{arguments_entered, arguments_of, at_once_given, check, connections_given, export, export_arguments, grace_given, greatest_upload, is_by_readiness, is_set, metrics_set, moment_set, number_given, number_under, numbers_given, numbers_with, piece_set, port_given, run_arguments, run_numbers, run_work, serve, serve_arguments, service_arguments, talk, talk_arguments, work_given, work_with, workers_given};
ghost use Rattle.upload_book.specs.Settings.{is_outside};

use crate::options::{CommandOptions, ExportOptions, ServeOptions, TalkOptions, WorkerOptions};
use crate::tenants::{blocks_of_quotas, greatest_quota_bytes};
use clap::ArgMatches;
use upload_book::{Bounds, Moment, Numbers};

/// How many bytes of bodies and replies `run` holds beside those of the greatest upload.
const BODY_MEMORY: u64 = 268_435_456;

/// The command that was entered, with its options. None where there is none, its moment is past the year 9999, it has no
/// address, no folder or no upload where it needs one, one of its ports is none, or it is to have no worker or more than 16.
pub fn command_options<'m, 'a>(matches: &'m ArgMatches<'a>) -> Option<CommandOptions<'m, 'a>>
    ensures { option_map arguments_of result ≡ arguments_entered (subcommand_rows_of matches.now) }
{
    if let Some(found) = matches.subcommand_matches("run") {
        return run_options(found);
    }
    if let Some(found) = matches.subcommand_matches("talk") {
        return talk_options(found);
    }
    if let Some(found) = matches.subcommand_matches("serve") {
        return serve_options(found);
    }
    match matches.subcommand_matches("check") {
        Some(found) => check_options(found),
        None => export_options(matches.subcommand_matches("export")?),
    }
}

/// The command `talk`, with the options that were found.
fn talk_options<'m, 'a>(found: &'m ArgMatches<'a>) -> Option<CommandOptions<'m, 'a>>
    ensures { option_map arguments_of result ≡ option_map talk (talk_arguments (rows_of (found_of found.now))) }
{
    let piece = piece_of(number_given(found, "pieces"))?;
    Some(CommandOptions::Talk(TalkOptions {
        numbers: numbers_of(found),
        moment: Moment::new(number_of(found, "moment"))?,
        journal: found.get_str("journal"),
        piece,
        tenants: found.get_strs("tenant")?,
    }))
}

/// The command `serve`, with the options that were found.
fn serve_options<'m, 'a>(found: &'m ArgMatches<'a>) -> Option<CommandOptions<'m, 'a>>
    ensures { option_map arguments_of result ≡ option_map serve (serve_arguments (rows_of (found_of found.now))) }
{
    let work = work_of(found)?;
    let tenants = tenants_of(found)?;
    service_options(found, numbers_of(found), tenants, work)
}

/// The command `run`, with the options that were found.
fn run_options<'m, 'a>(found: &'m ArgMatches<'a>) -> Option<CommandOptions<'m, 'a>>
    ensures { option_map arguments_of result ≡ option_map serve (run_arguments (rows_of (found_of found.now))) }
{
    let tenants = tenants_of(found)?;
    let numbers = run_numbers(found, tenants);
    let work = run_work(found, greatest_upload(numbers))?;
    service_options(found, numbers, tenants, work)
}

/// A server of these numbers, tenants and work, with the other options that were found.
fn service_options<'m, 'a>(
    found: &'m ArgMatches<'a>,
    numbers: Numbers,
    tenants: &'m [&'a str],
    work: WorkerOptions,
) -> Option<CommandOptions<'m, 'a>>
    requires { work.grace ≡ grace_given (rows_of (found_of found.now)) }
    ensures { option_map arguments_of result
        ≡ option_map serve (service_arguments (rows_of (found_of found.now)) numbers (texts tenants.now) work) }
{
    let address = text_given(found, "address")?;
    let port = port_of(found)?;
    let workers = workers_of(found)?;
    let metrics = metrics_of(found)?;
    let journal = text_given(found, "journal");
    let log = text_given(found, "log");
    Some(CommandOptions::Serve(ServeOptions {
        numbers,
        tenants,
        address,
        port,
        journal,
        workers,
        work,
        log,
        metrics,
    }))
}

/// The command `journal check`, with its folder.
fn check_options<'m, 'a>(found: &'m ArgMatches<'a>) -> Option<CommandOptions<'m, 'a>>
    ensures { option_map arguments_of result ≡ option_map check (first_of (codes "folder") (rows_of (found_of found.now))) }
{
    Some(CommandOptions::Check(text_given(found, "folder")?))
}

/// The command `journal export`, with its folder and its upload.
fn export_options<'m, 'a>(found: &'m ArgMatches<'a>) -> Option<CommandOptions<'m, 'a>>
    ensures { option_map arguments_of result ≡ option_map export (export_arguments (rows_of (found_of found.now))) }
{
    Some(CommandOptions::Export(ExportOptions {
        folder: text_given(found, "folder")?,
        upload: text_given(found, "upload")?,
    }))
}

/// The words NAME:QUOTA, as they were given; None where there are none.
fn tenants_of<'m, 'a>(found: &'m ArgMatches<'a>) -> Option<&'m [&'a str]>
    ensures { option_map (λ (words : Bor (List (Bor (List ℕ)))). texts words.now) result ≡ all_of (codes "tenant") (rows_of (found_of found.now)) }
{
    found.get_strs("tenant")
}

/// The numbers that the options of `talk` and `serve` give; finished uploads stay.
fn numbers_of(found: &ArgMatches) -> Numbers
    ensures { result ≡ numbers_given (rows_of (found_of found.now)) }
{
    numbers_with(
        found,
        number_of(found, "blocks"),
        number_of(found, "max-size"),
        0,
    )
}

/// The numbers of `run`: where they are not told there are as many blocks as the quotas sum to, and the greatest upload is as
/// large as the greatest quota.
fn run_numbers(found: &ArgMatches, tenants: &[&str]) -> Numbers
    ensures { result ≡ run_numbers (rows_of (found_of found.now)) (texts tenants.now) }
{
    let block_size = number_of(found, "block-size");
    let blocks = number_given(found, "blocks").unwrap_or(blocks_of_quotas(tenants, block_size));
    let max_size = number_given(found, "max-size").unwrap_or(greatest_quota_bytes(
        tenants, block_size,
    ));
    let finished = number_of(found, "finished-lifetime");
    numbers_with(found, blocks, max_size, finished)
}

/// The numbers of a server with so many blocks and this greatest upload, where finished uploads stay for so many seconds. Ids and
/// totals are bounded by their type alone.
fn numbers_with(found: &ArgMatches, blocks: u64, max_size: u64, finished: u64) -> Numbers
    ensures { result ≡ numbers_with blocks max_size finished (rows_of (found_of found.now)) }
{
    Numbers {
        blocks,
        block_size: number_of(found, "block-size"),
        lifetime: number_of(found, "lifetime"),
        finished_lifetime: finished,
        max_size,
        uploads: number_of(found, "uploads"),
        last_id: u64::MAX - 1,
        last_total: u64::MAX,
    }
}

/// The number of the option of this name; 0 where it has none, which its default rules out.
fn number_of(found: &ArgMatches, name: &str) -> u64
    ensures { result ≡ number_under name.now (rows_of (found_of found.now)) }
{
    number_given(found, name).unwrap_or(0)
}

/// The number of the option of this name, if it has one.
fn number_given(found: &ArgMatches, name: &str) -> Option<u64>
    ensures { result ≡ number_given name.now (rows_of (found_of found.now)) }
{
    found.get_one::<u64>(name)
}

/// Whether the flag of this name is set.
fn is_set(found: &ArgMatches, name: &str) -> bool
    ensures { result ≡ is_set name.now (rows_of (found_of found.now)) }
{
    found.get_one::<bool>(name).unwrap_or(false)
}

/// The text of the option of this name, if it has one.
fn text_given<'a>(found: &ArgMatches<'a>, name: &str) -> Option<&'a str>
    ensures { option_map (λ (text : Bor (List ℕ)). text.now) result ≡ first_of name.now (rows_of (found_of found.now)) }
{
    found.get_str(name)
}

/// Whether clients are served by readiness: there is a journal, a log, or a port at which numbers are asked for.
fn is_by_readiness(found: &ArgMatches) -> bool
    ensures { result ≡ is_by_readiness (rows_of (found_of found.now)) }
{
    text_given(found, "journal").is_some()
        || text_given(found, "log").is_some()
        || number_given(found, "metrics").is_some()
}

/// The port at which numbers are asked for, if there is one; None where the number is none.
fn metrics_of(found: &ArgMatches) -> Option<Option<u16>>
    ensures { result ≡ metrics_set (number_given (codes "metrics") (rows_of (found_of found.now))) }
{
    match number_given(found, "metrics") {
        Some(port) if port > 65_535 => None,
        Some(port) => Some(Some(port as u16)),
        None => Some(None),
    }
}

/// How many workers the option gives; None where the number is not from 1 to 16.
fn workers_of(found: &ArgMatches) -> Option<usize>
    ensures given { result ≡ workers_given (rows_of (found_of found.now)) }
    ensures in_range { IfSome result (λ workers. is_outside workers 16 ≡ false) }
{
    let workers = number_of(found, "workers");
    if workers == 0 || workers > 16 {
        None
    } else {
        Some(workers as usize)
    }
}

/// The port that the option gives; None where the number is none.
fn port_of(found: &ArgMatches) -> Option<u16>
    ensures { result ≡ port_given (rows_of (found_of found.now)) }
{
    let port = number_of(found, "port");
    if port <= 65_535 {
        Some(port as u16)
    } else {
        None
    }
}

/// What each worker of `serve` is asked for; None where the moment is past the year 9999, a worker is to hold no connection or
/// more than 16,384, or a piece is to have fewer than 65,536 bytes or more than 1,048,576.
fn work_of(found: &ArgMatches) -> Option<WorkerOptions>
    ensures given { result ≡ work_given (rows_of (found_of found.now)) }
    ensures grace { IfSome result (λ work. work.grace ≡ grace_given (rows_of (found_of found.now))) }
{
    let moment = moment_of(found)?;
    let at_once = at_once_of(found, is_set(found, "forever"))?;
    let piece = piece_of(number_given(found, "pieces"))?;
    Some(work_with(
        found,
        moment,
        connections_of(found),
        at_once,
        number_of(found, "body-memory"),
        piece,
        is_by_readiness(found),
    ))
}

/// The most bytes that an upload comes to: those of `--max-size`, or of all blocks together where these are fewer.
fn greatest_upload(numbers: Numbers) -> u64
    ensures { result ≡ greatest_upload numbers }
{
    let pool = numbers.blocks.saturating_mul(numbers.block_size);
    numbers.max_size.min(pool)
}

/// What each worker of `run` is asked for, where an upload comes to at most so many bytes; more than a pool may have count as
/// these, and their settings are refused. None where it is to hold no connection or more than 16,384, or a piece is to have fewer
/// than 65,536 bytes or more than 1,048,576.
fn run_work(found: &ArgMatches, most: u64) -> Option<WorkerOptions>
    ensures given { result ≡ run_work (rows_of (found_of found.now)) most }
    ensures grace { IfSome result (λ work. work.grace ≡ grace_given (rows_of (found_of found.now))) }
{
    let at_once = at_once_of(found, true)?;
    let piece = piece_of(Some(number_given(found, "pieces").unwrap_or(262_144)))?;
    let least = most.min(Bounds::Wide.pool_limit()) + BODY_MEMORY;
    let body_memory = number_given(found, "body-memory").unwrap_or(least);
    Some(WorkerOptions {
        ranges: true,
        ..work_with(found, None, u64::MAX, at_once, body_memory, piece, true)
    })
}

/// What each worker is asked for, with these of its parts; the options give the others.
fn work_with(
    found: &ArgMatches,
    moment: Option<Moment>,
    connections: u64,
    at_once: usize,
    body_memory: u64,
    piece: Option<usize>,
    by_readiness: bool,
) -> WorkerOptions
    ensures { result
        ≡ work_with (rows_of (found_of found.now)) moment connections at_once body_memory piece by_readiness }
{
    WorkerOptions {
        moment,
        connections,
        at_once,
        idle: number_of(found, "idle"),
        message_seconds: number_of(found, "message-seconds"),
        least_rate: number_of(found, "least-rate"),
        body_memory,
        piece,
        max_body: number_given(found, "max-body"),
        by_readiness,
        ranges: false,
        grace: grace_of(found),
    }
}

/// The size of the pieces in which bodies are stored, if one is told; None where the number is none.
fn piece_of(told: Option<u64>) -> Option<Option<usize>>
    ensures set { result ≡ piece_set told }
    ensures some { IfSome result (λ piece. IfSome piece (λ n. 0 < n)) }
{
    match told {
        Some(size) if size < 65_536 || size > 1_048_576 => None,
        Some(size) => Some(Some(size as usize)),
        None => Some(None),
    }
}

/// For how many seconds messages may still end once a stop was asked for, if it can be.
fn grace_of(found: &ArgMatches) -> Option<u64>
    ensures { result ≡ grace_given (rows_of (found_of found.now)) }
{
    match number_given(found, "metrics") {
        Some(_) => Some(number_of(found, "grace")),
        None => None,
    }
}

/// How many connections a worker holds at once, where they come without end or not; None where the number is not from 1 to
/// 16,384.
fn at_once_of(found: &ArgMatches, forever: bool) -> Option<usize>
    ensures { result ≡ at_once_given forever (rows_of (found_of found.now)) }
{
    match number_given(found, "at-once") {
        Some(number) if number == 0 || number > 16_384 => None,
        Some(number) => Some(number as usize),
        None if forever => Some(8192),
        None => Some(1),
    }
}

/// How many connections a worker accepts: without a bound it is the greatest number.
fn connections_of(found: &ArgMatches) -> u64
    ensures { result ≡ connections_given (rows_of (found_of found.now)) }
{
    if is_set(found, "forever") {
        u64::MAX
    } else {
        number_of(found, "connections")
    }
}

/// The moment that is set, if any; None where it is past the year 9999.
fn moment_of(found: &ArgMatches) -> Option<Option<Moment>>
    ensures { result ≡ moment_set (number_given (codes "moment") (rows_of (found_of found.now))) }
{
    match number_given(found, "moment") {
        Some(secs) => Some(Some(Moment::new(secs)?)),
        None => Some(None),
    }
}
