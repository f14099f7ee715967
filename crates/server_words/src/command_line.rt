//! The command line: its options with their help, and how its words are read.
ghost use Rattle.std.specs.Prelude.{◌≡◌, ◌≤◌, IfOk, IsTrue, codes, false, length, map, true};
ghost use Rattle.clap.specs.Walk.{texts};
ghost use Rattle.clap.specs.Words.{FailsBy, HasKind, app_of, fault_of, new_app, rule_of, subcommand_of, subcommand_rows_of};
ghost use Rattle.server_words.specs.CommandLine.{are_of_journal, ask_help_of_journal, check_command, command_in, export_command, faults_in, flag_rule, help_kinds, is_word, journal_alone, journal_program, journal_rule, log_rule, moment_rule, option_between, option_rule, pieces_rule, program, number_rule, program_alone, run_command, serve_command, talk_command, tenant_rule, text_rule, with_many_clients, with_run_service, with_run_sizes, with_service, with_sizes, with_watch, word_rule};

use crate::version::VERSION;
use clap::{Arg, ArgAction, ArgMatches, Command, value_parser};
use std::alloc::{AllocError, Global};
use std::convert::AsStr;

const PROGRAM_HELP: &str = "\
Example, which asks what the server can do:
  printf 'OPTIONS * HTTP/1.1\\r\\nHost: x\\r\\n\\r\\n' | tus-server talk acme:8

Exit status:
  0  The conversation ended, in whatever way; of serve: all connections were served, or a stop was asked for and the server
     ended; of journal: the line or the bytes were written; or help or the version was asked for
  2  The command line or the settings are refused, and no request was read
  3  A read or a write failed; of serve: a port, that for numbers too, a worker's socket or the log could not be had, or a
     worker could accept no more connections
  4  There was no memory to begin with, and no request was read
  5  The journal could not be had, and no request was read, or it failed; of journal: it is damaged, can't be read, or has
     no such upload
At 2, 3, 4 and 5 standard error says why.";

const RUN_HELP: &str = "\
It is serve --forever --port 8080 --pieces 262144 --uploads 1024, with as many --blocks as the quotas sum to, the largest
quota in bytes as --max-size, and 268435456 bytes more than an upload can have as --body-memory. Each of these but
--forever can be told otherwise.
A quota is a number of blocks, or of bytes with KiB, MiB, GiB or TiB, of which the whole blocks count: with blocks of
4096 bytes acme:262144 and acme:1GiB are the same. An upload takes a block for each that its bytes begin.
All uploads are kept in memory that is asked for at the start: as much as all quotas together, which is at most 2^44 bytes.
A GET holds the bytes of its upload once more until they are sent.
Without --journal everything ends with the process: its end, or the end of the machine, loses all uploads. With it a
folder has all of them, and the next start goes on from there, with the same tenants in the same order; new ones may
follow them. The help of serve says more.

Example, which serves the tenant acme until it is stopped:
  tus-server run acme:1GiB";

const TALK_HELP: &str = "\
Uploads are created by POST to /files/NAME, and live as long as the conversation, or with --journal in its folder: no
reply tells of a change before the folder has it, and the next conversation goes on from there. That has the same tenants
in the same order; new ones may follow them.
A quota is a number of blocks, or of bytes with KiB, MiB, GiB or TiB, of which the whole blocks count: with blocks of
4096 bytes acme:4096 and acme:16MiB are the same. An upload takes a block for each that its bytes begin.
A PATCH that would take more blocks than the tenant's quota is refused with 507.

Example, which creates an upload of 5 bytes for the tenant acme and tells where it is:
  printf 'POST /files/acme HTTP/1.1\\r\\nHost: x\\r\\nTus-Resumable: 1.0.0\\r\\n\
Upload-Length: 5\\r\\n\\r\\n' | tus-server talk acme:8";

const SERVE_HELP: &str = "\
All uploads are kept in memory, in blocks that are taken at the start: --blocks times --block-size bytes.
Without --journal everything ends with the process: its end, or the end of the machine, loses all uploads. With it a
folder has all of them: no reply tells of what the folder does not have, and the next start goes on from there. That has
the same tenants in the same order; new ones may follow them.
A quota is a number of blocks, or of bytes with KiB, MiB, GiB or TiB, of which the whole blocks count: with blocks of
4096 bytes acme:4096 and acme:16MiB are the same. An upload takes a block for each that its bytes begin.

It prints 'listening ADDR:PORT', as 127.0.0.1:8080 or [::1]:8080, before it accepts a connection, and at its end
how many blocks were charged, released and are held. With --forever a worker serves many connections side by side,
and else one after another, unless --at-once says more; a connection has at most 4096 messages. Expired uploads are removed whenever a
connection is accepted, and while some last once a second. A HEAD, PATCH or DELETE ends an older PATCH to the same
upload that has not come whole, and what came of that is kept.

Example, which serves the tenant acme until it is stopped:
  tus-server serve --port 8080 --forever acme:4096";

const JOURNAL_HELP: &str = "\
A journal is the folder that run, talk or serve has as --journal. These commands write nothing to it, and leave what a crash
has torn as it is. They take no lock, so a server may run meanwhile: they tell of what its file had when it was read.

Example, which tells what is in the journal in the folder uploads:
  tus-server journal check uploads";

const CHECK_HELP: &str = "\
It reads the settings and the journal, makes all changes again in memory, and prints one line:
  N records, N uploads, N bytes; file: N bytes, N of records, N torn
The bytes of the uploads count those of a final upload once more. The torn bytes are what a crash has left of a record, or
what a server is writing just now. There are none where 16 zeros stand behind the records. Else all bytes up to the last
that is not 0 count, those too that the file had as a longer journal before.
Where there is no journal or no settings, the journal is damaged, or a record is of no change that the settings allow, the
status is 5, and standard error says what is wrong, and where.";

const EXPORT_HELP: &str = "\
The bytes are those that the upload has, whether they are all of it or not; one that has expired is there until a server
has ended it. Where there is no such upload the status is 5, and standard error says why.

Example, which puts the first upload of the tenant acme into a file:
  tus-server journal export uploads acme/1 > upload";

/// What is found in the words of the command line; the first of them is the program's name. The error is why
/// they are not taken, or that they ask for help, or that memory was lacking.
pub fn parsed<'a, S: AsStr>(alloc: Global, words: &'a [S]) -> Result<ArgMatches<'a>, clap::Error>
    ensures found { IfOk result (λ m. subcommand_rows_of m ≡ command_in (map S.text words.entry.now)) }
    ensures faults { FailsBy (faults_in (map S.text words.entry.now)) result }
{
    if are_of_journal(words) {
        let (_, rest) = words.split_at(1);
        parsed_of_journal(alloc, rest)
    } else if ask_help_of_journal(words) {
        Err(help_of_journal(alloc, words))
    } else {
        parsed_of_program(alloc, words)
    }
}

/// Whether the words are those of `journal`, behind the program's name.
fn are_of_journal<S: AsStr>(words: &[S]) -> bool
    ensures value { result ≡ are_of_journal (map S.text words.now) }
    ensures some { IsTrue result → 1 ≤ length words.now }
{
    match words.get(1) {
        Some(word) => word.as_str() == "journal",
        None => false,
    }
}

/// Whether the words ask for help of `journal`: they are `help journal`, behind the program's name.
fn ask_help_of_journal<S: AsStr>(words: &[S]) -> bool
    ensures { result ≡ ask_help_of_journal (map S.text words.now) }
{
    is_word(words, 1, "help") && is_word(words, 2, "journal")
}

/// Whether the word at this place, from 0, is this one.
pub(crate) fn is_word<S: AsStr>(words: &[S], place: usize, text: &str) -> bool
    ensures { result ≡ is_word (map S.text words.now) place text.now }
{
    match words.get(place) {
        Some(word) => word.as_str() == text,
        None => false,
    }
}

/// Answers words that ask for help of `journal` as `journal help` does: what they name behind that is a command of `journal`,
/// or they are refused.
fn help_of_journal<S: AsStr>(alloc: Global, words: &[S]) -> clap::Error
    ensures { HasKind help_kinds result }
{
    let Some(name) = words.get(3) else {
        return journal_help(alloc, &["journal", "help"]);
    };
    match words.get(4) {
        Some(more) => journal_help(alloc, &["journal", "help", name.as_str(), more.as_str()]),
        None => journal_help(alloc, &["journal", "help", name.as_str()]),
    }
}

/// What words of `journal` are answered with, of which the second is `help`.
fn journal_help(alloc: Global, words: &[&str]) -> clap::Error
    requires { is_word (texts words.now) 1 (codes "help") ≡ true }
    ensures { HasKind help_kinds result }
{
    match parsed_of_journal(alloc, words) {
        Ok(_) => unreachable!("`help` is answered with help, or refused"),
        Err(error) => error,
    }
}

/// What is found in the words of the program itself.
fn parsed_of_program<'a, S: AsStr>(
    alloc: Global,
    words: &'a [S],
) -> Result<ArgMatches<'a>, clap::Error>
    ensures found { IfOk result (λ m.
        subcommand_rows_of m ≡ subcommand_of program (map S.text words.entry.now)) }
    ensures faults { FailsBy (fault_of program (map S.text words.entry.now)) result }
{
    command(alloc)?.try_get_matches_from(words)
}

/// What is found in the words of `journal`, of which that is the first.
fn parsed_of_journal<'a, S: AsStr>(
    alloc: Global,
    words: &'a [S],
) -> Result<ArgMatches<'a>, clap::Error>
    ensures found { IfOk result (λ m.
        subcommand_rows_of m ≡ subcommand_of journal_program (map S.text words.entry.now)) }
    ensures faults { FailsBy (fault_of journal_program (map S.text words.entry.now)) result }
{
    journal_command(alloc)?.try_get_matches_from(words)
}

/// The command line of the program.
fn command<'a>(alloc: Global) -> Result<Command<'a>, AllocError>
    ensures { IfOk result (λ c. app_of c ≡ program) }
{
    let command = program_alone(alloc)?;
    command
        .subcommand(run(alloc)?)?
        .subcommand(talk(alloc)?)?
        .subcommand(serve(alloc)?)?
        .subcommand(journal_named(alloc))
}

/// The command line of `journal`.
fn journal_command<'a>(alloc: Global) -> Result<Command<'a>, AllocError>
    ensures { IfOk result (λ c. app_of c ≡ journal_program) }
{
    let command = journal_alone(alloc)?;
    command
        .subcommand(check(alloc)?)?
        .subcommand(export(alloc)?)
}

/// `journal`, without its commands.
fn journal_alone<'a>(alloc: Global) -> Result<Command<'a>, AllocError>
    ensures { IfOk result (λ c. app_of c ≡ journal_alone) }
{
    journal_named(alloc)
        .subcommand_required(true)
        .arg_required_else_help(true)
        .bin_name("tus-server journal")
}

/// `journal`, as the program lists it.
fn journal_named<'a>(alloc: Global) -> Command<'a>
    ensures { app_of result ≡ new_app (codes "journal") }
{
    Command::new(alloc, "journal")
        .about("Looks into a journal, and writes nothing to it")
        .after_help(JOURNAL_HELP)
}

/// The command `journal check`.
fn check<'a>(alloc: Global) -> Result<Command<'a>, AllocError>
    ensures { IfOk result (λ c. app_of c ≡ check_command) }
{
    check_alone(alloc).arg(folder(alloc))
}

/// The command `journal check`, without its argument.
fn check_alone<'a>(alloc: Global) -> Command<'a>
    ensures { app_of result ≡ new_app (codes "check") }
{
    Command::new(alloc, "check")
        .about("Makes all changes of a journal again in memory, and tells what is in it")
        .after_help(CHECK_HELP)
}

/// The command `journal export`.
fn export<'a>(alloc: Global) -> Result<Command<'a>, AllocError>
    ensures { IfOk result (λ c. app_of c ≡ export_command) }
{
    export_alone(alloc).arg(folder(alloc))?.arg(upload(alloc))
}

/// The command `journal export`, without its arguments.
fn export_alone<'a>(alloc: Global) -> Command<'a>
    ensures { app_of result ≡ new_app (codes "export") }
{
    Command::new(alloc, "export")
        .about("Writes the bytes that an upload has to standard output, and nothing else")
        .after_help(EXPORT_HELP)
}

/// The word that names an upload in a journal.
fn upload<'a>(alloc: Global) -> Arg<'a>
    ensures rule { rule_of result ≡ word_rule (codes "upload") }
    ensures local { result.global ≡ false }
{
    Arg::new(alloc, "upload")
        .value_name("TENANT/ID")
        .required(true)
        .help("The upload, as acme/1: what follows /files/ in its Location")
}

/// The word that names the folder of a journal.
fn folder<'a>(alloc: Global) -> Arg<'a>
    ensures rule { rule_of result ≡ word_rule (codes "folder") }
    ensures local { result.global ≡ false }
{
    Arg::new(alloc, "folder")
        .value_name("DIR")
        .required(true)
        .help("The folder of the journal, as --journal has it")
}

/// The program, without its commands.
fn program_alone<'a>(alloc: Global) -> Result<Command<'a>, AllocError>
    ensures { IfOk result (λ c. app_of c ≡ program_alone) }
{
    Command::new(alloc, "tus-server")
        .version(VERSION)
        .about("An upload server for tus 1.0.0, the open protocol for resumable uploads")
        .after_help(PROGRAM_HELP)
        .subcommand_required(true)
        .arg_required_else_help(true)
        .bin_name("tus-server")
}

/// The command `talk`.
fn talk<'a>(alloc: Global) -> Result<Command<'a>, AllocError>
    ensures { IfOk result (λ c. app_of c ≡ talk_command) }
{
    let command = talk_alone(alloc)
        .arg(moment(alloc))?
        .arg(journal(alloc))?
        .arg(pieces(alloc))?;
    sizes(alloc, command)?.arg(tenants(alloc))
}

/// The option that names the folder of the journal.
fn journal<'a>(alloc: Global) -> Arg<'a>
    ensures rule { rule_of result ≡ journal_rule }
    ensures local { result.global ≡ false }
{
    Arg::new(alloc, "journal")
        .long("journal")
        .value_name("DIR")
        .help(
            "The folder that keeps all uploads, and the settings that they are of; it is made where there is none",
        )
}

/// The command `talk`, without its arguments.
fn talk_alone<'a>(alloc: Global) -> Command<'a>
    ensures { app_of result ≡ new_app (codes "talk") }
{
    Command::new(alloc, "talk")
        .about("Answers the HTTP/1.1 requests on standard input on standard output")
        .after_help(TALK_HELP)
}

/// The command `serve`.
fn serve<'a>(alloc: Global) -> Result<Command<'a>, AllocError>
    ensures { IfOk result (λ c. app_of c ≡ serve_command) }
{
    let served = service(alloc, serve_alone(alloc))?;
    let with_clients = many_clients(alloc, served, body_memory(alloc))?;
    let command = watch(alloc, with_clients)?
        .arg(set_moment(alloc))?
        .arg(journal(alloc))?;
    sizes(alloc, command)?.arg(tenants(alloc))
}

/// The command `serve`, without its arguments.
fn serve_alone<'a>(alloc: Global) -> Command<'a>
    ensures { app_of result ≡ new_app (codes "serve") }
{
    Command::new(alloc, "serve")
        .about("Answers HTTP/1.1 requests on connections")
        .after_help(SERVE_HELP)
}

/// The command `run`.
fn run<'a>(alloc: Global) -> Result<Command<'a>, AllocError>
    ensures { IfOk result (λ c. app_of c ≡ run_command) }
{
    let command = watch(alloc, run_with_clients(alloc)?)?;
    run_sizes(alloc, command.arg(journal(alloc))?)?.arg(tenants(alloc))
}

/// The command `run`, with its options on clients alone.
fn run_with_clients<'a>(alloc: Global) -> Result<Command<'a>, AllocError>
    ensures { IfOk result (λ c. app_of c
        ≡ with_many_clients (number_rule (codes "body-memory") 0 18446744073709551615) (with_run_service (new_app (codes "run")))) }
{
    let served = run_service(alloc, run_alone(alloc))?;
    many_clients(alloc, served, run_body_memory(alloc))
}

/// The command `run`, without its arguments.
fn run_alone<'a>(alloc: Global) -> Command<'a>
    ensures { app_of result ≡ new_app (codes "run") }
{
    Command::new(alloc, "run")
        .about("Serves tenants with these quotas until it is stopped")
        .after_help(RUN_HELP)
}

/// The options on how the connections of `run` are served.
fn run_service<'a>(alloc: Global, command: Command<'a>) -> Result<Command<'a>, AllocError>
    ensures { IfOk result (λ c. app_of c ≡ with_run_service (app_of command.entry)) }
{
    command
        .arg(address(alloc))?
        .arg(port(alloc, "8080"))?
        .arg(workers(alloc))?
        .arg(idle(alloc))
}

/// The options on how connections are served.
fn service<'a>(alloc: Global, command: Command<'a>) -> Result<Command<'a>, AllocError>
    ensures { IfOk result (λ c. app_of c ≡ with_service (app_of command.entry)) }
{
    command
        .arg(address(alloc))?
        .arg(port(alloc, "0"))?
        .arg(workers(alloc))?
        .arg(connections(alloc))?
        .arg(forever(alloc))?
        .arg(idle(alloc))
}

/// The options on how many clients are served at once, and what they may take, of which one is how many bytes bodies may.
fn many_clients<'a>(
    alloc: Global,
    command: Command<'a>,
    body_memory: Arg<'a>,
) -> Result<Command<'a>, AllocError>
    requires { body_memory.global ≡ false }
    ensures { IfOk result (λ c. app_of c ≡ with_many_clients (rule_of body_memory.entry) (app_of command.entry)) }
{
    command
        .arg(at_once(alloc))?
        .arg(message_seconds(alloc))?
        .arg(least_rate(alloc))?
        .arg(body_memory)?
        .arg(pieces(alloc))?
        .arg(max_body(alloc))
}

/// The options on how the service is watched.
fn watch<'a>(alloc: Global, command: Command<'a>) -> Result<Command<'a>, AllocError>
    ensures { IfOk result (λ c. app_of c ≡ with_watch (app_of command.entry)) }
{
    command
        .arg(log(alloc))?
        .arg(metrics(alloc))?
        .arg(grace(alloc))
}

/// The option that names the file of the log.
fn log<'a>(alloc: Global) -> Arg<'a>
    ensures rule { rule_of result ≡ log_rule }
    ensures local { result.global ≡ false }
{
    Arg::new(alloc, "log").long("log").value_name("FILE").help(
        "Put a line for each request and each connection that is cut off behind this file; - is standard error",
    )
}

/// The option that names the port at which numbers and a stop are asked for.
fn metrics<'a>(alloc: Global) -> Arg<'a>
    ensures rule { rule_of result ≡ number_rule (codes "metrics") 1 65535 }
    ensures local { result.global ≡ false }
{
    number_alone(alloc, "metrics", "PORT")
        .value_parser(value_parser!(u64).range(1..65_536))
        .help(
            "Answer GET /metrics, for Prometheus, GET /health and, from this machine, POST /stop at this port of the same address, 1 to 65535",
        )
}

/// The option for how long messages may last once a stop was asked for.
fn grace<'a>(alloc: Global) -> Arg<'a>
    ensures rule { rule_of result ≡ option_between (codes "grace") (codes "10") 0 86400 }
    ensures local { result.global ≡ false }
{
    number(alloc, "grace", "SECONDS", "10")
        .value_parser(value_parser!(u64).range(..=86_400))
        .help(
            "How long messages that are under way may last once POST /stop came, 0 to 86400; then they are cut off",
        )
}

/// The option that names the port.
fn port<'a>(alloc: Global, default: &'a str) -> Arg<'a>
    ensures rule { rule_of result ≡ option_between (codes "port") default.entry.now 0 65535 }
    ensures local { result.global ≡ false }
{
    number(alloc, "port", "PORT", default)
        .value_parser(value_parser!(u64).range(..=65_535))
        .help("The port to listen at, 0 to 65535; 0 is any that is free")
}

/// The option that names the address.
fn address<'a>(alloc: Global) -> Arg<'a>
    ensures rule { rule_of result ≡ text_rule (codes "address") (codes "127.0.0.1") }
    ensures local { result.global ≡ false }
{
    text(alloc, "address", "ADDR", "127.0.0.1").help(
        "The address of this machine to listen at, of IPv4 or IPv6; 0.0.0.0 or :: is every one. There is \
neither TLS nor authentication: put a proxy before it",
    )
}

/// The option for how many workers there are.
fn workers<'a>(alloc: Global) -> Arg<'a>
    ensures rule { rule_of result ≡ option_between (codes "workers") (codes "2") 1 16 }
    ensures local { result.global ≡ false }
{
    number(alloc, "workers", "N", "2")
        .value_parser(value_parser!(u64).range(1..17))
        .help("How many workers there are, each in a thread of its own, 1 to 16")
}

/// The option for how many connections a worker accepts.
fn connections<'a>(alloc: Global) -> Arg<'a>
    ensures rule { rule_of result ≡ option_between (codes "connections") (codes "1") 1 4096 }
    ensures local { result.global ≡ false }
{
    number(alloc, "connections", "N", "1")
        .value_parser(value_parser!(u64).range(1..4097))
        .help("How many connections each worker accepts before it ends, 1 to 4096")
}

/// The flag that takes the bound of the connections away.
fn forever<'a>(alloc: Global) -> Arg<'a>
    ensures rule { rule_of result ≡ flag_rule (codes "forever") }
    ensures local { result.global ≡ false }
{
    Arg::new(alloc, "forever")
        .long("forever")
        .action(ArgAction::SetTrue)
        .help("Accept connections until the process is stopped, whatever --connections says")
}

/// The option for how long a silent connection is kept.
fn idle<'a>(alloc: Global) -> Arg<'a>
    ensures rule { rule_of result ≡ option_between (codes "idle") (codes "60") 0 86400 }
    ensures local { result.global ≡ false }
{
    number(alloc, "idle", "SECONDS", "60")
        .value_parser(value_parser!(u64).range(..=86_400))
        .help(
            "End a connection that neither sends nor takes a byte for so long, 0 to 86400; 0 is never",
        )
}

/// The option for how many connections a worker holds.
fn at_once<'a>(alloc: Global) -> Arg<'a>
    ensures rule { rule_of result ≡ number_rule (codes "at-once") 1 16384 }
    ensures local { result.global ≡ false }
{
    number_alone(alloc, "at-once", "N")
        .value_parser(value_parser!(u64).range(1..16_385))
        .help(
            "How many connections each worker holds at once, 1 to 16384; with --forever 8192 unless set, else 1",
        )
}

/// The option for how long a message may take.
fn message_seconds<'a>(alloc: Global) -> Arg<'a>
    ensures rule { rule_of result ≡ option_between (codes "message-seconds") (codes "0") 0 86400 }
    ensures local { result.global ≡ false }
{
    number(alloc, "message-seconds", "SECONDS", "0")
        .value_parser(value_parser!(u64).range(..=86_400))
        .help(
            "End a connection whose message, head and body, takes so long, 0 to 86400; 0 is never",
        )
}

/// The option for how fast a client has to be.
fn least_rate<'a>(alloc: Global) -> Arg<'a>
    ensures rule { rule_of result ≡ option_between (codes "least-rate") (codes "0") 0 1073741824 }
    ensures local { result.global ≡ false }
{
    number(alloc, "least-rate", "BYTES", "0")
        .value_parser(value_parser!(u64).range(..=1_073_741_824))
        .help(
            "End a connection that sends a body or takes a reply by fewer bytes a second, over ten seconds; 0 is never",
        )
}

/// The option for how much memory bodies may take.
fn body_memory<'a>(alloc: Global) -> Arg<'a>
    ensures rule { rule_of result ≡ option_rule (codes "body-memory") (codes "268435456") 18446744073709551615 }
    ensures local { result.global ≡ false }
{
    number(alloc, "body-memory", "BYTES", "268435456").help(
        "How many bytes of bodies that are under way are held; above that the greatest is cut off, and kept",
    )
}

/// The option for how much memory bodies of `run` may take.
fn run_body_memory<'a>(alloc: Global) -> Arg<'a>
    ensures rule { rule_of result ≡ number_rule (codes "body-memory") 0 18446744073709551615 }
    ensures local { result.global ≡ false }
{
    number_alone(alloc, "body-memory", "BYTES").help(
        "How many bytes of bodies and replies that are under way are held; 268435456 more than an upload can have unless set",
    )
}

/// The option that has bodies stored in pieces.
fn pieces<'a>(alloc: Global) -> Arg<'a>
    ensures rule { rule_of result ≡ pieces_rule }
    ensures local { result.global ≡ false }
{
    number_alone(alloc, "pieces", "BYTES")
        .value_parser(value_parser!(u64).range(65_536..1_048_577))
        .help(
            "Store bodies without a checksum as they come, in pieces of so many bytes, 65536 to 1048576; --blocks may then be up to 4294967295, --block-size to 1048576, all blocks together 2^44 bytes, --max-size up to 1099511627776, and --uploads up to 65536",
        )
}

/// The option for how long a body may be that is not stored in pieces.
fn max_body<'a>(alloc: Global) -> Arg<'a>
    ensures rule { rule_of result ≡ number_rule (codes "max-body") 1 16777216 }
    ensures local { result.global ≡ false }
{
    number_alone(alloc, "max-body", "BYTES")
        .value_parser(value_parser!(u64).range(1..16_777_217))
        .help(
            "The greatest body, with --pieces the greatest with a checksum, 1 to 16777216; --max-size unless set, or 16777216 if that is more",
        )
}

/// The option that sets the clock of a server, which otherwise is the machine's.
fn set_moment<'a>(alloc: Global) -> Arg<'a>
    ensures rule { rule_of result ≡ moment_rule }
    ensures local { result.global ≡ false }
{
    number_alone(alloc, "moment", "SECONDS")
        .value_parser(value_parser!(u64).range(..=253_402_300_799))
        .help(
            "The time of every request, in seconds since 1970-01-01 00:00:00 UTC, in place of the clock's",
        )
}

/// The option that sets the clock.
fn moment<'a>(alloc: Global) -> Arg<'a>
    ensures rule { rule_of result ≡ option_rule (codes "moment") (codes "0") 253402300799 }
    ensures local { result.global ≡ false }
{
    number(alloc, "moment", "SECONDS", "0")
        .value_parser(value_parser!(u64).range(..=253_402_300_799))
        .help("The time of every request, in seconds since 1970-01-01 00:00:00 UTC")
}

/// The options that set up the book.
fn sizes<'a>(alloc: Global, command: Command<'a>) -> Result<Command<'a>, AllocError>
    ensures { IfOk result (λ c. app_of c ≡ with_sizes (app_of command.entry)) }
{
    command
        .arg(number(alloc, "blocks", "N", "4096").help(
            "How many blocks the server has, 1 to 1048576",
        ))?
        .arg(block_size(alloc))?
        .arg(lifetime(alloc))?
        .arg(number(alloc, "max-size", "BYTES", "1048576").help(
            "The greatest upload and request body, 1 to 16777216",
        ))?
        .arg(uploads(alloc))
}

/// The options that set up the book of `run`.
fn run_sizes<'a>(alloc: Global, command: Command<'a>) -> Result<Command<'a>, AllocError>
    ensures { IfOk result (λ c. app_of c ≡ with_run_sizes (app_of command.entry)) }
{
    command
        .arg(run_blocks(alloc))?
        .arg(run_block_size(alloc))?
        .arg(lifetime(alloc))?
        .arg(finished_lifetime(alloc))?
        .arg(run_max_size(alloc))?
        .arg(run_uploads(alloc))
}

/// The option for how many blocks `run` has.
fn run_blocks<'a>(alloc: Global) -> Arg<'a>
    ensures rule { rule_of result ≡ number_rule (codes "blocks") 0 18446744073709551615 }
    ensures local { result.global ≡ false }
{
    number_alone(alloc, "blocks", "N").help(
        "How many blocks the server has, 1 to 4294967295; as many as the quotas sum to unless set",
    )
}

/// The option for the greatest upload of `run`.
fn run_max_size<'a>(alloc: Global) -> Arg<'a>
    ensures rule { rule_of result ≡ number_rule (codes "max-size") 0 18446744073709551615 }
    ensures local { result.global ≡ false }
{
    number_alone(alloc, "max-size", "BYTES").help(
        "The greatest upload, 1 to 1099511627776; the largest quota unless set",
    )
}

/// The option for how many bytes a block has.
fn block_size<'a>(alloc: Global) -> Arg<'a>
    ensures rule { rule_of result ≡ option_rule (codes "block-size") (codes "4096") 18446744073709551615 }
    ensures local { result.global ≡ false }
{
    number(alloc, "block-size", "BYTES", "4096").help(
        "The size of a block, 1 to 65536; all blocks together have at most 2^30 bytes",
    )
}

/// The option for how many bytes a block of `run` has.
fn run_block_size<'a>(alloc: Global) -> Arg<'a>
    ensures rule { rule_of result ≡ option_rule (codes "block-size") (codes "4096") 18446744073709551615 }
    ensures local { result.global ≡ false }
{
    number(alloc, "block-size", "BYTES", "4096").help(
        "The size of a block, 1 to 1048576; all blocks together have at most 2^44 bytes",
    )
}

/// The option for how long an unfinished upload is kept.
fn lifetime<'a>(alloc: Global) -> Arg<'a>
    ensures rule { rule_of result ≡ option_rule (codes "lifetime") (codes "86400") 18446744073709551615 }
    ensures local { result.global ≡ false }
{
    number(alloc, "lifetime", "SECONDS", "86400").help(
        "For how long an unfinished upload is kept after its last PATCH, 1 to 31536000",
    )
}

/// The option for how long a finished upload stays.
fn finished_lifetime<'a>(alloc: Global) -> Arg<'a>
    ensures rule { rule_of result ≡ option_rule (codes "finished-lifetime") (codes "0") 18446744073709551615 }
    ensures local { result.global ≡ false }
{
    number(alloc, "finished-lifetime", "SECONDS", "0").help(
        "For how long a finished upload stays, 1 to 31536000; until it is deleted at 0",
    )
}

/// The option for how many uploads a tenant has.
fn uploads<'a>(alloc: Global) -> Arg<'a>
    ensures rule { rule_of result ≡ option_rule (codes "uploads") (codes "64") 18446744073709551615 }
    ensures local { result.global ≡ false }
{
    number(alloc, "uploads", "N", "64").help("How many uploads a tenant has at most, 1 to 64")
}

/// The option for how many uploads a tenant of `run` has.
fn run_uploads<'a>(alloc: Global) -> Arg<'a>
    ensures rule { rule_of result ≡ option_rule (codes "uploads") (codes "1024") 18446744073709551615 }
    ensures local { result.global ≡ false }
{
    number(alloc, "uploads", "N", "1024").help("How many uploads a tenant has at most, 1 to 65536")
}

/// The words that name the tenants.
fn tenants<'a>(alloc: Global) -> Arg<'a>
    ensures rule { rule_of result ≡ tenant_rule }
    ensures local { result.global ≡ false }
{
    Arg::new(alloc, "tenant")
        .value_name("NAME:QUOTA")
        .required(true)
        .num_args(1..)
        .action(ArgAction::Append)
        .help(
            "A tenant and its quota, in blocks or as 16MiB; 1 to 16 of them. A name is 1 to 32 of a-z, 0-9 and -",
        )
}

/// An option that takes a text.
fn text<'a>(alloc: Global, name: &'a str, value: &'a str, default: &'a str) -> Arg<'a>
    ensures rule { rule_of result ≡ text_rule name.entry.now default.entry.now }
    ensures local { result.global ≡ false }
{
    Arg::new(alloc, name)
        .long(name)
        .value_name(value)
        .default_value(default)
}

/// An option that takes a number.
fn number<'a>(alloc: Global, name: &'a str, value: &'a str, default: &'a str) -> Arg<'a>
    ensures rule { rule_of result
        ≡ option_rule name.entry.now default.entry.now 18446744073709551615 }
    ensures local { result.global ≡ false }
{
    number_alone(alloc, name, value).default_value(default)
}

/// An option that takes a number, and has no default.
fn number_alone<'a>(alloc: Global, name: &'a str, value: &'a str) -> Arg<'a>
    ensures rule { rule_of result ≡ number_rule name.entry.now 0 18446744073709551615 }
    ensures local { result.global ≡ false }
{
    Arg::new(alloc, name)
        .long(name)
        .value_name(value)
        .value_parser(value_parser!(u64))
}
