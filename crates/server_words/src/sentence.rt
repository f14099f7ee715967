//! The second line of a fault: a sentence that says what was wrong, with the value and the limit, and what to do.
ghost use Rattle.std.specs.Prelude.{◌≡◌, ◌<◌, ◌≤◌, [], ◌∷◌, ◌++◌, bytes_eq, codes, decimal, length, take};
ghost use Rattle.std.specs.List.{before_first, list_any};
ghost use Rattle.arrayvec.specs.ArrayString.{array_string_len};
ghost use Rattle.clap.specs.Walk.{texts};
ghost use Rattle.server_words.specs.Arguments.{arguments_of};
ghost use Rattle.server_words.specs.Sentences.{finished_text, address_in, address_text, bounds_in, cause_text, difference_text, journal_in, journal_text, log_in, memory_text, memory_told, metrics_in, mismatch_text, name_twice, no_upload_text, numbers_in, outside_text, pool_text, port_in, port_text, ports_text, quota_text, reading_text, sentence_of, settings_text, shortage_text, shown, shown_byte, sum_text, tenant_words, tenants_text, twice_text, untold_text, upload_in, word_rule, word_text, wrong_word};
ghost use Rattle.server_words.specs.Tenants.{is_colon};

use crate::cause::{Cause, PortFault};
use crate::difference::Difference;
use crate::fault::RunFault;
use crate::journal_fault::{JournalFault, Mismatch, NoUpload};
use crate::options::CommandOptions;
use crate::shortage::Shortage;
use crate::tenants::{quota_sum, tenant_of};
use arrayvec::ArrayString;
use itoa::Buffer;
use tus_text::is_tenant_name;
use upload_book::{Bounds, Numbers, SettingsFault};

/// The most bytes of a sentence.
pub const SENTENCE_MAX: usize = 256;

/// What a sentence shows of a word.
pub type Excerpt = ArrayString<48>;

/// The sentence on a word of the command line that is no text.
pub const NO_TEXT: &str = "a word of the command line is not UTF-8: write it in ASCII\n";

/// The sentence on words that are refused, where memory was lacking to say why.
pub const UNTOLD: &str =
    "the command line is refused, and there was no memory to say why: see tus-server --help\n";

/// The sentence on memory that was lacking for the words themselves.
pub const WORDS_MEMORY: &str =
    "there was no memory to read the command line or to show help: give more memory\n";

/// The sentence on an output that failed.
pub const OUTPUT: &str = "standard output could not be written: see where it goes to\n";

/// The sentence on a fault of this command, with LF.
pub fn sentence(fault: &RunFault, command: &CommandOptions) -> ArrayString<SENTENCE_MAX>
    ensures { result.bytes ≡ sentence_of (arguments_of command.now) fault.now }
{
    match fault {
        RunFault::Words => line(UNTOLD),
        RunFault::Settings(why) => settings_line(
            bounds_of(command),
            *why,
            numbers_of(command),
            tenants_of(command),
        ),
        RunFault::Address => address_line(address_of(command)),
        RunFault::Ports => ports_line(port_of(command)),
        RunFault::Wire(cause) => cause_line(*cause, command),
        RunFault::Journal(why) => journal_line(why, journal_of(command), upload_of(command)),
        RunFault::Memory => memory_told(command),
    }
}

/// The numbers of a command that has none.
const NO_NUMBERS: Numbers = Numbers {
    blocks: 0,
    block_size: 0,
    lifetime: 0,
    finished_lifetime: 0,
    max_size: 0,
    uploads: 0,
    last_id: 0,
    last_total: 0,
};

/// The numbers of a command.
fn numbers_of(command: &CommandOptions) -> Numbers
    ensures { result ≡ numbers_in (arguments_of command.now) }
{
    match command {
        CommandOptions::Talk(options) => options.numbers,
        CommandOptions::Serve(options) => options.numbers,
        CommandOptions::Check(_) | CommandOptions::Export(_) => NO_NUMBERS,
    }
}

/// The words NAME:QUOTA of a command.
fn tenants_of<'m, 'a>(command: &CommandOptions<'m, 'a>) -> &'m [&'a str]
    ensures { texts result.now ≡ tenant_words (arguments_of command.entry.now) }
{
    match command {
        CommandOptions::Talk(options) => options.tenants,
        CommandOptions::Serve(options) => options.tenants,
        CommandOptions::Check(_) | CommandOptions::Export(_) => &[],
    }
}

/// The bounds of the settings of a command.
fn bounds_of(command: &CommandOptions) -> Bounds
    ensures { result ≡ bounds_in (arguments_of command.now) }
{
    match command {
        CommandOptions::Talk(options) => options.bounds(),
        CommandOptions::Serve(options) => options.work.bounds(),
        CommandOptions::Check(_) | CommandOptions::Export(_) => Bounds::Narrow,
    }
}

/// The address that a command was to listen at; no text where it listens at none.
fn address_of<'m, 'a>(command: &CommandOptions<'m, 'a>) -> &'a str
    ensures { result.now ≡ address_in (arguments_of command.entry.now) }
{
    match command {
        CommandOptions::Talk(_) | CommandOptions::Check(_) | CommandOptions::Export(_) => "",
        CommandOptions::Serve(options) => options.address,
    }
}

/// The path of the journal of a command; no text where it has none.
fn journal_of<'m, 'a>(command: &CommandOptions<'m, 'a>) -> &'a str
    ensures { result.now ≡ journal_in (arguments_of command.entry.now) }
{
    match command {
        CommandOptions::Talk(options) => options.journal.unwrap_or(""),
        CommandOptions::Serve(options) => options.journal.unwrap_or(""),
        CommandOptions::Check(folder) => folder,
        CommandOptions::Export(options) => options.folder,
    }
}

/// The word TENANT/ID of a command; no text where it has none.
fn upload_of<'m, 'a>(command: &CommandOptions<'m, 'a>) -> &'a str
    ensures { result.now ≡ upload_in (arguments_of command.entry.now) }
{
    match command {
        CommandOptions::Export(options) => options.upload,
        CommandOptions::Talk(_) | CommandOptions::Serve(_) | CommandOptions::Check(_) => "",
    }
}

/// The port that a command was to listen at; 0 where it listens at none.
fn port_of(command: &CommandOptions) -> u16
    ensures { result ≡ port_in (arguments_of command.now) }
{
    match command {
        CommandOptions::Talk(_) | CommandOptions::Check(_) | CommandOptions::Export(_) => 0,
        CommandOptions::Serve(options) => options.port,
    }
}

/// The file of the log of a command; no text where it has none.
fn log_of<'m, 'a>(command: &CommandOptions<'m, 'a>) -> &'a str
    ensures { result.now ≡ log_in (arguments_of command.entry.now) }
{
    match command {
        CommandOptions::Talk(_) | CommandOptions::Check(_) | CommandOptions::Export(_) => "",
        CommandOptions::Serve(options) => options.log.unwrap_or(""),
    }
}

/// The port at which numbers of a command are asked for; 0 where there is none.
fn metrics_of(command: &CommandOptions) -> u16
    ensures { result ≡ metrics_in (arguments_of command.now) }
{
    match command {
        CommandOptions::Talk(_) | CommandOptions::Check(_) | CommandOptions::Export(_) => 0,
        CommandOptions::Serve(options) => options.metrics.unwrap_or(0),
    }
}

/// A text as a line of its own.
fn line(text: &str) -> ArrayString<SENTENCE_MAX>
    requires { length text.now ≤ 256 }
    ensures { result.bytes ≡ text.now }
{
    let mut line = ArrayString::new();
    line.push_str(text);
    line
}

/// What is wrong with the settings of these numbers and words under these bounds.
fn settings_line(
    bounds: Bounds,
    why: SettingsFault,
    numbers: Numbers,
    words: &[&str],
) -> ArrayString<SENTENCE_MAX>
    ensures { result.bytes ≡ settings_text bounds why numbers (texts words.now) }
{
    match why {
        SettingsFault::Blocks => outside("blocks", numbers.blocks, bounds.blocks_limit()),
        SettingsFault::BlockSize => {
            outside("block-size", numbers.block_size, bounds.block_size_limit())
        }
        SettingsFault::PoolBytes => pool_line(numbers, bounds.pool_limit()),
        SettingsFault::Lifetime => outside("lifetime", numbers.lifetime, 31_536_000),
        SettingsFault::FinishedLifetime => finished_line(numbers.finished_lifetime),
        SettingsFault::MaxSize => outside("max-size", numbers.max_size, bounds.size_limit()),
        SettingsFault::Uploads => outside("uploads", numbers.uploads, bounds.uploads_limit()),
        SettingsFault::LastId => line("the last id is out of its range\n"),
        SettingsFault::TenantCount => tenants_line(words.len()),
        SettingsFault::TenantName => word_line(wrong_word(words, numbers.block_size)),
        SettingsFault::TenantTwice => twice_line(name_twice(words)),
        SettingsFault::Quota => quota_line(quota_sum(words, numbers.block_size), numbers.blocks),
    }
}

/// A number of an option is outside 1 to `most`.
fn outside(option: &str, value: u64, most: u64) -> ArrayString<SENTENCE_MAX>
    requires option { length option.now ≤ 16 }
    ensures { result.bytes ≡ outside_text option.now value most }
{
    let mut digits = Buffer::new();
    let mut line = ArrayString::new();
    line.push_str("--");
    line.push_str(option);
    line.push_str(" is ");
    line.push_str(digits.format(value));
    line.push_str(": give 1 to ");
    line.push_str(digits.format(most));
    line.push_str("\n");
    line
}

/// Finished uploads would stay for too long.
fn finished_line(seconds: u64) -> ArrayString<SENTENCE_MAX>
    ensures { result.bytes ≡ finished_text seconds }
{
    let mut digits = Buffer::new();
    let mut line = ArrayString::new();
    line.push_str("--finished-lifetime is ");
    line.push_str(digits.format(seconds));
    line.push_str(": give 0 to 31536000\n");
    line
}

/// The blocks have more than `most` bytes together.
fn pool_line(numbers: Numbers, most: u64) -> ArrayString<SENTENCE_MAX>
    ensures { result.bytes ≡ pool_text numbers most }
{
    let mut digits = Buffer::new();
    let mut line = ArrayString::new();
    line.push_str("--blocks ");
    line.push_str(digits.format(numbers.blocks));
    line.push_str(" times --block-size ");
    line.push_str(digits.format(numbers.block_size));
    line.push_str(" is more than ");
    line.push_str(digits.format(most));
    line.push_str(" bytes: give less of one\n");
    line
}

/// There are too many tenants, or none.
fn tenants_line(count: usize) -> ArrayString<SENTENCE_MAX>
    ensures { result.bytes ≡ tenants_text count }
{
    let mut digits = Buffer::new();
    let mut line = ArrayString::new();
    line.push_str(digits.format(count));
    line.push_str(" tenants are named: give 1 to 16\n");
    line
}

/// A word names no tenant.
fn word_line(word: &str) -> ArrayString<SENTENCE_MAX>
    ensures { result.bytes ≡ word_text word.now }
{
    let mut line = ArrayString::new();
    line.push_str(shown(word).as_str());
    line.push_str(": ");
    line.push_str(word_rule(word));
    line.push_str("\n");
    line
}

/// Two tenants have this name.
fn twice_line(name: &str) -> ArrayString<SENTENCE_MAX>
    ensures { result.bytes ≡ twice_text name.now }
{
    let mut line = ArrayString::new();
    line.push_str(shown(name).as_str());
    line.push_str(" is the name of two tenants: give each another\n");
    line
}

/// The quotas are more than the blocks.
fn quota_line(sum: Option<u64>, blocks: u64) -> ArrayString<SENTENCE_MAX>
    ensures { result.bytes ≡ quota_text sum blocks }
{
    let mut digits = Buffer::new();
    let mut line = ArrayString::new();
    line.push_str("the quotas sum to ");
    line.push_str(sum_of(sum, &mut digits));
    line.push_str(" blocks, --blocks is ");
    line.push_str(digits.format(blocks));
    line.push_str(": give smaller quotas or more --blocks\n");
    line
}

/// A sum in words.
fn sum_of(sum: Option<u64>, digits: &mut Buffer) -> &str
    ensures text { result.now ≡ sum_text sum }
    ensures short { length result.now ≤ 40 }
{
    match sum {
        Some(sum) => digits.format(sum),
        None => "more than 18446744073709551615",
    }
}

/// There was no memory for the blocks and what stands beside them.
fn memory_line(numbers: Numbers) -> ArrayString<SENTENCE_MAX>
    ensures { result.bytes ≡ memory_text numbers }
{
    let bytes = u128::from(numbers.blocks) * u128::from(numbers.block_size);
    let mut digits = Buffer::new();
    let mut line = ArrayString::new();
    line.push_str("there was no memory for ");
    line.push_str(digits.format(numbers.blocks));
    line.push_str(" blocks of ");
    line.push_str(digits.format(numbers.block_size));
    line.push_str(" bytes, ");
    line.push_str(digits.format(bytes));
    line.push_str(" together, and their uploads: give less, or more memory\n");
    line
}

/// There was no memory for what a command needs.
fn memory_told(command: &CommandOptions) -> ArrayString<SENTENCE_MAX>
    ensures { result.bytes ≡ memory_told (arguments_of command.now) }
{
    match command {
        CommandOptions::Talk(options) => memory_line(options.numbers),
        CommandOptions::Serve(options) => memory_line(options.numbers),
        CommandOptions::Check(folder) => reading_line(folder),
        CommandOptions::Export(options) => reading_line(options.folder),
    }
}

/// There was no memory for what is in a journal.
fn reading_line(path: &str) -> ArrayString<SENTENCE_MAX>
    ensures { result.bytes ≡ reading_text path.now }
{
    let mut line = ArrayString::new();
    line.push_str("there was no memory to read ");
    line.push_str(shown(path).as_str());
    line.push_str(" and to make its changes again: give more memory\n");
    line
}

/// What broke.
fn cause_line(cause: Cause, command: &CommandOptions) -> ArrayString<SENTENCE_MAX>
    ensures { result.bytes ≡ cause_text cause (arguments_of command.now) }
{
    match cause {
        Cause::Input => line("standard input could not be read: see where it comes from\n"),
        Cause::Output => line(OUTPUT),
        Cause::Port(why) => port_line(why, address_of(command), port_of(command)),
        Cause::Workers => line(
            "there was no socket for each worker: give fewer --workers, or a higher ulimit -n\n",
        ),
        Cause::Accept => line("a worker could accept no connection: see ulimit -n\n"),
        Cause::Log => path_is(
            log_of(command),
            " can't be opened for the log: see its folder, and whose it is\n",
        ),
        Cause::Metrics => metrics_line(metrics_of(command)),
    }
}

/// The port at which numbers are asked for could not be had.
fn metrics_line(port: u16) -> ArrayString<SENTENCE_MAX>
    ensures { result.bytes ≡ codes "--metrics " ++ decimal port ++ codes " can't be listened at: give another port\n" }
{
    let mut digits = Buffer::new();
    let mut line = ArrayString::new();
    line.push_str("--metrics ");
    line.push_str(digits.format(port));
    line.push_str(" can't be listened at: give another port\n");
    line
}

/// A port could not be had.
fn port_line(why: PortFault, address: &str, port: u16) -> ArrayString<SENTENCE_MAX>
    ensures { result.bytes ≡ port_text why address.now port }
{
    match why {
        PortFault::Taken => port_is(
            port,
            " is taken by another program: end that, or give another --port\n",
        ),
        PortFault::Forbidden => port_is(
            port,
            " is not allowed to this user: give a --port from 1024 on\n",
        ),
        PortFault::NotHere => not_here_line(address),
        PortFault::Refused => refused_line(address, port),
    }
}

/// A port is as these words say.
fn port_is(port: u16, words: &str) -> ArrayString<SENTENCE_MAX>
    requires { length words.now ≤ 128 }
    ensures { result.bytes ≡ codes "port " ++ decimal port ++ words.now }
{
    let mut digits = Buffer::new();
    let mut line = ArrayString::new();
    line.push_str("port ");
    line.push_str(digits.format(port));
    line.push_str(words);
    line
}

/// The machine has no such address.
fn not_here_line(address: &str) -> ArrayString<SENTENCE_MAX>
    ensures { result.bytes ≡ port_text PortFault.NotHere address.now 0 }
{
    let mut line = ArrayString::new();
    line.push_str(shown(address).as_str());
    line.push_str(
        " is no address of this machine: give one that is, or 0.0.0.0 or :: for every one\n",
    );
    line
}

/// The system refused a port of an address.
fn refused_line(address: &str, port: u16) -> ArrayString<SENTENCE_MAX>
    ensures { result.bytes ≡ port_text PortFault.Refused address.now port }
{
    let mut digits = Buffer::new();
    let mut line = ArrayString::new();
    line.push_str(shown(address).as_str());
    line.push_str(" port ");
    line.push_str(digits.format(port));
    line.push_str(" was refused by the system: give another\n");
    line
}

/// A journal can't be had, or failed, or has no upload of this word.
fn journal_line(why: &JournalFault, path: &str, word: &str) -> ArrayString<SENTENCE_MAX>
    ensures { result.bytes ≡ journal_text why.now path.now word.now }
{
    match why {
        JournalFault::Upload(why) => no_upload_line(why, word),
        JournalFault::File => path_is(
            path,
            " can't be made, or its lock or journal can't be opened: see rights, and that the journal is a file with one name and no link\n",
        ),
        JournalFault::NoFolder => path_is(
            path,
            " is a file and no folder: give --journal a folder, which is made where there is none\n",
        ),
        JournalFault::NoJournal => path_is(
            path,
            " has no journal that can be read: give the folder of one, and see its rights\n",
        ),
        JournalFault::Settings(why) => mismatch_line(why, path),
        JournalFault::Busy => path_is(
            path,
            " is another process's journal: end that, or give another --journal\n",
        ),
        JournalFault::Damaged { at, len } => damage_line(*at, *len, path),
        JournalFault::Record(number) => record_line(*number, path),
        JournalFault::Disk => path_is(
            path,
            " could not be read or written: see its disk, and its rights. What any reply told is in it\n",
        ),
    }
}

/// A journal has no upload of this word.
fn no_upload_line(why: &NoUpload, word: &str) -> ArrayString<SENTENCE_MAX>
    ensures { result.bytes ≡ no_upload_text why.now word.now }
{
    match why {
        NoUpload::Name => path_is(word, ": an upload is named TENANT/ID, as acme/1\n"),
        NoUpload::Tenant => path_is(
            word,
            ": the settings beside the journal have no such tenant\n",
        ),
        NoUpload::Unknown => path_is(word, ": the journal has no such upload, and never had\n"),
        NoUpload::Gone => path_is(word, ": the upload has ended, and its bytes are gone\n"),
    }
}

/// The file of a journal is damaged.
fn damage_line(at: usize, len: usize, path: &str) -> ArrayString<SENTENCE_MAX>
    ensures { result.bytes ≡ journal_text (JournalFault.Damaged at len) path.now [] }
{
    let mut digits = Buffer::new();
    let mut line = ArrayString::new();
    line.push_str(shown(path).as_str());
    line.push_str(" is damaged from byte ");
    line.push_str(digits.format(at));
    line.push_str(" of ");
    line.push_str(digits.format(len));
    line.push_str(
        " on, or no journal; nothing was written to it: give a copy of it, or another folder\n",
    );
    line
}

/// The settings beside a journal, or its uploads, don't go with the settings of the options.
fn mismatch_line(why: &Mismatch, path: &str) -> ArrayString<SENTENCE_MAX>
    ensures { result.bytes ≡ mismatch_text why.now path.now }
{
    match why {
        Mismatch::Missing => path_is(
            path,
            " has a journal and no settings: put its file settings back, or give another folder\n",
        ),
        Mismatch::Unreadable => path_is(
            path,
            "/settings gives no settings: put back what it was, or give another folder\n",
        ),
        Mismatch::Differs(difference) => difference_line(difference),
        Mismatch::TooSmall(shortage) => shortage_line(shortage),
    }
}

/// What of a journal's settings is not so in the options.
fn difference_line(difference: &Difference) -> ArrayString<SENTENCE_MAX>
    ensures { result.bytes ≡ difference_text difference.now }
{
    match difference {
        Difference::Lifetime { journal, options } => lifetime_line(*journal, *options),
        Difference::FinishedLifetime { journal, options } => {
            finished_lifetime_line(*journal, *options)
        }
        Difference::NoTenant { place, journal } => {
            let mut line = tenant_line(journal, *place);
            line.push_str(", the options have none there\n");
            line
        }
        Difference::OtherTenant {
            place,
            journal,
            options,
        } => {
            let mut line = tenant_line(journal, *place);
            line.push_str(", the options ");
            line.push_str(options.as_str());
            line.push_str("\n");
            line
        }
    }
}

/// The lifetime of a journal is not that of the options.
fn lifetime_line(journal: u64, options: u64) -> ArrayString<SENTENCE_MAX>
    ensures { result.bytes ≡ difference_text (Difference.Lifetime journal options) }
{
    let mut digits = Buffer::new();
    let mut line = ArrayString::new();
    line.push_str("the journal has a lifetime of ");
    line.push_str(digits.format(journal));
    line.push_str(" seconds, the options ");
    line.push_str(digits.format(options));
    line.push_str("\n");
    line
}

/// The lifetime of finished uploads of a journal is not that of the options.
fn finished_lifetime_line(journal: u64, options: u64) -> ArrayString<SENTENCE_MAX>
    ensures { result.bytes ≡ difference_text (Difference.FinishedLifetime journal options) }
{
    let mut digits = Buffer::new();
    let mut line = ArrayString::new();
    line.push_str("the journal has a lifetime of ");
    line.push_str(digits.format(journal));
    line.push_str(" seconds for finished uploads, the options ");
    line.push_str(digits.format(options));
    line.push_str("\n");
    line
}

/// The journal has a tenant at a place.
fn tenant_line(name: &Excerpt, place: u64) -> ArrayString<SENTENCE_MAX>
    ensures text { result.bytes ≡ codes "the journal has the tenant " ++ name.now.bytes ++ codes " at place " ++ decimal place }
    ensures short { length result.bytes ≤ 128 }
{
    let mut digits = Buffer::new();
    let mut line = ArrayString::new();
    line.push_str("the journal has the tenant ");
    line.push_str(name.as_str());
    line.push_str(" at place ");
    line.push_str(digits.format(place));
    line
}

/// What of a journal's uploads the settings of the options are too small for.
fn shortage_line(shortage: &Shortage) -> ArrayString<SENTENCE_MAX>
    ensures { result.bytes ≡ shortage_text shortage.now }
{
    match shortage {
        Shortage::Quota {
            tenant,
            pays,
            quota,
        } => paid_line(tenant, *pays, *quota),
        Shortage::MaxSize {
            tenant,
            id,
            length,
            max,
        } => length_line(tenant, *id, *length, *max),
        Shortage::Uploads {
            tenant,
            uploads,
            most,
        } => uploads_line(tenant, *uploads, *most),
    }
}

/// A tenant would pay more blocks, of the size of the options, than these give it.
fn paid_line(tenant: &Excerpt, pays: u64, quota: u64) -> ArrayString<SENTENCE_MAX>
    ensures { result.bytes ≡ shortage_text (Shortage.Quota tenant.now pays quota) }
{
    let mut digits = Buffer::new();
    let mut line = ArrayString::new();
    line.push_str(tenant.as_str());
    line.push_str(" would pay ");
    line.push_str(digits.format(pays));
    line.push_str(" blocks for what is in the journal, the options give it ");
    line.push_str(digits.format(quota));
    line.push_str("\n");
    line
}

/// An upload is longer than the options allow.
fn length_line(tenant: &Excerpt, id: u64, length: u64, max: u64) -> ArrayString<SENTENCE_MAX>
    ensures { result.bytes ≡ shortage_text (Shortage.MaxSize tenant.now id length max) }
{
    let mut digits = Buffer::new();
    let mut line = ArrayString::new();
    line.push_str("upload ");
    line.push_str(tenant.as_str());
    line.push_str("/");
    line.push_str(digits.format(id));
    line.push_str(" in the journal has a length of ");
    line.push_str(digits.format(length));
    line.push_str(" bytes, the options allow ");
    line.push_str(digits.format(max));
    line.push_str("\n");
    line
}

/// A tenant has more uploads than the options allow.
fn uploads_line(tenant: &Excerpt, uploads: u64, most: u64) -> ArrayString<SENTENCE_MAX>
    ensures { result.bytes ≡ shortage_text (Shortage.Uploads tenant.now uploads most) }
{
    let mut digits = Buffer::new();
    let mut line = ArrayString::new();
    line.push_str(tenant.as_str());
    line.push_str(" has ");
    line.push_str(digits.format(uploads));
    line.push_str(" uploads in the journal, the options allow ");
    line.push_str(digits.format(most));
    line.push_str("\n");
    line
}

/// A path, or another word, is as these words say.
fn path_is(path: &str, words: &str) -> ArrayString<SENTENCE_MAX>
    requires { length words.now ≤ 128 }
    ensures { result.bytes ≡ shown path.now ++ words.now }
{
    let mut line = ArrayString::new();
    line.push_str(shown(path).as_str());
    line.push_str(words);
    line
}

/// A record is of no change that the settings beside the journal allow.
fn record_line(number: u64, path: &str) -> ArrayString<SENTENCE_MAX>
    ensures { result.bytes ≡ journal_text (JournalFault.Record number) path.now [] }
{
    let mut digits = Buffer::new();
    let mut line = ArrayString::new();
    line.push_str("record ");
    line.push_str(digits.format(number));
    line.push_str(" of ");
    line.push_str(shown(path).as_str());
    line.push_str(
        " is of no change that the settings beside it allow: put back those that it was made with\n",
    );
    line
}

/// A word is no address.
fn address_line(word: &str) -> ArrayString<SENTENCE_MAX>
    ensures { result.bytes ≡ address_text word.now }
{
    let mut line = ArrayString::new();
    line.push_str(shown(word).as_str());
    line.push_str(": an address is one of IPv4 or IPv6, as 127.0.0.1 or ::1\n");
    line
}

/// Clients and numbers were to have the same port.
fn ports_line(port: u16) -> ArrayString<SENTENCE_MAX>
    ensures { result.bytes ≡ ports_text port }
{
    let mut digits = Buffer::new();
    let mut line = ArrayString::new();
    line.push_str("--port and --metrics are both ");
    line.push_str(digits.format(port));
    line.push_str(": give each a port of its own\n");
    line
}

/// A word as it is shown.
fn shown(word: &str) -> Excerpt
    ensures { result.bytes ≡ shown word.now }
{
    shown_bytes(word.as_bytes())
}

/// The bytes of a word as they are shown.
pub fn shown_bytes(bytes: &[u8]) -> Excerpt
    ensures { result.bytes ≡ shown bytes.now }
{
    let kept = first_bytes(bytes);
    let mut line = ArrayString::new();
    for byte in kept {
        push_shown(&mut line, *byte);
    }
    line
}

/// The bytes of a word that are shown.
fn first_bytes(bytes: &[u8]) -> &[u8]
    ensures value { result.now ≡ take 48 bytes.now }
    ensures fits { length result.now ≤ 48 }
{
    if bytes.len() <= 48 {
        bytes
    } else {
        &bytes[..48]
    }
}

/// Adds a byte as it is shown.
#[tactic(auto, using(crate::proofs::SentenceLemmas::one_byte))]
fn push_shown(line: &mut Excerpt, byte: u8)
    requires { array_string_len line.old < 48 }
    ensures { line.new.bytes ≡ line.old.bytes ++ shown_byte byte ∷ [] }
{
    line.push(char::from(shown_byte(byte)));
}

/// A byte as it is shown.
fn shown_byte(byte: u8) -> u8
    ensures value { result ≡ shown_byte byte }
    ensures ascii { result ≤ 127 }
{
    if byte >= b' ' && byte < 127 {
        byte
    } else {
        b'?'
    }
}

/// The first of the words that names no tenant.
fn wrong_word<'a>(words: &[&'a str], block_size: u64) -> &'a str
    ensures { result.now ≡ wrong_word block_size (texts words.entry.now) }
{
    match words.split_first() {
        Some((word, later)) if tenant_of(word, block_size).is_some() => {
            wrong_word(later, block_size)
        }
        Some((word, _)) => word,
        None => "",
    }
}

/// Why a word names no tenant.
fn word_rule(word: &str) -> &'static str
    ensures rule { result.now ≡ word_rule word.now }
    ensures short { length result.now ≤ 64 }
{
    match word.split_once(':') {
        Some((name, _)) if is_tenant_name(name.as_bytes()) => {
            "a quota is a number of blocks, or of bytes as 16MiB"
        },
        Some(_) => "a name is 1 to 32 of a to z, digits and -",
        None => "a tenant is NAME:QUOTA, as acme:4096",
    }
}

/// The first name of the words that a later one has too.
fn name_twice<'a>(words: &[&'a str]) -> &'a str
    ensures { result.now ≡ name_twice (texts words.entry.now) }
{
    match words.split_first() {
        Some((word, later)) if is_named_again(word, later) => name_of(word),
        Some((_, later)) => name_twice(later),
        None => "",
    }
}

/// Whether one of these words has the name of a word.
fn is_named_again(word: &str, words: &[&str]) -> bool
    ensures { result ≡ list_any
        (λ later. bytes_eq (before_first is_colon later) (before_first is_colon word.now))
        (texts words.now) }
{
    match words.split_first() {
        Some((first, later)) => {
            name_of(first).as_bytes() == name_of(word).as_bytes() || is_named_again(word, later)
        }
        None => false,
    }
}

/// What stands before the first `:` of a word.
fn name_of(word: &str) -> &str
    ensures { result.now ≡ before_first is_colon word.now }
{
    match word.split_once(':') {
        Some((name, _)) => name,
        None => word,
    }
}
