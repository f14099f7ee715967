//! The command `serve`, after its command line was read.
ghost use Rattle.std.specs.Prelude.{◌≡◌, ◌≤◌, [], ◌⊎◌, false, true, All, OnOk, OnErr, Ok, IfOk, IsErrOf, IfErr, string_bytes, vec_capacity, vec_len};
ghost use Rattle.std.specs.IoError.{error_kind};
ghost use Rattle.std.specs.Net.Grammar.{IsIpText};
ghost use Rattle.std.specs.Net.ToAddrs.{IsHostAndPort};
ghost use Rattle.std.specs.declared.net.ip_addr.IpAddr.{IpAddr};
ghost use Rattle.http_wire.specs.Writes.{Writes};
ghost use Rattle.server_words.specs.Arguments.{serve_arguments_of};
ghost use Rattle.server_words.specs.Cause.{metrics_cause_of};
ghost use Rattle.server_words.specs.Fault.{IsFaultOf};
ghost use Rattle.journal_folders.specs.StreamUse.{used};
ghost use Rattle.server_words.specs.declared.cause.Cause.{Cause};
ghost use Rattle.server_words.specs.declared.cause.PortFault.{PortFault};
ghost use Rattle.tus_program.specs.Lines.{Settles, balance_text, listening_text};
ghost use Rattle.tus_program.specs.Serve.{BreaksOff, HaveEnded, IsOfWatching, IsPlaceAsked, ServeEnds, ServesEach, has_port_twice, is_before_listening, is_of_service, serve_settings};
ghost use Rattle.tus_program.specs.Sockets.{sockets};
ghost use Rattle.tus_shared.specs.declared.balance.Balance.{Balance};

use crate::blanks::Blanks;
use crate::kept_serve::serve_kept;
use crate::lines::{listening_line, put_balance};
use crate::program_fault::{fault_of_opening, fault_of_wire};
use crate::work::work_of;
use access_log::{LogTarget, Watching};
use connection_turns::WorkOptions;
use http_wire::{Sink, WireFault, put_all};
use journal_folders::{Folder, Journals, check_settings, open_renewed};
use server_words::{Cause, PortFault, RunFault, ServeOptions, settings_with};
use sqlite_disk::Disk;
use std::alloc::Global;
use std::fs::{File, Files, OpenOptions};
use std::io::{Eprint, Error, ErrorKind};
use std::marker::Brand;
use std::net::{IpAddr, Net, SocketAddr, TcpListener, TcpStream};
use std::sync::Wait;
use std::sync::ledger::Ledger;
use std::thread::Threads;
use std::time;
use tus_shared::{Charges, Desk, Shared, settle};
use tus_workers::{
    Accept, Keeping, Listener, NoJournal, ServerState, Worker, any_failed, dismiss, hire,
    within_descriptors, work_all,
};
use upload_book::Settings;

/// Serves connections on sockets of this machine, over a new book with the settings of the options, or, with a journal, over
/// the book that it keeps ([`serve_kept`]), once it was put back under these settings where others stand beside it
/// ([`open_renewed`]), and its settings were looked at ([`check_settings`]). It prints where it listens before it accepts
/// anything, and at its end what was charged, released and is held.
///
/// It is `Ok` where each worker accepted all of its connections, or was stopped. The error is the fault of the settings, the
/// address or the ports, `RunFault::Wire` where a port, a worker's socket or the log could not be had, where a line could not
/// be printed or where an accept failed, each by its cause, `RunFault::Memory` where there was no memory for the book or its
/// board, or the journal's. After the first and after want of memory nothing was printed, nor where the journal could not be
/// had.
pub fn serve<
    L: Listener,
    D: Disk,
    H: Threads
        + Wait
        + Net<Stream = TcpStream, Listener = TcpListener>
        + time::Clock
        + Eprint
        + Files<File = File>
        + Sync
        + Send
        + Copy
        + 'static,
    J: Journals<Disk = D>,
    W: Sink,
>(
    rt: &H,
    journals: &J,
    alloc: Global,
    options: &ServeOptions,
    output: &mut W,
) -> Result<(), RunFault>
where
    D: Send + Drop,
    L::Acceptor: Send + Drop,
    L: Drop,
    requires { W.has_failed output.old ≡ false }
    ensures { ServeEnds (sockets L.asked L.place L.Acceptor.accepted L.Acceptor.has_failed L.Acceptor.is_stopped)
        (serve_arguments_of options.now) (used W.contents W.has_failed output.old output.new) result }
{
    let settings = serve_settings(alloc, options)?;
    let place = place_of(options.address, options.port)?;
    check_ports(options)?;
    if let Some(path) = options.journal {
        let Folder {
            mut disk,
            mut file,
            place: location,
        } = open_renewed(journals, alloc, path, &settings)?;
        check_settings(alloc, &mut file, &mut disk, &settings)?;
        return serve_kept::<L, D, J::File, J::Place, H, W>(
            rt, alloc, settings, options, place, disk, location, &mut file, output,
        );
    }
    serve_with::<L, Brand, Brand, Brand, H, W>(
        rt,
        alloc,
        settings,
        options,
        place,
        Blanks::new(),
        output,
    )
}

/// Opens a desk for each worker, with nothing that outlives the process, and serves at these.
fn serve_with<
    L: Listener,
    C: Charges + Send + Sync,
    R: Ledger + Send + Sync,
    M: Ledger + Send + Sync,
    H: Threads
        + Wait
        + Net<Stream = TcpStream, Listener = TcpListener>
        + time::Clock
        + Eprint
        + Files<File = File>
        + Sync
        + Send
        + Copy
        + 'static,
    W: Sink,
>(
    rt: &H,
    alloc: Global,
    settings: Settings,
    options: &ServeOptions,
    place: SocketAddr,
    blanks: Blanks,
    output: &mut W,
) -> Result<(), RunFault>
where
    L::Acceptor: Send + Drop,
    L: Drop,
    requires settings { settings ≡ C.settings }
    requires desks { options.now.workers ≡ C.desks }
    requires place { IsPlaceAsked (serve_arguments_of options.now) place }
    requires charged { (blanks.charged.name ≡ C.name) × (blanks.charged.parts ≡ C.parts) × (C.parts ≡ 16) }
    requires released { (blanks.released.name ≡ R.name) × (blanks.released.parts ≡ R.parts) × (R.parts ≡ 16) }
    requires made { (blanks.made.name ≡ M.name) × (blanks.made.parts ≡ M.parts) × (M.parts ≡ 16) }
    requires log { blanks.events.seen.book ≡ C.log }
    requires journal { C.journal ≡ None }
    requires output { W.has_failed output.old ≡ false }
    ensures fault { IfErr result (λ fault. is_of_service fault ≡ true) }
    ensures memory { IsErrOf result RunFault.Memory → output.new ≡ output.old }
    ensures wire { (cause : Cause) → IsErrOf result (RunFault.Wire cause)
        → BreaksOff (sockets L.asked L.place L.Acceptor.accepted L.Acceptor.has_failed L.Acceptor.is_stopped)
        (serve_arguments_of options.now) C.settings (used W.contents W.has_failed output.old output.new)
        cause }
    ensures all { OnOk result
        (ServesEach (sockets L.asked L.place L.Acceptor.accepted L.Acceptor.has_failed L.Acceptor.is_stopped)
        (serve_arguments_of options.now) C.settings (used W.contents W.has_failed output.old output.new)) }
{
    let (shared, desks) = Shared::<C, R, M, &H>::open(
        rt,
        alloc,
        settings,
        options.workers,
        blanks.charged,
        blanks.released,
        blanks.made,
        blanks.events,
        None,
    )
    .map_err(fault_of_opening)?;
    serve_desks::<L, C, R, M, H, &H, NoJournal, W>(
        rt, alloc, options, place, shared, desks, &NoJournal, output,
    )
}

/// Listens, and lets workers serve at these desks, one each, until all connections have ended, or a stop was asked for; then it
/// prints the balance of what the desks did.
pub(crate) fn serve_desks<
    L: Listener,
    C: Charges + Send + Sync,
    R: Ledger + Send + Sync,
    M: Ledger + Send + Sync,
    H: Threads
        + Wait
        + Net<Stream = TcpStream, Listener = TcpListener>
        + time::Clock
        + Eprint
        + Files<File = File>
        + Sync
        + Send
        + Copy
        + 'static,
    B: Wait + Drop + Send,
    K: Keeping<C, R, M, B> + Sync,
    W: Sink,
>(
    rt: &H,
    alloc: Global,
    options: &ServeOptions,
    place: SocketAddr,
    shared: Shared<C, R, M, B>,
    desks: Vec<Desk<C, R, M>>,
    keeping: &K,
    output: &mut W,
) -> Result<(), RunFault>
where
    L::Acceptor: Send + Drop,
    L: Drop,
    requires desks { options.now.workers ≡ C.desks }
    requires count { vec_len desks ≡ C.desks }
    requires place { IsPlaceAsked (serve_arguments_of options.now) place }
    requires charged_parts { C.parts ≡ 16 }
    requires released_parts { R.parts ≡ 16 }
    requires made_parts { M.parts ≡ 16 }
    requires output { W.has_failed output.old ≡ false }
    ensures fault { IfErr result (λ fault. is_of_service fault ≡ true) }
    ensures memory { IsErrOf result RunFault.Memory → output.new ≡ output.old }
    ensures wire { (cause : Cause) → IsErrOf result (RunFault.Wire cause)
        → BreaksOff (sockets L.asked L.place L.Acceptor.accepted L.Acceptor.has_failed L.Acceptor.is_stopped)
        (serve_arguments_of options.now) C.settings (used W.contents W.has_failed output.old output.new)
        cause }
    ensures all { OnOk result
        (ServesEach (sockets L.asked L.place L.Acceptor.accepted L.Acceptor.has_failed L.Acceptor.is_stopped)
        (serve_arguments_of options.now) C.settings (used W.contents W.has_failed output.old output.new)) }
{
    let EndedWorkers { desks, has_failed } = listen_and_serve::<L, C, R, M, H, B, K, W>(
        rt, alloc, options, place, &shared, desks, keeping, output,
    )?;
    put_settled(output, shared, desks).map_err(fault_of_wire)?;
    if has_failed {
        return Err(RunFault::Wire(Cause::Accept));
    }
    Ok(())
}

/// What is left of workers that have ended.
#[derive(Drop)]
struct EndedWorkers<C: Charges, R: Ledger, M: Ledger> {
    /// Their desks, in their order.
    desks: Vec<Desk<C, R, M>>,
    /// Whether an accept of one of them failed.
    has_failed: bool,
}

/// Listens, prints where, and lets workers serve at these desks until they have ended. The socket that listens is the
/// acceptors' then, so that it is closed once all of them were stopped.
fn listen_and_serve<
    L: Listener,
    C: Charges + Send + Sync,
    R: Ledger + Send + Sync,
    M: Ledger + Send + Sync,
    H: Threads
        + Wait
        + Net<Stream = TcpStream, Listener = TcpListener>
        + time::Clock
        + Eprint
        + Files<File = File>
        + Sync
        + Send
        + Copy
        + 'static,
    B: Wait + Drop + Send,
    K: Keeping<C, R, M, B> + Sync,
    W: Sink,
>(
    rt: &H,
    alloc: Global,
    options: &ServeOptions,
    place: SocketAddr,
    shared: &Shared<C, R, M, B>,
    desks: Vec<Desk<C, R, M>>,
    keeping: &K,
    output: &mut W,
) -> Result<EndedWorkers<C, R, M>, RunFault>
where
    L::Acceptor: Send + Drop,
    L: Drop,
    requires desks { options.now.workers ≡ C.desks }
    requires count { vec_len desks ≡ C.desks }
    requires place { IsPlaceAsked (serve_arguments_of options.now) place }
    requires output { W.has_failed output.old ≡ false }
    ensures fault { IfErr result (λ fault. is_of_service fault ≡ true) }
    ensures memory { IsErrOf result RunFault.Memory → output.new ≡ output.old }
    ensures wire { (cause : Cause) → IsErrOf result (RunFault.Wire cause)
        → BreaksOff (sockets L.asked L.place L.Acceptor.accepted L.Acceptor.has_failed L.Acceptor.is_stopped)
        (serve_arguments_of options.now) C.settings (used W.contents W.has_failed output.old output.new)
        cause }
    ensures ended { IfOk result (λ ended.
        HaveEnded (sockets L.asked L.place L.Acceptor.accepted L.Acceptor.has_failed L.Acceptor.is_stopped)
        (serve_arguments_of options.now) (used W.contents W.has_failed output.old output.new)
        ended.desks.items ended.has_failed) }
{
    let work = within_descriptors(rt, work_of(&options.work), options.workers);
    let server_state = server_state_for(rt, alloc, options, place, &work)?;
    let at = listen_for::<L, C, R, M, H>(rt, alloc, place, desks)?;
    let Listening {
        listener,
        line,
        mut workers,
        room,
    } = at;
    let _listener = held(listener, work.grace);
    put_all(output, line.as_bytes()).map_err(fault_of_wire)?;
    work_all(
        rt,
        alloc,
        shared,
        keeping,
        workers.as_mut_slice(),
        work,
        &server_state,
    );
    let has_failed = any_failed(workers.as_slice());
    Ok(EndedWorkers {
        desks: dismiss(workers, room),
        has_failed,
    })
}

/// What the workers share, which has them watched where the options ask for a log or a port for numbers. The error is that there
/// is no memory, or that one of the files and sockets for it can't be had.
fn server_state_for<
    H: Threads
        + Wait
        + Net<Stream = TcpStream, Listener = TcpListener>
        + time::Clock
        + Eprint
        + Files<File = File>
        + Send
        + Copy
        + 'static,
>(
    rt: &H,
    alloc: Global,
    options: &ServeOptions,
    place: SocketAddr,
    work: &WorkOptions,
) -> Result<ServerState, RunFault>
    ensures { IfErr result (λ fault. is_before_listening fault ≡ true) }
{
    let mut server_state = ServerState::new(alloc, options.workers, work)?;
    if options.log.is_some() || options.metrics.is_some() {
        let log = log_at(rt, options.log)?;
        let metrics = metrics_at(rt, place, options.metrics)?;
        let pages = File::open(rt, "/proc/self/statm").ok();
        server_state.watch_by(Watching::new(rt, alloc, log, pages), metrics);
    }
    server_state.watch(rt)?;
    Ok(server_state)
}

/// Workers that can accept connections, and where they listen.
#[derive(Drop)]
struct Listening<L, C: Charges, R: Ledger, M: Ledger, A: Accept> {
    listener: L,
    /// The line that tells where.
    line: String,
    workers: Vec<Worker<C, R, M, A>>,
    /// Room for the desks of the workers, once these have ended.
    room: Vec<Desk<C, R, M>>,
}

/// Listens at a place, and gives each of these desks a worker that accepts there. The error is that there is no memory, or that
/// the port or a worker's socket can't be had.
fn listen_for<
    L: Listener,
    C: Charges,
    R: Ledger,
    M: Ledger,
    N: Net<Stream = TcpStream, Listener = TcpListener>,
>(
    net: &N,
    alloc: Global,
    place: SocketAddr,
    desks: Vec<Desk<C, R, M>>,
) -> Result<Listening<L, C, R, M, L::Acceptor>, RunFault>
where
    L::Acceptor: Drop,
    L: Drop,
    ensures asked { IfOk result (λ at. L.asked at.listener ≡ place) }
    ensures line { IfOk result (λ at. string_bytes at.line ≡ listening_text (L.place at.listener)) }
    ensures count { IfOk result (λ at. vec_len at.workers ≡ vec_len desks) }
    ensures alive { IfOk result (λ at. All (λ w. L.Acceptor.has_failed w.acceptor ≡ false) at.workers.items) }
    ensures unstopped { IfOk result (λ at. All (λ w. L.Acceptor.is_stopped w.acceptor ≡ false) at.workers.items) }
    ensures new { IfOk result (λ at. All (λ w. L.Acceptor.accepted w.acceptor ≡ 0) at.workers.items) }
    ensures room { IfOk result (λ at. (at.room.items ≡ []) × (vec_len desks ≤ vec_capacity at.room)) }
    ensures fault { IfErr result (λ fault. is_before_listening fault ≡ true) }
{
    let empty = Vec::with_capacity(alloc, desks.len())?;
    let room = Vec::with_capacity(alloc, desks.len())?;
    let listener = listen::<L, N>(net, place)?;
    let line = listening_line(alloc, listener.place())?;
    let workers = hire(&listener, desks, empty)?;
    Ok(Listening {
        listener,
        line,
        workers,
        room,
    })
}

/// The listener, which stays to the end; but where a stop can be asked for it is let go, so that the port is closed once all
/// workers have let go of it.
fn held<L>(listener: L, grace: Option<u64>) -> Option<L>
where
    L: Drop,
{
    match grace {
        Some(_) => None,
        None => Some(listener),
    }
}

/// Where the lines of the log go, if there is one. The error is that its file can't be opened.
fn log_at<N: Files<File = File>>(
    files: &N,
    path: Option<&str>,
) -> Result<Option<LogTarget>, RunFault>
    ensures { IfErr result (λ fault. fault ≡ RunFault.Wire Cause.Log) }
{
    let Some(path) = path else {
        return Ok(None);
    };
    if path == "-" {
        return Ok(Some(LogTarget::Errors));
    }
    let opened = OpenOptions::new()
        .append(true)
        .create(true)
        .open(files, path);
    match opened {
        Ok(file) => Ok(Some(LogTarget::File(file))),
        Err(_) => Err(RunFault::Wire(Cause::Log)),
    }
}

/// A listener at this port of the address, if numbers are to be asked for. The error is that it could not be had, or, as for
/// clients, that the machine has no such address.
fn metrics_at<N: Net<Stream = TcpStream, Listener = TcpListener>>(
    net: &N,
    place: SocketAddr,
    port: Option<u16>,
) -> Result<Option<TcpListener>, RunFault>
    ensures { IfErr result IsOfWatching }
{
    let Some(port) = port else {
        return Ok(None);
    };
    match TcpListener::bind(net, SocketAddr::new(place.ip(), port)) {
        Ok(listener) => Ok(Some(listener)),
        Err(error) => Err(metrics_fault(&error)),
    }
}

/// What an error of listening at the port for numbers is. That the machine has no such address is told as for clients.
fn metrics_fault(error: &Error) -> RunFault
    ensures value { result ≡ RunFault.Wire (metrics_cause_of (error_kind error.now)) }
    ensures of_watching { IsOfWatching result }
{
    match error.kind() {
        ErrorKind::AddrNotAvailable => RunFault::Wire(Cause::Port(PortFault::NotHere)),
        _ => RunFault::Wire(Cause::Metrics),
    }
}

/// The settings of the options, whose bounds are wide where bodies are stored in pieces; or their first fault, or
/// `RunFault::Memory`.
fn serve_settings(alloc: Global, options: &ServeOptions) -> Result<Settings, RunFault>
    ensures settings { IfOk result (λ settings. serve_settings (serve_arguments_of options.now) ≡ Ok settings) }
    ensures fault { IfErr result (IsFaultOf (serve_settings (serve_arguments_of options.now))) }
{
    settings_with(
        alloc,
        options.work.bounds(),
        options.numbers,
        options.tenants,
    )
}

/// The place of this address and this port. The error is `RunFault::Address`, where the text is no address.
fn place_of(address: &str, port: u16) -> Result<SocketAddr, RunFault>
    ensures place { IfOk result (IsHostAndPort address.now port) }
    ensures fault { IfErr result (λ fault. fault ≡ RunFault.Address) }
    ensures none { OnErr result ((a : IpAddr) → ¬ (IsIpText address.now a)) }
{
    match address.parse::<IpAddr>() {
        Ok(ip) => Ok(SocketAddr::new(ip, port)),
        Err(_) => Err(RunFault::Address),
    }
}

/// Sees to it that clients and numbers have a port each. The error is `RunFault::Ports`, where they are to have the same one.
fn check_ports(options: &ServeOptions) -> Result<(), RunFault>
    ensures apart { OnOk result (has_port_twice (serve_arguments_of options.now) ≡ false) }
    ensures fault { IfErr result (λ fault. fault ≡ RunFault.Ports) }
    ensures twice { OnErr result (has_port_twice (serve_arguments_of options.now) ≡ true) }
{
    if has_port_twice(options) {
        Err(RunFault::Ports)
    } else {
        Ok(())
    }
}

/// Whether numbers are to be asked for at the port of the clients. Port 0 is any that is free.
fn has_port_twice(options: &ServeOptions) -> bool
    ensures { result ≡ has_port_twice (serve_arguments_of options.now) }
{
    match options.metrics {
        Some(port) => port > 0 && port == options.port,
        None => false,
    }
}

/// Listens at this place. The error is that it could not be had.
fn listen<L: Listener, N: Net<Stream = TcpStream, Listener = TcpListener>>(
    net: &N,
    place: SocketAddr,
) -> Result<L, RunFault>
    ensures asked { IfOk result (λ listener. L.asked listener ≡ place) }
    ensures fault { IfErr result (λ fault.
        (why : PortFault) × (fault ≡ RunFault.Wire (Cause.Port why))) }
{
    match L::listen(net, place) {
        Ok(listener) => Ok(listener),
        Err(error) => Err(RunFault::Wire(Cause::Port(PortFault::of(&error)))),
    }
}

/// Settles what the desks did, and prints its balance. The error is `WireFault::Write`, and then only a prefix of the
/// line was written.
fn put_settled<W: Sink, C: Charges, R: Ledger, M: Ledger, B: Wait + Drop>(
    output: &mut W,
    shared: Shared<C, R, M, B>,
    desks: Vec<Desk<C, R, M>>,
) -> Result<(), WireFault>
    requires all { vec_len desks ≡ C.desks }
    requires charged_parts { C.parts ≡ 16 }
    requires released_parts { R.parts ≡ 16 }
    requires made_parts { M.parts ≡ 16 }
    requires output { W.has_failed output.old ≡ false }
    ensures { (balance : Balance) × Settles C.settings desks.items balance
        × Writes (W.contents output.old) (W.contents output.new) (W.has_failed output.new) (balance_text balance) result }
{
    let (_, balance) = settle(shared, desks);
    put_balance(output, balance)
}
