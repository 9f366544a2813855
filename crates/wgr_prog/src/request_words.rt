//! The commands that answer tenants' requests from the register in a file.
ghost use Rattle.std.specs.Prelude.{◌≡◌, ℕ, Bool, IfErr, IfOk, IsSome, OnErr, OnOk, List, Option, map, option_map};
ghost use Rattle.sqlite.specs.WalFiles.{image_at};
ghost use Rattle.wgr_file.specs.OnFiles.{IsClosedTo, IsOpen, FilesStay};
ghost use Rattle.wgr_prog.specs.Answering.{AnswersRequests, AreAskedByText, EndsBatch, EndsServe, IsBatchFault, IsChoice, IsServing, Listens, ServesAll, output_of, serve_fields, socket_of};
ghost use Rattle.wgr_words.specs.Order.{IsFaultIn};
ghost use Rattle.wgr_service.specs.Network.{Logs};
ghost use Rattle.wgr_prog.specs.Status.{RunsBatch, RunsServe, batch_status, serve_status};

use crate::messages::{self, DONE, FAULT};
use crate::register_words::Failure;
use crate::requests::read_requests;
use sqlite::{FileFrom, FileStore, Start};
use sqlite_disk::Disk;
use std::net::IpAddr;
use wgr_core::Port;
use wgr_file::{Closed, Unopened, close, open_register};
use wgr_io::{DeviceError, Write, write_all};
use wgr_office::{Event, Office};
use wgr_register::RegisterFault;
use wgr_service::{
    BatchFault, Desk, Ending, FileCopies, Network, answer_all, seconds_now, serve_connections,
};
use wgr_words::{WordFault, WordField, read_endpoint_field, read_whole_field};

/// Answers the requests in files in order, and returns the exit status.
pub(crate) fn run_batch<S: Start, W: Write, E: Write>(
    rt: &HostRuntime,
    path: &str,
    start: S,
    now: &str,
    files: &[&str],
    out: &mut W,
    err: &mut E,
) -> (u8, Closed<S>)
    ensures { (input : Option (List ℕ)) (failed : Bool) → RunsBatch ⟦<FileFrom<S> as Disk>⟧ (image_at S.Start) result.1 now.now (map (λ file. file.now) files.now)
        (record { input = input; read_failed = failed; written = W.contents out.old; write_failed = W.failed out.old })
        (record { input = input; read_failed = failed; written = W.contents out.new; write_failed = W.failed out.new })
        result.0 }
{
    let (answered, closed) = answer_files(rt, path, start, now, files, out);
    (batch_status(&answered, err), closed)
}

// All is done if no reply reports lack of memory or a fault of the store.
fn batch_status<E: Write>(answered: &Result<bool, Failure>, err: &mut E) -> u8
    ensures { result ≡ batch_status answered.now }
{
    match answered {
        Ok(true) => DONE,
        Ok(false) => FAULT,
        Err(why) => messages::failure(why, err),
    }
}

// Reads all files, and only then opens the register.
fn answer_files<S: Start, W: Write>(
    rt: &HostRuntime,
    path: &str,
    start: S,
    now: &str,
    files: &[&str],
    out: &mut W,
) -> (Result<bool, Failure>, Closed<S>)
    ensures { EndsBatch ⟦<FileFrom<S> as Disk>⟧ (image_at S.Start) result.1 now.now (map (λ file. file.now) files.now) (output_of W.contents W.failed out.old) (output_of W.contents W.failed out.new) result.0 }
{
    match read_batch(rt, now, files) {
        Ok(requests) => answer_requests(rt, path, start, &requests, out),
        Err(why) => (Err(Failure::from(why)), None),
    }
}

// The requests in the files, at this moment.
fn read_batch(rt: &HostRuntime, now: &str, files: &[&str]) -> Result<Vec<Event>, WordFault>
    ensures ok { IfOk result (λ requests. AreAskedByText now.now (map (λ file. file.now) files.now) requests.items) }
    ensures err { IfErr result (IsBatchFault now.now) }
{
    let moment = read_whole_field(WordField::Now, now)?;
    read_requests(rt, moment, files)
}

// Answers requests from the register in the file at this path. Returns whether none of the replies
// reports lack of memory or a fault of the store.
fn answer_requests<S: Start, W: Write>(
    rt: &HostRuntime,
    path: &str,
    start: S,
    requests: &[Event],
    out: &mut W,
) -> (Result<bool, Failure>, Closed<S>)
    ensures { AnswersRequests ⟦<FileFrom<S> as Disk>⟧ (image_at S.Start) result.1 requests.now (output_of W.contents W.failed out.old) (output_of W.contents W.failed out.new) result.0 }
{
    let mut office = match open_office(rt, path, start) {
        Ok(office) => office,
        Err(Unopened { fault, files }) => return (Err(Failure::Register(fault)), files),
    };
    let answered = answer_all(rt.alloc(), &mut office, requests, out);
    let closed = close_office(office);
    match answered {
        Ok(whole) => (Ok(whole), closed),
        Err(BatchFault::NoMemory) => (Err(Failure::Register(RegisterFault::NoMemory)), closed),
        Err(BatchFault::Write) => (Err(Failure::Device), closed),
    }
}

/// What the words ask to serve.
#[derive(Clone, Copy)]
pub(crate) struct Serving<'a> {
    /// Where to listen.
    pub(crate) endpoint: (IpAddr, Port),
    /// How many connections are served.
    pub(crate) count: u64,
    /// The moment of all requests, if one is given.
    pub(crate) moment: Option<u64>,
    /// The path of the socket at which orders are taken, if one is given.
    pub(crate) orders: Option<&'a str>,
}

/// Serves connections, and returns the exit status.
pub(crate) fn run_serve<S: Start, N: Network, W: Write, E: Write>(
    rt: &HostRuntime,
    path: &str,
    start: S,
    place: &str,
    count: &str,
    now: Option<&str>,
    orders: Option<&str>,
    network: &mut N,
    out: &mut W,
    err: &mut E,
) -> (u8, Closed<S>)
    ensures { (input : Option (List ℕ)) (failed : Bool) → RunsServe ⟦<FileFrom<S> as Disk>⟧ (image_at S.Start) result.1 place.now count.now (option_map (λ now. now.now) now.entry) (option_map (λ path. path.now) orders.entry) (N.log network.old) (N.log network.new)
        (record { input = input; read_failed = failed; written = W.contents out.old; write_failed = W.failed out.old })
        (record { input = input; read_failed = failed; written = W.contents out.new; write_failed = W.failed out.new })
        (output_of E.contents E.failed err.old) (output_of E.contents E.failed err.new)
        result.0 }
{
    let (served, closed) = serve(
        rt, path, start, place, count, now, orders, network, out, err,
    );
    (serve_status(&served, err), closed)
}

fn serve_status<E: Write>(served: &Result<(), Failure>, err: &mut E) -> u8
    ensures value { result ≡ serve_status served.now }
    ensures quiet { IfOk served.now (λ done. err.new ≡ err.old) }
{
    match served {
        Ok(()) => DONE,
        Err(why) => messages::failure(why, err),
    }
}

// Reads the fields, and only then opens the register.
fn serve<S: Start, N: Network, W: Write, E: Write>(
    rt: &HostRuntime,
    path: &str,
    start: S,
    place: &str,
    count: &str,
    now: Option<&str>,
    orders: Option<&str>,
    network: &mut N,
    out: &mut W,
    err: &mut E,
) -> (Result<(), Failure>, Closed<S>)
    ensures { EndsServe ⟦<FileFrom<S> as Disk>⟧ (image_at S.Start) result.1 place.now count.now (option_map (λ now. now.now) now.entry) (option_map (λ path. path.now) orders.entry) (N.log network.old) (N.log network.new) (output_of W.contents W.failed out.old) (output_of W.contents W.failed out.new) (output_of E.contents E.failed err.old) (output_of E.contents E.failed err.new) result.0 }
{
    match read_serving(place, count, now, orders) {
        Ok(serving) => serve_all(rt, path, start, &serving, network, out, err),
        Err(why) => (Err(Failure::from(why)), None),
    }
}

// The fields in the order of the words.
fn read_serving<'a>(
    place: &str,
    count: &str,
    now: Option<&str>,
    orders: Option<&'a str>,
) -> Result<Serving<'a>, WordFault>
    ensures ok { IfOk result (IsServing place.now count.now (option_map (λ now. now.now) now.entry) (option_map (λ path. path.now) orders.entry)) }
    ensures err { IfErr result (IsFaultIn (serve_fields place.now count.now (option_map (λ now. now.now) now.entry))) }
{
    let endpoint = read_endpoint_field(place)?;
    let count = read_whole_field(WordField::Count, count)?;
    let moment = read_choice(now)?;
    Ok(Serving {
        endpoint,
        count,
        moment,
        orders,
    })
}

// The moment of all requests, if one is given.
fn read_choice(now: Option<&str>) -> Result<Option<u64>, WordFault>
    ensures { IsChoice (option_map (λ now. now.now) now.entry) result }
{
    match now {
        None => Ok(None),
        Some(text) => match read_whole_field(WordField::Now, text) {
            Ok(moment) => Ok(Some(moment)),
            Err(why) => Err(why),
        },
    }
}

// Opens the register in the file at this path, and only then binds the addresses and serves.
fn serve_all<S: Start, N: Network, W: Write, E: Write>(
    rt: &HostRuntime,
    path: &str,
    start: S,
    serving: &Serving<'_>,
    network: &mut N,
    out: &mut W,
    err: &mut E,
) -> (Result<(), Failure>, Closed<S>)
    ensures { ServesAll ⟦<FileFrom<S> as Disk>⟧ (image_at S.Start) result.1 serving.now (N.log network.old) (N.log network.new) (output_of W.contents W.failed out.old) (output_of W.contents W.failed out.new) (output_of E.contents E.failed err.old) (output_of E.contents E.failed err.new) result.0 }
{
    // They are found before, so that they are those of the register that is opened.
    let copies = FileCopies::new(rt.alloc(), rt, path);
    let mut office = match open_office(rt, path, start) {
        Ok(office) => office,
        Err(Unopened { fault, files }) => return (Err(Failure::Register(fault)), files),
    };
    let served = listen(rt, copies, &mut office, serving, network, out, err);
    (served, close_office(office))
}

// Listens, prints `listening`, and serves connections.
fn listen<S: Start, N: Network, W: Write, E: Write>(
    rt: &HostRuntime,
    copies: FileCopies<'_, HostRuntime>,
    office: &mut Office<FileStore<FileFrom<S>>>,
    serving: &Serving<'_>,
    network: &mut N,
    out: &mut W,
    err: &mut E,
) -> Result<(), Failure>
    ensures { Listens office.old office.new serving.now (N.log network.old) (N.log network.new) (output_of W.contents W.failed out.old) (output_of W.contents W.failed out.new) (output_of E.contents E.failed err.old) (output_of E.contents E.failed err.new) result }
{
    let (address, port) = serving.endpoint;
    let Ok(()) = network.listen(address, port.number()) else {
        return Err(Failure::Device);
    };
    let Ok(()) = listen_orders(serving.orders, network) else {
        return Err(Failure::Device);
    };
    if write_all(out, b"listening\n").is_err() {
        return Err(Failure::Device);
    }
    let alloc = rt.alloc();
    // The start counts as moment 0 where the clock can't be read.
    let mut desk = Desk::new(copies, seconds_now(rt).unwrap_or(0));
    let Serving { count, moment, .. } = *serving;
    match serve_connections(alloc, office, network, &mut desk, count, moment, err) {
        Ending::Served => Ok(()),
        Ending::Shut => Err(Failure::Shut),
    }
}

// Listens for orders, if a path is given.
fn listen_orders<N: Network>(path: Option<&str>, network: &mut N) -> Result<(), DeviceError>
    ensures bound { OnOk result (Logs (N.log network.old) (N.log network.new) (socket_of (option_map (λ path. path.now) path.entry))) }
    ensures kept { OnErr result (IsSome path.entry × (N.log network.new ≡ N.log network.old)) }
{
    match path {
        Some(path) => network.listen_orders(path),
        None => Ok(()),
    }
}

/// An office over the register in the file at this path.
pub(crate) fn open_office<S: Start>(
    rt: &HostRuntime,
    path: &str,
    start: S,
) -> Result<Office<FileStore<FileFrom<S>>>, Unopened<S>>
    ensures open { IfOk result (IsOpen (image_at S.Start)) }
    ensures kept { IfErr result (λ e. FilesStay ⟦<FileFrom<S> as Disk>⟧ (image_at S.Start) e.files) }
{
    let register = open_register(rt, path, start)?;
    match Office::new(rt.alloc(), register) {
        Ok(office) => Ok(office),
        Err(register) => Err(Unopened {
            fault: RegisterFault::NoMemory,
            files: close(register),
        }),
    }
}

/// Closes the register of an office.
pub(crate) fn close_office<S: Start>(office: Office<FileStore<FileFrom<S>>>) -> Closed<S>
    ensures { IsClosedTo ⟦<FileFrom<S> as Disk>⟧ result office }
{
    close(office.into_register())
}
