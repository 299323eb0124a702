//! The command `watch`: shows a server's segments and each change, until it is interrupted.
ghost use Rattle.std.specs.Prelude.{◌<◌, IfSome};
ghost use Rattle.snap_order.specs.Order.{IsWatchable};

use super::call_command::{is_worth_a_try, link_within};
use super::remedy::remedy_of;
use super::time_limit::{Course, TimeLimit};
use crate::watch::{Panel, Row, Track, WatchFault, changes, drawing, followed, look, set_of};
use libc::net::{POLLERR, POLLHUP, poll};
use libc::types::pollfd;
use snap_client::{Client, ClientFault};
use snap_frame::SegmentSet;
use snap_order::{
    Status, WatchOptions, fail_of, or_stop, refuse, say_of, stop_without_memory, write_whole,
};
use std::alloc::Global;
use std::cell::Cell;
use std::env::{self, VarError};
use std::io::{self, ErrorKind, IsTerminal};
use std::net::TcpStream;
use std::sync::Wait;
use std::thread;
use std::time::{Duration, Instant};

/// The time between two polls in milliseconds, if none was given.
const PAUSE: u32 = 1_000;

/// The longest time of a poll, in seconds: a server that takes longer counts as lost.
const PATIENCE: u64 = 10;

/// The message about a server that took longer.
const LATE: &str = "there was no answer within 10 s";

/// Shows the segments of the server at the order's address, and each change, until the process is interrupted, standard
/// output has no reader any more, the first poll fails, or the server refuses one.
pub fn watch<X: Wait>(
    waiting: &X,
    rt: &HostRuntime,
    order: &WatchOptions<'_>,
) -> Result<Status, Status>
    requires { IsWatchable order.now }
{
    let address = order.address;
    if !is_worth_a_try(rt, address, false) {
        return Err(Status::Failed);
    }
    let pause = Duration::from_millis(u64::from(order.every.unwrap_or(PAUSE)));
    let watched = set_of(&order.segments);
    let began = Instant::now(rt).ok();
    let mut screen = Screen::new(rt, address, order.is_json);
    let mut link = None;
    for _ in waiting.forever() {
        if is_unread() {
            return Err(Status::Failed);
        }
        let (is_late, mut unmade) = (Cell::new(false), None);
        let rows = rows_now(
            rt,
            address,
            watched,
            &mut link,
            &screen.shown,
            &is_late,
            &mut unmade,
        );
        screen.now = millis_since(rt, began).unwrap_or(0);
        let shown = match rows {
            Ok(rows) => screen.show(rt, rows),
            Err(trouble) => screen.bear(rt, trouble, is_late.get(), unmade.as_ref()),
        };
        shown?;
        thread::sleep(rt, pause);
    }
    unreachable!()
}

/// Whether standard output has no reader any more: it is a pipe whose other end is closed.
fn is_unread() -> bool {
    let mut asked = [pollfd {
        fd: libc::STDOUT_FILENO,
        events: 0,
        revents: 0,
    }];
    poll(&mut asked, 0) == 1 && asked[0].revents & (POLLERR | POLLHUP) != 0
}

/// The milliseconds since then. `None` if the clock can't be read.
fn millis_since(rt: &HostRuntime, began: Option<Instant>) -> Option<u64> {
    u64::try_from(began?.elapsed(rt).ok()?.as_millis()).ok()
}

/// The current rows of the server, by one poll within its time. Sets `is_late` if that was over, and `unmade` to the
/// reason why no connection was made. If the connection fails it polls once more on a new one, and requests all values,
/// since another server may answer.
fn rows_now(
    rt: &HostRuntime,
    address: &str,
    watched: Option<SegmentSet>,
    link: &mut Option<TcpStream>,
    shown: &[Row],
    is_late: &Cell<bool>,
    unmade: &mut Option<io::Error>,
) -> Result<Vec<Row>, WatchFault>
    requires some { IfSome watched (λ set. 0 < set.bits) }
{
    let end = match Instant::now(rt) {
        Ok(now) => now.checked_add(Duration::from_secs(PATIENCE)),
        Err(_) => None,
    };
    let limit = TimeLimit {
        clock: rt,
        end,
        is_over: is_late,
    };
    if let Some(open) = link.take() {
        match rows_by(rt.alloc(), open, watched, link, shown, limit) {
            Err(WatchFault::Lost(fault)) if fault.may_pass() => {}
            told => return told,
        }
    }
    match link_within(rt, address, &limit) {
        Ok(open) => rows_by(rt.alloc(), open, watched, link, &[], limit),
        Err(reason) => {
            *unmade = Some(reason);
            Err(WatchFault::Lost(ClientFault::ConnectFailed))
        }
    }
}

/// The rows by one poll on this connection, which is kept if it succeeded.
fn rows_by(
    alloc: Global,
    open: TcpStream,
    watched: Option<SegmentSet>,
    kept: &mut Option<TcpStream>,
    shown: &[Row],
    limit: TimeLimit<'_>,
) -> Result<Vec<Row>, WatchFault>
    requires some { IfSome watched (λ set. 0 < set.bits) }
{
    let (Ok(reader), Ok(writer)) = (open.try_clone(), open.try_clone()) else {
        return Err(WatchFault::Lost(ClientFault::ConnectFailed));
    };
    let course = Course::new();
    let mut client = Client::new(alloc, limit.on(reader, &course), limit.on(writer, &course));
    let rows = look(alloc, &mut client, watched, shown);
    *kept = rows.is_ok().then_some(open);
    rows
}

/// The rows that were shown last, and where they are shown.
#[derive(Drop)]
struct Screen<'a> {
    address: &'a str,
    /// Whether changes are printed as JSON objects.
    is_json: bool,
    /// Whether the rows are drawn as a board in a terminal, anew at each poll.
    is_board: bool,
    /// Whether the board has colours.
    is_coloured: bool,
    /// The rows of the last poll that was answered.
    shown: Vec<Row>,
    /// The age and rate of each of them, for a board.
    tracks: Vec<Track>,
    /// How many lines above the cursor belong to the board.
    above: usize,
    /// The time of the last poll, in milliseconds since the first one.
    now: u64,
    contact: Contact,
}

/// The state of the connection to the server.
#[derive(Clone, Copy, PartialEq, Eq)]
enum Contact {
    /// It has never answered.
    None,
    /// It answered the last poll.
    Held,
    /// It didn't answer the last poll, but an earlier one.
    Lost,
}

impl<'a> Screen<'a> {
    /// A screen on which nothing was shown yet.
    fn new(rt: &HostRuntime, address: &'a str, is_json: bool) -> Screen<'a> {
        Screen {
            address,
            is_json,
            is_board: !is_json && rt.stdout().is_terminal(),
            is_coloured: are_colours_wanted(rt),
            shown: Vec::new(rt.alloc()),
            tracks: Vec::new(rt.alloc()),
            above: 0,
            now: 0,
            contact: Contact::None,
        }
    }

    /// Shows the rows: a board draws all, and else the changed ones are printed. An error is the exit status.
    fn show(&mut self, rt: &HostRuntime, rows: Vec<Row>) -> Result<(), Status> {
        if self.contact == Contact::Lost && !self.is_board {
            say_of(rt, self.address, &"connected again");
        }
        self.contact = Contact::Held;
        if self.is_board {
            self.tracks = or_stop(rt, followed(rt.alloc(), &self.tracks, &rows, self.now))?;
            self.shown = rows;
            return self.draw(rt, None);
        }
        let text = or_stop(rt, changes(rt.alloc(), self.is_json, &self.shown, &rows))?;
        self.shown = rows;
        print(rt, text.as_slice())
    }

    /// Handles a failed poll. If the server has answered before, it shows why the server is lost: a board at each poll,
    /// and else once. An error is the exit status.
    fn bear(
        &mut self,
        rt: &HostRuntime,
        trouble: WatchFault,
        is_late: bool,
        unmade: Option<&io::Error>,
    ) -> Result<(), Status> {
        let fault = match trouble {
            WatchFault::Refused { why, detail } => {
                let (code, name) = (why.code(), why.name());
                return Err(refuse(rt, &format_args!("refused {code} {name} {detail}")));
            }
            WatchFault::Lost(ClientFault::NoMemory) => return Err(stop_without_memory(rt)),
            WatchFault::Lost(fault) => fault,
        };
        if self.contact == Contact::None {
            return Err(fail_at_first(rt, self.address, fault, is_late, unmade));
        }
        let loss = loss_of(fault, is_late);
        let was_held = self.contact == Contact::Held;
        self.contact = Contact::Lost;
        if self.is_board {
            return self.draw(rt, Some(loss));
        }
        if was_held {
            say_of(rt, self.address, &format_args!("{loss}: trying again"));
        }
        Ok(())
    }

    /// Draws the board. An error is the exit status.
    fn draw(&mut self, rt: &HostRuntime, loss: Option<&str>) -> Result<(), Status> {
        let panel = Panel {
            address: self.address,
            loss,
            rows: self.shown.as_slice(),
            tracks: self.tracks.as_slice(),
            now: self.now,
            is_coloured: self.is_coloured,
        };
        let text = or_stop(rt, drawing(rt.alloc(), self.above, &panel))?;
        self.above = panel.len();
        print(rt, text.as_bytes())
    }
}

/// Whether to use colours: `NO_COLOR` isn't set, or is empty.
fn are_colours_wanted(rt: &HostRuntime) -> bool {
    match env::var(rt, "NO_COLOR") {
        Ok(value) => value.is_empty(),
        Err(fault) => fault == VarError::NotPresent,
    }
}

/// Prints this on standard output. An error is the exit status.
fn print(rt: &HostRuntime, text: &[u8]) -> Result<(), Status> {
    write_whole(&mut rt.stdout(), text).map_err(|error| match error.kind() {
        ErrorKind::BrokenPipe => Status::Failed,
        _ => fail_of(rt, "standard output", &error),
    })
}

/// Prints why there was no first answer, with advice: `unmade` is the reason why no connection was made.
fn fail_at_first(
    rt: &HostRuntime,
    address: &str,
    fault: ClientFault,
    is_late: bool,
    unmade: Option<&io::Error>,
) -> Status {
    if is_late {
        return fail_of(rt, address, &format_args!("{LATE}: see what serves there"));
    }
    if let Some(reason) = unmade {
        let remedy = match reason.kind() {
            ErrorKind::ConnectionRefused | ErrorKind::NotFound => "start snapd serve there",
            _ => remedy_of(address, reason).unwrap_or("see what serves there"),
        };
        return fail_of(rt, address, &format_args!("{reason}: {remedy}"));
    }
    let remedy = match fault {
        ClientFault::BadReply => "check the address",
        _ => "start snapd serve there",
    };
    fail_of(rt, address, &format_args!("{fault}: {remedy}"))
}

/// The message about a lost server.
fn loss_of(fault: ClientFault, is_late: bool) -> &'static str {
    match fault {
        _ if is_late => LATE,
        ClientFault::ConnectFailed => "no connection to the server can be made",
        ClientFault::BadReply => "what came isn't an answer",
        _ => "the connection failed before the answer came",
    }
}
