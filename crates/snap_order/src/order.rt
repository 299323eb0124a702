//! The parsed command line.

use bytes::Bytes;
use snap_frame::Request;

/// The largest limit of open connections that a server takes.
pub const MAX_CLIENTS: u32 = 1_000_000;

/// The longest idle timeout of a server's connections, in seconds: 365 days.
pub const MAX_IDLE: u32 = 31_536_000;

/// The most addresses that a server listens at.
pub const MAX_ADDRESSES: usize = 16;

/// The permission bits of a mode: read, write and run, for user, group and others.
pub const MODE_BITS: u16 = 0o777;

/// A parsed command line.
#[derive(Drop)]
pub enum Order<'a> {
    /// A command on one file.
    File(FileOrder<'a>),
    /// Convert a file of the old format to a new file.
    Migrate(MigrateOptions<'a>),
    /// Make the files of a folder.
    Init(InitOptions<'a>),
    /// Report on the files of a folder.
    Doctor(DoctorOptions<'a>),
    /// Serve segments to clients.
    Serve(ServeOptions<'a>),
    /// Serve the segments of a folder to clients: `serving` has no files of its own.
    ServeFolder {
        folder: &'a str,
        serving: ServeOptions<'a>,
    },
    /// Send a request to a server.
    Call(CallOptions<'a>),
    /// Show the segments of a server, and each change.
    Watch(WatchOptions<'a>),
    /// Print all values of a server or a folder as a dump.
    Dump(DumpOptions<'a>),
    /// Make a folder of the values of a dump.
    Load(LoadOptions<'a>),
    /// Run the script on standard input.
    Script,
}

/// A command on one file. `index` and `count` are the place of the file's segment among those of its server.
#[derive(Clone, Copy)]
pub enum FileOrder<'a> {
    /// Make and format the file.
    Format { file: &'a str, index: u8, count: u8 },
    /// Store standard input as the segment's next number.
    Put { file: &'a str, index: u8, count: u8 },
    /// Print the segment's value.
    Get { file: &'a str, index: u8, count: u8 },
    /// Show what the file holds, slot by slot: in lines, or as one JSON document.
    Check { file: &'a str, is_json: bool },
    /// Print the value of one slot, whatever the others hold. `slot` is less than [`snap_slot::SLOT_COUNT`].
    Slot { file: &'a str, slot: u8 },
}

/// Converts a file of the old format to a new file with the same number, value and place.
#[derive(Clone, Copy)]
pub struct MigrateOptions<'a> {
    pub old: &'a str,
    pub new: &'a str,
    pub index: u8,
    pub count: u8,
}

/// Makes the file of each segment in a folder.
#[derive(Clone, Copy)]
pub struct InitOptions<'a> {
    /// The path of the folder, which is made if it doesn't exist.
    pub folder: &'a str,
    /// The number of segments: 1 to 16.
    pub count: u8,
    /// Whether a missing file is made, empty, although another one holds a value.
    pub is_missing_empty: bool,
}

/// Reports on the files and the file system of a folder.
#[derive(Clone, Copy)]
pub struct DoctorOptions<'a> {
    /// The path of the folder.
    pub folder: &'a str,
    /// Whether it also stores some values there, in a file of its own, and prints the times.
    pub is_measured: bool,
}

/// Serves the segments of some files to clients that connect.
#[derive(Drop)]
pub struct ServeOptions<'a> {
    /// The addresses that it listens at, in order: 1 to [`MAX_ADDRESSES`] texts, which the system may refuse.
    pub addresses: Vec<&'a str>,
    /// The mode of each Unix socket's file, which says which users may connect. Only [`MODE_BITS`] are set.
    pub socket_mode: u16,
    /// The path of each segment's file, in order of segment: 1 to 16.
    pub files: Vec<&'a str>,
    /// How many threads answer requests: 1 to 16.
    pub scanners: u8,
    /// The number of connections after which it stops; `None` if it serves without end.
    pub connections: Option<u64>,
    /// The most connections that are open at once: 1 to [`MAX_CLIENTS`]. `None` for as many as the process may open.
    pub clients: Option<u32>,
    /// The idle timeout in seconds, 1 to [`MAX_IDLE`]: it closes a connection that has been silent
    /// for that long, unless a request of it is still being answered. `None` if it closes none.
    pub idle: Option<u32>,
    /// The level of its log, on standard error.
    pub log: Level,
    /// The address for HTTP, for browsers and monitors, as text that the system may refuse. `None` without HTTP.
    pub http: Option<&'a str>,
}

/// The level of a log's line. A log of one level also has the lines of the levels above it in this list.
#[derive(Clone, Copy)]
pub enum Level {
    /// An operator has to act.
    Error,
    /// An operator should check this.
    Warn,
    /// The usual events of a healthy server.
    Info,
    /// Details that help to find a fault.
    Debug,
}

/// The format of a printed reply.
#[derive(Clone, Copy, PartialEq, Eq)]
pub enum OutputFormat {
    /// Lines, with each value in hexadecimal digits.
    Lines,
    /// Lines, with each value as text if it is printable.
    Text,
    /// One JSON document.
    Json,
}

/// The longest `--wait` and `--timeout` of a call, in seconds: a day.
pub const MAX_TIMEOUT: u32 = 86_400;

/// The path of a Unix socket's address: the text after `unix:`. `None` for a host and a port.
pub fn socket_path(address: &str) -> Option<&str> {
    address.strip_prefix("unix:")
}

/// Sends a request to a server, and prints its reply.
#[derive(Drop)]
pub struct CallOptions<'a> {
    /// The server's address, as text that the system may refuse.
    pub address: &'a str,
    /// The request.
    pub question: CallRequest,
    /// The most connections for each request: 1 to [`snap_client::MAX_TRIES`].
    pub tries: u8,
    /// For how many seconds it connects again while it has no reply: 1 to [`MAX_TIMEOUT`]. `None`: as `tries` says.
    pub wait: Option<u32>,
    /// The timeout in seconds of all tries together: 1 to [`MAX_TIMEOUT`]. `None` without a timeout.
    pub timeout: Option<u32>,
    /// The format of the reply to a read.
    pub layout: OutputFormat,
}

/// The longest time between two polls of a watch, in milliseconds: a day.
pub const MAX_EVERY: u32 = 86_400_000;

/// Shows the segments of a server, and each change of them.
#[derive(Drop)]
pub struct WatchOptions<'a> {
    /// The server's address, as text that the system may refuse.
    pub address: &'a str,
    /// The segments that are shown, in this order, each less than [`snap_history::MAX_COUNT`]; all if it is empty.
    pub segments: Vec<u8>,
    /// The time between two polls in milliseconds: 1 to [`MAX_EVERY`]. `None` if it wasn't given.
    pub every: Option<u32>,
    /// Whether each change is printed as a JSON object.
    pub is_json: bool,
}

/// Prints a dump of all values of a server or a folder.
#[derive(Clone, Copy)]
pub struct DumpOptions<'a> {
    /// The source of the values.
    pub holder: DumpSource<'a>,
    /// As [`CallOptions::tries`].
    pub tries: u8,
    /// As [`CallOptions::wait`].
    pub wait: Option<u32>,
    /// As [`CallOptions::timeout`].
    pub timeout: Option<u32>,
}

/// The source of a dump.
#[derive(Clone, Copy)]
pub enum DumpSource<'a> {
    /// The server at this address, a text that the system may refuse.
    Server { address: &'a str },
    /// The files in the folder at this path.
    Folder { folder: &'a str },
}

/// Makes a folder with the files of a dump's segments.
#[derive(Clone, Copy)]
pub struct LoadOptions<'a> {
    /// The path of the folder, which must be missing or empty.
    pub folder: &'a str,
    /// The path of the dump; `-` is standard input.
    pub dump: &'a str,
    /// The number of segments: 1 to 16. `None` for as many as the dump has.
    pub count: Option<u8>,
}

/// The request of a call, which also decides how the reply is printed.
#[derive(Drop)]
pub enum CallRequest {
    /// Send this request, and print its reply. It fits a frame: an update's value has at most
    /// [`snap_frame::MAX_UPDATE_VALUE`] bytes. A scan of some segments names at least one.
    Request(Request),
    /// Ask for the status, to find out whether a segment is fenced. The exit status says so too.
    Health,
    /// Scan this segment alone, and print its value, byte for byte. It is less than [`snap_history::MAX_COUNT`].
    Get { segment: u8 },
    /// Store a value as a segment's next number.
    Put(PutOptions),
}

/// Stores a value as the next number of a segment.
#[derive(Drop)]
pub struct PutOptions {
    /// The segment, which the server may not have.
    pub segment: u8,
    /// Where the value comes from.
    pub value: Source,
    /// The number that the value follows: it is stored under the next one. At most `u64::MAX - 1`.
    /// `None` if the server is first asked for the current number.
    pub after: Option<u64>,
}

/// Where the value of a put comes from.
#[derive(Drop)]
pub enum Source {
    /// Standard input, up to its end.
    Input,
    /// An argument of the command: at most [`snap_frame::MAX_UPDATE_VALUE`] bytes.
    Words(Bytes),
}

impl CallRequest {
    ghost use Rattle.std.specs.Prelude.{◌≡◌};
    ghost use Rattle.snap_order.specs.Order.{lists_segments};

    /// Whether the reply lists segments, as that of a scan, a part, the status and the health does.
    pub fn lists_segments(&self) -> bool
        ensures { result ≡ lists_segments self.now }
    {
        match self {
            CallRequest::Request(Request::Update { .. }) => false,
            CallRequest::Request(_) | CallRequest::Health => true,
            CallRequest::Get { .. } | CallRequest::Put(_) => false,
        }
    }
}

impl<'a> FileOrder<'a> {
    ghost use Rattle.std.specs.Prelude.{◌≡◌};
    ghost use Rattle.snap_order.specs.Order.{file_of};

    /// The path of the order's file.
    pub fn file(&self) -> &'a str
        ensures { result.now ≡ file_of self.now }
    {
        match self {
            FileOrder::Format { file, .. }
            | FileOrder::Put { file, .. }
            | FileOrder::Get { file, .. }
            | FileOrder::Check { file, .. }
            | FileOrder::Slot { file, .. } => file,
        }
    }
}
