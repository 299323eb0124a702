//! The help texts.

pub(crate) const PROGRAM_HELP: &str = "\
Example:
  snapd format manifest.seg
  echo 'step 100' | snapd put manifest.seg
  snapd get manifest.seg

Many values for many readers: see `snapd init --help`, `snapd serve --help` and `snapd call --help`.
All on one page: `man snapd`.

Exit status:
  0  done
  1  a path, an address, a connection or a standard stream failed
  2  the words can't be read
  3  refused; the number and the name of the refusal are on standard error";

pub(crate) const FORMAT_HELP: &str = "\
FILE is made where it isn't there. An empty file is taken, and so is one of 28,672 bytes
that was never formatted. Prints `formatted I of N`. A file that is formatted keeps its bytes:
it is refused as 12 AlreadyFormatted.

Example:
  snapd format manifest.seg";

pub(crate) const PUT_HELP: &str = "\
Reads at most 4,080 bytes; a longer value is refused as 3 TooLong, and nothing is changed.
Prints `stored K` once the value is on the disk for good, where K is its number.

Example:
  echo 'step 100' | snapd put manifest.seg";

pub(crate) const GET_HELP: &str = "\
Example:
  snapd get manifest.seg > manifest";

pub(crate) const CHECK_HELP: &str = "\
Prints the header, the three slots, and `answer number K` or `answer none`. Ends with status 3
where there is no answer. With --json it prints the same as one JSON object.

With --slot S --value it prints the value that lies in slot S, byte for byte, whether that slot is
open or closed, and whatever the others hold: for a file that has no answer. A slot whose length,
number or zeros are wrong holds no value, and ends it with status 3.

Example:
  snapd check manifest.seg
  snapd check manifest.seg --json
  snapd check damaged.seg --slot 1 --value > saved";

pub(crate) const MIGRATE_HELP: &str = "\
OLD is a file of the old format, 20,480 bytes that begin `SNAPSEG1`; it is only read. NEW is made
where it isn't there. An empty file is taken, and so is one of 28,672 bytes that was never
formatted. Prints `migrated I of N number K` once NEW holds OLD's value for good, as number K.
Cut off before, it can be run again: NEW is then unformatted, or refused as
12 AlreadyFormatted because it holds the value already.

Example:
  snapd migrate manifest.seg manifest.new && mv manifest.new manifest.seg";

pub(crate) const INIT_HELP: &str = "\
DIR gets the files segment-00.seg, segment-01.seg and so on, each formatted as one of N segments. DIR
is made where it isn't there; the folder above it has to be. Prints `formatted I of N` for each.

It may be run again, above all where it was cut off: a file that is whole is left as it is, which
prints `kept I of N number K`, and what is missing is made, empty. Where a file that is there holds a
number above 0, a missing one was lost: nothing is made then. Bring it back from a copy, or say
--missing-empty, and it is made all the same. An empty file, or one without a header and a value, counts
as missing, and a segment whose file has another name in .seg is kept there. A file that is neither is
refused, and keeps its bytes.
Nothing is made in a folder of another count: a folder of more segments is made by `snapd load`.

Example:
  snapd init board --count 4
  snapd serve 127.0.0.1:7070 --dir board";

pub(crate) const DOCTOR_HELP: &str = "\
Reads the header and slots of each file of DIR whose name ends in .seg, and changes nothing. Prints a
line for each with its segment and number, or with the fault and the command that repairs it; then
whether they are all the segments of one server, and whether the file system there keeps locks. It
opens each file as a server would, so it also reports a file that you can't serve, and why. A file
that a server has open is left alone.

With --measure it makes a file of its own there, stores 200 values of 1,000 bytes in it, removes it,
and prints how long a store took. If that is shorter than any disk takes, it prints a warning:
then a power cut may lose what was acknowledged. df DIR prints how much room is left.

The exit status is 3 if something has to be repaired before the folder can be served, and else 0,
also if a server has a file open.

Example:
  snapd doctor board --measure";

pub(crate) const SERVE_HELP: &str = "\
DIR is a folder made by `snapd init DIR --count N`. Each file there whose name ends in .seg is one
segment. Its header has the segment's index, so it may be renamed; a file of another set is refused.

Each FILE is one segment, made before by `snapd format FILE --index I --count N`, where I counts
from 0 in the order of the files and N is how many there are. All files are locked while it runs:
a second server, or a `put` on one of them, reports that a file is in use.

It recovers all files, prints `segment I number K length L spare closed` (or `open`) for each and
`segments N`, binds each ADDR, and prints `listening ADDRESS` for each in order, with the port that
it got if ADDR has port 0. From then on it answers `snapd call` and other clients, and logs to
standard error, with `--log debug` also how each connection ended. It runs until it is killed, or
until K connections have ended; then it prints `served K`.

At most N clients are connected: by default as many as the process may open files, less the 30 or so,
with --http 100, that it needs itself. Further callers wait. A scanner answers one request after the
other, so as many requests are answered at the same time as there are scanners. A store that waits
for its disk blocks no scanner.

There is no login: anyone who can connect to ADDR may read and write all segments. Use unix:PATH,
127.0.0.1 or ::1, and a tunnel from elsewhere. An ADDR that means all addresses of the machine, as
0.0.0.0:7070, is served with a warning.

With --http it answers browsers and monitors at one more ADDR, a HOST:PORT, which is in the log with
the port that it got. There / is a page that shows all segments live, /metrics is what Prometheus
reads, /health has status 503 where a segment is fenced, /livez and /readyz say whether it answers and can
store at all, and /scan, /status, /stats and /history are JSON.
Anyone who can connect there may read all segments and change none. It has a scanner of its own, so
that other clients don't wait for it, and --scanners is 15 at most.

A unix:PATH is a socket on this machine. Its file gets MODE; only users who may write it may connect.
The file of a server that was killed is replaced. If a process listens at PATH, or if the file there
is no socket, the server doesn't start. When it ends by itself it removes the file.

Killing it is a proper stop, by SIGTERM or any other signal that ends it, at any time: what was
acknowledged or shown is in the files, and the next start restores it. A server that a script starts
with `&` ignores SIGINT: use `kill`. Never copy onto a file that is served, and don't move or remove
it: its next update is refused. `snapd load` makes a new folder of a copy.

Exit status:
  0  K connections were served
  1  a file, ADDR, standard output or accepting failed
  2  the words can't be read
  3  a file was refused, or memory ran out; the number and the name are on standard error

Examples:
  snapd init board --count 2
  snapd serve 127.0.0.1:7070 --dir board

  snapd format s0.seg --index 0 --count 2
  snapd format s1.seg --index 1 --count 2
  snapd serve 127.0.0.1:7070 s0.seg s1.seg

  snapd serve unix:snapd.sock --dir board --socket-mode 0660 --listen 127.0.0.1:7070";

pub(crate) const CALL_HELP: &str = "\
Requests:
  put I                store standard input as the next value of segment I; prints `stored K`
  get I                prints the value of segment I, byte for byte, and nothing else
  update I NUMBER HEX  store HEX as value NUMBER of segment I; prints `stored NUMBER`
  scan                 all values at one moment; prints `segment I number K value HEX` for each
  part MASK            the same of the segments that MASK names, and of no other one
  status               prints `segment I number K fenced 0`, or `fenced 1`, for each segment
  health               prints `healthy`; or `fenced I` for each fenced segment, with status 3

I is 0 to 255. NUMBER is one more than the segment's number, or that number and its value again:
a repeat is answered as stored. HEX is two hexadecimal digits for each byte, and `-` for no byte.
MASK is four hexadecimal digits of a number whose bit I, worth 2 to the power I, names segment I:
0009 names segments 0 and 3, and 8000 names segment 15. It names one segment at least.
A fenced segment takes no update until its server is started again, since a store of it failed.

A put reads at most 4,080 bytes, or takes TEXT in place of standard input; a longer input is refused
as 3 TooLong. Then it asks for the number that segment I has, and stores the next one; with K it asks
for none and stores number K + 1. If another client stores that number first with another value, the
put is refused as 4 Conflict or 5 OutOfStep, and isn't tried again. A get takes I from 0 to 15.

A connection that fails is tried again up to T times in all, with the same request. That is safe:
an update whose number is stored already isn't stored twice. A put asks twice, each up to T times.
Between two tries it waits, a little longer each time. With --wait it tries for that many seconds,
however many tries that takes, which bridges a server's restart; each request of a put has that time,
and the reply of a request that was sent is waited for. With --timeout a call ends after that many
seconds, all tries together; without it there is no limit. The lookup of a name isn't cut short.

With --text, scan and part print `text \"..\"` in place of `value HEX` where a value is printable:
UTF-8 without control characters but tabs and line ends. It is quoted as in JSON, so each value is
one line. With --json, they, status and health print one JSON document on one line: a value under
\"text\" where it is UTF-8, and else under \"base64\".

Exit status:
  0  done
  1  no connection gave an answer, or standard output failed; an update may have been stored; or
     standard input failed
  2  the words can't be read
  3  refused, with `snapd: refused CODE NAME DETAIL` on standard error, or memory ran out; or
     `health` found a fenced segment; or a put's input is too long

Examples:
  echo 'step 100' | snapd call 127.0.0.1:7070 put 0
  snapd call 127.0.0.1:7070 put 0 --value 'step 101' --after 1
  snapd call 127.0.0.1:7070 get 0
  snapd call 127.0.0.1:7070 update 0 1 6869
  snapd call 127.0.0.1:7070 scan --text
  snapd call 127.0.0.1:7070 scan --wait 30 --timeout 60
  snapd call 127.0.0.1:7070 part 0009
  snapd call 127.0.0.1:7070 health";

pub(crate) const WATCH_HELP: &str = "\
Prints a line for each SEGMENT, or for all, and from then on one more at each change: where a segment
has another number, and where it is fenced or no longer is. In a terminal it draws a board instead, in
place and anew at each poll: segment, number, age, updates a second, state and value in columns, cut
to the terminal, and in colours unless NO_COLOR is set. A line is

  segment I number K fenced 0 text \"..\"

or `fenced 1`, and in place of the text `value HEX` where the value isn't printable, as with
`snapd call ADDR scan --text`. With --json it is the JSON object of `snapd call ADDR scan --json`, and
has \"fenced\" too.

It keeps one connection. Each poll requests the numbers alone, which costs the server little, and the
values only if a number has changed. So nothing is printed twice, and of several values between two
polls only the last one.

It runs until it is interrupted or its output fails. If the server closes the connection, or doesn't
answer a poll within ten seconds, it reports that on standard error, tries again at each poll, and
reports when the server is back. If there is no server when it starts, it ends.

Exit status:
  1  no connection gave a first answer, or standard output failed
  2  the words can't be read
  3  refused, with `snapd: refused CODE NAME DETAIL` on standard error, as for a SEGMENT that the
     server doesn't have; or memory ran out

Examples:
  snapd watch 127.0.0.1:7070
  snapd watch unix:snapd.sock 0 3 --every 200
  snapd watch 127.0.0.1:7070 --json >> changes.jsonl";

pub(crate) const DUMP_HELP: &str = "\
An argument that begins with unix:, or that has no slash and ends in a colon and digits, is the ADDR of
a server. Any other is the DIR of a folder made by `snapd init` or `snapd load`. A folder whose name
resembles an address is given as ./NAME.

A server is asked for all values at one moment, by one scan, while others read and write. The files of
a folder are only read, and locked meanwhile. If a server has them open, dump from that server instead.

Prints one JSON document: its format and version, the time at which it was begun, how many segments
there are, a line with the number and the value of each, and the SHA-256 of all lines but the last. To
check a copy: the last line of DUMP has what `head -n -1 DUMP | sha256sum` prints. A dump that fails
prints nothing; but by then the shell has emptied the file after `>`.

T, --wait and --timeout are for a server, as in `snapd call`.

Examples:
  snapd dump 127.0.0.1:7070 > new.dump && mv new.dump board.dump
  snapd dump board > new.dump && mv new.dump board.dump";

pub(crate) const LOAD_HELP: &str = "\
DUMP is what `snapd dump` printed. All of it is read and checked before anything is made: a DUMP that
was cut off, or changed in one byte, is refused.

DIR gets a file for each segment, as `snapd init` makes them, with the number and value that the dump
has; the folder above DIR has to exist. With M there are M segments, and those after the dump's are
empty. The files are made in DIR.loading, which becomes DIR once all are on the disk: so DIR is
complete, or not there at all. An empty DIR is replaced; its owner, group and mode are kept, access
lists and labels are not. If it is cut off, it can be run again, and replaces DIR.loading.

Prints `loaded I of M number K` for each file, and `ready DIR` at the end.

Example:
  snapd dump 127.0.0.1:7070 > board.dump
  snapd load copy board.dump
  snapd serve 127.0.0.1:7071 --dir copy";

pub(crate) const SCRIPT_HELP: &str = "\
A script is lines of words, which single spaces part. Empty lines are skipped. The first other
line is `world N S`: a new world of N segments and S scanners, 1 to 16 each. Every other line is
one event, and for each line one is printed: what the world answers, or `not now` where the event
may not come. It is printed before more is read, so a script can be typed, and need not end.

  Line             Prints            What happens
  world N S        world N S         every segment has number 0 and the empty value
  begin W HEX      begun             writer W begins an update by this value; `-` is the empty one
  look wW          number K          writer W's embedded scan looks at the next segment: number K
  call W           called KIND       the next device call of writer W's store succeeds
  fail W FILL      device failed     it fails, and the segment is fenced until a restart
  show W           shown             writer W's update is visible from now on
  ack W            stored K          writer W's update is acknowledged, as number K
  scan S           scanning          scanner S begins a scan
  pick S MASK      scanning          scanner S begins a scan of the segments that MASK names
  look sS          number K          scanner S looks at the next segment: number K
  answer S         memory HEX ..     scanner S answers the value of each segment, in order;
                   part I=HEX ..     of a pick, of each that was named
  crash FILL ..    crashed           every device crashes, with one fill each
  restart          restarting        the node starts again
  recall           called KIND       the next device call of the restart succeeds
  refail FILL      device failed     it fails, and the node is down again
  serve            memory HEX ..     the restart ends with the recovered memory

W is a segment and S a scanner, both counted from 0. HEX is two hexadecimal digits for each byte.
MASK is four hexadecimal digits of a number whose bit I names segment I.
KIND is close, body, open, sync or read. FILL says what touched bytes get: `keep` what they had,
two hexadecimal digits that byte, `at:OFFSET:HEX` these bytes from that place on.

A line that can't be read, or has more than 1048576 bytes, ends the program with status 2, after
the lines before it were done.

Example: a crash after the gate of a stored value was written, and before it was synced. With
`crash 00` in place of `crash a5` the memory is the one before the update.

  $ snapd script <<END
  world 1 1
  begin 0 6869
  look w0
  look w0
  call 0
  call 0
  call 0
  crash a5
  restart
  recall
  recall
  serve
  END
  world 1 1
  begun
  number 0
  number 0
  called body
  called sync
  called open
  crashed
  restarting
  called sync
  called read
  memory 6869";
