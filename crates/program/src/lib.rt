// What the programs share: what their arguments ask, reading to a limit, writing all or saying that it could not be done, and the status
// that the script `threadwicket` hands on. No contract can say what is read or written, so the functions that read or write promise where
// bytes lie and how many there are, and which status an outcome is.
#![tactic(auto)]

ghost use Rattle.std.specs.Prelude.{◌≡◌, ◌≤◌, length, IfOk, IfErr};
ghost use Rattle.program.specs.Reading.{AtStart, Told, Lies};
ghost use Rattle.program.specs.Status.{digit_of, failed, of_whole, outcome_of};

use std::env::{Env, FillError};
use std::fs::OpenOptions;
use std::io::{ErrorKind, Print, Read, Stderr, Stdout, Write};
use std::os::unix::fs::PermissionsExt;
use std::rt::Files;
use std::{fs, io, str};

// Where a program writes: its answers, and what is wrong.
#[derive(Clone, Copy)]
pub struct Streams {
    pub out: Stdout,
    pub err: Stderr,
}

// ---- arguments and status

// What a program says of itself.
#[derive(Clone, Copy)]
pub struct About<'a> {
    // Its name.
    pub name: &'a [u8],
    // What `--help` shows.
    pub help: &'a [u8],
    // The line that refuses arguments.
    pub refusal: &'a [u8],
}

// What a program's arguments ask of it.
#[derive(Clone, Copy, Debug, PartialEq, Eq)]
enum Request {
    // There are none: its work.
    Work,
    // `--help` alone.
    Help,
    // `--version` alone.
    Version,
    // Anything else.
    Other,
}

// How a program ended.
#[derive(Clone, Copy, Debug, PartialEq, Eq)]
pub enum Outcome {
    // It answered in full.
    Answered,
    // It turned its input down, and its answer says so.
    TurnedDown,
    // Its input could not be read or understood, or an answer could not be written: a line on descriptor 2 says so.
    Failed,
}

impl Outcome {
    // The status, as a digit.
    pub fn digit(self) -> u8
        ensures { result ≡ digit_of self }
    {
        match self {
            Outcome::Answered => b'0',
            Outcome::TurnedDown => b'1',
            Outcome::Failed => b'2',
        }
    }

    // An input that was answered, whole or only to a fault. It has a name of its own and is no `From<bool>`: callers know it by that name.
    pub fn of_whole(whole: bool) -> Outcome
        ensures { result ≡ of_whole whole }
    {
        if whole {
            Outcome::Answered
        } else {
            Outcome::TurnedDown
        }
    }
}

// Why a program stops before its work is done.
#[derive(Clone, Copy, Debug, PartialEq, Eq)]
pub enum Stopped {
    // Whoever read the answers has gone: that is no error, and nothing is said of it.
    Gone,
    // Its input could not be read or understood, or an answer could not be written: a line on descriptor 2 says so.
    Failed,
}

impl From<Stopped> for Outcome {
    ghost from_gives = { λ stopped outcome. outcome ≡ outcome_of stopped };

    fn from(stopped: Stopped) -> Outcome {
        match stopped {
            Stopped::Gone => Outcome::Answered,
            Stopped::Failed => Outcome::Failed,
        }
    }
}

// Where the status goes, if the first argument is `--status-fd=3`: descriptor 3, by the name that Linux has for it.
const STATUS: &str = "/proc/self/fd/3";

// Whether argument i is this text.
fn argument_is<R: Env>(rt: &R, i: usize, text: &[u8]) -> bool {
    let mut space = [0u8; 32];
    matches!(rt.arg(i, &mut space), Ok(n) if &space[..n] == text)
}

// Whether there is an argument i. One that is longer than the space is there too.
fn is_given<R: Env>(rt: &R, i: usize) -> bool {
    let mut space = [0u8; 32];
    !matches!(rt.arg(i, &mut space), Err(FillError::NotPresent))
}

// Whether the first argument asks for the status. It is for whoever starts a program and wants to hand a status on.
fn is_status_asked<R: Env>(rt: &R) -> bool {
    argument_is(rt, 1, b"--status-fd=3")
}

// The place of the first argument that is the user's.
fn first_argument<R: Env>(rt: &R) -> usize
    ensures { result ≤ 2 }
{
    if is_status_asked(rt) { 2 } else { 1 }
}

// What the arguments ask of a program that takes no others.
fn asked<R: Env>(rt: &R) -> Request {
    let first = first_argument(rt);
    if !is_given(rt, first) {
        return Request::Work;
    }
    if is_given(rt, first + 1) {
        return Request::Other;
    }
    if argument_is(rt, first, b"--help") {
        return Request::Help;
    }
    if argument_is(rt, first, b"--version") {
        return Request::Version;
    }
    Request::Other
}

// Opens what descriptor 3 is open on, for writing. The bits of its name say what the descriptor is for. What is only for writing is written
// at its end, and is opened for reading too where that may be, since else a named pipe would be waited for that nobody reads.
fn open_status<R: Files>(rt: &R) -> io::Result<R::File> {
    let mode = fs::symlink_metadata(rt, STATUS)?.permissions().mode();
    let mut how = OpenOptions::new();
    if mode & 0o200 == 0 {
        return Err(io::Error::from(ErrorKind::PermissionDenied));
    }
    if mode & 0o400 != 0 {
        return how.read(true).write(true).open(rt, STATUS);
    }
    how.read(true).append(true);
    match how.open(rt, STATUS) {
        Ok(file) => Ok(file),
        Err(_) => how.read(false).open(rt, STATUS),
    }
}

// What a program that takes no arguments does in place of its work, where it was asked for something else: the text of `--help` or the
// version is shown, and any other arguments are refused in one line. None where it is to do its work.
pub fn instead_of_work<R: Env>(
    rt: &R,
    to: Streams,
    about: About,
) -> Option<Result<Outcome, Stopped>> {
    match asked(rt) {
        Request::Work => None,
        Request::Help => Some(show(to, about.name, about.help)),
        Request::Version => Some(show_version(to, about.name)),
        Request::Other => Some(Err(complain(to, about.refusal))),
    }
}

// Tells how a program ended, where that is asked for: the digit of its status, on descriptor 3. Where that is not open, nothing is told.
pub fn tell<R: Env + Files>(rt: &R, ended: Result<Outcome, Stopped>) {
    let outcome = ended.unwrap_or_else(|stopped| stopped.into());
    if is_status_asked(rt) {
        if let Ok(mut file) = open_status(rt) {
            let _ = file.write_all(&[outcome.digit()]);
        }
    }
}

// ---- reading

// A read failed.
#[derive(Clone, Copy, Debug, PartialEq, Eq)]
pub struct ReadFailed<'a> {
    // The part of the space that the reads before it filled.
    pub before: &'a [u8],
}

// What reading to a limit gave.
#[derive(Clone, Copy, Debug, PartialEq, Eq)]
pub enum Input<'a> {
    // The input ended, and no more than the limit was read.
    Whole(&'a [u8]),
    // There is more: one byte more than the limit was read.
    Longer(&'a [u8]),
}

// Why there is nothing to hand on.
#[derive(Clone, Copy, Debug, PartialEq, Eq)]
pub enum InputError<'a> {
    // A read failed.
    Failed(ReadFailed<'a>),
    // The space is no longer than the limit, so that nobody could tell whether there is more: nothing was read.
    Small,
}

// One read: as many bytes as there are now, none where the input ended.
pub fn read_some<'a, R: Read>(from: &mut R, space: &'a mut [u8]) -> io::Result<&'a [u8]>
    ensures { IfOk result (λ some. AtStart space.entry some) }
{
    let n = from.read(space)?;
    Ok(&space[..n])
}

// Reads to the start of `space` until it is full, the input ends or a read fails.
pub fn fill<'a, R: Read>(from: &mut R, space: &'a mut [u8]) -> Result<&'a [u8], ReadFailed<'a>>
    ensures filled { IfOk result (λ some. AtStart space.entry some) }
    ensures failed { IfErr result (λ error. AtStart space.entry error.before) }
{
    let mut at = 0;
    // Nothing is counted: a read gives as many bytes as there are.
    while at < space.len() {
        match from.read(&mut space[at..]) {
            Ok(0) => break,
            Ok(n) => at += n,
            Err(_) => return Err(ReadFailed {
                before: &space[..at],
            }),
        }
    }
    Ok(&space[..at])
}

// Reads at most `limit` bytes to the start of `space`, and one more to see whether there is more.
pub fn read_input<'a, R: Read>(
    from: &mut R,
    limit: usize,
    space: &'a mut [u8],
) -> Result<Input<'a>, InputError<'a>>
    ensures told { Told limit (length space.old) result }
    ensures at_start { Lies space.entry result }
{
    if space.len() <= limit {
        return Err(InputError::Small);
    }
    let end = limit + 1;
    match fill(from, &mut space[..end]) {
        Err(failed) => Err(InputError::Failed(failed)),
        Ok(bytes) if limit < bytes.len() => Ok(Input::Longer(bytes)),
        Ok(bytes) => Ok(Input::Whole(bytes)),
    }
}

// Opens a file for reading, by a name that is a text.
fn open_named<R: Files>(rt: &R, path: &[u8]) -> io::Result<R::File> {
    match str::from_utf8(path) {
        Ok(text) => fs::open(rt, text),
        Err(_) => Err(io::Error::from(ErrorKind::InvalidInput)),
    }
}

// The same of a file by its name. A read of one that cannot be opened fails, and a name that is no UTF-8 cannot be opened.
pub fn read_named<'a, R: Files>(
    rt: &R,
    path: &[u8],
    limit: usize,
    space: &'a mut [u8],
) -> Result<Input<'a>, InputError<'a>>
    ensures told { Told limit (length space.old) result }
    ensures at_start { Lies space.entry result }
{
    match open_named(rt, path) {
        Ok(mut file) => read_input(&mut file, limit, space),
        Err(_) if limit < space.len() => Err(InputError::Failed(ReadFailed {
            before: &space[..0],
        })),
        Err(_) => Err(InputError::Small),
    }
}

// ---- writing

// Writes a line that says what is wrong to descriptor 2.
pub fn complain(to: Streams, line: &[u8]) -> Stopped
    ensures { result ≡ failed }
{
    let _ = Print::write_all(&to.err, line);
    Stopped::Failed
}

// Writes all of a text to standard output, and says nothing where that fails.
fn write(to: Streams, text: &[u8]) -> Result<(), Stopped> {
    Print::write_all(&to.out, text).map_err(|error| match error.kind() {
        ErrorKind::BrokenPipe => Stopped::Gone,
        _ => Stopped::Failed,
    })
}

// Writes all of an answer to standard output, or else the complaint to descriptor 2.
pub fn answer(to: Streams, text: &[u8], complaint: &[u8]) -> Result<(), Stopped> {
    let written = write(to, text);
    if let Err(Stopped::Failed) = written {
        complain(to, complaint);
    }
    written
}

// Writes a text that was asked for, or else a complaint that begins with the program's name.
fn show(to: Streams, name: &[u8], text: &[u8]) -> Result<Outcome, Stopped> {
    match write(to, text) {
        Ok(()) | Err(Stopped::Gone) => Ok(Outcome::Answered),
        Err(Stopped::Failed) => {
            complain(to, name);
            Err(complain(to, b": the text could not be written\n"))
        }
    }
}

// Writes a program's name and version; where the name cannot be written, the rest cannot either, which says so.
fn show_version(to: Streams, name: &[u8]) -> Result<Outcome, Stopped> {
    let _ = write(to, name);
    show(to, name, b" (threadwicket) 1.0\n")
}
