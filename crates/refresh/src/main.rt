// Says of each line `OBSERVED PRIOR REQUESTED` on standard input whether a refresh to the requested deadline is applied. Times are
// nanoseconds of the boot clock, in decimal, with blanks between them. A line is answered when it has come. A line that is not three numbers
// below 2^64 gets one line on descriptor 2, after the answers to the lines before it, and an end; so do input that cannot be read and an
// answer that cannot be written.
#![tactic(auto)]

use deadline::RefreshDeadlineDecision;
use program::{About, Outcome, Stopped, Streams};
use std::io::{Print, Read};
use units::BootNs;

// More reads than any input takes: so the loop over them is seen to end.
const READS: u64 = 1_000_000_000_000_000_000;

// A line is not three numbers below 2^64.
#[derive(Clone, Copy)]
struct NotThreeNumbers;

// How much of a line has come.
#[derive(Clone, Copy)]
enum Stage {
    // Nothing.
    Empty,
    // A byte or more.
    Begun,
    // A carriage return, after which the line ends.
    Returned,
}

// As much of a line as has come.
#[derive(Clone, Copy)]
struct Line {
    stage: Stage,
    // The numbers that are complete.
    observed: Option<u64>,
    prior: Option<u64>,
    requested: Option<u64>,
    // The number that is being read, if a digit of it has come.
    value: Option<u64>,
}

const EMPTY: Line = Line {
    stage: Stage::Empty,
    observed: None,
    prior: None,
    requested: None,
    value: None,
};

impl Line {
    // Takes one byte more.
    fn put(&mut self, byte: u8) -> Result<(), NotThreeNumbers> {
        if let Stage::Returned = self.stage {
            return Err(NotThreeNumbers);
        }
        self.stage = Stage::Begun;
        match byte {
            b'\r' => self.stage = Stage::Returned,
            b' ' | b'\t' => self.end_number(),
            b'0'..=b'9' => self.put_digit(byte - b'0')?,
            _ => return Err(NotThreeNumbers),
        }
        Ok(())
    }

    // Takes a digit of a number below 2^64. There is no fourth number.
    fn put_digit(&mut self, digit: u8) -> Result<(), NotThreeNumbers> {
        if self.requested.is_some() {
            return Err(NotThreeNumbers);
        }
        let tens = self
            .value
            .unwrap_or(0)
            .checked_mul(10)
            .ok_or(NotThreeNumbers)?;
        let value = tens.checked_add(u64::from(digit)).ok_or(NotThreeNumbers)?;
        self.value = Some(value);
        Ok(())
    }

    // A number ends where a blank or the line's end comes after its digits.
    fn end_number(&mut self) {
        let number = self.value.take();
        if number.is_none() {
            return;
        }
        if self.observed.is_none() {
            self.observed = number;
        } else if self.prior.is_none() {
            self.prior = number;
        } else {
            self.requested = number;
        }
    }

    // The decision on its three numbers, if they have come.
    fn decision(&self) -> Option<RefreshDeadlineDecision> {
        let observed = BootNs(self.observed?);
        let prior = BootNs(self.prior?);
        let requested = BootNs(self.requested?);
        Some(deadline::evaluate_refresh_deadlines(observed, prior, requested))
    }
}

// The lines so far: the one that is being read, and its number.
#[derive(Clone, Copy)]
struct Lines {
    line: Line,
    number: u64,
    to: Streams,
}

impl Lines {
    // Takes the bytes that have come.
    fn take(&mut self, bytes: &[u8]) -> Result<(), Stopped> {
        for &byte in bytes {
            self.take_byte(byte)?;
        }
        Ok(())
    }

    fn take_byte(&mut self, byte: u8) -> Result<(), Stopped> {
        if byte == b'\n' {
            return self.end_line();
        }
        match self.line.put(byte) {
            Ok(()) => Ok(()),
            Err(NotThreeNumbers) => Err(self.refuse()),
        }
    }

    // Answers the line that has come, and begins the next one.
    fn end_line(&mut self) -> Result<(), Stopped> {
        self.line.end_number();
        let Some(decision) = self.line.decision() else {
            return Err(self.refuse());
        };
        program::answer(
            self.to,
            text_of(decision),
            b"refresh: the answer could not be written\n",
        )?;
        self.line = EMPTY;
        self.number = self.number.wrapping_add(1);
        Ok(())
    }

    // The last line may lack its newline.
    fn end(&mut self) -> Result<(), Stopped> {
        match self.line.stage {
            Stage::Empty => Ok(()),
            Stage::Begun | Stage::Returned => self.end_line(),
        }
    }

    // Complains of the line, as soon as it is seen that it is not three numbers: nothing after it is read.
    fn refuse(&self) -> Stopped {
        program::complain(self.to, b"refresh: line ");
        let _ = self.to.err.print(self.number);
        program::complain(
            self.to,
            b" is not three numbers below 2^64: OBSERVED PRIOR REQUESTED\n",
        )
    }
}

// The answer to a line.
fn text_of(decision: RefreshDeadlineDecision) -> &'static [u8] {
    match decision {
        RefreshDeadlineDecision::PriorExpired => b"PriorExpired\n",
        RefreshDeadlineDecision::RequestedDeadlineInvalid => b"RequestedDeadlineInvalid\n",
        RefreshDeadlineDecision::DeadlineRegressed => b"DeadlineRegressed\n",
        RefreshDeadlineDecision::Apply => b"Apply\n",
    }
}

const ABOUT: About<'static> = About {
    name: b"refresh",
    help: b"usage: refresh < LINES\n\nSays of each line OBSERVED PRIOR REQUESTED, three times of the boot clock in nanoseconds with blanks between them, whether a\nrefresh of the prior deadline to the requested one is applied: Apply, PriorExpired, RequestedDeadlineInvalid or\nDeadlineRegressed. It answers line by line.\n\nStatus, as the script threadwicket gives it: 0 where every line was answered; 2 where a line is not three numbers below 2^64,\nor the input could not be read or an answer not be written, which a line on descriptor 2 says. The program by itself has no\nstatus.\n",
    refusal: b"refresh: it takes no argument: lines of three times come on standard input (refresh --help says more)\n",
};

fn main(rt: HostRuntime) {
    let to = Streams {
        out: rt.stdout(),
        err: rt.stderr(),
    };
    let ended = program::instead_of_work(&rt, to, ABOUT).unwrap_or_else(|| answer_input(
        &mut rt.stdin(),
        to,
    ));
    program::tell(&rt, ended);
}

// Reads what has come and answers its lines, until the input ends.
fn answer_input<R: Read>(from: &mut R, to: Streams) -> Result<Outcome, Stopped> {
    let mut space = [0u8; 4096];
    let mut lines = Lines {
        line: EMPTY,
        number: 1,
        to,
    };
    for _ in 0..READS {
        match program::read_some(from, &mut space) {
            Ok([]) => {
                lines.end()?;
                return Ok(Outcome::Answered);
            }
            Ok(bytes) => lines.take(bytes)?,
            Err(_) => {
                return Err(program::complain(to, b"refresh: the input could not be read\n"));
            }
        }
    }
    Err(program::complain(to, b"refresh: the input does not end\n"))
}
