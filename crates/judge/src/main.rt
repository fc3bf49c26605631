// Prints the listing of the bundle on standard input: a line for each packet, and a last line. Of input over 65,536 bytes it prints
// `long` alone. Input that cannot be read, and a listing that cannot be written, get one line on descriptor 2.
#![tactic(auto)]

ghost use Rattle.listing.specs.Listing.{whole};
ghost use Rattle.program.specs.Status.{Fits};

use program::{About, Input, InputError, Outcome, Stopped, Streams};
use std::io::Read;

// One byte more than the longest bundle shows that there is more.
const ENOUGH: usize = listing::MAX_BUNDLE + 1;

const ABOUT: About<'static> = About {
    name: b"judge",
    help: b"usage: judge < BUNDLE\n\nPrints a line for each packet of the bundle on standard input: its ordinal, the verdict, the number of IPv6 extension\nheaders passed, and the verdict's counter slot or `-`. The last line is `end` and the number of packets; `bad` and the offset\nof a frame that cannot be read, after the packets before it; or `long` alone, for more than 65,536 bytes.\n\nStatus, as the script threadwicket gives it: 0 for a listing that ends in `end`; 1 for `bad` and `long`; 2 where the input\ncould not be read or the listing not be written, which a line on descriptor 2 says. The program by itself has no status.\n",
    refusal: b"judge: it takes no file's name and no other argument: a bundle comes on standard input (judge --help says more)\n",
};

fn main(rt: HostRuntime) {
    let to = Streams {
        out: rt.stdout(),
        err: rt.stderr(),
    };
    let ended = program::instead_of_work(&rt, to, ABOUT).unwrap_or_else(|| judge(
        &mut rt.stdin(),
        to,
    ));
    program::tell(&rt, ended);
}

// Reads the bundle and lists it.
fn judge<R: Read>(from: &mut R, to: Streams) -> Result<Outcome, Stopped> {
    let mut space = [0u8; ENOUGH];
    match program::read_input(from, listing::MAX_BUNDLE, &mut space) {
        Ok(Input::Whole(bundle) | Input::Longer(bundle)) => Ok(list(bundle, to)),
        Err(InputError::Failed(_)) => {
            Err(program::complain(to, b"judge: the input could not be read\n"))
        }
        Err(InputError::Small) => {
            Err(program::complain(to, b"judge: there is no room for a longest bundle\n"))
        }
    }
}

// Writes the listing of a bundle. A bundle that was not read to its end was turned down.
fn list(input: &[u8], to: Streams) -> Outcome
    ensures { Fits (whole input.now) result }
{
    let mut out = [0u8; listing::MAX_LISTING];
    let listed = listing::list(input, &mut out).unwrap();
    let length = listed.length;
    match program::answer(
        to,
        &out[..length],
        b"judge: the listing could not be written\n",
    ) {
        Err(Stopped::Failed) => Outcome::Failed,
        Ok(()) | Err(Stopped::Gone) => Outcome::of_whole(listed.whole),
    }
}
