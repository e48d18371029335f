// Reads a reply and writes its listing to standard output.
#![tactic(auto)]

ghost use Rattle.std.specs.Prelude.{List, ℕ, ◌+◌, ◌*◌, ◌≤◌, ◌<◌, length, IfOk};
ghost use Rattle.status.specs.declared.Status.TheVariants.{Success};
ghost use Rattle.status.specs.Reply.{give, Replied, told};
ghost use Rattle.usn_listing.specs.Listing.{listing};
ghost use Rattle.list_input.specs.Input.{ReadInto};

use program_io::fail;
use status::Status;
use std::io;
use std::io::Read;

// Reads until the input ends or `buf` is full, in as many reads as that takes, and says how many bytes came. Which bytes come no contract
// can say, so it says only that they lie in the buffer. The only error is that of a read: then bytes may have come before it, as many as
// nobody knows.
pub fn read_all(source: &mut impl Read, buf: &mut [u8]) -> io::Result<usize>
    ensures { IfOk result (λ n. n ≤ length buf.old) }
{
    let mut done = 0;
    while done < buf.len() {
        let n = source.read(&mut buf[done..])?;
        if n == 0 {
            return Ok(done);
        }
        done += n;
    }
    Ok(done)
}

// Lists the input whose first n bytes stand in `buf`: all of it, or as much as `buf` takes. The buffer has more bytes than a reply
// may have, so an input that fills it is too long, whatever follows.
fn list_read(text: &mut [u8], buf: &[u8], n: usize) -> Result<usize, Status>
    requires { (n ≤ length buf.now) × (65536 < length buf.now) × (64 + 2 * length buf.now ≤ length text.old) }
    ensures { (input : List ℕ) → ReadInto buf.now n input → Replied (give Success (listing input)) (told result) text.old text.new }
{
    usn_listing::list_reply(text, &buf[..n])
}

// Lists the reply that `source` holds. No contract can speak of what the system reads or writes: all that is decided about the bytes
// is `list_read`'s. A read or a write that fails is told on standard error.
pub fn list(rt: &(impl Print + Eprint), source: &mut impl Read)
    ensures { Unit {0} }
{
    let mut input = [0u8; 65537];
    let n = match read_all(source, &mut input) {
        Ok(n) => n,
        Err(error) => {
            fail(rt, b"read", error);
            return;
        }
    };
    let mut text = [0u8; 131138];
    // there is room for every listing
    let count = list_read(&mut text, &input, n).unwrap_or(0);
    if let Err(error) = rt.write_all(&text[..count]) {
        fail(rt, b"write", error);
    }
}
