// What the programs with cases for the gate share: rows of nine numbers, and what they print.
#![tactic(auto)]

ghost use Rattle.std.specs.Prelude.{◌≡◌, ◌%◌, ◌≤◌, ◌^◌, min, length};
ghost use Rattle.case_rows.specs.Rows.{number_in, digest_from};

use program_io::{argument, fail};
use status::Status;
use std::env::Env;
use std::rt::Files;

// The bytes of a row.
pub const ROW: usize = 72;

// Number i of a row; 0 where there is none: a row's numbers are 0 where nothing is said, so none and 0 mean the same.
pub fn number(row: &[u8], i: usize) -> u64
    requires { i ≤ 8 }
    ensures { result ≡ number_in row.now i }
{
    let at = 8 * i;
    if row.len() < at + 8 {
        return 0;
    }
    le::get(row, at, 8)
}

// The low 32 bits of number i.
pub fn word(row: &[u8], i: usize) -> u32
    requires { i ≤ 8 }
    ensures { result ≡ number_in row.now i % 2 ^ 32 }
{
    (number(row, i) % 0x1_0000_0000) as u32
}

// Number i as a length of at most n.
pub fn size(row: &[u8], i: usize, n: usize) -> usize
    requires { i ≤ 8 }
    ensures { (result ≡ min n (number_in row.now i)) × (result ≤ n) }
{
    let x = number(row, i);
    if n as u64 <= x {
        return n;
    }
    x as usize
}

// A number that tells one run of bytes from another.
#[tactic(auto, using(crate::proofs::Digests::digest_again, crate::proofs::Digests::digest_end))]
pub fn digest(s: &[u8]) -> u64
    ensures { result ≡ digest_from 1 s.now }
{
    let mut d: u64 = 1;
    for byte in s {
        d = d % 4294967291 * 31 + *byte as u64;
    }
    d % 4294967291
}

// Prints some text. No contract can speak of what the system writes; the same holds of the functions below. Where a write fails, nothing
// more is done about it.
pub fn print(rt: &impl Print, text: &[u8])
    ensures { Unit {0} }
{
    let _ = rt.write_all(text);
}

// Prints a space and a number in decimal.
pub fn print_number(rt: &impl Print, value: u64)
    ensures { Unit {0} }
{
    let _ = print!(rt; " {value}");
}

// Prints a space and a status's number in hex.
pub fn print_status(rt: &impl Print, s: Status)
    ensures { Unit {0} }
{
    let number = u32::from(s);
    let _ = print!(rt; " {number:08x}");
}

// Prints the name of argument i, and reads the file of that name; says how many bytes it has. It says 0 where the file cannot be read, and
// where it cannot be opened that is told on standard error.
pub fn read_argument(rt: &(impl Env + Files + Print + Eprint), i: usize, buf: &mut [u8]) -> usize
    ensures { result ≤ length buf.old }
{
    let mut path = [0u8; 4096];
    let n = argument(rt, i, &mut path);
    print(rt, b"# ");
    print(rt, &path[..n]);
    print(rt, b"\n");
    let mut file = match program_io::open(rt, &path[..n]) {
        Ok(file) => file,
        Err(error) => {
            fail(rt, &path[..n], error);
            return 0;
        }
    };
    list_input::read_all(&mut file, buf).unwrap_or(0)
}
