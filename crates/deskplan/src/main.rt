// deskplan: reads a job file on standard input and prints the plan. The first 20,496 bytes decide any longer file, and
// no more are read. A refused file is no failure: its listing is one line. What cannot be read or written is told on
// standard error.
#![tactic(auto)]

ghost use Rattle.std.specs.Prelude.{◌≤◌, length, IfOk};

use deskplan_text::write_listing;
use std::io;
use std::io::Read;

// Reads until the file is full or the input ends: how many bytes came. No index loop, as a read brings as many bytes as
// it will; and no `io::copy`, which reads less at a time (8,192 bytes) and so would cut a longer packet.
fn read_file(rt: &HostRuntime, file: &mut [u8]) -> io::Result<usize>
    requires { length file.old ≤ 20496 }
    ensures { IfOk result (λ n. n ≤ length file.new) }
{
    let mut input = rt.stdin();
    let mut done = 0;
    while done < file.len() {
        match input.read(&mut file[done..])? {
            0 => return Ok(done),
            n => done += n,
        }
    }
    Ok(done)
}

// The listing by way of the lent text.
fn print_listing(rt: &impl Print, file: &[u8], text: &mut [u8]) -> io::Result<()> {
    let n = write_listing(file, text);
    rt.write_all(&text[..n])
}

fn main(rt: HostRuntime) -> io::Result<()> {
    let mut file = [0u8; 20496];
    let Ok(n) = read_file(&rt, &mut file) else {
        return eprintln!(rt; "deskplan: the job file cannot be read");
    };
    let mut text = [0u8; 131072];
    if print_listing(&rt, &file[..n], &mut text).is_err() {
        return eprintln!(rt; "deskplan: the listing cannot be written");
    }
    Ok(())
}
