// The program at the scale: the agreed reading of the records on standard input, and its tree or its five numbers on standard output.
#![tactic(auto)]

use std::io;

fn main(rt: HostRuntime) -> io::Result<()> {
    // 1,025 lines, and one byte more, which shows that there is another
    let mut text = [0u8; 38951];
    // the lines of 2,048 records
    let mut out = [0u8; 77824];
    let n = input::read_full(&mut rt.stdin(), &mut text)?;
    let k = script::answer(&text[..n], &mut out);
    rt.write_all(&out[..k])
}
