// Cases tried by hand, of steps, class lists, and servers that come and go, each as an input of `stepshow`.
ghost use Rattle.std.specs.Prelude.{◌≤◌, length};

use std::io;
use std::io::Write;

// What an input prints, under its title.
fn print_case(rt: &impl Print, memory: &mut [u8], title: &[u8], input: &[u8]) -> io::Result<()>
    requires { length input.now ≤ 700 }
{
    let mut out = [0u8; 65536];
    let mut pairs = [0u8; 512];
    let n = show::show_all(memory, &mut pairs, input, &mut out);
    let mut output = io::writer(rt);
    output.write_all(title)?;
    output.write_all(&out[..n])
}

// "Two clients insert into one leaf read at version 0: the second prepare aborts with 1"
fn two_clients(rt: &impl Print, memory: &mut [u8]) -> io::Result<()> {
    print_case(
        rt,
        memory,
        b"two clients insert into one leaf\n",
        b"1 4 2\n0 0 0 0 0 0\n1 0 1 5 50 0\n2 0 0 0 0 0\n2 0 0 0 0 0\n2 0 0 0 0 0\n0 1 0 0 0 0\n1 1 1 6 60 0\n2 1 0 0 0 0\n2 1 0 0 0 0\n2 1 0 0 0 0\n3 0 0 0 0 0\n4 0 0 0 0 0\n3 1 0 0 0 0\n4 1 0 0 0 0\n",
    )
}

// "while the first is prepared elsewhere still due, with 2"
fn one_due(rt: &impl Print, memory: &mut [u8]) -> io::Result<()> {
    print_case(
        rt,
        memory,
        b"the first has a prepare due\n",
        b"2 4 2\n0 0 0 0 0 0\n1 0 1 5 50 0\n2 0 0 0 0 0\n2 0 0 0 0 0\n2 0 0 0 0 0\n1 0 6 0 0 1\n2 0 0 0 0 0\n2 0 0 0 0 0\n2 0 0 0 0 0\n2 0 0 0 0 0\n0 1 0 0 0 0\n1 1 1 6 60 0\n2 1 0 0 0 0\n2 1 0 0 0 0\n2 1 0 0 0 0\n3 0 0 0 0 0\n4 0 0 0 0 0\n3 1 0 0 0 0\n4 1 0 0 0 0\n4 0 0 0 0 1\n5 0 0 0 0 1\n5 0 0 0 0 0\n",
    )
}

// "Servers 0 and 9 refused by 2, 1 and 8 accepted"
fn sizes(rt: &impl Print, memory: &mut [u8]) -> io::Result<()> {
    print_case(rt, memory, b"0 servers\n", b"0 4 1\n0 0 0 0 0 0\n")?;
    print_case(rt, memory, b"9 servers\n", b"9 4 1\n0 0 0 0 0 0\n")?;
    print_case(rt, memory, b"1 server\n", b"1 4 1\n0 0 0 0 0 0\n")?;
    print_case(rt, memory, b"8 servers\n", b"8 4 1\n0 0 0 0 0 0\n")
}

// "of 16 clients, 15 accepted, 16 refused by 5"
fn clients(rt: &impl Print, memory: &mut [u8]) -> io::Result<()> {
    print_case(
        rt,
        memory,
        b"clients 15 and 16\n",
        b"1 4 16\n0 15 0 0 0 0\n0 16 0 0 0 0\n",
    )
}

// A transaction lists what it has entered, "from the given key upward"; "11: count outside 1 to 32"
fn lists(rt: &impl Print, memory: &mut [u8]) -> io::Result<()> {
    print_case(
        rt,
        memory,
        b"lists of two pairs, one and none, and counts 0 and 33\n",
        b"1 4 1\n0 0 0 0 0 0\n1 0 1 5 50 0\n2 0 0 0 0 0\n2 0 0 0 0 0\n2 0 0 0 0 0\n1 0 1 9 90 0\n2 0 0 0 0 0\n1 0 7 5 2 0\n2 0 0 0 0 0\n1 0 7 6 32 0\n2 0 0 0 0 0\n1 0 7 10 1 0\n2 0 0 0 0 0\n1 0 7 0 0 0\n1 0 7 0 33 0\n3 0 0 0 0 0\n4 0 0 0 0 0\n",
    )
}

// Server 2 is added to 0 and 1, which are removed then, 0 once the root has moved. "13: the server's state doesn't fit, or the
// last open one would close"; "14: removal with a slot still taken"; 9 while a transaction is prepared, and while it is decided
fn servers(rt: &impl Print, memory: &mut [u8]) -> io::Result<()> {
    print_case(
        rt,
        memory,
        b"server 2 is added, 1 and 0 are removed, and 1 is added again\n",
        b"2 4 1\n8 0 0 0 0 2\n9 0 0 0 0 1\n9 0 0 0 0 3\n10 0 0 0 0 2\n10 0 0 0 0 1\n9 0 0 0 0 0\n9 0 0 0 0 2\n10 0 0 0 0 0\n0 0 0 0 0 0\n1 0 6 0 0 2\n2 0 0 0 0 0\n2 0 0 0 0 0\n2 0 0 0 0 0\n2 0 0 0 0 0\n2 0 0 0 0 0\n2 0 0 0 0 0\n3 0 0 0 0 0\n4 0 0 0 0 0\n8 0 0 0 0 1\n4 0 0 0 0 2\n8 0 0 0 0 1\n5 0 0 0 0 0\n5 0 0 0 0 2\n10 0 0 0 0 0\n8 0 0 0 0 1\n",
    )
}

pub fn report(rt: &impl Print, memory: &mut [u8]) -> io::Result<()> {
    two_clients(rt, memory)?;
    one_due(rt, memory)?;
    sizes(rt, memory)?;
    clients(rt, memory)?;
    lists(rt, memory)?;
    servers(rt, memory)?;
    print_case(rt, memory, b"no line\n", b"")?;
    print_case(rt, memory, b"no newline at the end\n", b"1 4 1")
}
