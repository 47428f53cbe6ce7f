// `stepshow` as a function: input bytes in, output bytes out.
#![tactic(auto)]

ghost use Rattle.std.specs.Prelude.{◌≡◌, ◌+◌, ◌*◌, ◌≤◌, length, ◌==◌};
ghost use Rattle.io.specs.Counts.{IsPrefixLen};
ghost use Rattle.memory.specs.Word.{view};
ghost use Rattle.text.specs.Print.{bad_line, Printed};
ghost use Rattle.show.specs.Shown.{shown_in, zeros};
ghost use Rattle.show.specs.Feed.{awaits, ended, is_over, reader_of, with_byte, opened, stepped, first_line, later_line, line_ended, next_byte, finished, fed, Came, ReadsOn};

use std::io::Read;
use steps::outcome;
use steps::refusal::Refusal;
use steps::sizes::Sizes;
use steps::step::Step;
use text::print;
use text::read::{Line, Reader};

// What is awaited: the line of sizes, the line of the step with this number, or nothing more.
#[derive(Clone, Copy)]
pub enum Awaited {
    FirstLine,
    StepLine(u64),
    Nothing,
}

// How far the input has been read: what is awaited, and what has been read of the line, if it has a byte.
#[derive(Clone, Copy)]
pub struct Show {
    pub awaited: Awaited,
    pub line: Option<Reader>,
}

// The state after some input, and the index behind what was printed for it.
#[derive(Clone, Copy)]
pub struct Shown {
    pub show: Show,
    pub at: usize,
}

impl Show {
    // The sizes are awaited.
    pub fn start() -> Show
        ensures { result ≡ awaits Awaited.FirstLine }
    {
        Show::awaits(Awaited::FirstLine)
    }

    // Nothing of a line yet.
    fn awaits(awaited: Awaited) -> Show
        ensures { result ≡ awaits awaited }
    {
        Show {
            awaited,
            line: None,
        }
    }

    // Nothing more is awaited.
    fn ended() -> Show
        ensures { result ≡ ended }
    {
        Show::awaits(Awaited::Nothing)
    }

    // The line, as far as it has been read.
    fn reader(self) -> Reader
        ensures { result ≡ reader_of self }
    {
        self.line.unwrap_or(Reader::start())
    }

    // One byte of a line.
    fn byte(self, byte: u8) -> Show
        ensures { result ≡ with_byte self byte }
    {
        Show {
            awaited: self.awaited,
            line: Some(self.reader().next(byte)),
        }
    }
}

// Nothing is read after this.
fn bad(out: &mut [u8], at: usize) -> Shown
    requires { at + 4 ≤ length out.old }
    ensures show_value { result.show ≡ ended }
    ensures printed { Printed out.old at bad_line out.new result.at }
    ensures short { result.at ≤ at + 84 }
{
    Shown {
        show: Show::ended(),
        at: print::put_bad(out, at),
    }
}

// "Accepted sizes come first." "Sizes refused by 2 print `store refused 2` and end it." "allowed sizes beyond the program's
// buffer, prints `bad`"
fn opened(
    mem: &mut [u8],
    out: &mut [u8],
    at: usize,
    servers: u64,
    slots: u64,
    clients: u64,
) -> Shown
    requires { at + 84 ≤ length out.old }
    ensures came { Came (opened servers slots clients) mem.old out.old at result mem.new out.new }
    ensures short { result.at ≤ at + 84 }
{
    let sizes = Sizes {
        servers: servers as usize,
        slots: slots as usize,
        clients: clients as usize,
    };
    match engine::open::open(mem, sizes) {
        Ok(()) => Shown {
            show: Show::awaits(Awaited::StepLine(0)),
            at: print::put_store(out, at, servers, slots, clients),
        },
        Err(refusal) => match refusal {
            Refusal::BadSizes => Shown {
                show: Show::ended(),
                at: print::put_refused(out, at),
            },
            _ => bad(out, at),
        },
    }
}

// A step, and its line. `pairs` is the output that is lent to all steps, for what lists write; nothing of it is printed, and what stands there afterwards
// is left free, here and below.
fn stepped(
    mem: &mut [u8],
    pairs: &mut [u8; 512],
    out: &mut [u8],
    at: usize,
    number: u64,
    step: Step,
) -> Shown
    requires { at + 84 ≤ length out.old }
    ensures came { Came (stepped number step) mem.old out.old at result mem.new out.new }
    ensures short { result.at ≤ at + 84 }
{
    let line = outcome::Line::from(engine::step::step(mem, pairs, step));
    Shown {
        show: Show::awaits(Awaited::StepLine(number.wrapping_add(1))),
        at: print::put_step(out, at, number, line.outcome, line.a, line.b),
    }
}

// A line where the sizes were awaited.
fn first_line(mem: &mut [u8], out: &mut [u8], at: usize, line: Option<Line>) -> Shown
    requires { at + 84 ≤ length out.old }
    ensures came { Came (first_line line) mem.old out.old at result mem.new out.new }
    ensures short { result.at ≤ at + 84 }
{
    match line {
        Some(Line::Sizes(servers, slots, clients)) => {
            opened(mem, out, at, servers, slots, clients)
        }
        Some(Line::Step(_, _, _, _, _, _)) | None => bad(out, at),
    }
}

// A line where a step was awaited.
fn later_line(
    mem: &mut [u8],
    pairs: &mut [u8; 512],
    out: &mut [u8],
    at: usize,
    number: u64,
    line: Option<Line>,
) -> Shown
    requires { at + 84 ≤ length out.old }
    ensures came { Came (later_line number line) mem.old out.old at result mem.new out.new }
    ensures short { result.at ≤ at + 84 }
{
    match line {
        Some(Line::Step(kind, client, op, key, value, server)) => {
            let step = Step {
                kind,
                client,
                op,
                key,
                value,
                server,
            };
            stepped(mem, pairs, out, at, number, step)
        }
        Some(Line::Sizes(_, _, _)) | None => bad(out, at),
    }
}

// A line has ended.
fn ended(mem: &mut [u8], pairs: &mut [u8; 512], out: &mut [u8], at: usize, show: Show) -> Shown
    requires { at + 84 ≤ length out.old }
    ensures came { Came (line_ended show) mem.old out.old at result mem.new out.new }
    ensures short { result.at ≤ at + 84 }
{
    let line = show.reader().finish();
    match show.awaited {
        Awaited::FirstLine => first_line(mem, out, at, line),
        Awaited::StepLine(number) => later_line(mem, pairs, out, at, number, line),
        Awaited::Nothing => Shown {
            show: Show::ended(),
            at,
        },
    }
}

// One byte of the input: a newline ends the line.
fn byte(
    mem: &mut [u8],
    pairs: &mut [u8; 512],
    out: &mut [u8],
    at: usize,
    show: Show,
    byte: u8,
) -> Shown
    requires { at + 84 ≤ length out.old }
    ensures came { Came (next_byte show byte) mem.old out.old at result mem.new out.new }
    ensures short { result.at ≤ at + 84 }
{
    if is_ended(show) {
        return Shown { show, at };
    }
    if byte == b'\n' {
        return ended(mem, pairs, out, at, show);
    }
    Shown {
        show: show.byte(byte),
        at,
    }
}

// Some bytes of the input, in a buffer that holds what each may print.
pub fn feed(
    mem: &mut [u8],
    pairs: &mut [u8; 512],
    input: &[u8],
    out: &mut [u8],
    show: Show,
) -> Shown
    requires { 84 * length input.now ≤ length out.old }
    ensures came { Came (fed show input.now) mem.old out.old 0 result mem.new out.new }
    ensures short { result.at ≤ 84 * length input.now }
{
    let mut shown = Shown { show, at: 0 };
    for b in input {
        let at = shown.at;
        let state = shown.show;
        shown = byte(mem, pairs, out, at, state, *b);
    }
    shown
}

// The end of the input: a last line without a newline counts, and an empty input is bad.
pub fn finish(mem: &mut [u8], pairs: &mut [u8; 512], out: &mut [u8], at: usize, show: Show) -> Shown
    requires { at + 84 ≤ length out.old }
    ensures came { Came (finished show) mem.old out.old at result mem.new out.new }
    ensures short { result.at ≤ at + 84 }
{
    match (show.awaited, show.line) {
        (Awaited::Nothing, _) => Shown { show, at },
        (_, Some(_)) => Shown {
            show: Show::ended(),
            at: ended(mem, pairs, out, at, show).at,
        },
        (Awaited::FirstLine, None) => bad(out, at),
        (Awaited::StepLine(_), None) => Shown {
            show: Show::ended(),
            at,
        },
    }
}

// Memory for the largest store: 8 servers, 1,024 slots, 16 clients.
pub fn fresh() -> [u8; 4202688]
    ensures { result ≡ zeros 4202688 }
{
    [0; 4202688]
}

// The next bytes of an input, or its end. A read that fails counts as the end.
pub fn turn<R: Read>(
    mem: &mut [u8],
    pairs: &mut [u8; 512],
    input: &mut R,
    out: &mut [u8],
    show: Show,
) -> Shown
    requires { 43008 ≤ length out.old }
    ensures reads_on { ReadsOn 512 show mem.old out.old result mem.new out.new }
    ensures counts { IsPrefixLen result.at out.new }
{
    let mut bytes = [0u8; 512];
    match input.read(&mut bytes) {
        Ok(0) | Err(_) => finish(mem, pairs, out, 0, show),
        Ok(n) => feed(mem, pairs, &bytes[..n], out, show),
    }
}

pub fn is_ended(show: Show) -> bool
    ensures { result ≡ is_over show }
{
    matches!(show.awaited, Awaited::Nothing)
}

// A whole input.
pub fn show_all(mem: &mut [u8], pairs: &mut [u8; 512], input: &[u8], out: &mut [u8]) -> usize
    requires { 84 * length input.now + 84 ≤ length out.old }
    ensures printed { Printed out.old 0 (shown_in mem.old input.now).printed out.new result }
    ensures words { view mem.new ≡ (shown_in mem.old input.now).words }
    ensures counts { IsPrefixLen result out.new }
{
    let fed = feed(mem, pairs, input, out, Show::start());
    let at = fed.at;
    finish(mem, pairs, out, at, fed.show).at
}
