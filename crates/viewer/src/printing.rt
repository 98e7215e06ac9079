// A case, the view and what is left of the scratch, as a line. What is printed no contract can say; what is lent stays as it was.
ghost use Rattle.std.specs.Prelude.{◌≡◌};

use std::io;
use std::io::Write;

// A space and a number for each byte.
fn print_bytes(rt: HostRuntime, s: &[u8]) -> io::Result<()> {
    if s.is_empty() {
        rt.stdout().write_all(b" empty")?;
    }
    for x in s {
        print!(rt; " {x}")?;
    }
    Ok(())
}

pub fn print_case(rt: HostRuntime, b: u64, what: &[u8]) -> io::Result<()>
    ensures what { what.exit.now ≡ what.entry.now }
{
    print!(rt; "block {b}, ")?;
    rt.stdout().write_all(what)
}

pub fn print_view(rt: HostRuntime, number: u8, view: &[u8]) -> io::Result<()>
    ensures view { view.exit.now ≡ view.entry.now }
{
    print!(rt; ": number {number}, view")?;
    print_bytes(rt, view)
}

pub fn print_scratch(rt: HostRuntime, scratch: &[u8]) -> io::Result<()>
    ensures scratch { scratch.exit.now ≡ scratch.entry.now }
{
    rt.stdout().write_all(b", scratch")?;
    print_bytes(rt, scratch)?;
    rt.stdout().write_all(b"\n")
}
