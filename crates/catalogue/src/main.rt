// Prints the catalogue for the bench: each kind with its code, then what each two kinds have in common.
#![tactic(auto)]

ghost use Rattle.kinds.specs.Catalogue.{shared};
ghost use Rattle.catalogue.specs.Answers.{answer};
ghost use Rattle.std.specs.Prelude.{◌≡◌};

use kinds::catalogue::Catalogue;
use kinds::kind::Kind;
use std::io;

// The word of the meet of two kinds, or `none`.
fn meet_word(first: Catalogue, second: Catalogue) -> &'static str
    ensures { result.now ≡ answer (shared first second) }
{
    first.meet(second).map_or("none", Catalogue::word)
}

fn print_codes(rt: &HostRuntime) -> io::Result<()> {
    println!(rt; "{:<17}{}", "kind", "code")?;
    for kind in Catalogue::all() {
        println!(rt; "{kind:<17}{:02X}", kind.code())?;
    }
    Ok(())
}

fn print_meets(rt: &HostRuntime, first: Catalogue) -> io::Result<()> {
    for second in Catalogue::all() {
        println!(rt; "{first:<17}{second:<17}{}", meet_word(first, second))?;
    }
    Ok(())
}

fn main(rt: HostRuntime) -> io::Result<()> {
    print_codes(&rt)?;
    println!(rt; "")?;
    println!(rt; "{:<17}{:<17}{}", "first", "second", "meet")?;
    for first in Catalogue::all() {
        print_meets(&rt, first)?;
    }
    Ok(())
}
