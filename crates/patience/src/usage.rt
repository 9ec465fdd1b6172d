//! How the program is called, for words that name no job. It goes to standard error, and no claim speaks of it.
use std::io;

/// Prints how the program is called, one line a command, and where the manual is.
pub fn print_usage(rt: &HostRuntime) -> io::Result<()> {
    eprintln!(rt; "usage: patience solve RULES DEAL [OPTIONS]")?;
    eprintln!(rt; "       patience solve RULES --seed N [OPTIONS]")?;
    eprintln!(rt; "       patience deal RULES --seed N")?;
    eprintln!(rt; "       patience replay RULES DEAL LINE")?;
    eprintln!(rt; "       patience rules RULES")?;
    eprintln!(rt;
        "OPTIONS: [--nodes N] [--cache N] [--memo linked|lru] [--narrow N] [--way foundations|suits|both]"
    )?;
    eprintln!(rt;
        "RULES, DEAL and LINE are names of files. The manual is docs/FORMATS.md in the program's repository."
    )
}
