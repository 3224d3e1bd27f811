// The command, on the text of standard input: docs/COMMANDS.md has its verbs.
// The exit status tells no more than that reading and writing went well, so the first word of the output tells a script what happened: `refused`, `misuse:`, or
// what was asked for.
#![tactic(auto)]

use std::io;

fn main(rt: HostRuntime) -> io::Result<()> {
    command_program::run_command(&rt)
}
